//! How what stands in a tree looks, so that what moved is found. Two things that differ may look the same.
ghost use Rattle.std.specs.Prelude.{◌≡◌, None, drop, fold, IfOk, IfErr};
ghost use Rattle.std.specs.Int.{to_le_bytes, w64};
ghost use Rattle.history_machine.specs.History.{view_refusal};
ghost use Rattle.history_machine.specs.Machine.{view_tree};
ghost use Rattle.inquiries.specs.Items.{IsItemOf};
ghost use Rattle.inquiries.specs.Readings.{shown, IsUnchanged, Meets};
ghost use Rattle.copies.specs.Shapes.{shape_at, with_byte, with_bytes, with_item, with_name, with_number, with_stat};

use flash_model::Flash;
use fs_types::{Fault, MAX_NAMES, Name, Path, Stat, View};
use inquiries::{Item, list_below, read_item};
use std::alloc::Global;
use undofs::Fs;

/// By what a shape is multiplied for each byte, and with what it begins (the hash FNV-1a of 64 bits).
const FACTOR: u64 = 0x0000_0100_0000_01b3;

const START: u64 = 0xcbf2_9ce4_8422_2325;

/// How an item of the tree of a view looks: a file by its bytes, a directory by the names, kinds and sizes of what
/// stands below it.
pub(crate) fn shape_of<F: Flash>(
    alloc: Global,
    fs: &mut Fs<'_, F>,
    view: &View,
    item: &Item,
) -> Result<u64, Fault>
    requires view { view_refusal (shown fs.old).history view.now ≡ None }
    requires there { IsItemOf (view_tree (shown fs.old) view.now) item.now }
    ensures same { IsUnchanged fs.old fs.new }
    ensures ok { IfOk result (λ shape. shape ≡ shape_at (view_tree (shown fs.old) view.now) item.now.path) }
    ensures err { IfErr result (Meets (F.device fs.old.flash.now) (F.device fs.new.flash.now)) }
{
    match item.stat {
        Stat::Dir(_) => {
            let below = list_below(alloc, fs, view, &item.path, MAX_NAMES)?;
            Ok(with_items(with_byte(START, b'/'), item.path.names().len(), &below))
        }
        Stat::File(_) => {
            let bytes = read_item(alloc, fs, view, item)?;
            Ok(with_bytes(START, bytes.as_slice()))
        }
    }
}

/// A shape with items more.
fn with_items(shape: u64, above: usize, items: &[Item]) -> u64
    ensures { result ≡ fold (with_item above) shape items.now }
{
    let mut shape = shape;
    for item in items {
        shape = with_item(shape, above, item);
    }
    shape
}

/// A shape with an item more: its names after so many, its kind and its size.
fn with_item(shape: u64, above: usize, item: &Item) -> u64
    ensures { result ≡ with_item above shape item.now }
{
    with_stat(with_names(shape, names_after(&item.path, above)), item.stat)
}

fn with_names(shape: u64, names: &[Name]) -> u64
    ensures { result ≡ fold with_name shape names.now }
{
    let mut shape = shape;
    for name in names {
        shape = with_bytes(with_byte(shape, b'/'), name.as_bytes());
    }
    shape
}

/// The names of a path after so many.
fn names_after(path: &Path, above: usize) -> &[Name]
    ensures { result.now ≡ drop above path.now }
{
    let names = path.names();
    &names[above.min(names.len())..]
}

fn with_stat(shape: u64, stat: Stat) -> u64
    ensures { result ≡ with_stat shape stat }
{
    match stat {
        Stat::Dir(entries) => with_number(with_byte(shape, b'd'), entries),
        Stat::File(bytes) => with_number(with_byte(shape, b'f'), bytes),
    }
}

fn with_number(shape: u64, number: u64) -> u64
    ensures { result ≡ with_number shape number }
{
    with_bytes(shape, &number.to_le_bytes())
}

fn with_bytes(shape: u64, bytes: &[u8]) -> u64
    ensures { result ≡ with_bytes shape bytes.now }
{
    let mut shape = shape;
    for byte in bytes {
        shape = with_byte(shape, *byte);
    }
    shape
}

#[tactic(auto, unfolding(crate::specs::Shapes::with_byte))]
fn with_byte(shape: u64, byte: u8) -> u64
    ensures { result ≡ with_byte shape byte }
{
    (shape ^ byte as u64).wrapping_mul(FACTOR)
}
