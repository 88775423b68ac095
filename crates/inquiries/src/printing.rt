//! What is printed of trees.
ghost use Rattle.std.specs.Prelude.{◌≡◌, ◌++◌, codes, decimal, OnOk, IfOk};
ghost use Rattle.std.specs.List.{flat_map};
ghost use Rattle.inquiries.specs.Printed.{path_text, stat_mark, item_line, size_text, word_text};
ghost use Rattle.inquiries.specs.Differences.{side_mark, changed_line};
ghost use Rattle.inquiries.specs.PathHistories.{state_text, view_text};
ghost use Rattle.inquiries.specs.Versions.{alone_text, kept_text};

use crate::items::Item;
use fs_types::{Name, Path, Stat, View};
use script::{print_name, print_number};
use std::alloc::{AllocError, Global};
use undofs::{TreeSize, VersionSpace};

/// The lines of all that stands in a tree.
pub(crate) fn lines_of(alloc: Global, items: &[Item]) -> Result<Vec<u8>, AllocError>
    ensures { IfOk result (λ bytes. bytes.items ≡ flat_map item_line items.now) }
{
    let mut out = Vec::new(alloc);
    for item in items {
        print_item(&mut out, item)?;
    }
    Ok(out)
}

/// Which of two trees.
#[derive(Clone, Copy, Debug, PartialEq, Eq)]
pub(crate) enum Side {
    Old,
    New,
}

/// Appends the line of what stands in one of two trees alone, with `-` before it for the old one and
/// `+` for the new one.
pub(crate) fn print_marked(out: &mut Vec<u8>, side: Side, item: &Item) -> Result<(), AllocError>
    ensures { OnOk result (out.new.items ≡ out.old.items ++ (side_mark side ++ item_line item.now)) }
{
    match side {
        Side::Old => out.extend_from_slice(b"- ")?,
        Side::New => out.extend_from_slice(b"+ ")?,
    }
    print_item(out, item)
}

/// Appends the line of a file with other bytes.
pub(crate) fn print_change(out: &mut Vec<u8>, path: &Path) -> Result<(), AllocError>
    ensures { OnOk result (out.new.items ≡ out.old.items ++ changed_line path.now) }
{
    out.extend_from_slice(b"~ ")?;
    print_path(out, path.names())?;
    out.push(b'\n')?;
    Ok(())
}

/// Appends how many directories and files stand in a tree, and how many bytes the files have.
pub(crate) fn print_size(out: &mut Vec<u8>, size: TreeSize) -> Result<(), AllocError>
    ensures { OnOk result (out.new.items ≡ out.old.items ++ size_text size) }
{
    out.extend_from_slice(b" entries ")?;
    print_count(out, size.entries)?;
    out.extend_from_slice(b" bytes ")?;
    print_count(out, size.bytes)
}

/// Appends what a version keeps.
#[tactic(auto, unfolding(crate::specs::Versions::kept_text))]
pub(crate) fn print_kept(out: &mut Vec<u8>, kept: VersionSpace) -> Result<(), AllocError>
    ensures { OnOk result (out.new.items ≡ out.old.items ++ kept_text kept) }
{
    if let Some(frees) = kept.frees {
        out.extend_from_slice(b" frees ")?;
        print_number(out, frees)?;
    }
    print_alone(out, kept.alone)
}

/// Appends how many blocks nothing else keeps.
pub(crate) fn print_alone(out: &mut Vec<u8>, alone: u64) -> Result<(), AllocError>
    ensures { OnOk result (out.new.items ≡ out.old.items ++ alone_text alone) }
{
    out.extend_from_slice(b" alone ")?;
    print_number(out, alone)
}

/// Appends a version by its serial, with `*` before the present one, or a checkpoint by its name.
pub(crate) fn print_view(out: &mut Vec<u8>, view: &View, is_present: bool) -> Result<(), AllocError>
    ensures { OnOk result (out.new.items ≡ out.old.items ++ view_text is_present view.now) }
{
    match view {
        View::Present => Ok(()),
        View::Serial(serial) => {
            if is_present {
                out.push(b'*')?;
            }
            print_number(out, *serial)
        }
        View::Checkpoint(name) => {
            out.push(b'=')?;
            print_name(out, name.as_bytes())
        }
    }
}

/// Appends what stands somewhere, and ends the line.
pub(crate) fn print_state(out: &mut Vec<u8>, there: Option<Stat>) -> Result<(), AllocError>
    ensures { OnOk result (out.new.items ≡ out.old.items ++ state_text there) }
{
    match there {
        None => out.extend_from_slice(b" none\n"),
        Some(Stat::Dir(entries)) => print_counted(out, b" dir ", entries),
        Some(Stat::File(bytes)) => print_counted(out, b" file ", bytes),
    }
}

/// Appends a text, a number and the end of the line.
fn print_counted(out: &mut Vec<u8>, text: &[u8], number: u64) -> Result<(), AllocError>
    ensures { OnOk result (out.new.items ≡ out.old.items ++ (text.now ++ decimal number ++ codes "\n")) }
{
    out.extend_from_slice(text)?;
    print_number(out, number)?;
    out.push(b'\n')?;
    Ok(())
}

/// Appends a number, or that it is past the greatest one.
fn print_count(out: &mut Vec<u8>, count: Option<u64>) -> Result<(), AllocError>
    ensures { OnOk result (out.new.items ≡ out.old.items ++ word_text count) }
{
    match count {
        Some(count) => print_number(out, count),
        None => out.extend_from_slice(b">18446744073709551615"),
    }
}

/// Appends the line of what stands at a path.
fn print_item(out: &mut Vec<u8>, item: &Item) -> Result<(), AllocError>
    ensures { OnOk result (out.new.items ≡ out.old.items ++ item_line item.now) }
{
    print_path(out, item.path.names())?;
    print_mark(out, item.stat)?;
    out.push(b'\n')?;
    Ok(())
}

/// Appends the path of these names, with a `/` before each.
pub fn print_path(out: &mut Vec<u8>, names: &[Name]) -> Result<(), AllocError>
    ensures { OnOk result (out.new.items ≡ out.old.items ++ path_text names.now) }
{
    for name in names {
        out.push(b'/')?;
        print_name(out, name.as_bytes())?;
    }
    Ok(())
}

/// Appends `/` for a directory, and its length for a file.
fn print_mark(out: &mut Vec<u8>, stat: Stat) -> Result<(), AllocError>
    ensures { OnOk result (out.new.items ≡ out.old.items ++ stat_mark stat) }
{
    match stat {
        Stat::Dir(_) => {
            out.push(b'/')?;
            Ok(())
        }
        Stat::File(length) => {
            out.push(b' ')?;
            print_number(out, length)
        }
    }
}
