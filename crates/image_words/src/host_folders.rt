//! What stands in a directory of a view is made in a folder of the host.
ghost use Rattle.std.specs.Prelude.{◌≡◌, ◌++◌, ◌∷◌, [], None, IfOk, OnOk, IfErr, List, All, map, drop, length, codes, string_bytes};
ghost use Rattle.std.specs.List.{flat_map};
ghost use Rattle.std.specs.FinMap.{get};
ghost use Rattle.fs_types.specs.Names.{Name};
ghost use Rattle.history_machine.specs.History.{view_refusal};
ghost use Rattle.history_machine.specs.Machine.{view_tree};
ghost use Rattle.host_interface.specs.Files.{new_name};
ghost use Rattle.host_interface.specs.Folders.{Made, KeepsOutside};
ghost use Rattle.plain_trees.specs.Trees.{bytes_of_file};
ghost use Rattle.inquiries.specs.Items.{IsFileOf, IsItemOf};
ghost use Rattle.inquiries.specs.Readings.{shown, IsUnchanged};
ghost use Rattle.image_words.specs.PathCopies.{way_of, made_of, Unmade, IsHostFailure};

use flash_model::Flash;
use fs_types::{Name, Path, Stat, View};
use host_interface::{FileFault, Folders};
use image_jobs::Failure;
use inquiries::{Item, read_item};
use script_runs::Refusal;
use std::alloc::{AllocError, Global};
use undofs::Fs;

/// Makes what stands at paths of a view in a folder of the host, which is begun, in order. A path leads from
/// the directory that stands at so many of its names.
pub(crate) fn make_all<F: Flash, H: Folders>(
    alloc: Global,
    fs: &mut Fs<'_, F>,
    view: &View,
    skipped: usize,
    items: &[Item],
    files: &mut H,
    name: &str,
) -> Result<(), Failure>
    requires view { view_refusal (shown fs.old).history view.now ≡ None }
    requires there { All (IsItemOf (view_tree (shown fs.old) view.now)) items.now }
    ensures same { IsUnchanged fs.old fs.new }
    ensures ok { OnOk result ((all : List Made) → H.made files.old name.now all → H.made files.new name.now (all ++ map (made_of (view_tree (shown fs.old) view.now) skipped) items.now)) }
    ensures others { KeepsOutside (new_name name.now) (H.held files.old) (H.held files.new) }
    ensures err { IfErr result (Unmade (F.device fs.old.flash.now) (F.device fs.new.flash.now)) }
{
    for item in items {
        match make_one(alloc, fs, view, skipped, item, files, name) {
            Ok(()) => {}
            Err(failure) => return Err(failure),
        }
    }
    Ok(())
}

/// Makes what stands at a path of a view in a folder of the host, which is begun.
fn make_one<F: Flash, H: Folders>(
    alloc: Global,
    fs: &mut Fs<'_, F>,
    view: &View,
    skipped: usize,
    item: &Item,
    files: &mut H,
    name: &str,
) -> Result<(), Failure>
    requires view { view_refusal (shown fs.old).history view.now ≡ None }
    requires there { IsItemOf (view_tree (shown fs.old) view.now) item.now }
    ensures same { IsUnchanged fs.old fs.new }
    ensures ok { OnOk result ((all : List Made) → H.made files.old name.now all → H.made files.new name.now (all ++ made_of (view_tree (shown fs.old) view.now) skipped item.now ∷ [])) }
    ensures others { KeepsOutside (new_name name.now) (H.held files.old) (H.held files.new) }
    ensures err { IfErr result (Unmade (F.device fs.old.flash.now) (F.device fs.new.flash.now)) }
{
    let way = match way_of(alloc, skipped, &item.path) {
        Ok(way) => way,
        Err(failure) => return Err(failure),
    };
    match item.stat {
        Stat::Dir(_) => make_folder(files, alloc, name, way.as_str()),
        Stat::File(_) => copy_file(alloc, fs, view, item, files, name, way.as_str()),
    }
}

/// Makes a file that was listed in a view in a folder of the host, which is begun.
fn copy_file<F: Flash, H: Folders>(
    alloc: Global,
    fs: &mut Fs<'_, F>,
    view: &View,
    item: &Item,
    files: &mut H,
    name: &str,
    way: &str,
) -> Result<(), Failure>
    requires there { IsItemOf (view_tree (shown fs.old) view.now) item.now }
    requires file { IsFileOf (shown fs.old) view.now item.now.path }
    ensures same { IsUnchanged fs.old fs.new }
    ensures ok { OnOk result ((all : List Made) → H.made files.old name.now all → H.made files.new name.now (all ++ Made.File way.now (bytes_of_file (view_tree (shown fs.old) view.now) item.now.path) ∷ [])) }
    ensures others { KeepsOutside (new_name name.now) (H.held files.old) (H.held files.new) }
    ensures err { IfErr result (Unmade (F.device fs.old.flash.now) (F.device fs.new.flash.now)) }
{
    let bytes = match read_item(alloc, fs, view, item) {
        Ok(bytes) => bytes,
        Err(fault) => return Err(Failure::of_refusal(Refusal::Fault(fault))),
    };
    make_file(files, alloc, name, way, bytes.as_slice())
}

/// Makes a folder in one of the host, which is begun.
fn make_folder<H: Folders>(
    files: &mut H,
    alloc: Global,
    name: &str,
    way: &str,
) -> Result<(), Failure>
    ensures ok { OnOk result ((all : List Made) → H.made files.old name.now all → H.made files.new name.now (all ++ Made.Folder way.now ∷ [])) }
    ensures others { KeepsOutside (new_name name.now) (H.held files.old) (H.held files.new) }
    ensures err { IfErr result IsHostFailure }
{
    match files.make_folder(alloc, name, way) {
        Ok(()) => Ok(()),
        Err(fault) => Err(unmade(fault)),
    }
}

/// Makes a file in a folder of the host, which is begun.
fn make_file<H: Folders>(
    files: &mut H,
    alloc: Global,
    name: &str,
    way: &str,
    bytes: &[u8],
) -> Result<(), Failure>
    ensures ok { OnOk result ((all : List Made) → H.made files.old name.now all → H.made files.new name.now (all ++ Made.File way.now bytes.now ∷ [])) }
    ensures others { KeepsOutside (new_name name.now) (H.held files.old) (H.held files.new) }
    ensures err { IfErr result IsHostFailure }
{
    match files.make_file(alloc, name, way, bytes) {
        Ok(()) => Ok(()),
        Err(fault) => Err(unmade(fault)),
    }
}

/// By why the host did not make something.
pub(crate) fn unmade(fault: FileFault) -> Failure
    ensures { IsHostFailure result }
{
    match fault {
        FileFault::Memory => Failure::Memory,
        _ => Failure::CannotWrite,
    }
}

/// The way to a path from the directory that stands at so many of its names. Refused where it is not UTF-8,
/// since the host takes no other name.
fn way_of(alloc: Global, skipped: usize, path: &Path) -> Result<String, Failure>
    ensures ok { IfOk result (λ way. string_bytes way ≡ way_of skipped path.now) }
    ensures err { IfErr result IsHostFailure }
{
    match way_bytes(alloc, skipped, path.names()) {
        Ok(bytes) => way_text(bytes),
        Err(_) => Err(Failure::Memory),
    }
}

/// A way as text.
fn way_text(bytes: Vec<u8>) -> Result<String, Failure>
    ensures ok { IfOk result (λ way. string_bytes way ≡ bytes.items) }
    ensures err { IfErr result IsHostFailure }
{
    match String::from_utf8(bytes) {
        Ok(way) => Ok(way),
        Err(_) => Err(Failure::CannotWrite),
    }
}

/// The names after the first so many, with a slash before each.
fn way_bytes(alloc: Global, skipped: usize, names: &[Name]) -> Result<Vec<u8>, AllocError>
    ensures { IfOk result (λ bytes. bytes.items ≡ flat_map (λ (name : Name). codes "/" ++ name) (drop skipped names.now)) }
{
    let mut bytes = Vec::new(alloc);
    for name in names_after(skipped, names) {
        bytes.push(b'/')?;
        bytes.extend_from_slice(name.as_bytes())?;
    }
    Ok(bytes)
}

/// The names after the first so many.
fn names_after(skipped: usize, names: &[Name]) -> &[Name]
    ensures { result.now ≡ drop skipped names.now }
{
    if skipped <= names.len() {
        &names[skipped..]
    } else {
        &[]
    }
}
