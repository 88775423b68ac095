//! Names below a directory, and paths made of two.
ghost use Rattle.std.specs.Prelude.{◌≡◌, ◌+◌, [], ◌∷◌, ◌++◌, true, false, length, is_some, IfOk, OnOk};
ghost use Rattle.std.specs.Option.{option_copied};
ghost use Rattle.std.specs.BTreeMap.{is_at};
ghost use Rattle.fs_types.specs.Names.{is_path, path_cmp};
ghost use Rattle.plain_trees.specs.Contents.{beneath};
ghost use Rattle.memory_trees.specs.Paths.{is_deep, only_name, path_moved};

use fs_types::{MAX_NAMES, Name, Path};
use plain_trees::{is_beginning, is_path_in, rest_of};
use std::alloc::{AllocError, Global};

/// The name of an entry right in a directory.
pub fn child_name<'a>(directory: &[Name], path: &'a [Name]) -> Option<&'a Name>
    ensures { option_copied result ≡ only_name (beneath directory.now path.now) }
{
    match rest_of(directory, path) {
        Some([name]) => Some(name),
        _ => None,
    }
}

/// Whether an entry stands right in a directory.
pub fn is_child(directory: &[Name], path: &[Name]) -> bool
    ensures { result ≡ is_some (only_name (beneath directory.now path.now)) }
{
    child_name(directory, path).is_some()
}

/// Whether a path is that of a name in a directory.
pub fn is_child_of(directory: &[Name], name: &Name, path: &[Name]) -> bool
    ensures { result ≡ is_at (path_cmp (directory.now ++ name.now ∷ [])) path.now }
{
    is_path_in(directory, name, path)
}

/// Whether a path at `old` or below would have more than 16 names, where `old` becomes `depth` names.
pub fn is_deep(old: &[Name], depth: usize, path: &[Name]) -> bool
    ensures { result ≡ is_deep old.now depth path.now }
{
    match rest_of(old, path) {
        Some(rest) => depth > MAX_NAMES || rest.len() > MAX_NAMES - depth,
        None => false,
    }
}

/// The path of the names of two others.
fn join_names(alloc: Global, front: &[Name], rest: &[Name]) -> Result<Path, AllocError>
    requires { is_path (front.now ++ rest.now) ≡ true }
    ensures { IfOk result (λ path. path ≡ front.now ++ rest.now) }
{
    let mut names = Vec::new(alloc);
    add_names(&mut names, front)?;
    add_names(&mut names, rest)?;
    Ok(Path::from_names(names))
}

fn add_names(names: &mut Vec<Name>, more: &[Name]) -> Result<(), AllocError>
    ensures { OnOk result (names.new.items ≡ names.old.items ++ more.now) }
{
    for name in more {
        names.push(name.clone()?)?;
    }
    Ok(())
}

/// Where an entry stands after a move; none where another takes its place.
pub fn moved_path(
    alloc: Global,
    old: &[Name],
    new: &[Name],
    path: &Path,
) -> Result<Option<Path>, AllocError>
    requires lawful { is_path new.now ≡ true }
    requires shallow { is_deep old.now (length new.now) path.now ≡ false }
    ensures { IfOk result (λ to. to ≡ path_moved old.now new.now path.now) }
{
    match rest_of(old, path.names()) {
        Some(rest) => Ok(Some(join_names(alloc, new, rest)?)),
        None if is_beginning(new, path.names()) => Ok(None),
        None => Ok(Some(path.clone()?)),
    }
}
