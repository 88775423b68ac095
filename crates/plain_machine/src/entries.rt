//! The entries of a directory.
ghost use Rattle.std.specs.Prelude.{◌≡◌, ◌++◌, [], ◌∷◌, Bool, IfOk};
ghost use Rattle.std.specs.Option.{option_copied};
ghost use Rattle.history_machine.specs.Machine as machine;

use crate::replies::stat_of;
use fs_types::{Name, Sequence, Stat, is_after};
use memory_trees::Tree;
use std::alloc::{AllocError, Global};

/// The names of a path, and one more.
fn names_below(alloc: Global, path: &[Name], name: &Name) -> Result<Vec<Name>, AllocError>
    ensures { IfOk result (λ names. names.items ≡ path.now ++ name.now ∷ []) }
{
    let mut names = Vec::new(alloc);
    for above in path {
        names.push(above.clone()?)?;
    }
    names.push(name.clone()?)?;
    Ok(names)
}

/// A name in a directory, with what stands there.
fn entry_of(
    alloc: Global,
    tree: &Tree,
    path: &[Name],
    name: &Name,
) -> Result<(Name, Stat), AllocError>
    ensures { IfOk result (λ entry. (is_directory : Bool) → entry ≡ machine.with_stat tree.now path.now (name.now, is_directory)) }
{
    let below = names_below(alloc, path, name)?;
    let stat = stat_of(tree, below.as_slice());
    Ok((name.clone()?, stat))
}

/// The first `most` names of a directory that come after one, or of all where none is given, each with
/// what stands there.
pub fn entries_after(
    alloc: Global,
    tree: &Tree,
    path: &[Name],
    from: Option<&Name>,
    most: u64,
) -> Result<Sequence<(Name, Stat)>, AllocError>
    ensures { IfOk result (λ entries. entries ≡ machine.entries_of tree.now path.now (option_copied from.entry) most) }
{
    let names = tree.children(alloc, path)?;
    let mut entries = Sequence::new(alloc);
    let mut left = most;
    for (name, _) in names.as_slice() {
        if left > 0 && is_after(from, name.as_bytes()) {
            entries.push(entry_of(alloc, tree, path, name)?)?;
            left -= 1;
        }
    }
    Ok(entries)
}
