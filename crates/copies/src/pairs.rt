//! Pairs of what is gone and what is new, that look the same.
ghost use Rattle.std.specs.Prelude.{◌≡◌, ◌++◌, IfOk, OnOk};
ghost use Rattle.std.specs.BTreeMap.{get};
ghost use Rattle.std.specs.Ordering.{nat_cmp};
ghost use Rattle.copies.specs.Pairs.{pair_of, Indexes, Pairs};

use fs_types::Path;
use std::alloc::{AllocError, Global};
use std::collections::BTreeMap;

/// How what stands at a path looks. Two things that differ may look the same.
#[derive(Debug, Drop)]
pub(crate) struct Look {
    pub(crate) path: Path,
    pub(crate) shape: u64,
}

/// The pairs of what is gone and what is new that look the same, in the order of what is new. Of what is gone and
/// looks the same only the last is found.
pub(crate) fn pair_looks(
    alloc: Global,
    gone: &[Look],
    come: &[Look],
) -> Result<Vec<(Path, Path)>, AllocError>
    ensures { IfOk result (λ moves. Pairs gone.now come.now moves.items) }
{
    let last = index_looks(alloc, gone)?;
    let mut moves = Vec::new(alloc);
    for look in come {
        add_pair(&last, look, &mut moves)?;
    }
    Ok(moves)
}

/// The path of the last of some looks with each shape.
fn index_looks(alloc: Global, looks: &[Look]) -> Result<BTreeMap<u64, Path>, AllocError>
    ensures { IfOk result (λ last. Indexes looks.now (get nat_cmp last)) }
{
    let mut last = BTreeMap::new(alloc);
    for look in looks {
        last.insert(look.shape, look.path.clone()?)?;
    }
    Ok(last)
}

/// Adds the pair of what is new and what is gone and looks the same, where these stand at two paths.
fn add_pair(
    last: &BTreeMap<u64, Path>,
    look: &Look,
    moves: &mut Vec<(Path, Path)>,
) -> Result<(), AllocError>
    ensures { OnOk result (moves.new.items ≡ moves.old.items ++ pair_of (get nat_cmp last.now look.now.shape) look.now.path) }
{
    match last.get(&look.shape) {
        Some(path) => {
            if path != &look.path {
                moves.push((path.clone()?, look.path.clone()?))?;
            }
            Ok(())
        }
        None => Ok(()),
    }
}
