//! What is found in a tree of which some nodes are lost, and what that costs.
ghost use Rattle.std.specs.Prelude.{◌≡◌, ◌+◌, ◌≤◌, [], ◌∷◌, ◌++◌, length, IfOk, OnOk, IfErr};
ghost use Rattle.salvages.specs.Losses as spec;
ghost use Rattle.salvages.specs.Losses.{Adds, Uncounted};

use crate::losses::{Loss, LossFault, LossKind};
use fs_types::Bytes;
use std::alloc::{AllocError, Global};

/// What an entry costs that is looked at.
pub const ENTRY_COST: usize = 64;

/// The most that it may cost to look through a tree: each entry as [`ENTRY_COST`], and the path of each
/// directory, and of what is lost, as many as it has bytes.
pub const MAX_COST: usize = 67_108_864;

/// Where a directory begins, and its path: the names, each after a slash.
#[derive(Drop)]
pub(crate) struct Way {
    pub(crate) path: Bytes,
    pub(crate) block: u32,
}

/// What was found so far.
#[derive(Drop)]
pub(crate) struct Found {
    pub(crate) losses: Vec<Loss>,
    /// The directories that are looked at next.
    pub(crate) ways: Vec<Way>,
    pub(crate) cost: usize,
}

impl Found {
    /// The root, which is looked at first.
    pub(crate) fn at(alloc: Global, root: u32) -> Result<Found, AllocError>
        ensures losses { IfOk result (λ found. found.losses.items ≡ []) }
        ensures ways { IfOk result (λ found. found.ways.items ≡ spec.way [] root ∷ []) }
        ensures cost { IfOk result (λ found. found.cost ≡ 0) }
    {
        let mut ways = Vec::new(alloc);
        ways.push(Way {
            path: Bytes::new(alloc),
            block: root,
        })?;
        Ok(Found {
            losses: Vec::new(alloc),
            ways,
            cost: 0,
        })
    }

    /// Counts a cost, where it may be.
    pub(crate) fn spend(&mut self, cost: usize) -> Result<(), LossFault>
        requires { self.old.cost ≤ MAX_COST }
        ensures adds { OnOk result (Adds [] [] cost self.old self.new) }
        ensures few { OnOk result (self.new.cost ≤ MAX_COST) }
        ensures err { IfErr result (Uncounted (self.old.cost + cost)) }
    {
        if cost > MAX_COST - self.cost {
            return Err(LossFault::TooManyLines);
        }
        self.cost += cost;
        Ok(())
    }

    /// Adds something that is lost.
    pub(crate) fn lose(&mut self, kind: LossKind, path: Bytes) -> Result<(), LossFault>
        requires { self.old.cost ≤ MAX_COST }
        ensures adds { OnOk result (Adds (spec.loss kind path ∷ []) [] (length path) self.old self.new) }
        ensures few { OnOk result (self.new.cost ≤ MAX_COST) }
        ensures err { IfErr result (Uncounted (self.old.cost + length path)) }
    {
        self.spend(path.as_slice().len())?;
        push_loss(&mut self.losses, kind, path)?;
        Ok(())
    }

    /// Adds a directory that is looked at next.
    pub(crate) fn go(&mut self, path: Bytes, block: u32) -> Result<(), LossFault>
        requires { self.old.cost ≤ MAX_COST }
        ensures adds { OnOk result (Adds [] (spec.way path block ∷ []) (length path) self.old self.new) }
        ensures few { OnOk result (self.new.cost ≤ MAX_COST) }
        ensures err { IfErr result (Uncounted (self.old.cost + length path)) }
    {
        self.spend(path.as_slice().len())?;
        push_way(&mut self.ways, path, block)?;
        Ok(())
    }
}

/// Puts something that is lost after the others.
fn push_loss(losses: &mut Vec<Loss>, kind: LossKind, path: Bytes) -> Result<(), AllocError>
    ensures { OnOk result (losses.new.items ≡ losses.old.items ++ spec.loss kind path ∷ []) }
{
    losses.push(Loss { kind, path })?;
    Ok(())
}

/// Puts a directory after the others.
fn push_way(ways: &mut Vec<Way>, path: Bytes, block: u32) -> Result<(), AllocError>
    ensures { OnOk result (ways.new.items ≡ ways.old.items ++ spec.way path block ∷ []) }
{
    ways.push(Way { path, block })?;
    Ok(())
}

/// The path of a name in the directory at a path.
pub(crate) fn path_of(alloc: Global, path: &[u8], name: &[u8]) -> Result<Bytes, AllocError>
    ensures { IfOk result (λ bytes. bytes ≡ path.now ++ 47 ∷ name.now) }
{
    let mut bytes = Vec::from_slice(alloc, path)?;
    bytes.push(b'/')?;
    bytes.extend_from_slice(name)?;
    Ok(Bytes::from_vec(bytes))
}
