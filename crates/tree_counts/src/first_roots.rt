//! The first root that reaches each block.
ghost use Rattle.std.specs.Prelude.{◌≡◌, ◌≢◌, ℕ, ◌+◌, ◌-◌, ◌≤◌, ◌<◌, [], ◌∷◌, ◌++◌, length, slice_index, Contains, OnOk, IfOk, IfErr};
ghost use Rattle.nodes.specs.Trees.{IsRoot};
ghost use Rattle.node_format.specs.Headers.{body_header};
ghost use Rattle.nodes.specs.Faults.{IsLookFault};
ghost use Rattle.nodes.specs.Frames.{OnlyLooks};
ghost use Rattle.reclaim.specs.Verified.{AreRoots};
ghost use Rattle.tree_counts.specs.FirstRoots.{AreFirstRoots};
ghost use Rattle.tree_counts.specs.RootWalks.{IsWalked, ReadsOn};

use fs_types::Fault;
use nodes::Nodes;
use reclaim::Pass;
use std::alloc::Global;

/// Of each block the number, from 1 on, of the first of some roots that reaches it, and 0 where none
/// does. There are at most 255 roots, each of which is known to have a tree. Each node that they reach
/// is read once, and of those of bodies the first page alone; memory is a byte and two bits a block,
/// and four bytes for each block that is reached.
///
/// [`Fault::ReadFailed`], [`Fault::PowerCut`], [`Fault::NoMemory`].
pub fn find_first_roots<N: Nodes>(
    alloc: Global,
    nodes: &mut N,
    roots: &[u32],
) -> Result<Vec<u8>, Fault>
    requires sound { N.is_sound nodes.old }
    requires trees { AreRoots (N.limit nodes.old) (N.node nodes.old) roots.now }
    requires few { length roots.now ≤ 255 }
    ensures sized { IfOk result (λ firsts. length firsts.items ≡ N.blocks nodes.old) }
    ensures firsts { IfOk result (λ firsts. AreFirstRoots (N.node nodes.old) roots.now firsts.items) }
    ensures reads { ReadsOn (N.node nodes.old) roots.now 0 (N.reads nodes.old) (N.reads nodes.new) }
    ensures looks { OnlyLooks N.node N.kept N.writes N.follows N.is_sound N.limit N.blocks nodes.old nodes.new }
    ensures why { IfErr result (λ fault. N.causes nodes.old nodes.new fault) }
    ensures faults { IfErr result IsLookFault }
{
    let blocks = nodes.block_count();
    let mut firsts = vec![in alloc; 0; blocks as usize]?;
    let mut pass = Pass::start(alloc, blocks, &[])?;
    for (place, root) in roots.iter().enumerate() {
        reach(nodes, &mut pass, &mut firsts, *root, place as u8 + 1)?;
    }
    Ok(firsts)
}

/// Gives the number of a root to the blocks that it reaches and no root before it.
fn reach<N: Nodes>(
    nodes: &mut N,
    pass: &mut Pass,
    firsts: &mut [u8],
    root: u32,
    number: u8,
) -> Result<(), Fault>
    requires sound { N.is_sound nodes.old }
    requires blocks { pass.old.blocks ≡ N.blocks nodes.old }
    requires walked { IsWalked (N.limit nodes.old) (N.node nodes.old) pass.old firsts.old }
    requires tree { IsRoot (N.limit nodes.old - body_header) (N.node nodes.old) root }
    requires number { number ≡ length pass.old.roots + 1 }

    // The walk goes on.
    ensures walked { OnOk result (IsWalked (N.limit nodes.new) (N.node nodes.new) pass.new firsts.new) }
    ensures roots { OnOk result ((pass.new.roots ≡ pass.old.roots ++ root ∷ []) × (pass.new.blocks ≡ pass.old.blocks)) }

    // By reads alone, and how many.
    ensures read { OnOk result (N.reads nodes.new + pass.old.next ≡ N.reads nodes.old + pass.new.next) }
    ensures reads { ReadsOn (N.node nodes.old) (pass.old.roots ++ root ∷ []) pass.old.next (N.reads nodes.old) (N.reads nodes.new) }
    ensures looks { OnlyLooks N.node N.kept N.writes N.follows N.is_sound N.limit N.blocks nodes.old nodes.new }
    ensures why { IfErr result (λ fault. N.causes nodes.old nodes.new fault) }
    ensures faults { IfErr result IsLookFault }
{
    let seen = pass.marked().len();
    pass.add_root(root)?;
    pass.read_all(nodes)?;
    set_numbers(firsts, &pass.marked()[seen..], number);
    Ok(())
}

/// Gives a number to blocks.
fn set_numbers(numbers: &mut [u8], blocks: &[u32], number: u8)
    requires { (b : ℕ) → Contains blocks.now b → b < length numbers.old }
    ensures given { (b : ℕ) → Contains blocks.now b → slice_index numbers.new b ≡ number }
    ensures others { (b : ℕ) → (Contains blocks.now b → ⊥) → slice_index numbers.new b ≡ slice_index numbers.old b }
{
    for block in blocks {
        numbers[*block as usize] = number;
    }
}
