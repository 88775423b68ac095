//! What is left on a damaged flash.
ghost use Rattle.std.specs.Prelude.{◌≡◌, true, Some, Ok, IfOk, IfErr};
ghost use Rattle.flash_model.specs.Geometry.{IsGeometry};
ghost use Rattle.flash_model.specs.Reading.{OnlyReads};
ghost use Rattle.node_store.specs.NodePages.{node_of};
ghost use Rattle.record_format.specs.Payloads.{is_record};
ghost use Rattle.anchors.specs.Newest.{committed_on};
ghost use Rattle.salvages.specs.Lefts.{rest_bytes};
ghost use Rattle.salvages.specs.Losses.{lost_of, cost_of};
ghost use Rattle.salvages.specs.Overfull.{Unmade};
ghost use Rattle.salvages.specs.Remade.{Makes, IsBeside, IsRestAt, IsRestOf, UnmadeCause};
ghost use Rattle.known_nodes.specs.Rests.{rest_in};
ghost use Rattle.known_nodes.specs.Tables.{blocks_in};
ghost use Rattle.salvages.specs.Told as told;

use crate::kept_records::{list_names, list_serials};
use crate::looks::is_whole;
use crate::losses::LossFault;
use crate::making::{Rest, list_calls};
use crate::rest_roots::{know_nodes, present_of, rest_root};
use crate::salvaged::read_newest;
use crate::walk::list_losses;
use flash_model::Flash;
use known_nodes::KnownNodes;
use record_format::{OLD_FORMAT, Record};
use std::alloc::Global;

/// What is left of the tree of a root of a record.
fn rest_at(alloc: Global, known: &KnownNodes, newest: &Record, root: u32) -> Result<Rest, LossFault>
    requires { told.begins (blocks_in known.now.nodes) root ≡ true }
    ensures makes { IfOk result (λ rest. Makes (rest_in known.now.capacity (blocks_in known.now.nodes) root) rest.calls.items) }
    ensures losses { IfOk result (λ rest. rest.losses.items ≡ lost_of known.now.capacity (blocks_in known.now.nodes) root) }
    ensures beside { IfOk result (IsBeside newest.now) }
    ensures err { IfErr result (Unmade (cost_of known.now.capacity (blocks_in known.now.nodes) root) (rest_bytes known.now.capacity (blocks_in known.now.nodes) root)) }
{
    let losses = list_losses(alloc, known, root)?;
    let calls = list_calls(alloc, known, root)?;
    let serials = list_serials(alloc, newest.versions.as_slice())?;
    let names = list_names(alloc, newest.checkpoints.as_slice())?;
    Ok(Rest {
        calls,
        losses,
        limit: newest.limit,
        serials,
        names,
    })
}

/// What is left of the newest record's present version, or of the newest one whose root has a first node.
fn rest_on<F: Flash>(
    alloc: Global,
    flash: &mut F,
    newest: &Record,
) -> Result<Option<Rest>, LossFault>
    requires lawful { IsGeometry (F.device flash.old).geometry }
    requires is_record { is_record newest.now ≡ true }
    requires holds { committed_on (F.device flash.old) ≡ Some (Ok newest.now) }
    ensures rest { IfOk result (IsRestAt (F.device flash.old) newest.now (told.rest_root (node_of (F.device flash.old)) newest.now)) }
    ensures only_reads { OnlyReads (F.device flash.old) (F.device flash.new) }
    ensures why { IfErr result (UnmadeCause (F.device flash.old) (F.device flash.new)) }
{
    let known = know_nodes(alloc, flash)?;
    match rest_root(&known, newest) {
        Some(root) => Ok(Some(rest_at(alloc, &known, newest, root)?)),
        None => Ok(None),
    }
}

/// What is left of the present version of a damaged flash, where its tree is not whole: the calls that make
/// just the directories whose first nodes are lawful and the files that are whole, and what is lost of it,
/// level by level, and in each directory by the names; and which versions and checkpoints there are. Where the
/// first node of the root itself is lost, of the newest version whose root has one. None where the tree is
/// whole, or no root has one.
///
/// Each node is read once, and none is written. [`LossFault::TooManyLines`] where it would cost more than
/// [`MAX_COST`](crate::MAX_COST) to look through the tree, or where its whole files have more than
/// [`MAX_BYTES`](crate::MAX_BYTES) bytes; else [`LossFault::Refused`] as [`salvage`](crate::salvage) is refused.
pub fn find_rest<F: Flash>(alloc: Global, flash: &mut F) -> Result<Option<Rest>, LossFault>
    ensures rest { IfOk result (IsRestOf (F.device flash.old)) }
    ensures only_reads { OnlyReads (F.device flash.old) (F.device flash.new) }
    ensures why { IfErr result (UnmadeCause (F.device flash.old) (F.device flash.new)) }
{
    let newest = read_newest(alloc, flash)?;
    let present = present_of(&newest);
    let whole = is_whole(alloc, flash, present.root, newest.format == OLD_FORMAT)?;
    if whole {
        return Ok(None);
    }
    rest_on(alloc, flash, &newest)
}
