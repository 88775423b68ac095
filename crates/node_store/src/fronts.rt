//! Bringing the front of a block: its first page, or the node that is listed.
ghost use Rattle.std.specs.Prelude.{◌≡◌, ℕ, ◌+◌, ◌≤◌, List, Ok, Err, IfOk, IfErr};
ghost use Rattle.flash_model.specs.Geometry.{IsGeometry};
ghost use Rattle.flash_model.specs.Reading.{OnlyReads};
ghost use Rattle.node_store.specs.Fitting.{Fits, StillFits};
ghost use Rattle.node_store.specs.Fronts.{Fronts, front_in};

use crate::node_reads::read_first_page;
use crate::storage::Storage;
use flash_model::Flash;
use fs_types::Fault;

/// Brings the front of a block, and answers whether it stands in the page: a listed node goes first and
/// is answered without the device, and of another block the first page is read.
pub fn bring_front<F: Flash>(
    flash: &mut F,
    storage: &mut Storage,
    block: u32,
) -> Result<bool, Fault>
    requires lawful { IsGeometry (F.device flash.old).geometry }
    requires fits { Fits (F.device flash.old) storage.old }

    // What is brought, or why not.
    ensures brings { IfOk result (λ in_page. Fronts (F.device flash.old) storage.old.cache block (F.device flash.new) storage.new.cache (front_in in_page storage.new) (Ok tt)) }
    ensures refuses { IfErr result (λ fault. (front : List ℕ) → Fronts (F.device flash.old) storage.old.cache block (F.device flash.new) storage.new.cache front (Err fault)) }

    // What stays, and that a page is asked at most.
    ensures fits { StillFits (F.device flash.old) storage.old (F.device flash.new) storage.new }
    ensures only_reads { OnlyReads (F.device flash.old) (F.device flash.new) }
    ensures bad { storage.new.bad ≡ storage.old.bad }
    ensures ring { storage.new.ring ≡ storage.old.ring }
    ensures partly { storage.new.partly ≡ storage.old.partly }
    ensures operations { (F.device flash.new).operations ≤ (F.device flash.old).operations + 1 }
{
    if storage.cache.promote(block) {
        return Ok(false);
    }
    read_first_page(flash, block, &mut storage.page)?;
    Ok(true)
}
