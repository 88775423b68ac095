//! The working state of a record.
ghost use Rattle.std.specs.Prelude.{◌≡◌, ◌<◌, true, [], IfOk, IfErr};
ghost use Rattle.fs_types.specs.declared.fault.Fault.{Fault};
ghost use Rattle.flash_model.specs.Geometry.{IsGeometry};
ghost use Rattle.flash_model.specs.Reading.{OnlyReads};
ghost use Rattle.record_format.specs.Payloads.{is_record};
ghost use Rattle.mounting.specs.Costs.{AsksToVerify};
ghost use Rattle.mounting.specs.Records.{history_of, roots_of, knows_plain_only, IsLoaded, RootsCause};

use crate::reached::use_reached;
use crate::restored::{list_bad, list_roots, restore_history};
use flash_model::Flash;
use fs_types::Fault;
use machine_state::OpenFiles;
use node_store::{NodeCache, Storage};
use record_format::{OLD_FORMAT, Record};
use std::alloc::Global;
use working_state::State;

/// The working state of what a record holds, and the roots of its versions and checkpoints; `Damaged`
/// where a version or a checkpoint has no tree, or where the record has format 1 and a directory is a
/// chain.
pub fn load<F: Flash>(
    alloc: Global,
    flash: &mut F,
    saved: &Record,
    cache: NodeCache,
) -> Result<(State, Vec<u32>), Fault>
    requires lawful { IsGeometry (F.device flash.old).geometry }
    requires same { saved.now.geometry ≡ (F.device flash.old).geometry }
    requires is_lawful { is_record saved.now ≡ true }
    requires empty { cache.entries ≡ [] }

    // The working state.
    ensures loaded { IfOk result (λ r. IsLoaded (F.device flash.new) saved.now r.0) }
    ensures roots { IfOk result (λ r. r.1.items ≡ roots_of r.0.history) }
    ensures room { IfOk result (λ r. r.0.storage.cache.room ≡ cache.room) }

    // By reads alone, and how many.
    ensures only_reads { OnlyReads (F.device flash.old) (F.device flash.new) }
    ensures asks { AsksToVerify (F.device flash.old) (roots_of (history_of saved.now)) (F.device flash.new) }
    ensures why { IfErr result (RootsCause (knows_plain_only saved.now) (F.device flash.old) (roots_of (history_of saved.now)) (F.device flash.new)) }
{
    let history = restore_history(alloc, saved)?;
    let roots = list_roots(alloc, &history)?;
    let bad = list_bad(saved.bad.as_slice());
    let mut storage = Storage::unused(alloc, saved.geometry, bad, saved.last, cache)?;
    let plain = saved.format == OLD_FORMAT;
    use_reached(alloc, flash, &mut storage, &roots, plain)?;
    let state = State {
        history,
        group: None,
        storage,
        files: OpenFiles::new(),
        is_off: false,
    };
    Ok((state, roots))
}
