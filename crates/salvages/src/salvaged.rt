//! What is saved of a damaged flash.
ghost use Rattle.std.specs.Prelude.{◌≡◌, true, Some, Ok, IfOk, OnOk, IfErr};
ghost use Rattle.flash_model.specs.Geometry.{IsGeometry};
ghost use Rattle.flash_model.specs.Reading.{OnlyReads};
ghost use Rattle.record_format.specs.Payloads.{is_record};
ghost use Rattle.anchors.specs.Newest.{committed_on};
ghost use Rattle.mounting.specs.Records.{knows_plain_only};
ghost use Rattle.salvages.specs.Kept as spec;
ghost use Rattle.salvages.specs.Salvages.{IsSalvageOf, SalvageCause};
ghost use Rattle.salvages.specs.Wholes.{AreLost};

use crate::copies::copy_data;
use crate::kept_records::{keep_record, list_lost_names, list_lost_serials, list_roots};
use crate::looks::find_lost;
use crate::record_pages::put_record;
use anchors::Anchors;
use flash_model::Flash;
use flash_simulation::SimFlash;
use fs_types::{CpName, Fault};
use record_format::{OLD_FORMAT, Record};
use std::alloc::Global;

/// What is saved of a damaged flash.
#[derive(Drop)]
pub struct Salvaged {
    /// A flash in memory of the same sizes, on which no block is worn and no fault planned. Its newest
    /// record is what is kept.
    pub flash: SimFlash,
    /// The serials of the versions that are lost, ascending.
    pub lost_versions: Vec<u64>,
    /// The names of the checkpoints that are lost, ascending.
    pub lost_checkpoints: Vec<CpName>,
}

/// The newest record of a flash.
pub(crate) fn read_newest<F: Flash>(alloc: Global, flash: &mut F) -> Result<Record, Fault>
    ensures lawful { OnOk result (IsGeometry (F.device flash.old).geometry) }
    ensures holds { IfOk result (λ newest. committed_on (F.device flash.old) ≡ Some (Ok newest)) }
    ensures sizes { IfOk result (λ newest. newest.geometry ≡ (F.device flash.old).geometry) }
    ensures is_record { IfOk result (λ newest. is_record newest ≡ true) }
    ensures only_reads { OnlyReads (F.device flash.old) (F.device flash.new) }
    ensures why { IfErr result (SalvageCause (F.device flash.old) (F.device flash.new)) }
{
    if !flash.geometry().is_lawful() {
        return Err(Fault::BadGeometry);
    }
    let mut anchors = Anchors::new();
    match anchors.newest(alloc, flash)? {
        Some(newest) => Ok(newest),
        None => Err(Fault::NoRecord),
    }
}

/// What is kept of the newest record of a flash, and the roots that are lost.
fn keep_whole<F: Flash>(
    alloc: Global,
    flash: &mut F,
    newest: &Record,
) -> Result<(Record, Vec<u32>), Fault>
    requires lawful { IsGeometry (F.device flash.old).geometry }
    requires holds { committed_on (F.device flash.old) ≡ Some (Ok newest.now) }
    requires is_record { is_record newest.now ≡ true }
    ensures kept { IfOk result (λ found. found.0 ≡ spec.kept_record found.1.items newest.now) }
    ensures is_record { IfOk result (λ found. is_record found.0 ≡ true) }
    ensures lost { IfOk result (λ found. AreLost (knows_plain_only newest.now) (F.device flash.old) (spec.roots_in newest.now) found.1.items) }
    ensures only_reads { OnlyReads (F.device flash.old) (F.device flash.new) }
    ensures why { IfErr result (SalvageCause (F.device flash.old) (F.device flash.new)) }
{
    let roots = list_roots(alloc, newest)?;
    let lost = find_lost(alloc, flash, &roots, newest.format == OLD_FORMAT)?;
    let kept = keep_record(alloc, newest, &lost)?;
    if kept.versions.as_slice().is_empty() {
        return Err(Fault::Damaged);
    }
    Ok((kept, lost))
}

/// Saves on a new flash in memory what can be read of a damaged one: of its newest record the versions
/// and checkpoints whose trees are whole, with their serials and names. Where the present version is
/// lost, the present one is the newest kept one before it, else the oldest kept one.
///
/// All that the roots reach is read in one look at them together, and where not all are whole what each reaches by
/// itself. Then each page of the data blocks is read once.
/// Nothing is written on the damaged flash. `BadGeometry` where the sizes are out of range, before any read, or where
/// the newest record tells others; `NoRecord` where none is valid, and `Damaged` where two have the
/// greatest sequence, where the payload of the newest is damaged or where no version of it is whole: no older one
/// is taken. `ReadFailed` and `PowerCut` by the device; `NoMemory` where memory could not be had.
pub fn salvage<F: Flash>(alloc: Global, flash: &mut F) -> Result<Salvaged, Fault>
    ensures saved { IfOk result (IsSalvageOf (F.device flash.old)) }
    ensures only_reads { OnlyReads (F.device flash.old) (F.device flash.new) }
    ensures why { IfErr result (SalvageCause (F.device flash.old) (F.device flash.new)) }
{
    let newest = read_newest(alloc, flash)?;
    let (kept, lost) = keep_whole(alloc, flash, &newest)?;
    let mut saved = copy_data(alloc, flash)?;
    put_record(alloc, &mut saved, &kept)?;
    let lost_versions = list_lost_serials(alloc, newest.versions.as_slice(), &lost)?;
    let lost_checkpoints = list_lost_names(alloc, newest.checkpoints.as_slice(), &lost)?;
    Ok(Salvaged {
        flash: saved,
        lost_versions,
        lost_checkpoints,
    })
}
