//! What is copied of an image.
ghost use Rattle.std.specs.Prelude.{◌≡◌, ◌⊎◌, Option, Some, IfOk, IfErr, IfSome};
ghost use Rattle.flash_simulation.specs.declared.sim_flash.SimFlash.{SimFlash};
ghost use Rattle.fs_types.specs.declared.fault.Fault.{Fault};
ghost use Rattle.image_jobs.specs.Failures.{of_system};
ghost use Rattle.salvages.specs.declared.making.Rest.{Rest};
ghost use Rattle.copy_jobs.specs.Lefts.{HoldsRest, HoldsRestOf, IsUnformed, LeadOn};
ghost use Rattle.copy_jobs.specs.Sources as spec;
ghost use Rattle.copy_jobs.specs.Sources.{IsSourceOf, UnsalvagedCause};

use crate::asked_sizes::{AskedSizes, sizes_of};
use crate::copy_messages::{tell_all_lost, tell_lost, tell_unmounted};
use crate::rests::{make_rest, rest_of};
use flash_model::{Flash, Geometry};
use flash_simulation::SimFlash;
use fs_types::Fault;
use image_jobs::Failure;
use salvages::{Rest, Salvaged, salvage};
use std::alloc::Global;
use std::io::Write;

/// A flash, what comes after its versions, and whether all that the image holds is on it.
#[derive(Drop)]
pub(crate) struct Source {
    pub(crate) flash: SimFlash,
    /// A flash whose present version is to be one more, after those of the other.
    pub(crate) rest: Option<SimFlash>,
    pub(crate) is_whole: bool,
}

/// What is copied of a flash: all that is on it, or where that is to be salvaged what is whole, and then what
/// is left of the present version, where that is not, on a flash of the sizes that are asked for. What is lost
/// is told, and what is refused.
pub(crate) fn source_of<E: Write>(
    alloc: Global,
    flash: SimFlash,
    asked: AskedSizes,
    salvages: bool,
    err: &mut E,
) -> Result<Source, Failure>
    ensures ok { IfOk result (IsSourceOf asked salvages flash) }
    ensures err { IfErr result (UnsalvagedCause asked salvages flash) }
{
    if !salvages {
        return Ok(Source {
            flash,
            rest: None,
            is_whole: true,
        });
    }
    let mut damaged = flash;
    let sizes = sizes_of(asked, damaged.geometry());
    let rest = match rest_of(alloc, &mut damaged, err) {
        Ok(rest) => rest,
        Err(failure) => return Err(failure),
    };
    match salvage(alloc, &mut damaged) {
        Ok(found) => save_with(alloc, sizes, found, rest, err),
        Err(fault) => save_rest(alloc, sizes, fault, rest, err),
    }
}

/// What is saved, and what is left of the present version after it. What is lost is told.
fn save_with<E: Write>(
    alloc: Global,
    sizes: Geometry,
    found: Salvaged,
    rest: Option<Rest>,
    err: &mut E,
) -> Result<Source, Failure>
    requires { IfSome rest (λ rest. LeadOn rest.calls.items) }
    ensures ok { IfOk result (λ source. HoldsRestOf sizes rest source.rest × (source ≡ spec.source_in found source.rest)) }
    ensures err { IfErr result (λ failure. (one : Rest) × (rest ≡ Some one) × IsUnformed sizes one failure) }
{
    tell_lost(alloc, &found, err);
    match rest {
        None => Ok(source_in(found, None)),
        Some(rest) => match make_rest(alloc, sizes, &rest, err) {
            Ok(one) => Ok(source_in(found, Some(one))),
            Err(failure) => Err(failure),
        },
    }
}

/// What is left of the present version alone, where no version is whole. What is lost is told, and what is
/// refused.
fn save_rest<E: Write>(
    alloc: Global,
    sizes: Geometry,
    fault: Fault,
    rest: Option<Rest>,
    err: &mut E,
) -> Result<Source, Failure>
    requires { IfSome rest (λ rest. LeadOn rest.calls.items) }
    ensures ok { IfOk result (λ source. (one : Rest) × (rest ≡ Some one) × (fault ≡ Fault.Damaged) × HoldsRest sizes one source.flash × (source ≡ spec.source_alone source.flash)) }
    ensures err { IfErr result (λ failure. (failure ≡ of_system fault) ⊎ ((one : Rest) × (rest ≡ Some one) × IsUnformed sizes one failure)) }
{
    match rest {
        None => Err(refuse_flash(fault, err)),
        Some(rest) => match fault {
            Fault::Damaged => make_source(alloc, sizes, &rest, err),
            _ => Err(refuse_flash(fault, err)),
        },
    }
}

/// What is left alone. What is lost is told.
fn make_source<E: Write>(
    alloc: Global,
    sizes: Geometry,
    rest: &Rest,
    err: &mut E,
) -> Result<Source, Failure>
    requires { LeadOn rest.now.calls.items }
    ensures ok { IfOk result (λ source. HoldsRest sizes rest.now source.flash × (source ≡ spec.source_alone source.flash)) }
    ensures err { IfErr result (IsUnformed sizes rest.now) }
{
    tell_all_lost(alloc, rest, err);
    match make_rest(alloc, sizes, rest, err) {
        Ok(flash) => Ok(Source {
            flash,
            rest: None,
            is_whole: false,
        }),
        Err(failure) => Err(failure),
    }
}

/// By why nothing is saved, which is told.
fn refuse_flash<E: Write>(fault: Fault, err: &mut E) -> Failure
    ensures { result ≡ of_system fault }
{
    let failure = Failure::of_system(fault);
    tell_unmounted(failure, err);
    failure
}

/// The flash that was salvaged, with what comes after it.
fn source_in(found: Salvaged, rest: Option<SimFlash>) -> Source
    ensures { result ≡ spec.source_in found rest }
{
    let Salvaged {
        flash,
        lost_versions,
        lost_checkpoints,
    } = found;
    let is_whole = lost_versions.is_empty() && lost_checkpoints.is_empty();
    Source {
        flash,
        rest,
        is_whole,
    }
}
