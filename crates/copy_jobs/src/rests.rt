//! What is left of a damaged flash, made on another one.
ghost use Rattle.std.specs.Prelude.{◌≡◌, IfOk, IfErr};
ghost use Rattle.flash_model.specs.Reading.{OnlyReads};
ghost use Rattle.flash_simulation.specs.Simulation.{device_of};
ghost use Rattle.mounting.specs.Formats.{IsFormatted};
ghost use Rattle.salvages.specs.Remade.{IsRestOf, UnmadeCause};
ghost use Rattle.salvages.specs.declared.losses.LossFault.{LossFault};
ghost use Rattle.copy_jobs.specs.Failures as spec;
ghost use Rattle.copy_jobs.specs.Lefts.{HoldsRest, IsUnformed, LeadOn, StopsRest};

use crate::asked_sizes::of_sizes;
use crate::copy_messages::{tell_losses, tell_uncopied, tell_unformatted, tell_unmounted};
use crate::failures::{of_uncopied, of_untold};
use copies::make_alone;
use flash_model::Geometry;
use flash_simulation::SimFlash;
use image_jobs::{Failure, formatted_flash};
use salvages::{Rest, find_rest};
use std::alloc::Global;
use std::io::Write;

/// What is left of the present version of a damaged flash, where that is not whole. What is refused is told.
pub(crate) fn rest_of<E: Write>(
    alloc: Global,
    damaged: &mut SimFlash,
    err: &mut E,
) -> Result<Option<Rest>, Failure>
    ensures rest { IfOk result (IsRestOf (device_of damaged.old)) }
    ensures only_reads { OnlyReads (device_of damaged.old) (device_of damaged.new) }
    ensures err { IfErr result (λ failure. (why : LossFault) × UnmadeCause (device_of damaged.old) (device_of damaged.new) why × (failure ≡ spec.of_untold why)) }
{
    match find_rest(alloc, damaged) {
        Ok(rest) => Ok(rest),
        Err(why) => {
            let failure = of_untold(why);
            tell_unmounted(failure, err);
            Err(failure)
        }
    }
}

/// A new flash of these sizes that has what is left alone. What is lost is told, and what is refused.
pub(crate) fn make_rest<E: Write>(
    alloc: Global,
    sizes: Geometry,
    rest: &Rest,
    err: &mut E,
) -> Result<SimFlash, Failure>
    requires { LeadOn rest.now.calls.items }
    ensures ok { IfOk result (HoldsRest sizes rest.now) }
    ensures err { IfErr result (IsUnformed sizes rest.now) }
{
    tell_losses(alloc, &rest.losses, err);
    let limit = u32::from(rest.limit);
    let one = match formatted_flash(alloc, sizes, limit) {
        Ok(one) => one,
        Err(failure) => {
            tell_unformatted(alloc, failure, sizes, limit, err);
            return Err(failure);
        }
    };
    match put_rest(alloc, one, sizes, rest) {
        Ok(one) => Ok(one),
        Err(failure) => {
            tell_uncopied(alloc, failure, sizes, err);
            Err(failure)
        }
    }
}

/// A flash that was formatted, once it has what is left alone, where it has these sizes then.
fn put_rest(alloc: Global, one: SimFlash, sizes: Geometry, rest: &Rest) -> Result<SimFlash, Failure>
    requires formatted { IsFormatted rest.now.limit (device_of one) }
    requires leads { LeadOn rest.now.calls.items }
    ensures ok { IfOk result (HoldsRest sizes rest.now) }
    ensures err { IfErr result (StopsRest sizes rest.now one) }
{
    let mut made = one;
    match make_alone(alloc, &mut made, &rest.calls) {
        Ok(()) => of_sizes(made, sizes),
        Err(why) => Err(of_uncopied(why)),
    }
}
