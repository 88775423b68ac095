//! A copy with one version more.
ghost use Rattle.std.specs.Prelude.{◌≡◌, Some, IfOk, IfErr};
ghost use Rattle.flash_simulation.specs.declared.sim_flash.SimFlash.{SimFlash};
ghost use Rattle.copy_jobs.specs.Adding.{HasOneAfter, HasRestAfter, StopsAdding};

use crate::asked_sizes::of_sizes;
use crate::copy_messages::tell_uncopied;
use crate::failures::of_uncopied;
use copies::add_version;
use flash_model::Flash;
use flash_simulation::SimFlash;
use image_jobs::Failure;
use std::alloc::Global;
use std::io::Write;

/// A copy with one version more, where something is left. What is refused is told.
pub(crate) fn with_rest<E: Write>(
    alloc: Global,
    copy: SimFlash,
    rest: Option<SimFlash>,
    err: &mut E,
) -> Result<SimFlash, Failure>
    ensures ok { IfOk result (HasRestAfter copy rest) }
    ensures err { IfErr result (λ failure. (one : SimFlash) × (rest ≡ Some one) × StopsAdding copy one failure) }
{
    match rest {
        None => Ok(copy),
        Some(one) => {
            let sizes = copy.geometry();
            match added(alloc, copy, one) {
                Ok(more) => Ok(more),
                Err(failure) => {
                    tell_uncopied(alloc, failure, sizes, err);
                    Err(failure)
                }
            }
        }
    }
}

/// A copy with one version more, of the present tree of what another flash holds. Its sizes are looked at
/// then.
fn added(alloc: Global, copy: SimFlash, one: SimFlash) -> Result<SimFlash, Failure>
    ensures ok { IfOk result (HasOneAfter copy one) }
    ensures err { IfErr result (StopsAdding copy one) }
{
    let sizes = copy.geometry();
    let mut from = one;
    let mut to = copy;
    match add_version(alloc, &mut from, &mut to) {
        Ok(()) => of_sizes(to, sizes),
        Err(why) => Err(of_uncopied(why)),
    }
}
