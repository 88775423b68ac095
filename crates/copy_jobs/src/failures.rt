//! By what a copy ends that is not made.
ghost use Rattle.std.specs.Prelude.{◌≡◌};
ghost use Rattle.copy_jobs.specs.Failures as spec;

use copies::Uncopied;
use image_jobs::Failure;
use salvages::LossFault;
use script_runs::Refusal;

/// By why a flash is not copied.
pub(crate) fn of_uncopied(why: Uncopied) -> Failure
    ensures { result ≡ spec.of_uncopied why }
{
    match why {
        Uncopied::Unmounted(fault) | Uncopied::Unready(fault) => Failure::of_system(fault),
        Uncopied::Unread(fault) | Uncopied::Refused(fault) => {
            Failure::of_refusal(Refusal::Fault(fault))
        }
        Uncopied::TooManyLines => Failure::TooManyLines,
    }
}

/// By why it is not known what is left.
pub(crate) fn of_untold(why: LossFault) -> Failure
    ensures { result ≡ spec.of_untold why }
{
    match why {
        LossFault::Refused(fault) => Failure::of_system(fault),
        LossFault::TooManyLines => Failure::TooManyLines,
    }
}
