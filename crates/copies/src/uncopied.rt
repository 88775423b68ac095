//! Why a file system is not copied.
ghost use Rattle.std.specs.Prelude.{◌≡◌};
ghost use Rattle.copies.specs.Causes as spec;

use fs_types::Fault;
use inquiries::TellFault;

/// Why a file system is not copied to another one.
#[derive(Clone, Copy, Debug, PartialEq, Eq)]
pub enum Uncopied {
    /// The first is not mounted.
    Unmounted(Fault),
    /// The second is not mounted.
    Unready(Fault),
    /// What is there is not read.
    Unread(Fault),
    /// A tree has more than is copied out of one.
    TooManyLines,
    /// The second refuses a call, or there is no memory for one.
    Refused(Fault),
}

/// By why what differs between two trees is not told.
pub(crate) fn of_untold(fault: TellFault) -> Uncopied
    ensures { result ≡ spec.of_untold fault }
{
    match fault {
        TellFault::Refused(fault) => Uncopied::Unread(fault),
        TellFault::TooManyLines => Uncopied::TooManyLines,
    }
}
