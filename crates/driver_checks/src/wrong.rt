//! Why a case ends early.
use flash_model::DevFault;

/// A look was otherwise than expected, or an operation was refused that is to be done.
#[derive(Debug, Drop)]
pub(crate) struct Wrong;

impl From<DevFault> for Wrong {
    fn from(_fault: DevFault) -> Wrong {
        Wrong
    }
}
