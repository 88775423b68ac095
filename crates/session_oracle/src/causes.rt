//! The causes of refusals that the plain machine does not know.
use fs_types::Fault;

/// Which causes of a refusal there may be in a call, beside those that the plain machine knows.
#[derive(Clone, Copy, Debug, Default)]
pub struct Causes {
    /// Power may go.
    pub cut: bool,
    /// A read may fail.
    pub read_failure: bool,
    /// Fewer blocks are free than the call needs.
    pub full: bool,
    /// Read-only mode is on.
    pub read_only: bool,
    /// The newest record may have the greatest sequence.
    pub no_sequence: bool,
}

impl Causes {
    /// Whether a call may be refused so for one of these causes.
    pub fn may_refuse(self, fault: Fault) -> bool {
        match fault {
            Fault::PowerCut => self.cut,
            Fault::ReadFailed => self.read_failure,
            Fault::FlashFull => self.full,
            Fault::ReadOnly => self.read_only,
            Fault::Overflow => self.no_sequence,
            _ => false,
        }
    }

    /// Whether a mount may be refused so for one of these causes.
    pub fn may_refuse_mount(self, fault: Fault) -> bool {
        match fault {
            Fault::PowerCut => self.cut,
            Fault::ReadFailed => self.read_failure,
            _ => false,
        }
    }
}
