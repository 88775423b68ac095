//! A mount that was refused.
use flash_model::Flash;
use fs_types::Fault;

/// Why a mount was refused, and the flash, as the mount left it.
#[derive(Drop)]
pub struct RefusedMount<'f, F: Flash> {
    /// Why.
    pub fault: Fault,
    /// The very flash that was lent.
    pub flash: &'f mut F,
}
