//! Why a script on a flash did not run to its end.

use fs_types::Fault;
use script_runs::ScriptFault;
use thiserror::Error;

/// Why a script on a flash did not run to its end.
#[derive(Clone, Copy, Debug, PartialEq, Eq, Error)]
pub enum SessionFault {
    /// No file system was made on the flash. No line was read, and nothing was written.
    #[error("no file system: {0}")]
    Format(Fault),
    /// The script did not run to its end.
    #[error("script: {0}")]
    Script(ScriptFault),
}
