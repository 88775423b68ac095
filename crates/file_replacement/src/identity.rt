//! By what the host tells two files apart.
ghost use Rattle.std.specs.Prelude.{◌≡◌, IfOk, IsOk, OnOk};

use std::fs::Metadata;
use std::io;
use std::io::ErrorKind;
use std::os::unix::fs::MetadataExt;

/// The device of a file and its number there: two names that lead to one file have it in common.
#[derive(Clone, Copy, Debug, PartialEq, Eq)]
pub struct Identity {
    device: u64,
    number: u64,
}

impl Identity {
    pub fn of(found: &Metadata) -> Identity {
        Identity {
            device: found.dev(),
            number: found.ino(),
        }
    }
}

/// What was opened, where it is what was looked at before: the host follows a link that stands there by then.
pub fn refuse_another<T: Drop>(opened: T, found: Identity, looked: Identity) -> io::Result<T>
    ensures same { OnOk result (found ≡ looked) }
    ensures ok { found ≡ looked → IsOk result }
    ensures value { IfOk result (λ it. it ≡ opened) }
{
    if found != looked {
        return Err(io::Error::from(ErrorKind::InvalidInput));
    }
    Ok(opened)
}
