//! What is removed, and how.
ghost use Rattle.std.specs.Prelude.{◌≡◌, IfOk};
ghost use Rattle.std.specs.List.{list_any};
ghost use Rattle.put_lots.specs.Removals as spec;

use crate::kept::Kept;
use fs_types::{Call, Event, Name, Path, Stat};
use std::alloc::AllocError;

/// Whether what stands at a path of the image is removed: it stands below the path to which all is put,
/// and nothing of what is put or left out accounts for it.
pub fn is_removed(base: &Path, kept: &[Kept], path: &Path, stat: Stat) -> bool
    ensures { result ≡ spec.is_removed base.now kept.now path.now stat }
{
    let first = base.names();
    let names = path.names();
    if names.len() <= first.len() || !names.starts_with(first) {
        return false;
    }
    !is_accounted_for(kept, &names[first.len()..], stat)
}

/// Whether one of these accounts for what stands in the image.
fn is_accounted_for(kept: &[Kept], names: &[Name], stat: Stat) -> bool
    ensures { result ≡ list_any (λ one. spec.accounts_for one names.now stat) kept.now }
{
    kept.iter().any(|one| one.accounts_for(names, stat))
}

/// The event that removes what stands at a path.
pub fn removal(path: &Path, stat: Stat) -> Result<Event, AllocError>
    ensures { IfOk result (λ event. event ≡ spec.removal path.now stat) }
{
    let path = path.clone()?;
    let call = match stat {
        Stat::Dir(_) => Call::Rmdir { path },
        Stat::File(_) => Call::Unlink { path },
    };
    Ok(Event::Call(call))
}
