//! The names that belong to a file which is replaced.
ghost use Rattle.std.specs.Prelude.{◌≡◌, IfOk, string_bytes};
ghost use Rattle.host_interface.specs.Files.{new_name, takes_away};

use std::alloc::{AllocError, Global};

/// The name of the new file that is written beside one.
pub fn new_name(alloc: Global, name: &str) -> Result<String, AllocError>
    ensures { IfOk result (λ beside. string_bytes beside ≡ new_name name.now) }
{
    let mut beside = String::from_str(alloc, name)?;
    beside.push_str(".new")?;
    Ok(beside)
}

/// Whether to replace the file of a name takes the file of another one away, as the names tell: they
/// are the same, or the other is that of the new file.
pub fn takes_away(alloc: Global, name: &str, other: &str) -> Result<bool, AllocError>
    ensures { IfOk result (λ taken. taken ≡ takes_away name.now other.now) }
{
    let beside = new_name(alloc, name)?;
    Ok(other == name || other == beside.as_str())
}
