//! What the program tells of itself.
ghost use Rattle.std.specs.Prelude.{◌≡◌, IfOk, codes, string_bytes};

use clap::error::ErrorKind;
use command_words::{VERSION, program};
use std::alloc::{AllocError, Global};

/// What can be asked for, as `uffs --help` tells it, or by one word, as `uffs WORD --help` does.
pub fn help_text(alloc: Global, word: Option<&str>) -> Result<String, AllocError> {
    match word {
        Some(word) => help_of_word(alloc, word),
        None => help_of_all(alloc),
    }
}

/// What `uffs --help` tells.
fn help_of_all(alloc: Global) -> Result<String, AllocError> {
    let mut program = program(alloc)?;
    program.render_long_help()
}

/// What `uffs WORD --help` tells.
fn help_of_word(alloc: Global, word: &str) -> Result<String, AllocError> {
    let words = [word, "--help"];
    let mut program = program(alloc)?;
    match program.try_get_matches_from_mut(words.as_slice()) {
        Err(error) => match error.kind() {
            ErrorKind::OutOfMemory => Err(AllocError),
            _ => format!(in alloc; "{error}"),
        },
        Ok(_) => Ok(String::new(alloc)),
    }
}

/// The program and its version, as `uffs --version` tells them.
pub fn version_text(alloc: Global) -> Result<String, AllocError>
    ensures { IfOk result (λ text. string_bytes text ≡ codes "uffs 0.1.0\n") }
{
    format!(in alloc; "uffs {VERSION}\n")
}
