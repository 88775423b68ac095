//! What the program tells of itself.
ghost use Rattle.shell.specs.Explained.{HelpEnds, PrintEnds, version_line};

use command_line::{help_text, version_text};
use image_jobs::Failure;
use script::write_out;
use std::alloc::Global;
use std::io::Write;

/// Writes what can be asked for, as `uffs --help` tells it, or by one word, as `uffs WORD --help` does.
pub(crate) fn tell_help<W: Write>(
    alloc: Global,
    word: Option<&str>,
    out: &mut W,
) -> Result<(), Failure>
    ensures { HelpEnds result (W.contents out.old) (W.contents out.new) }
{
    match help_text(alloc, word) {
        Ok(text) => print_text(out, text.as_bytes()),
        Err(_) => Err(Failure::Memory),
    }
}

/// Writes the program and its version, as `uffs --version` tells them.
pub(crate) fn tell_version<W: Write>(alloc: Global, out: &mut W) -> Result<(), Failure>
    ensures { PrintEnds version_line result (W.contents out.old) (W.contents out.new) }
{
    match version_text(alloc) {
        Ok(text) => print_text(out, text.as_bytes()),
        Err(_) => Err(Failure::Memory),
    }
}

fn print_text<W: Write>(out: &mut W, text: &[u8]) -> Result<(), Failure>
    ensures { PrintEnds text.now result (W.contents out.old) (W.contents out.new) }
{
    match write_out(out, text) {
        Ok(()) => Ok(()),
        Err(_) => Err(Failure::Output),
    }
}
