//! A script run on a flash of its own, with no image.
ghost use Rattle.script_runs.specs.Memory.{EndsInMemory, memory_sizes};
ghost use Rattle.script_runs.specs.Scripts.{streams_at};

use crate::following::format_as_planned;
use crate::scripts::{ScriptFault, run_script};
use flash_simulation::SimFlash;
use script::{DEFAULT_SIZES, DEFAULT_VERSIONS};
use std::alloc::Global;
use std::io::{Read, Write};

/// Runs the script of a reader on a fresh system on a flash in memory, and writes its replies.
pub fn run_in_memory<R: Read, W: Write>(
    alloc: Global,
    reader: &mut R,
    out: &mut W,
) -> Result<(), ScriptFault>
    ensures { EndsInMemory memory_sizes (streams_at (R.remaining reader.old) (W.contents out.old)) result (streams_at (R.remaining reader.new) (W.contents out.new)) }
{
    let mut flash = match SimFlash::new(alloc, DEFAULT_SIZES, &[]) {
        Ok(flash) => flash,
        Err(fault) => return Err(ScriptFault::Mount(fault)),
    };
    match format_as_planned(alloc, &mut flash, DEFAULT_VERSIONS) {
        Ok(()) => run_script(alloc, reader, out, &mut flash),
        Err(fault) => Err(ScriptFault::Mount(fault)),
    }
}
