//! A script on a part in place in a flat file.
ghost use Rattle.script_runs.specs.Scripts.{streams_at};
ghost use Rattle.part_file.specs.Flashes.{part_device, driver_of, backing_behind};
ghost use Rattle.part_file.specs.Pages.{HoldsPart};
ghost use Rattle.part_file.specs.Parts.{is_lost};
ghost use Rattle.remote_sessions.specs.Sessions.{SessionEnds};

use host_interface::Backing;
use part_file::PartFlash;
use remote_sessions::{SessionFault, serve_on};
use std::alloc::Global;
use std::io::{Read, Write};

/// [`serve_on`] on the flash of a part in a flat file.
///
/// Each program and erase is written to the file before it is shown ([`PartFlash`]). Where a write fails,
/// power went: nothing is written any more. Otherwise the file is the part of what is shown at the end.
pub fn serve_part<B: Backing, R: Read, W: Write>(
    alloc: Global,
    flash: &mut PartFlash<B>,
    history: Option<u32>,
    reader: &mut R,
    writer: &mut W,
) -> Result<(), SessionFault>
    ensures ends { SessionEnds history (part_device flash.old) (part_device flash.new) (streams_at (R.remaining reader.old) (W.contents writer.old)) result (streams_at (R.remaining reader.new) (W.contents writer.new)) }
    ensures held { HoldsPart (is_lost (driver_of flash.new)) (B.held (backing_behind flash.new)) (part_device flash.new) }
{
    serve_on(alloc, flash, history, reader, writer)
}
