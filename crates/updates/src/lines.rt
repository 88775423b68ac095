//! The lines of the calls of an update.
ghost use Rattle.std.specs.Prelude.{◌≡◌, ◌++◌, OnOk, codes, decimal};
ghost use Rattle.fs_types.specs.declared.call.Call.{Call};
ghost use Rattle.inquiries.specs.Printed.{path_text};
ghost use Rattle.updates.specs.Lines.{call_line, data_word};

use bitflags::Flags;
use fs_types::{Call, OpenFlags, Path};
use inquiries::print_path;
use script::print_number;
use std::alloc::AllocError;

/// Appends the line of a call; nothing for a call that no update has.
pub(crate) fn print_call(out: &mut Vec<u8>, call: &Call) -> Result<(), AllocError>
    ensures { OnOk result (out.new.items ≡ out.old.items ++ call_line call.now) }
{
    match call {
        Call::Begin => out.extend_from_slice(b"begin\n"),
        Call::End => out.extend_from_slice(b"end\n"),
        Call::Sync => out.extend_from_slice(b"sync\n"),
        Call::Mkdir { path } => print_path_line(out, b"mkdir ", path),
        Call::Rmdir { path } => print_path_line(out, b"rmdir ", path),
        Call::Unlink { path } => print_path_line(out, b"unlink ", path),
        Call::WriteFile { path, bytes } => print_write(out, path, bytes.as_slice()),
        Call::Open { path, flags } => print_open(out, path, *flags),
        Call::Pwrite {
            descriptor,
            offset,
            bytes,
        } => { print_pwrite(out, *descriptor, *offset, bytes.as_slice()) }
        Call::Ftruncate { descriptor, length } => print_ftruncate(out, *descriptor, *length),
        Call::Close { descriptor } => print_close(out, *descriptor),
        _ => Ok(()),
    }
}

/// Appends the line of a verb, which ends with a space, and a path.
fn print_path_line(out: &mut Vec<u8>, verb: &[u8], path: &Path) -> Result<(), AllocError>
    ensures { OnOk result (out.new.items ≡ out.old.items ++ (verb.now ++ path_text path.now ++ codes "\n")) }
{
    out.extend_from_slice(verb)?;
    print_path(out, path.names())?;
    out.push(b'\n')?;
    Ok(())
}

/// Appends the line that gives a file these bytes.
fn print_write(out: &mut Vec<u8>, path: &Path, bytes: &[u8]) -> Result<(), AllocError>
    ensures { OnOk result (out.new.items ≡ out.old.items ++ call_line (Call.WriteFile path.now bytes.now)) }
{
    out.extend_from_slice(b"write ")?;
    print_path(out, path.names())?;
    out.push(b' ')?;
    print_data(out, bytes)?;
    out.push(b'\n')?;
    Ok(())
}

/// Appends the line that opens a file.
fn print_open(out: &mut Vec<u8>, path: &Path, flags: OpenFlags) -> Result<(), AllocError>
    ensures { OnOk result (out.new.items ≡ out.old.items ++ call_line (Call.Open path.now flags)) }
{
    out.extend_from_slice(b"open ")?;
    print_path(out, path.names())?;
    out.push(b' ')?;
    print_number(out, flags.bits())?;
    out.push(b'\n')?;
    Ok(())
}

/// Appends the line that gives an open file a length.
fn print_ftruncate(out: &mut Vec<u8>, descriptor: u64, length: u64) -> Result<(), AllocError>
    ensures { OnOk result (out.new.items ≡ out.old.items ++ call_line (Call.Ftruncate descriptor length)) }
{
    out.extend_from_slice(b"ftruncate ")?;
    print_number(out, descriptor)?;
    out.push(b' ')?;
    print_number(out, length)?;
    out.push(b'\n')?;
    Ok(())
}

/// Appends the line that closes an open file.
fn print_close(out: &mut Vec<u8>, descriptor: u64) -> Result<(), AllocError>
    ensures { OnOk result (out.new.items ≡ out.old.items ++ call_line (Call.Close descriptor)) }
{
    out.extend_from_slice(b"close ")?;
    print_number(out, descriptor)?;
    out.push(b'\n')?;
    Ok(())
}

/// Appends the line that writes bytes to an open file.
fn print_pwrite(
    out: &mut Vec<u8>,
    descriptor: u64,
    offset: u64,
    bytes: &[u8],
) -> Result<(), AllocError>
    ensures { OnOk result (out.new.items ≡ out.old.items ++ call_line (Call.Pwrite descriptor offset bytes.now)) }
{
    print_place(out, descriptor, offset)?;
    print_data(out, bytes)?;
    out.push(b'\n')?;
    Ok(())
}

/// Appends the words that say where bytes are written.
fn print_place(out: &mut Vec<u8>, descriptor: u64, offset: u64) -> Result<(), AllocError>
    ensures { OnOk result (out.new.items ≡ out.old.items ++ (codes "pwrite " ++ decimal descriptor ++ codes " " ++ decimal offset ++ codes " ")) }
{
    out.extend_from_slice(b"pwrite ")?;
    print_number(out, descriptor)?;
    out.push(b' ')?;
    print_number(out, offset)?;
    out.push(b' ')?;
    Ok(())
}

/// Appends data as a word.
fn print_data(out: &mut Vec<u8>, bytes: &[u8]) -> Result<(), AllocError>
    ensures { OnOk result (out.new.items ≡ out.old.items ++ data_word bytes.now) }
{
    match bytes {
        [] => {
            out.push(b'-')?;
            Ok(())
        }
        _ => {
            let digits = hex::encode(*out.allocator(), bytes)?;
            out.extend_from_slice(digits.as_bytes())
        }
    }
}
