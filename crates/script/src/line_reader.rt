//! Lines from a reader, and text to a writer.
ghost use Rattle.std.specs.Prelude.{◌≡◌, ◌≢◌, ℕ, ◌<◌, ◌≤◌, List, [], ◌∷◌, ◌++◌, length, take, vec_len, vec_capacity, MatchResult, OnOk, OnErr, IfOk, IfErr};
ghost use Rattle.std.specs.IoError.{error_kind};
ghost use Rattle.std.specs.Io.KnownBytes.{Consumes, IsAtEnd, Appends, Keeps};
ghost use Rattle.script.specs.Streams.{TakesByte, TakesRest, TakesPart, TakesLineBytes, TakesLines};
ghost use Rattle.script.specs.declared.line_reader.Taken.TheVariants.{TooLong};

use crate::line::LINE_LIMIT;
use std::alloc::{AllocError, Global};
use std::io;
use std::io::{ErrorKind, Read, Write};
use std::marker::Model;

/// What was taken from a reader.
#[derive(Clone, Copy, Debug, PartialEq, Eq)]
pub enum Taken {
    /// A line of at most [`LINE_LIMIT`] bytes.
    Line,
    /// A longer line.
    TooLong,
    /// Nothing: the input has ended.
    End,
}

/// Reads a byte, and tries again where a signal interrupts; `None` where the input has ended.
pub fn read_byte<R: Read>(reader: &mut R) -> io::Result<Option<u8>>
    ensures taken { MatchResult result
        (TakesByte (R.remaining reader.old) (R.remaining reader.new))
        (λ _. Keeps (R.remaining reader.old) (R.remaining reader.new)) }
    ensures again { IfErr result (λ e. error_kind e ≢ ErrorKind.Interrupted) }
{
    let mut byte = [0u8];
    for _ in 0..u64::MAX {
        match reader.read(&mut byte) {
            Ok(0) => return Ok(None),
            Ok(_) => return Ok(Some(byte[0])),
            Err(error) => {
                if error.kind() != ErrorKind::Interrupted {
                    return Err(error);
                }
            }
        }
    }
    Err(io::Error::from(ErrorKind::Other))
}

/// Reads past the rest of a line.
fn skip_line<R: Read>(reader: &mut R) -> io::Result<()>
    ensures rest { MatchResult result
        (λ _. (bytes : List ℕ) × TakesRest (R.remaining reader.old) (R.remaining reader.new) bytes)
        (λ _. TakesPart (R.remaining reader.old) (R.remaining reader.new)) }
    ensures again { IfErr result (λ e. error_kind e ≢ ErrorKind.Interrupted) }
{
    for _ in 0..u64::MAX {
        let Some(byte) = read_byte(reader)? else {
            return Ok(());
        };
        if byte == b'\n' {
            return Ok(());
        }
    }
    Err(io::Error::from(ErrorKind::Other))
}

/// Reads past the rest of a line that is too long.
fn skip_long<R: Read>(reader: &mut R) -> io::Result<Taken>
    ensures long { IfOk result (λ taken. taken ≡ TooLong) }
    ensures rest { MatchResult result
        (λ _. (bytes : List ℕ) × TakesRest (R.remaining reader.old) (R.remaining reader.new) bytes)
        (λ _. TakesPart (R.remaining reader.old) (R.remaining reader.new)) }
    ensures again { IfErr result (λ e. error_kind e ≢ ErrorKind.Interrupted) }
{
    skip_line(reader)?;
    Ok(Taken::TooLong)
}

/// Reads a line into an empty buffer with room for [`LINE_LIMIT`] bytes.
fn fill_line<R: Read>(buffer: &mut Vec<u8>, reader: &mut R) -> io::Result<Taken>
    requires empty { buffer.old.items ≡ [] }
    requires room { LINE_LIMIT ≤ vec_capacity buffer.old }
    ensures room { LINE_LIMIT ≤ vec_capacity buffer.new }
    ensures taken { TakesLineBytes (R.remaining reader.old) (R.remaining reader.new) result buffer.new.items }
    ensures again { IfErr result (λ e. error_kind e ≢ ErrorKind.Interrupted) }
{
    loop {
        let Some(byte) = read_byte(reader)? else {
            return Ok(if buffer.is_empty() {
                Taken::End
            } else {
                Taken::Line
            });
        };
        if byte == b'\n' {
            return Ok(Taken::Line);
        }
        if buffer.len() == LINE_LIMIT {
            return skip_long(reader);
        }
        let _ = buffer.push(byte);
    }
}

/// Reads lines of at most [`LINE_LIMIT`] bytes, one after the other, in memory for one line that is
/// made once. Contracts see the bytes of the line that was read last.
#[derive(Debug, Drop)]
pub struct LineReader {
    buffer: Vec<u8>,
}

impl Model for LineReader {
    ghost use Rattle.std.specs.Prelude.{◌≤◌, List, ℕ, vec_capacity};

    ghost Value = { List ℕ };

    ghost view = { λ r. r.buffer.items };

    ghost invariant = { λ r. 65536 ≤ vec_capacity r.buffer };
}

impl LineReader {
    /// A reader that has read no line.
    pub fn new(alloc: Global) -> Result<Self, AllocError>
        ensures { IfOk result (λ r. r ≡ []) }
    {
        Ok(LineReader {
            buffer: Vec::with_capacity(alloc, LINE_LIMIT)?,
        })
    }

    /// Takes the next line from a reader. It ends with LF, and the last one may end with the input;
    /// of one that is too long nothing is kept. After an error a part of a line may be lost. A signal
    /// is no error: it is read again.
    pub fn next_line<R: Read>(&mut self, reader: &mut R) -> io::Result<Taken>
        ensures taken { TakesLineBytes (R.remaining reader.old) (R.remaining reader.new) result self.new }
        ensures lines { TakesLines (R.remaining reader.old) (R.remaining reader.new) result self.new }
        ensures again { IfErr result (λ e. error_kind e ≢ ErrorKind.Interrupted) }
    {
        self.buffer.clear();
        fill_line(&mut self.buffer, reader)
    }

    /// The bytes of the line that was read last, without its LF.
    pub fn line(&self) -> &[u8]
        ensures { result.now ≡ self.now }
    {
        self.buffer.as_slice()
    }
}

/// Writes some of the bytes, and tries again where a signal interrupts.
fn write_some<W: Write>(writer: &mut W, bytes: &[u8]) -> io::Result<usize>
    ensures bound { IfOk result (λ n. n ≤ length bytes.now) }
    ensures ok { IfOk result (λ n. Appends (W.contents writer.old) (W.contents writer.new) (take n bytes.now)) }
    ensures err { OnErr result (Keeps (W.contents writer.old) (W.contents writer.new)) }
    ensures again { IfErr result (λ e. error_kind e ≢ ErrorKind.Interrupted) }
{
    for _ in 0..u64::MAX {
        match writer.write(bytes) {
            Ok(count) => return Ok(count),
            Err(error) => {
                if error.kind() != ErrorKind::Interrupted {
                    return Err(error);
                }
            }
        }
    }
    Err(io::Error::from(ErrorKind::Other))
}

/// Writes all of the bytes. Where that fails, a beginning of them was written. A signal is no failure:
/// it is written again.
pub fn write_out<W: Write>(writer: &mut W, bytes: &[u8]) -> io::Result<()>
    ensures ok { OnOk result (Appends (W.contents writer.old) (W.contents writer.new) bytes.now) }
    ensures err { OnErr result ((n : ℕ) × Appends (W.contents writer.old) (W.contents writer.new) (take n bytes.now)) }
    ensures again { IfErr result (λ e. error_kind e ≢ ErrorKind.Interrupted) }
{
    let mut written = 0;
    while written < bytes.len() {
        let count = write_some(writer, &bytes[written..])?;
        if count == 0 {
            return Err(io::Error::from(ErrorKind::WriteZero));
        }
        written += count;
    }
    Ok(())
}
