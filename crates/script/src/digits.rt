//! Numbers, bytes and names as they are printed.
ghost use Rattle.std.specs.Prelude.{◌≡◌, false, ◌++◌, decimal, OnOk};
ghost use Rattle.std.specs.List.{flat_map};
ghost use Rattle.script.specs.Replies.{hex_pair, escaped};

use itoa::Buffer;
use percent_encoding::{AsciiSet, CONTROLS, ascii_set, percent_encode};
use std::alloc::AllocError;

/// The ASCII bytes that do not stand for themselves in a name.
const ESCAPED: AsciiSet = ascii_set!(CONTROLS.add(b' ').add(b'%'));

/// Appends a number in decimal digits.
pub fn print_number(out: &mut Vec<u8>, number: u64) -> Result<(), AllocError>
    ensures { OnOk result (out.new.items ≡ out.old.items ++ decimal number) }
{
    let mut buffer = Buffer::new();
    out.extend_from_slice(buffer.format(number).as_bytes())
}

/// Appends bytes in lower-case hexadecimal digits.
pub fn print_hex(out: &mut Vec<u8>, bytes: &[u8]) -> Result<(), AllocError>
    ensures { OnOk result (out.new.items ≡ out.old.items ++ flat_map (hex_pair false) bytes.now) }
{
    for byte in bytes {
        let mut digits = [0; 2];
        hex::encode_to_slice([*byte], &mut digits).unwrap();
        out.extend_from_slice(&digits)?;
    }
    Ok(())
}

/// Appends a name with its escapes.
pub fn print_name(out: &mut Vec<u8>, name: &[u8]) -> Result<(), AllocError>
    ensures { OnOk result (out.new.items ≡ out.old.items ++ escaped name.now) }
{
    for piece in percent_encode(name, ESCAPED) {
        out.extend_from_slice(piece.as_bytes())?;
    }
    Ok(())
}
