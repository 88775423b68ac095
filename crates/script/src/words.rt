//! The words of a line: numbers, text with escapes, and data.
ghost use Rattle.std.specs.Prelude.{◌≡◌, ◌≢◌, ◌<◌, true, length, Some, Ok, Err, IfOk, IfErr, MatchOption};
ghost use Rattle.std.specs.List.{list_all};
ghost use Rattle.script.specs.Words.{is_digit, is_number, number_from, is_plain, hex_byte, onto, unescaped, is_dash, text_from, data_from, well_formed};
ghost use Rattle.script.specs.declared.misread.Misread.TheVariants.{NoMemory};

use crate::misread::Misread;
use fs_types::Bytes;
use std::alloc::Global;

fn are_digits(word: &[u8]) -> bool
    ensures { result ≡ list_all is_digit word.now }
{
    word.iter().all(|b| b'0' <= *b && *b <= b'9')
}

/// Whether a word is digits, with no zero in front of others.
fn is_decimal(word: &[u8]) -> bool
    ensures { result ≡ is_number word.now }
{
    match word {
        [] => false,
        [b'0', _, ..] => false,
        _ => are_digits(word),
    }
}

/// The value of digits, where it is a `u64`.
fn digits_value(digits: &[u8]) -> Option<u64>
    requires { is_number digits.now ≡ true }
    ensures { result ≡ number_from digits.now }
{
    let mut value = 0u64;
    for digit in digits {
        value = value
            .checked_mul(10)?
            .checked_add(u64::from(*digit - b'0'))?;
    }
    Some(value)
}

/// The number that a word spells.
pub fn number(word: &[u8]) -> Result<u64, Misread>
    ensures { result ≡ well_formed (number_from word.now) }
{
    if !is_decimal(word) {
        return Err(Misread::Syntax);
    }
    digits_value(word).ok_or(Misread::Syntax)
}

/// The byte of two hexadecimal digits.
fn byte_of_digits(high: u8, low: u8) -> Option<u8>
    ensures { result ≡ hex_byte high low }
{
    let mut byte = [0];
    hex::decode_to_slice([high, low], &mut byte).ok()?;
    Some(byte[0])
}

/// The first byte that a word spells, and the rest of the word.
fn first_byte(word: &[u8]) -> Option<(u8, &[u8])>
    requires { 0 < length word.now }
    ensures { MatchOption result
        (unescaped word.now ≡ None)
        (λ p. (unescaped word.now ≡ onto (Some p.0) (unescaped p.1.now)) × (length p.1.now < length word.now)) }
{
    match word {
        [b'%', high, low, rest @ ..] => Some((byte_of_digits(*high, *low)?, rest)),
        [b'%', ..] => None,
        [first @ 0x21..=0x7e, rest @ ..] => Some((*first, rest)),
        _ => None,
    }
}

/// The bytes that a word spells: bytes that stand for themselves, and `%` with two digits for any.
fn unescape(alloc: Global, word: &[u8]) -> Result<Bytes, Misread>
    ensures ok { IfOk result (λ bytes. well_formed (unescaped word.now) ≡ Ok bytes) }
    ensures err { IfErr result (λ e. e ≢ NoMemory → well_formed (unescaped word.now) ≡ Err e) }
{
    let mut bytes = Bytes::new(alloc);
    let mut rest = word;
    while !rest.is_empty() {
        let (byte, more) = first_byte(rest).ok_or(Misread::Syntax)?;
        bytes.push(byte)?;
        rest = more;
    }
    Ok(bytes)
}

fn is_dash(word: &[u8]) -> bool
    ensures { result ≡ is_dash word.now }
{
    word == &b"-"[..]
}

/// The bytes of a path or a name; `-` alone has none.
pub fn text(alloc: Global, word: &[u8]) -> Result<Bytes, Misread>
    ensures ok { IfOk result (λ bytes. well_formed (text_from word.now) ≡ Ok bytes) }
    ensures err { IfErr result (λ e. e ≢ NoMemory → well_formed (text_from word.now) ≡ Err e) }
{
    if is_dash(word) {
        return Ok(Bytes::new(alloc));
    }
    if word.is_empty() {
        return Err(Misread::Syntax);
    }
    unescape(alloc, word)
}

/// The bytes of pairs of hexadecimal digits; `-` alone has none.
pub fn data(alloc: Global, word: &[u8]) -> Result<Bytes, Misread>
    ensures ok { IfOk result (λ bytes. well_formed (data_from word.now) ≡ Ok bytes) }
    ensures err { IfErr result (λ e. e ≢ NoMemory → well_formed (data_from word.now) ≡ Err e) }
{
    if is_dash(word) {
        return Ok(Bytes::new(alloc));
    }
    if word.is_empty() {
        return Err(Misread::Syntax);
    }
    Ok(Bytes::from_vec(hex::decode(alloc, word)?))
}
