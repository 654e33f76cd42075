//! Hexadecimal digits, and the bytes that they spell, two for each (Adobe Type 1 Font Format 1.1,
//! chapter 7).
//!
//! The cipher of a font file is read in full lines of 64 digits, as most files have them; where no
//! full line follows, it is read byte by byte. The crate `hex`, which writes these lines, reads one
//! digit after another, and takes several times as long.

ghost use Rattle.std.specs.Prelude.{◌≡◌, ◌++◌, ◌<◌, ◌≤◌, [], ◌∷◌, Ok, length, IfOk, IfErr, IfSome, MatchOption};
ghost use Rattle.hex.specs.Hex.{is_hex_digit};
ghost use Rattle.t1_bytes.specs.{Eexec.{digit_value, paired, all_hex, digits_ahead, spelled_ahead}, Faults.{Answers}};
ghost use Rattle.t1_bytes.specs.declared.fault.BytesFault.TheVariants.{Memory};

use crate::fault::BytesFault;
use crate::hexadecimal::LINE;
use crate::texts::{count_at, is_white, white_at};
use std::alloc::Global;

/// Whether a byte is a hexadecimal digit of either case.
pub fn is_hex_digit(byte: u8) -> bool
    ensures { result ≡ is_hex_digit byte }
{
    matches!(byte, b'0'..=b'9' | b'A'..=b'F' | b'a'..=b'f')
}

/// The value of a hexadecimal digit of either case, and 0 for another byte.
fn digit_value(byte: u8) -> u8
    ensures value { result ≡ digit_value byte }
    ensures small { result < 16 }
{
    match byte {
        b'A'..=b'F' => byte - b'A' + 10,
        b'a'..=b'f' => byte - b'a' + 10,
        b'0'..=b'9' => byte - b'0',
        _ => 0,
    }
}

/// Whether each byte is a hexadecimal digit. It looks at all of them, since the compiled code of a
/// loop that may end early takes one byte at a time.
fn all_hex(bytes: &[u8]) -> bool
    ensures { result ≡ all_hex bytes.now }
{
    let mut digits = true;
    'bytes: for byte in bytes {
        digits &= is_hex_digit(*byte);
    }
    digits
}

/// The bytes that the digits of a full line spell.
fn line_bytes(line: &[u8]) -> [u8; LINE]
    requires { length line.now ≡ 64 }
    ensures { result ≡ paired line.now }
{
    let mut bytes = [0; LINE];
    'bytes: for i in 0..LINE {
        bytes[i] = digit_value(line[2 * i]) * 16 + digit_value(line[2 * i + 1]);
    }
    bytes
}

/// The digits of a full line, without the white space before them, and what stands after them;
/// `None` if another byte comes before there are enough.
fn line_at(text: &[u8]) -> Option<(&[u8], &[u8])>
    ensures full { IfSome result (λ x. length x.0.now ≡ 64) }
    ensures read { IfSome result (λ x. spelled_ahead text.now
        ≡ paired x.0.now ++ spelled_ahead x.1.now) }
    ensures shorter { IfSome result (λ x. length x.1.now < length text.now) }
{
    let (_, rest) = white_at(text);
    let (line, after) = count_at(rest, 2 * LINE)?;
    if !all_hex(line) {
        return None;
    }
    Some((line, after))
}

/// The next digit, without the white space before it, and what stands after it.
fn digit_at(text: &[u8]) -> Option<(u8, &[u8])>
    ensures read { MatchOption result (digits_ahead text.now
        ≡ []) (λ x. digits_ahead text.now ≡ x.0 ∷ digits_ahead x.1.now) }
    ensures shorter { IfSome result (λ x. length x.1.now < length text.now) }
{
    let (_, rest) = white_at(text);
    let (digit, after) = rest.split_first()?;
    if !is_hex_digit(*digit) {
        return None;
    }
    Some((*digit, after))
}

/// The byte of the next two digits, and what stands after them; `None` if there are fewer.
fn pair_at(text: &[u8]) -> Option<(u8, &[u8])>
    ensures read { MatchOption result (spelled_ahead text.now
        ≡ []) (λ x. spelled_ahead text.now ≡ x.0 ∷ spelled_ahead x.1.now) }
    ensures shorter { IfSome result (λ x. length x.1.now < length text.now) }
{
    let (high, rest) = digit_at(text)?;
    let (low, after) = digit_at(rest)?;
    Some((digit_value(high) * 16 + digit_value(low), after))
}

/// Appends the bytes of the next digits, up to the first white space between two bytes, and
/// answers what stands after them.
fn put_pairs<'a>(bytes: &mut Vec<u8>, text: &'a [u8]) -> Result<&'a [u8], BytesFault>
    ensures read { IfOk result (λ rest. bytes.new.items ++ spelled_ahead rest.now
        ≡ bytes.old.items ++ spelled_ahead text.now) }
    ensures no_longer { IfOk result (λ rest. length rest.now ≤ length text.now) }
    ensures memory { IfErr result (λ fault. fault ≡ Memory) }
{
    let mut rest = text;
    'pairs: while rest.first().is_some_and(|byte| !is_white(*byte)) {
        let Some((byte, after)) = pair_at(rest) else {
            break;
        };
        bytes.push(byte)?;
        rest = after;
    }
    Ok(rest)
}

/// The bytes that the digits at the front of a text spell, two digits for each byte, up to the first
/// byte that is neither a digit nor white space; an odd last digit is dropped. A line of 64 digits is
/// read at once.
pub fn hex_bytes(alloc: Global, text: &[u8]) -> Result<Vec<u8>, BytesFault>
    ensures { Answers (λ v. v.items) result (Ok (spelled_ahead text.now)) }
{
    let mut bytes = Vec::with_capacity(alloc, text.len() / 2)?;
    let mut rest = text;
    'lines: loop {
        if let Some((line, after)) = line_at(rest) {
            let line = line_bytes(line);
            bytes.extend_from_slice(&line)?;
            rest = after;
        } else if let Some((byte, after)) = pair_at(rest) {
            bytes.push(byte)?;
            rest = put_pairs(&mut bytes, after)?;
        } else {
            return Ok(bytes);
        }
    }
}
