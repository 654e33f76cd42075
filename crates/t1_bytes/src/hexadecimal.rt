//! Lines of hexadecimal digits, and the trailer that follows them.

ghost use Rattle.std.specs.Prelude.{◌≡◌, ◌+◌, ◌-◌, ◌*◌, ◌^◌, ◌++◌, ◌≤◌, ◌<◌, ℕ, List, ◌∷◌, min, length, take, drop, OnOk, OnErr, IfOk, IfErr};
ghost use Rattle.hex.specs.Hex.{encode_lower};
ghost use Rattle.t1_bytes.specs.{declared.fault.BytesFault.TheVariants.{Memory}, Texts.{hex_lines, trailer}};

use crate::fault::BytesFault;
use std::alloc::{AllocError, Global};

/// How many bytes the digits of a line spell, two digits for each byte.
pub const LINE: usize = 32;

/// The 8 lines of 64 zeros and the line `cleartomark` that end a font file after its cipher.
const TRAILER: &[u8; 532] = b"0000000000000000000000000000000000000000000000000000000000000000
0000000000000000000000000000000000000000000000000000000000000000
0000000000000000000000000000000000000000000000000000000000000000
0000000000000000000000000000000000000000000000000000000000000000
0000000000000000000000000000000000000000000000000000000000000000
0000000000000000000000000000000000000000000000000000000000000000
0000000000000000000000000000000000000000000000000000000000000000
0000000000000000000000000000000000000000000000000000000000000000
cleartomark
";

/// The trailer of a font file: 8 lines of 64 zeros and `cleartomark`, each ended by LF.
pub fn trailer() -> &'static [u8]
    ensures { result.now ≡ trailer }
{
    TRAILER
}

/// Writes one line of digits at the front of a text.
fn set_line(text: &mut [u8], digits: &[u8])
    requires { length digits.now < length text.old }
    ensures { text.new ≡ digits.now ++ (10 ∷ drop (length digits.now + 1) text.old) }
{
    let (line, rest) = text.split_at_mut(digits.len());
    line.copy_from_slice(digits);
    rest[0] = b'\n';
}

/// Writes the line of some bytes of a text at a place behind the first of them. The digits are made elsewhere first,
/// since the line may overlap the bytes.
fn spread_line(text: &mut [u8], from: usize, len: usize, to: usize)
    requires short { len ≤ 32 }
    requires from { from + len ≤ length text.old }
    requires to { to + (2 * len + 1) ≤ length text.old }
    ensures { text.new
        ≡ take to text.old
        ++ (encode_lower (take len (drop from text.old))
        ++ (10 ∷ drop (to + (2 * len + 1)) text.old)) }
{
    let mut room = [0u8; 2 * LINE];
    let (digits, _) = room.split_at_mut(2 * len);
    if let Ok(()) = hex::encode_to_slice(&text[from..from + len], digits) {
        let (_, behind) = text.split_at_mut(to);
        set_line(behind, digits);
    }
}

/// Writes the lines of this many bytes, from `from` on, over the bytes and what stands behind them: the last line first,
/// since each is longer than its bytes.
fn spread_lines(text: &mut [u8], from: usize, count: usize, lines: usize)
    requires enough { count ≤ 32 * lines }
    requires few { 32 * lines < count + 32 }
    requires room { length text.old ≡ from + (2 * count + lines) }
    ensures { text.new ≡ take from text.old ++ hex_lines (take count (drop from text.old)) }
{
    let mut left = lines;
    'lines: while left > 0 {
        left -= 1;
        let start = LINE * left;
        let len = LINE.min(count - start);
        spread_line(text, from + start, len, from + (2 * LINE + 1) * left);
    }
}

/// Replaces the bytes of a text from `from` on by the lines that [`hex_lines`] gives for them, in the text's own vector.
///
/// # Errors
///
/// A growth was refused; then the text stays as it was.
pub(crate) fn spread_hex_lines(text: &mut Vec<u8>, from: usize) -> Result<(), AllocError>
    ensures done { OnOk result (text.new.items
        ≡ take from text.old.items ++ hex_lines (drop from text.old.items)) }
    ensures same { OnErr result (text.new.items ≡ text.old.items) }
{
    let from = from.min(text.len());
    let count = text.len() - from;
    let lines = count.div_ceil(LINE);
    text.resize(text.len().saturating_add(count).saturating_add(lines), 0)?;
    spread_lines(text.as_mut_slice(), from, count, lines);
    Ok(())
}

/// How many bytes the lines of this many bytes have, if the number fits.
pub(crate) fn lines_len(bytes: usize) -> usize
    ensures { (text : List ℕ) → length text ≡ bytes
        → result ≡ min (length (hex_lines text)) (2 ^ 64 - 1) }
{
    bytes.saturating_mul(2).saturating_add(bytes.div_ceil(LINE))
}

/// The bytes as hexadecimal text: lower-case digits, 64 on each line, with LF after each line,
/// including a short last one. No bytes give no line.
///
/// # Errors
///
/// Only want of memory.
pub fn hex_lines(alloc: Global, bytes: &[u8]) -> Result<Vec<u8>, BytesFault>
    ensures text { IfOk result (λ v. v.items ≡ hex_lines bytes.now) }
    ensures memory { IfErr result (λ fault. fault ≡ Memory) }
{
    let mut out = Vec::with_capacity(alloc, lines_len(bytes.len()))?;
    out.extend_from_slice(bytes)?;
    spread_hex_lines(&mut out, 0)?;
    Ok(out)
}
