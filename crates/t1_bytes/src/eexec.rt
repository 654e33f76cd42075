//! The end of the clear text, and the cipher after it (Adobe Type 1 Font Format 1.1, chapter 7).

ghost use Rattle.std.specs.{Prelude.{◌≡◌, ◌≤◌, ℕ, List, Some, Ok, Err, IfOk, MatchResult, length, take_while}, Option.{option_map}};
ghost use Rattle.t1_grammar.specs.{Grammar.{run, first, exact}, Formats.{if_ok, or_fault}};
ghost use Rattle.t1_bytes.specs.Eexec.{is_blank, blank_comes, eexec_marker, is_hex_text, hex_or_white, hex_text, cipher_text};
ghost use Rattle.t1_bytes.specs.{Split.{split_view, cipher_in, last_bytes, IsSplit, SplitFails, split_of}, Faults.{Answers, OrMemory}};
ghost use Rattle.t1_bytes.specs.{declared.fault.BytesFault.{BytesFault}, declared.fault.BytesFault.TheVariants.{ShortCipher}};

use crate::digits::{hex_bytes, is_hex_digit};
use crate::fault::BytesFault;
use crate::texts::{find_from, fixed_at, gap_at, is_white};
use std::alloc::Global;

/// Whether a byte is one of the four that may follow `eexec`.
fn is_blank(byte: u8) -> bool
    ensures { result ≡ is_blank byte }
{
    matches!(byte, b' ' | b'\t' | b'\r' | b'\n')
}

/// Whether such a byte stands next.
fn blank_comes(bytes: &[u8]) -> bool
    ensures { result ≡ blank_comes bytes.now }
{
    !bytes.is_empty() && is_blank(bytes[0])
}

/// What stands after the marker at the front of bytes.
#[tactic(auto, unfolding(crate::specs::Eexec::eexec_marker))]
fn eexec_marker_at(bytes: &[u8]) -> Option<&[u8]>
    ensures { option_map (λ x. x.now) result ≡ option_map (λ x. x.1) (eexec_marker.read bytes.now) }
{
    let (_, rest) = fixed_at(bytes, b"currentfile")?;
    let (_, rest) = gap_at(rest)?;
    let (_, rest) = fixed_at(rest, b"eexec")?;
    if !blank_comes(rest) {
        return None;
    }
    Some(rest)
}

/// What stands after the first `eexec` that stands after `currentfile` and white space and before a blank, a tab, CR or LF
/// (Adobe Type 1 Font Format 1.1, chapter 7); `None` if there is none.
pub fn after_eexec(flat: &[u8]) -> Option<&[u8]>
    ensures { option_map (λ x. x.now) result
        ≡ option_map (λ x. x.1) ((first eexec_marker).read flat.now) }
{
    let mut from = 0;
    'places: while let Some(place) = find_from(flat, b"currentfile", from) {
        let (_, here) = flat.split_at(place);
        if let Some(after) = eexec_marker_at(here) {
            return Some(after);
        }
        from = place + 1;
    }
    None
}

/// Whether the next four bytes are hexadecimal digits.
fn is_hex_text(bytes: &[u8]) -> bool
    ensures { result ≡ is_hex_text bytes.now }
{
    match bytes {
        [a, b, c, d, ..] => {
            is_hex_digit(*a) && is_hex_digit(*b) && is_hex_digit(*c) && is_hex_digit(*d)
        }
        _ => false,
    }
}

/// How many blanks, tabs, CR and LF come first.
fn blanks_len(bytes: &[u8]) -> usize
    ensures { result ≡ length (take_while is_blank bytes.now) }
{
    bytes.iter().take_while(|b| is_blank(**b)).count()
}

/// What stands after blanks, tabs, CR and LF.
fn after_blanks(bytes: &[u8]) -> &[u8]
    ensures { (run is_blank).read bytes.now ≡ Some (take_while is_blank bytes.now, result.now) }
{
    let (_, rest) = bytes.split_at(blanks_len(bytes));
    rest
}

/// How many hexadecimal digits and bytes of white space come first.
fn hex_or_white_len(bytes: &[u8]) -> usize
    ensures { result ≡ length (take_while hex_or_white bytes.now) }
{
    bytes
        .iter()
        .take_while(|b| is_hex_digit(**b) || is_white(**b))
        .count()
}

/// The hexadecimal digits and the white space of a cipher, and what stands after them: behind blanks, tabs, CR and LF the
/// run of such digits and white space. `None` if no four digits come there, so that the cipher is binary.
#[tactic(auto, unfolding(crate::specs::Eexec::hex_text))]
pub fn hex_text_at(bytes: &[u8]) -> Option<(&[u8], &[u8])>
    ensures { option_map (λ x. (x.0.now, x.1.now)) result ≡ hex_text.read bytes.now }
{
    let text = after_blanks(bytes);
    if !is_hex_text(text) {
        return None;
    }
    Some(text.split_at(hex_or_white_len(text)))
}

/// The cipher of a flat text: a number of bytes at the end of the text, or the bytes that hexadecimal digits spell.
#[derive(Drop)]
pub enum Cipher {
    Last(usize),
    Spelled(Vec<u8>),
}

/// The cipher of what follows the marker.
#[tactic(auto, unfolding(crate::specs::Eexec::cipher_text, crate::specs::Eexec::spelled_ahead, crate::specs::Eexec::digits_ahead))]
fn cipher_after(alloc: Global, after: &[u8]) -> Result<Cipher, BytesFault>
    ensures cipher { Answers (cipher_in after.now) result
        (if_ok (λ x. Ok x.0) (or_fault ShortCipher (cipher_text.read after.now))) }
    ensures last { IfOk result (λ c. last_bytes c ≤ length after.now) }
{
    let text = after_blanks(after);
    if !is_hex_text(text) {
        if text.len() < 4 {
            return Err(BytesFault::ShortCipher);
        }
        return Ok(Cipher::Last(text.len()));
    }
    let cipher = hex_bytes(alloc, text)?;
    if cipher.len() < 4 {
        return Err(BytesFault::ShortCipher);
    }
    Ok(Cipher::Spelled(cipher))
}

/// The offset after the first marker, and the cipher that follows.
fn find(alloc: Global, flat: &[u8]) -> Result<(usize, Cipher), BytesFault>
    ensures found { Answers (λ x. (x.0, cipher_in flat.now x.1)) result (split_of flat.now) }
    ensures last { IfOk result (λ x. last_bytes x.1 ≤ length flat.now) }
{
    let Some(after) = after_eexec(flat) else {
        return Err(BytesFault::NoEexec);
    };
    match cipher_after(alloc, after) {
        Ok(cipher) => Ok((flat.len() - after.len(), cipher)),
        Err(fault) => Err(fault),
    }
}

/// The offset after the first `eexec` that [`split_eexec`] would accept, and the cipher that follows, which isn't
/// copied if it is binary.
///
/// # Errors
///
/// Those of [`split_eexec`].
pub fn find_cipher(alloc: Global, flat: &[u8]) -> Result<(usize, Cipher), BytesFault>
    ensures right { MatchResult result (λ x. IsSplit flat.now x.0 (cipher_in flat.now x.1))
        (OrMemory (SplitFails flat.now)) }
    ensures exact { Answers (λ x. (x.0, cipher_in flat.now x.1)) result (split_of flat.now) }
    ensures last { IfOk result (λ x. last_bytes x.1 ≤ length flat.now) }
{
    find(alloc, flat)
}

/// The offset after the first marker, and the cipher bytes that follow.
fn split(alloc: Global, flat: &[u8]) -> Result<(usize, Vec<u8>), BytesFault>
    ensures { Answers split_view result (split_of flat.now) }
{
    match find(alloc, flat) {
        Ok((at, Cipher::Spelled(cipher))) => Ok((at, cipher)),
        Ok((at, Cipher::Last(len))) => {
            let cipher = Vec::from_slice(alloc, &flat[flat.len() - len..])?;
            Ok((at, cipher))
        }
        Err(fault) => Err(fault),
    }
}

/// Splits a flat text: the offset after the first `eexec` that stands after `currentfile` and white
/// space and before a blank, a tab, CR or LF, and the cipher bytes that follow, including the lead
/// bytes (Adobe Type 1 Font Format 1.1, chapter 7).
///
/// The cipher is hexadecimal if four hexadecimal digits follow the blanks, tabs, CR and LF; then it
/// ends before the first byte that is neither a hexadecimal digit nor white space. Otherwise it is
/// binary, and goes to the end.
///
/// # Errors
///
/// `NoEexec` if there is no such `eexec`, and `ShortCipher` if fewer than four cipher bytes follow
/// it. Want of memory is `Memory`.
pub fn split_eexec(alloc: Global, flat: &[u8]) -> Result<(usize, Vec<u8>), BytesFault>
    ensures right { MatchResult result (λ x. IsSplit flat.now x.0 x.1.items)
        (OrMemory (SplitFails flat.now)) }
    ensures only { (at : ℕ) (cipher : List ℕ)
        → IsSplit flat.now at cipher
        → Answers split_view result (Ok (at, cipher)) }
    ensures refused { (fault : BytesFault)
        → SplitFails flat.now fault
        → Answers split_view result (Err fault) }
    ensures exact { Answers split_view result (split_of flat.now) }
{
    split(alloc, flat)
}
