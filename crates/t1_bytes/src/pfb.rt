//! PFB segments (Technical Note 5040).

ghost use Rattle.std.specs.{Prelude.{◌≡◌, ◌++◌, ◌∷◌, ◌≤◌, ◌<◌, ◌^◌, ℕ, List, length, Ok, Err, MatchResult, OnOk, IfOk, IfErr}, Option.{option_map}};
ghost use Rattle.t1_bytes.specs.{declared.fault.BytesFault.TheVariants.{Memory}, Segments.{segment, end}, FlatText.{starts_segment, IsFlat, IsBad, flat_of}};
ghost use Rattle.t1_bytes.specs.{Limits.{file_limit}, Texts.{segment_text, pfb_text}, Faults.{Gives, Refuses}};
ghost use Rattle.byteorder.specs.Endian.{little_bytes};

use crate::fault::BytesFault;
use crate::texts::{count_at, fixed_at};
use byteorder::{ByteOrder, LittleEndian};
use std::alloc::{AllocError, Global};

/// The byte that each segment begins with.
const MARK: u8 = 128;

/// The kind of a text segment.
const TEXT: u8 = 1;

/// The kind of a binary segment.
const BINARY: u8 = 2;

/// The kind of the segment that ends the file. It has no length and no data.
const END: u8 = 3;

/// Puts bytes in front of those that a vector has.
pub(crate) fn put_front(bytes: &mut Vec<u8>, front: &[u8]) -> Result<(), AllocError>
    ensures { OnOk result (bytes.new.items ≡ front.now ++ bytes.old.items) }
{
    let len = bytes.len();
    bytes.resize(len.saturating_add(front.len()), 0)?;
    bytes.copy_within(0..len, front.len());
    let (first, _) = bytes.as_mut_slice().split_at_mut(front.len());
    first.copy_from_slice(front);
    Ok(())
}

/// The data of a text or binary segment, and what stands after it.
fn segment_at(bytes: &[u8]) -> Option<(&[u8], &[u8])>
    ensures { option_map (λ x. (x.0.now, x.1.now)) result ≡ segment.read bytes.now }
{
    let (_, rest) = fixed_at(bytes, &[MARK])?;
    let (kind, rest) = count_at(rest, 1)?;
    if kind != [TEXT].as_slice() && kind != [BINARY].as_slice() {
        return None;
    }
    let (len, rest) = count_at(rest, 4)?;
    count_at(rest, LittleEndian::read_u32(len) as usize)
}

/// The end of the segments, and what stands after it.
fn end_at(bytes: &[u8]) -> Option<(&[u8], &[u8])>
    ensures { option_map (λ x. (x.0.now, x.1.now)) result ≡ end.read bytes.now }
{
    if bytes.is_empty() {
        return Some((bytes, bytes));
    }
    fixed_at(bytes, &[MARK, END])
}

/// Whether a file consists of segments: its first byte is 128. The flat text of any other file is the file itself.
fn is_segmented(file: &[u8]) -> bool
    ensures { result ≡ starts_segment file.now }
{
    file.starts_with(&[MARK])
}

/// The flat text of a file, in a vector of its own.
fn flat(alloc: Global, file: &[u8]) -> Result<Vec<u8>, BytesFault>
    ensures { Gives (λ v. v.items) result (flat_of file.now) }
{
    let copy = Vec::from_slice(alloc, file)?;
    flatten_vec(copy)
}

/// The flat text of a file: of a PFB file, which begins with 128, the data of its text and binary
/// segments, joined; of any other file, the file itself (Technical Note 5040).
///
/// A segment of type 3 ends a PFB file, and so does the end of the input if it comes where a segment
/// would begin. What follows type 3 is ignored. Both are this project's choice.
///
/// # Errors
///
/// `BadSegment` with the offset in the file of the first header that is wrong: another first byte,
/// another type, or a file that ends inside the header or its data. Want of memory is `Memory`.
pub fn flatten(alloc: Global, file: &[u8]) -> Result<Vec<u8>, BytesFault>
    ensures right { MatchResult result (λ v. IsFlat file.now v.items) (Refuses file.now) }
    ensures only { (text : List ℕ) → IsFlat file.now text → Gives (λ v. v.items) result (Ok text) }
    ensures refused { (at : ℕ) → IsBad file.now at → Gives (λ v. v.items) result (Err at) }
    ensures exact { Gives (λ v. v.items) result (flat_of file.now) }
{
    flat(alloc, file)
}

/// Flattens a file in its own vector, by the reading of segments from left to right.
fn join(file: &mut Vec<u8>) -> Result<(), BytesFault>
    ensures exact { Gives (λ _. file.new.items) result (flat_of file.old.items) }
    ensures memory { IfErr result (λ fault. fault ≡ Memory → ⊥) }
{
    if !is_segmented(file.as_slice()) {
        return Ok(());
    }
    let mut len = 0;
    let mut at = 0;
    'segments: loop {
        let (_, rest) = file.as_slice().split_at(at);
        if let Some(_) = end_at(rest) {
            file.truncate(len);
            return Ok(());
        }
        let Some((data, after)) = segment_at(rest) else {
            return Err(BytesFault::BadSegment { at });
        };
        let size = data.len();
        let next = file.len() - after.len();
        file.copy_within(next - size..next, len);
        len += size;
        at = next;
    }
}

/// Turns a file into its flat text, in its own vector: the data of the segments is moved to the front, and what stands
/// behind it is cut off. It takes no memory; [`flatten`] says what the flat text is.
///
/// # Errors
///
/// `BadSegment`, as in [`flatten`]. The file is gone then, as it is handed over.
pub fn flatten_vec(file: Vec<u8>) -> Result<Vec<u8>, BytesFault>
    ensures exact { Gives (λ v. v.items) result (flat_of file.items) }
    ensures memory { IfErr result (λ fault. fault ≡ Memory → ⊥) }
{
    let mut flat = file;
    match join(&mut flat) {
        Ok(()) => Ok(flat),
        Err(fault) => Err(fault),
    }
}

/// Writes the header of a segment of this many bytes at the end.
fn put_header(out: &mut Vec<u8>, kind: u8, len: usize) -> Result<(), AllocError>
    requires { len < 2 ^ 32 }
    ensures { OnOk result (out.new.items ≡ out.old.items ++ (128 ∷ kind ∷ little_bytes 4 len)) }
{
    let mut number = [0u8; 4];
    LittleEndian::write_u32(&mut number, len as u32);
    out.extend_from_slice(&[MARK, kind])?;
    out.extend_from_slice(&number)?;
    Ok(())
}

/// Writes a segment at the end.
fn put_segment(out: &mut Vec<u8>, kind: u8, bytes: &[u8]) -> Result<(), AllocError>
    requires { length bytes.now < 2 ^ 32 }
    ensures { OnOk result (out.new.items ≡ out.old.items ++ segment_text kind bytes.now) }
{
    put_header(out, kind, bytes.len())?;
    out.extend_from_slice(bytes)?;
    Ok(())
}

/// How many bytes a PFB file has beside its clear part, its cipher and its trailer: three headers of 6 bytes, and 2 bytes for the
/// end.
pub(crate) const AROUND: usize = 20;

/// Makes the PFB file of a cipher in the cipher's own vector: [`segments`] says what it is.
pub(crate) fn put_segments(
    alloc: Global,
    out: &mut Vec<u8>,
    clear: &[u8],
    trailer: &[u8],
) -> Result<(), AllocError>
    requires clear { length clear.now ≤ file_limit }
    requires cipher { length out.old.items ≤ file_limit }
    requires trailer { length trailer.now ≤ file_limit }
    ensures { OnOk result (out.new.items ≡ pfb_text clear.now out.old.items trailer.now) }
{
    let mut front = Vec::with_capacity(alloc, clear.len().saturating_add(AROUND))?;
    put_segment(&mut front, TEXT, clear)?;
    put_header(&mut front, BINARY, out.len())?;
    put_front(out, front.as_slice())?;
    put_segment(out, TEXT, trailer)?;
    out.extend_from_slice(&[MARK, END])?;
    Ok(())
}

/// The PFB file of a clear part, a binary cipher and a trailer: a text segment, a binary segment and
/// a text segment, and the end (Technical Note 5040). Each argument has at most
/// [`FILE_LIMIT`](crate::FILE_LIMIT) bytes.
///
/// # Errors
///
/// Only want of memory.
pub fn segments(
    alloc: Global,
    clear: &[u8],
    cipher: &[u8],
    trailer: &[u8],
) -> Result<Vec<u8>, BytesFault>
    requires clear { length clear.now ≤ file_limit }
    requires cipher { length cipher.now ≤ file_limit }
    requires trailer { length trailer.now ≤ file_limit }
    ensures text { IfOk result (λ v. v.items ≡ pfb_text clear.now cipher.now trailer.now) }
    ensures memory { IfErr result (λ fault. fault ≡ Memory) }
{
    let size = clear.len() + cipher.len() + trailer.len() + AROUND;
    let mut out = Vec::with_capacity(alloc, size)?;
    out.extend_from_slice(cipher)?;
    put_segments(alloc, &mut out, clear, trailer)?;
    Ok(out)
}
