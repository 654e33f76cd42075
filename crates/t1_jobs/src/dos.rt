//! EPS files for DOS, which have a header before the PostScript (Encapsulated PostScript File Format 3.0, 5.2).

ghost use Rattle.std.specs.{Prelude.{◌≡◌, ◌+◌, ◌<◌, ◌^◌, ◌++◌, length, IfOk, OnOk}, Option.{option_map}};
ghost use Rattle.byteorder.specs.Endian.{little_bytes};
ghost use Rattle.t1_jobs.specs.Dos.{part, header, part_of, some_bytes, dos_postscript, place_bytes, dos_bytes, dos_if_short, with_postscript};
ghost use Rattle.t1_jobs.specs.Views.{part_view, header_view};

use byteorder::{ByteOrder, LittleEndian};
use std::alloc::{AllocError, Global};
use t1_bytes::texts::{count_at, fixed_at};

/// How many bytes the header has.
const HEADER: usize = 30;

/// The four bytes that such a file begins with, and no text does.
pub(crate) const DOS_MARK: &[u8] = b"\xc5\xd0\xd3\xc6";

/// A part of a file: where it begins, and how many bytes it has.
#[derive(Clone, Copy)]
pub(crate) struct Part {
    pub(crate) start: u32,
    pub(crate) len: u32,
}

/// The parts of which a header speaks: the PostScript, and previews as a Windows metafile and as TIFF.
#[derive(Clone, Copy)]
pub(crate) struct Header {
    pub(crate) postscript: Part,
    pub(crate) metafile: Part,
    pub(crate) tiff: Part,
}

/// A part of a header, and what stands behind it.
#[tactic(auto, unfolding(crate::specs::Dos::part))]
fn part_at(bytes: &[u8]) -> Option<(Part, &[u8])>
    ensures { option_map (λ x. (part_view x.0, x.1.now)) result ≡ part.read bytes.now }
{
    let (start, rest) = count_at(bytes, 4)?;
    let start = LittleEndian::read_u32(start);
    let (len, rest) = count_at(rest, 4)?;
    let len = LittleEndian::read_u32(len);
    Some((Part { start, len }, rest))
}

/// The header that comes.
#[tactic(auto, unfolding(crate::specs::Dos::header))]
fn header_at(file: &[u8]) -> Option<Header>
    ensures { option_map header_view result ≡ option_map (λ x. x.0) (header.read file.now) }
{
    let (_, rest) = fixed_at(file, DOS_MARK)?;
    let (postscript, rest) = part_at(rest)?;
    let (metafile, rest) = part_at(rest)?;
    let (tiff, rest) = part_at(rest)?;
    let _ = count_at(rest, 2)?;
    Some(Header {
        postscript,
        metafile,
        tiff,
    })
}

/// The bytes of a part, if the file has all of them.
fn part_of(file: &[u8], part: Part) -> Option<&[u8]>
    ensures { option_map (λ r. r.now) result ≡ part_of file.now (part_view part) }
{
    let (start, len) = (part.start as usize, part.len as usize);
    if file.len() < start + len {
        return None;
    }
    let (_, rest) = file.split_at(start);
    let (inside, _) = rest.split_at(len);
    Some(inside)
}

/// The PostScript of an EPS file for DOS; `None` if there is no such header, or the file ends before what it says.
#[tactic(auto, unfolding(crate::specs::Dos::dos_postscript))]
pub(crate) fn dos_postscript(file: &[u8]) -> Option<&[u8]>
    ensures { option_map (λ r. r.now) result ≡ dos_postscript file.now }
{
    let header = header_at(file)?;
    if (header.postscript.start as usize) < HEADER {
        return None;
    }
    part_of(file, header.postscript)
}

/// The bytes of a preview; none where the file ends before them.
fn preview(file: &[u8], part: Part) -> &[u8]
    ensures { result.now ≡ some_bytes (part_of file.now (part_view part)) }
{
    match part_of(file, part) {
        Some(bytes) => bytes,
        None => b"",
    }
}

/// Adds a number in four bytes, the lowest first.
fn push_number(out: &mut Vec<u8>, number: usize) -> Result<(), AllocError>
    requires { number < 2 ^ 32 }
    ensures { OnOk result (out.new.items ≡ out.old.items ++ little_bytes 4 number) }
{
    let mut bytes = [0u8; 4];
    LittleEndian::write_u32(&mut bytes, number as u32);
    out.extend_from_slice(&bytes)
}

/// Adds a part of a header, which begins behind so many bytes.
fn push_place(out: &mut Vec<u8>, at: usize, bytes: &[u8]) -> Result<(), AllocError>
    requires { at + length bytes.now < 2 ^ 32 }
    ensures { OnOk result (out.new.items ≡ out.old.items ++ place_bytes at bytes.now) }
{
    let start = if bytes.is_empty() { 0 } else { at };
    push_number(out, start)?;
    push_number(out, bytes.len())
}

/// Adds an EPS file for DOS.
fn push_file(
    out: &mut Vec<u8>,
    postscript: &[u8],
    metafile: &[u8],
    tiff: &[u8],
) -> Result<(), AllocError>
    requires { 30 + length postscript.now + length metafile.now + length tiff.now < 2 ^ 32 }
    ensures { OnOk result (out.new.items ≡ out.old.items ++ dos_bytes postscript.now metafile.now tiff.now) }
{
    out.extend_from_slice(DOS_MARK)?;
    push_place(out, HEADER, postscript)?;
    push_place(out, HEADER + postscript.len(), metafile)?;
    push_place(out, HEADER + postscript.len() + metafile.len(), tiff)?;
    out.extend_from_slice(b"\xff\xff")?;
    out.extend_from_slice(postscript)?;
    out.extend_from_slice(metafile)?;
    out.extend_from_slice(tiff)
}

/// An EPS file for DOS, if its numbers fit into four bytes.
fn dos_if_short(
    alloc: Global,
    postscript: &[u8],
    metafile: &[u8],
    tiff: &[u8],
) -> Result<Option<Vec<u8>>, AllocError>
    ensures { IfOk result (λ o. option_map (λ v. v.items) o ≡ dos_if_short postscript.now metafile.now tiff.now) }
{
    let len = HEADER
        .saturating_add(postscript.len())
        .saturating_add(metafile.len())
        .saturating_add(tiff.len());
    if len > u32::MAX as usize {
        return Ok(None);
    }
    let mut out = Vec::with_capacity(alloc, len)?;
    push_file(&mut out, postscript, metafile, tiff)?;
    Ok(Some(out))
}

/// An EPS file for DOS with this PostScript in place of its own; `None` if there is no header, or it would be longer than the header
/// can say. Its previews stay.
#[tactic(auto, unfolding(crate::specs::Dos::with_postscript))]
pub(crate) fn with_postscript(
    alloc: Global,
    file: &[u8],
    postscript: &[u8],
) -> Result<Option<Vec<u8>>, AllocError>
    ensures { IfOk result (λ o. option_map (λ v. v.items) o ≡ with_postscript file.now postscript.now) }
{
    let Some(header) = header_at(file) else {
        return Ok(None);
    };
    let metafile = preview(file, header.metafile);
    let tiff = preview(file, header.tiff);
    dos_if_short(alloc, postscript, metafile, tiff)
}
