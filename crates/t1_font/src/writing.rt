//! The canonical file of a font.

ghost use Rattle.std.specs.{Prelude.{◌≡◌, ◌≤◌, ◌++◌, length, Ok, OnOk, IfOk}, Fmt.{decimal}};
ghost use Rattle.t1_bytes.specs.{Cipher.{private_cipher}, Limits.{file_limit}};
ghost use Rattle.t1_font.specs.{FontModel.{encoding_of}, ReadFont.{read_font}, Writing.{puts_text, encoding_text}};
ghost use Rattle.t1_font.specs.Canon.{encoding_pieces, canon_clear, canon_private, canon, Fits};
ghost use Rattle.std.specs.FinMap as fin;

use crate::font::{Font, FontParts, LentEncoding};
use crate::lent::SparseArray;
use crate::private_writing::{MARKERS, private_cipher};
use itoa::Buffer;
use std::alloc::{AllocError, Global};
use t1_bytes::{Form, file_around};

/// What stands between `/Encoding` and the names of a table.
const TABLE_START: &[u8; 49] = b"256 array
0 1 255 {1 index exch /.notdef put} for";

/// Adds a number in decimal digits.
fn put_number(out: &mut Vec<u8>, number: usize) -> Result<(), AllocError>
    ensures { OnOk result (out.new.items ≡ out.old.items ++ decimal number) }
{
    let mut digits = Buffer::new();
    out.extend_from_slice(digits.format(number).as_bytes())
}

/// Writes the names of codes, and what closes them.
fn put_codes(out: &mut Vec<u8>, names: &SparseArray<'_>) -> Result<(), AllocError>
    ensures { OnOk result (out.new.items ≡ out.old.items ++ puts_text (fin.entries names.now)) }
{
    'codes: for (code, name) in names.entries() {
        out.extend_from_slice(b"\ndup ")?;
        put_number(out, code as usize)?;
        out.extend_from_slice(b" /")?;
        out.extend_from_slice(name)?;
        out.extend_from_slice(b" put")?;
    }
    out.extend_from_slice(b"\nreadonly def")?;
    Ok(())
}

/// Writes the Encoding.
fn put_encoding(out: &mut Vec<u8>, encoding: &LentEncoding<'_>) -> Result<(), AllocError>
    ensures { OnOk result (out.new.items
        ≡ out.old.items ++ encoding_text (encoding_pieces (encoding_of encoding.now))) }
{
    out.extend_from_slice(b"/Encoding ")?;
    match encoding {
        LentEncoding::Word(word) => {
            out.extend_from_slice(word)?;
            out.extend_from_slice(b" def")?;
            Ok(())
        }
        LentEncoding::Codes(names) => {
            out.extend_from_slice(TABLE_START)?;
            put_codes(out, names)?;
            Ok(())
        }
    }
}

/// How many bytes the Encoding has at most, as far as it can be told.
fn encoding_room(encoding: &LentEncoding<'_>) -> usize {
    match encoding {
        LentEncoding::Word(word) => word.len().saturating_add(MARKERS),
        LentEncoding::Codes(names) => names.weight(MARKERS as u64, 0) as usize,
    }
}

/// Writes the canonical clear text.
fn put_clear(out: &mut Vec<u8>, parts: &FontParts<'_>) -> Result<(), AllocError>
    ensures { OnOk result (out.new.items ≡ out.old.items ++ canon_clear parts.now) }
{
    let shell = parts.shell;
    out.extend_from_slice(shell.head.as_slice())?;
    put_encoding(out, &parts.encoding)?;
    out.extend_from_slice(shell.clear_tail.as_slice())?;
    out.push(b'\n')?;
    Ok(())
}

/// How many bytes the clear text has at most, as far as it can be told.
fn clear_room(parts: &FontParts<'_>) -> usize {
    let shell = parts.shell;
    encoding_room(&parts.encoding)
        .saturating_add(shell.head.len())
        .saturating_add(shell.clear_tail.len())
}

/// The canonical clear text.
fn clear_text(alloc: Global, parts: &FontParts<'_>) -> Result<Vec<u8>, AllocError>
    ensures { IfOk result (λ v. v.items ≡ canon_clear parts.now) }
{
    let mut out = Vec::with_capacity(alloc, clear_room(parts))?;
    put_clear(&mut out, parts)?;
    Ok(out)
}

/// The file of a font's parts.
fn canonical(alloc: Global, parts: &FontParts<'_>, form: Form) -> Result<Vec<u8>, AllocError>
    requires clear { length (canon_clear parts.now) ≤ file_limit }
    requires cipher { length (private_cipher (canon_private parts.now)) ≤ file_limit }
    ensures { IfOk result (λ v. v.items ≡ canon parts.now form) }
{
    let clear = clear_text(alloc, parts)?;
    let cipher = private_cipher(alloc, parts, form, clear.len())?;
    match file_around(alloc, cipher, clear.as_slice(), form)? {
        Some(file) => Ok(file),
        None => unreachable!(),
    }
}

/// The canonical file of a font (Adobe Type 1 Font Format 1.1, chapter 2; Technical Note 5040). It depends on the font
/// value alone and is read as the same font. The exception is a PFA whose head begins with byte 128, which would be
/// taken for a PFB; a PFB is always read again.
///
/// # Errors
///
/// Only want of memory.
pub fn write(alloc: Global, font: &Font<'_>, form: Form) -> Result<Vec<u8>, AllocError>
    ensures canon { IfOk result (λ v. v.items ≡ canon font.now form) }
    ensures again { IfOk result (λ v. Fits form font.now → read_font v.items ≡ Ok font.now) }
    ensures short { IfOk result (λ v. length v.items ≤ file_limit) }
{
    let file = canonical(alloc, &font.parts, form)?;
    Ok(file)
}
