//! A file around its cipher, made in the cipher's own vector.

ghost use Rattle.std.specs.{Prelude.{◌≡◌, ◌++◌, ◌≤◌, ◌-◌, ◌^◌, ℕ, List, min, length, OnOk, IfOk}, Option.{option_map}};
ghost use Rattle.t1_bytes.specs.{Limits.{file_limit}, Texts.{file_text, file_within, hex_lines, trailer}};

use crate::form::Form;
use crate::hexadecimal::{lines_len, spread_hex_lines, trailer};
use crate::limits::FILE_LIMIT;
use crate::pfb::{AROUND, put_front, put_segments};
use std::alloc::{AllocError, Global};

/// Makes the PFA file of a cipher in the cipher's own vector: the clear part, lines of the cipher's digits, and the trailer.
fn put_lines(out: &mut Vec<u8>, clear: &[u8]) -> Result<(), AllocError>
    ensures { OnOk result (out.new.items ≡ clear.now ++ (hex_lines out.old.items ++ trailer)) }
{
    put_front(out, clear)?;
    spread_hex_lines(out, clear.len())?;
    out.extend_from_slice(trailer())?;
    Ok(())
}

/// How many bytes a file has in this form whose cipher has this many, and its clear part as many as that: room for [`file_around`].
pub fn room_around(form: Form, cipher: usize, clear: usize) -> usize
    ensures { (front text : List ℕ) → length front ≡ clear → length text ≡ cipher
        → result ≡ min (length (file_text form front text)) (2 ^ 64 - 1) }
{
    let body = match form {
        Form::Pfa => lines_len(cipher),
        Form::Pfb => cipher.saturating_add(AROUND),
    };
    body.saturating_add(clear).saturating_add(trailer().len())
}

/// The file of a clear part and a cipher that are within the limit of files.
fn made_around(
    alloc: Global,
    cipher: Vec<u8>,
    clear: &[u8],
    form: Form,
) -> Result<Vec<u8>, AllocError>
    requires clear { length clear.now ≤ file_limit }
    requires cipher { length cipher.items ≤ file_limit }
    ensures { IfOk result (λ v. v.items ≡ file_text form clear.now cipher.items) }
{
    let mut out = cipher;
    match form {
        Form::Pfa => put_lines(&mut out, clear)?,
        Form::Pfb => put_segments(alloc, &mut out, clear, trailer())?,
    }
    Ok(out)
}

/// The file of a clear part and a cipher, in this form, with the trailer at its end; `None` if one of the two has more than
/// [`FILE_LIMIT`] bytes. It is made in the cipher's vector, which takes no other memory if it has room for [`room_around`] bytes,
/// but for a copy of the clear part.
///
/// # Errors
///
/// Only want of memory.
pub fn file_around(
    alloc: Global,
    cipher: Vec<u8>,
    clear: &[u8],
    form: Form,
) -> Result<Option<Vec<u8>>, AllocError>
    ensures { IfOk result (λ o. option_map (λ v. v.items) o ≡ file_within form clear.now cipher.items) }
{
    if clear.len() <= FILE_LIMIT && cipher.len() <= FILE_LIMIT {
        Ok(Some(made_around(alloc, cipher, clear, form)?))
    } else {
        Ok(None)
    }
}
