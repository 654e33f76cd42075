//! The conflicts of two fonts, as the engine and the call over files tell them.
use super::changed::{tiny_and, with_all};
use super::texts::{line_of, of_files_or_line};
use std::alloc::{AllocError, Global};
use t1_cmd::{Counted, diff_files, run_diff};
use t1_tiny::PFA;

/// What is written of two files, or the line of their refusal, and whether it is answered that the fonts join.
fn written(alloc: Global, left: &[u8], right: &[u8]) -> (Vec<u8>, Option<bool>) {
    let mut out = Vec::new(alloc);
    let ended = run_diff(
        alloc,
        &mut Counted::new(left),
        &mut Counted::new(right),
        &mut Counted::new(&mut out),
    );
    match ended {
        Ok(joins) => (out, Some(joins)),
        Err(fault) => (line_of(alloc, fault), None),
    }
}

/// Whether of two files this is written, by the engine and by the call over files, and this is answered.
pub fn differs(alloc: Global, left: &[u8], right: &[u8], want: &[u8], joins: Option<bool>) -> bool {
    let (text, answer) = written(alloc, left, right);
    let made = of_files_or_line(alloc, diff_files(alloc, left, right));
    text.as_slice() == want && made.as_slice() == want && answer == joins
}

/// Tiny with another name of code 66 and another X.
pub fn other(alloc: Global) -> Result<Vec<u8>, AllocError> {
    let x = tiny_and(alloc, b"X", b"\x8b\xf8\x88\x0d\x0e")?;
    with_all(alloc, x.as_slice(), b"dup 66 /Y put", b"dup 66 /A put")
}

/// What Tiny and that differ in.
pub const OTHER: &[u8] = b"code 66 differs\nglyph X differs\n";

/// The place of the file that is refused, if one is.
fn refused_place(alloc: Global, left: &[u8], right: &[u8]) -> Option<usize> {
    match diff_files(alloc, left, right) {
        Ok(_) => None,
        Err(refusal) => refusal.place,
    }
}

/// Whether a file is refused with this line where it is the first or the second, and its place is told.
pub fn refuses(alloc: Global, file: &[u8], line: &[u8]) -> bool {
    differs(alloc, file, b"", line, None)
        && differs(alloc, PFA, file, line, None)
        && refused_place(alloc, file, b"") == Some(0)
        && refused_place(alloc, PFA, file) == Some(1)
}
