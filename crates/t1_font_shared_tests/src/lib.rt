//! What the tests of `t1_font` and of crates above it share: files of texts, and what is seen of their fonts. A value that owns
//! much, as a font, is held by the functions of this crate alone, and the tests see it by reference: where it is held, its drops are
//! what costs most to prove.
#![tactic(auto)]

use bstr::ByteSlice;
use std::alloc::{AllocError, Global};
use t1_bytes::{EEXEC_KEY, EEXEC_LEAD, seal};
use t1_font::{
    Font, Form, ReadFault, Source, mends, read, read_vec, read_wide, read_wide_vec, write,
};

/// A clear text with the shortest Encoding.
pub const CLEAR: &[u8] = b"%!\n/Encoding StandardEncoding def\ncurrentfile eexec\n";

/// A table of glyphs for lenIV 0, through the end of a font.
pub const GLYPHS: &[u8] =
    b"/CharStrings 1 dict dup begin\n/.notdef 1 RD \x1b ND\nend\nmark currentfile closefile\n";

/// The head of a font with its test, as cmr10.pfb of 2009 has it.
pub const TESTED: &[u8] = b"%!PS-AdobeFont-1.0: CMR10 003.002
%%EndComments
FontDirectory/CMR10 known{/CMR10 findfont dup/UniqueID known{dup
/UniqueID get 5000793 eq exch/FontType get 1 eq and}{pop false}ifelse
{save true}{false}ifelse}{false}ifelse
11 dict begin
";

/// Texts, one after another.
pub fn joined(alloc: Global, texts: &[&[u8]]) -> Result<Vec<u8>, AllocError> {
    let mut all = Vec::new(alloc);
    for text in texts {
        all.extend_from_slice(text)?;
    }
    Ok(all)
}

/// So many blanks before a text.
pub fn behind(alloc: Global, blanks: usize, text: &[u8]) -> Result<Vec<u8>, AllocError> {
    let mut all = Vec::new(alloc);
    all.resize(blanks, b' ')?;
    all.extend_from_slice(text)?;
    Ok(all)
}

/// Adds a line of a number: what stands before its digits, and what after them.
pub fn add_line(
    alloc: Global,
    text: &mut Vec<u8>,
    number: u32,
    before: &[u8],
    after: &[u8],
) -> Result<(), AllocError> {
    let digits = number.to_string(alloc)?;
    text.extend_from_slice(before)?;
    text.extend_from_slice(digits.as_bytes())?;
    text.extend_from_slice(after)
}

/// A text with `new` in place of the first `old`.
pub fn with(alloc: Global, text: &[u8], old: &[u8], new: &[u8]) -> Result<Vec<u8>, AllocError> {
    match text.find(old) {
        Some(at) => joined(alloc, &[&text[..at], new, &text[at + old.len()..]]),
        None => Err(AllocError),
    }
}

/// Whether a call answers this text.
pub fn is<E: Drop>(answer: Result<Vec<u8>, E>, want: &[u8]) -> bool {
    match answer {
        Ok(text) => text.as_slice() == want,
        Err(fault) => {
            drop(fault);
            false
        }
    }
}

/// Whether two calls answer one text.
pub fn are_same<E: Drop>(one: Result<Vec<u8>, E>, other: Result<Vec<u8>, E>) -> bool {
    match one {
        Ok(text) => is(other, text.as_slice()),
        Err(fault) => {
            drop(fault);
            drop(other);
            false
        }
    }
}

/// What is seen of a value while it is there.
pub fn seen<T: Drop, E, R, F: FnOnce(&T) -> R + Drop>(answer: Result<T, E>, look: F) -> Result<R, E>
    requires { F.IsAlwaysCallable look }
{
    match answer {
        Ok(value) => Ok(look(&value)),
        Err(fault) => Err(fault),
    }
}

/// The same, where looking may fail, too.
pub fn used<T: Drop, E, R, F: FnOnce(&T) -> Result<R, E> + Drop>(
    answer: Result<T, E>,
    look: F,
) -> Result<R, E>
    requires { F.IsAlwaysCallable look }
{
    match answer {
        Ok(value) => look(&value),
        Err(fault) => Err(fault),
    }
}

/// What is seen of the font that a source lends.
pub fn lent<R, F: FnOnce(&Font<'_>) -> Result<R, AllocError> + Drop>(
    alloc: Global,
    source: &Source,
    look: F,
) -> Result<R, AllocError>
    requires { F.IsAlwaysCallable look }
{
    used(source.font(alloc), look)
}

/// The same of the font of a source, or why there is none.
pub fn of_source<R, F: FnOnce(&Font<'_>) -> Result<R, AllocError> + Drop>(
    alloc: Global,
    answer: Result<Source, ReadFault>,
    look: F,
) -> Result<R, ReadFault>
    requires { F.IsAlwaysCallable look }
{
    match answer {
        Ok(source) => match lent(alloc, &source, look) {
            Ok(found) => Ok(found),
            Err(_) => Err(ReadFault::Memory),
        },
        Err(fault) => Err(fault),
    }
}

/// The same of a file's font.
pub fn of_file<R, F: FnOnce(&Font<'_>) -> Result<R, AllocError> + Drop>(
    alloc: Global,
    file: &[u8],
    look: F,
) -> Result<R, ReadFault>
    requires { F.IsAlwaysCallable look }
{
    of_source(alloc, read(alloc, file), look)
}

/// The same of a file that spells a font.
pub fn of_font<R: Drop, F: FnOnce(&Font<'_>) -> Result<R, AllocError> + Drop>(
    alloc: Global,
    file: &[u8],
    look: F,
) -> Result<R, AllocError>
    requires { F.IsAlwaysCallable look }
{
    match of_file(alloc, file, look) {
        Ok(found) => Ok(found),
        Err(_) => Err(AllocError),
    }
}

/// The file of a clear text, up to `eexec` and a byte, and of a private text.
pub fn file(alloc: Global, clear: &[u8], private: &[u8]) -> Result<Vec<u8>, AllocError> {
    match seal(alloc, private, EEXEC_KEY, EEXEC_LEAD) {
        Ok(cipher) => joined(alloc, &[clear, cipher.as_slice()]),
        Err(_) => Err(AllocError),
    }
}

/// The same of texts that are given in parts.
pub fn file_of(alloc: Global, clear: &[&[u8]], private: &[&[u8]]) -> Result<Vec<u8>, AllocError> {
    let clear = joined(alloc, clear)?;
    let private = joined(alloc, private)?;
    file(alloc, clear.as_slice(), private.as_slice())
}

/// What the file of a clear text and of a private one reads as.
pub fn source(alloc: Global, clear: &[u8], private: &[u8]) -> Result<Source, ReadFault> {
    match file(alloc, clear, private) {
        Ok(file) => read(alloc, file.as_slice()),
        Err(_) => Err(ReadFault::Memory),
    }
}

/// The canonical file of the font that a source lends.
pub fn lent_file(alloc: Global, source: &Source, form: Form) -> Result<Vec<u8>, AllocError> {
    lent(alloc, source, |font| write(alloc, font, form))
}

/// The canonical file of a file's font.
pub fn rewritten(alloc: Global, file: &[u8], form: Form) -> Result<Vec<u8>, ReadFault> {
    of_file(alloc, file, |font| write(alloc, font, form))
}

/// Whether a file's font is written in this form as this file.
pub fn is_written_as(alloc: Global, file: &[u8], form: Form, want: &[u8]) -> bool {
    match rewritten(alloc, file, form) {
        Ok(written) => written.as_slice() == want,
        Err(_) => false,
    }
}

/// How many glyphs the font of a source has, and its weight.
pub fn lent_counts(alloc: Global, source: &Source) -> Result<(usize, u32), AllocError> {
    lent(
        alloc,
        source,
        |font| Ok((font.names().count(), font.weight())),
    )
}

/// The same of a file's font.
pub fn counts(alloc: Global, file: &[u8]) -> Result<(usize, u32), ReadFault> {
    of_file(
        alloc,
        file,
        |font| Ok((font.names().count(), font.weight())),
    )
}

/// Why a file that is handed over spells no font, or `None` if it spells one.
fn fault_handed_over(alloc: Global, file: &[u8], wide: bool) -> Option<ReadFault> {
    match Vec::from_slice(alloc, file) {
        Ok(file) if wide => read_wide_vec(alloc, file).err(),
        Ok(file) => read_vec(alloc, file).err(),
        Err(_) => Some(ReadFault::Memory),
    }
}

/// Why a file spells no font, or `None` if it spells one; all five calls say the same.
pub fn fault_of(alloc: Global, file: &[u8]) -> Option<ReadFault> {
    let lent = read(alloc, file).err();
    let wide = read_wide(alloc, file).err();
    let handed_over = fault_handed_over(alloc, file, false);
    let wide_handed_over = fault_handed_over(alloc, file, true);
    let told = mends(alloc, file).err();
    if lent == wide && lent == handed_over && lent == wide_handed_over && lent == told {
        lent
    } else {
        Some(ReadFault::Memory)
    }
}

/// Why the file of these texts, each in parts, spells no font.
pub fn fault(alloc: Global, clear: &[&[u8]], private: &[&[u8]]) -> Option<ReadFault> {
    match file_of(alloc, clear, private) {
        Ok(file) => fault_of(alloc, file.as_slice()),
        Err(_) => Some(ReadFault::Memory),
    }
}
