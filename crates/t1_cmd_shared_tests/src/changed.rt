//! Files of the font Tiny, and of it with changes.
use super::texts::joined;
use std::alloc::{AllocError, Global};
use t1_bytes::texts::find_from;
use t1_bytes::{CHARSTRING_KEY, EEXEC_KEY, EEXEC_LEAD, open, seal, split_eexec};
use t1_tiny::{PFA, PFB};

/// What spells the Encoding of Tiny.
const ENCODING: &[u8] = b"/Encoding 256 array
0 1 255 {1 index exch /.notdef put} for
dup 65 /X put
dup 66 /Y put
dup 194 /H put
readonly def";

/// A file of Tiny with this for its Encoding.
pub fn tiny_encoded(alloc: Global, encoding: &[u8]) -> Result<Vec<u8>, AllocError> {
    with_all(alloc, PFA, ENCODING, encoding)
}

/// The private text of Tiny.
pub fn private(alloc: Global) -> Result<Vec<u8>, AllocError> {
    let whole: &[u8] = PFB;
    let cipher = Vec::from_slice(alloc, &whole[325..1333])?;
    Ok(open(cipher, EEXEC_KEY, EEXEC_LEAD))
}

/// The bytes with lead bytes that are zero, encrypted.
fn sealed(alloc: Global, plain: &[u8], key: u16) -> Result<Vec<u8>, AllocError> {
    match seal(alloc, plain, key, 4) {
        Ok(cipher) => Ok(cipher),
        Err(_) => Err(AllocError),
    }
}

/// The text with `new` in place of each `old`.
pub fn with_all(alloc: Global, text: &[u8], old: &[u8], new: &[u8]) -> Result<Vec<u8>, AllocError> {
    let mut changed = Vec::with_capacity(alloc, text.len())?;
    let mut skip = 0usize;
    for (at, byte) in text.iter().enumerate() {
        let (_, rest) = text.split_at(at);
        if skip > 0 {
            skip -= 1;
        } else if rest.starts_with(old) {
            changed.extend_from_slice(new)?;
            skip = old.len().saturating_sub(1);
        } else {
            changed.push(*byte)?;
        }
    }
    Ok(changed)
}

/// A file with the clear text of Tiny and this private text.
fn tiny_with(alloc: Global, private: &[u8]) -> Result<Vec<u8>, AllocError> {
    let cipher = sealed(alloc, private, EEXEC_KEY)?;
    let whole: &[u8] = PFA;
    joined(alloc, &[&whole[..313], cipher.as_slice()])
}

/// A file with this many bytes of clear text before its Encoding, and this private text.
pub fn file_of(alloc: Global, before: usize, private: &[u8]) -> Result<Vec<u8>, AllocError> {
    const CLEAR: &[u8] = b"/Encoding StandardEncoding def\ncurrentfile eexec\n";
    let mut head = Vec::new(alloc);
    head.resize(before, b'%')?;
    let cipher = sealed(alloc, private, EEXEC_KEY)?;
    joined(alloc, &[head.as_slice(), CLEAR, cipher.as_slice()])
}

/// The private text of Tiny with `new` in place of each `old`.
fn private_changed(alloc: Global, old: &[u8], new: &[u8]) -> Result<Vec<u8>, AllocError> {
    let text = private(alloc)?;
    with_all(alloc, text.as_slice(), old, new)
}

/// A file of Tiny with `new` for each `old` in its private text.
pub fn tiny_changed(alloc: Global, old: &[u8], new: &[u8]) -> Result<Vec<u8>, AllocError> {
    let text = private_changed(alloc, old, new)?;
    tiny_with(alloc, text.as_slice())
}

/// The private text of a canonical file.
fn private_of(alloc: Global, file: &[u8]) -> Result<Vec<u8>, AllocError> {
    let Ok((_, cipher)) = split_eexec(alloc, file) else {
        return Err(AllocError);
    };
    Ok(open(cipher, EEXEC_KEY, EEXEC_LEAD))
}

/// A text without what stands between these two.
fn without(alloc: Global, text: &[u8], from: &[u8], to: &[u8]) -> Result<Vec<u8>, AllocError> {
    match find_from(text, from, 0) {
        Some(start) => match find_from(text, to, start) {
            Some(end) => joined(alloc, &[&text[..start], &text[end..]]),
            None => Err(AllocError),
        },
        None => Err(AllocError),
    }
}

/// A file of Tiny with the Subrs and glyphs of this subset, where this table of Subrs ends before this entry.
pub fn cut_short(
    alloc: Global,
    subset: &[u8],
    table: &[u8],
    entry: &[u8],
) -> Result<Vec<u8>, AllocError> {
    let text = private_of(alloc, subset)?;
    let text = with_all(alloc, text.as_slice(), b"/Subrs 10 array", table)?;
    let text = without(alloc, text.as_slice(), entry, b"ND\n")?;
    tiny_with(alloc, text.as_slice())
}

/// A file of Tiny with this tag before its name.
pub fn tagged(alloc: Global, file: &[u8], name: &[u8]) -> Result<Vec<u8>, AllocError> {
    with_all(alloc, file, b"/FontName /Tiny", name)
}

/// What begins an entry of a table, then the length and the encrypted bytes.
fn entry(alloc: Global, start: &[u8], plain: &[u8]) -> Result<Vec<u8>, AllocError> {
    let length = plain.len().saturating_add(4).to_string(alloc)?;
    let cipher = sealed(alloc, plain, CHARSTRING_KEY)?;
    joined(
        alloc,
        &[start, length.as_bytes(), b" RD ", cipher.as_slice()],
    )
}

/// What ends the glyphs of Tiny and comes after them.
const GLYPHS_END: &[u8] = b"end\nend\nreadonly put";

/// A file of Tiny with one more entry at the end of its glyphs.
pub fn tiny_and(alloc: Global, name: &[u8], plain: &[u8]) -> Result<Vec<u8>, AllocError> {
    let start = joined(alloc, &[b"/", name, b" "])?;
    let entry = entry(alloc, start.as_slice(), plain)?;
    let end = joined(alloc, &[entry.as_slice(), b" ND\n", GLYPHS_END])?;
    tiny_changed(alloc, GLYPHS_END, end.as_slice())
}

/// A file of Tiny with other bytes for the Subr whose entry begins so.
pub fn tiny_with_subr(
    alloc: Global,
    start: &[u8],
    old: &[u8],
    new: &[u8],
) -> Result<Vec<u8>, AllocError> {
    let old = entry(alloc, start, old)?;
    let new = entry(alloc, start, new)?;
    tiny_changed(alloc, old.as_slice(), new.as_slice())
}

/// A file of Tiny whose Subr 5 is `return`.
pub fn without_subr_5(alloc: Global) -> Result<Vec<u8>, AllocError> {
    tiny_with_subr(alloc, b"dup 5 ", b"\xef\x06\x0b", b"\x0b")
}

/// A file of Tiny without the glyph acute.
pub fn without_acute(alloc: Global) -> Result<Vec<u8>, AllocError> {
    let acute = b"\xbd\xf7\xc0\x0d\x8b\x16\x90\x0a\x09\x0e";
    let old = entry(alloc, b"/acute ", acute)?;
    let old = joined(alloc, &[old.as_slice(), b" ND\n"])?;
    tiny_changed(alloc, old.as_slice(), b"")
}

/// A font of the greatest weight, with a Subr of no bytes.
pub fn heaviest(alloc: Global) -> Result<Vec<u8>, AllocError> {
    // The clear tail has 18 bytes and the private texts 13, 1 and 27; a Subr of no bytes weighs 129, and `.notdef` 257.
    let private =
        b"/lenIV 0 def /Subrs 9 array dup 5 0 RD  NP ND /CharStrings 1 dict dup begin\n/.notdef 1 RD \x1b ND\nend\nmark currentfile closefile\n";
    file_of(alloc, 67_108_419, private)
}
