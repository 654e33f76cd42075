//! Fonts that are made of plain charstrings.

use std::alloc::{AllocError, Global};
use t1_bytes::{CHARSTRING_KEY, EEXEC_KEY, EEXEC_LEAD, seal};
use t1_font::{Font, Form, Source, read, write};
use t1_subset::subset;

/// An index or a name as its entry spells it, and its plain charstring.
pub type Entry = (&'static [u8], &'static [u8]);

/// What a font has beside the entries of its tables, as a file spells it.
#[derive(Clone, Copy)]
pub struct Shell {
    pub head: &'static [u8],
    pub encoding: &'static [u8],
    pub clear_tail: &'static [u8],
    pub private: &'static [u8],
    pub subrs: &'static [u8],
    pub put: &'static [u8],
    pub closing: &'static [u8],
    pub middle: &'static [u8],
    pub def: &'static [u8],
    pub tail: &'static [u8],
}

/// The shell of the fonts below: ten Subrs are declared, and two codes have names.
pub const SHELL: Shell = Shell {
    head: b"%!\n",
    encoding: b"/Encoding 256 array dup 65 /X put dup 66 /Y put def",
    clear_tail: b"\ncurrentfile eexec ",
    private: b"/lenIV 0 def\n",
    subrs: b"/Subrs 10 array\n",
    put: b"NP",
    closing: b"ND\n",
    middle: b"2 index ",
    def: b"ND",
    tail: b"\nend\nmark currentfile closefile",
};

/// Subrs: the usual ones for flex and hint replacement, one that another Subr calls, two that draw a line, one with a
/// hint, one of no bytes, and one that calls itself.
pub const SUBRS: &[Entry] = &[
    (b"0", b"\x8e\x8b\x0c\x10\x0c\x11\x0c\x11\x0c\x21\x0b"),
    (b"1", b"\x8b\x8c\x0c\x10\x0b"),
    (b"2", b"\x8b\x8d\x0c\x10\x0b"),
    (b"3", b"\x0b"),
    (b"4", b"\x8c\x8e\x0c\x10\x0c\x11\x0a\x0b"),
    (b"5", b"\xef\x06\x0b"),
    (b"6", b"\x27\x06\x0b"),
    (b"7", b"\xef\x9f\x01\x0b"),
    (b"8", b""),
    (b"9", b"\x94\x0a\x0b"),
];

/// The bytes of an accented glyph of A (code 65) and acute (code 194).
pub const ACCENTED: &[u8] = b"\x8b\xf8\x88\x0d\xbd\xf7\x0c\xf7\x5c\xcc\xf7\x56\x0c\x06";

/// Glyphs: A, X and Y call Subrs, Aacute and N have components, and the components of N are B, which has components of
/// its own, and acute. P has `15 5 1 3 callothersubr pop div callsubr` between a move and a closepath: it calls Subr 3, or
/// Subr 5 where hints are kept.
pub const GLYPHS: &[Entry] = &[
    (b".notdef", b"\x8b\xf7\x8e\x0d\x0e"),
    (b"A", b"\x8b\xf8\x88\x0d\x8b\x16\x91\x0a\x09\x0e"),
    (b"Aacute", ACCENTED),
    (b"B", ACCENTED),
    (b"H", b"\x8b\xf8\x88\x0d\x8b\x9f\x01\x92\x8f\x0a\x0e"),
    (
        b"N",
        b"\x8b\xf8\x88\x0d\xbd\xf7\x0c\xf7\x5c\xcd\xf7\x56\x0c\x06",
    ),
    (
        b"P",
        b"\x8b\xf8\x88\x0d\x8b\x16\x9a\x90\x8c\x8e\x0c\x10\x0c\x11\x0c\x0c\x0a\x09\x0e",
    ),
    (
        b"X",
        b"\xbd\xf7\xc0\x0d\x8b\x16\x90\x0a\xf9\x50\x07\x27\x06\x09\x0e",
    ),
    (b"Y", b"\x8b\xf8\x88\x0d\x8b\x16\x90\x0a\x91\x0a\x09\x0e"),
    (b"acute", b"\xbd\xf7\xc0\x0d\x8b\x16\x90\x0a\x09\x0e"),
];

/// The bytes after this many lead bytes that are zero, encrypted.
fn sealed(alloc: Global, plain: &[u8], key: u16, lead: u8) -> Result<Vec<u8>, AllocError> {
    match seal(alloc, plain, key, lead) {
        Ok(cipher) => Ok(cipher),
        Err(_) => Err(AllocError),
    }
}

/// Adds these parts one after the other.
fn push_all(out: &mut Vec<u8>, parts: &[&[u8]]) -> Result<(), AllocError> {
    for part in parts {
        out.extend_from_slice(part)?;
    }
    Ok(())
}

/// An entry of a table: its key, the length, the encrypted bytes and the phrase.
pub fn put_entry(
    alloc: Global,
    out: &mut Vec<u8>,
    key: &[u8],
    plain: &[u8],
    phrase: &[u8],
) -> Result<(), AllocError> {
    let length = plain.len().to_string(alloc)?;
    push_all(out, &[key, b" ", length.as_bytes(), b" RD "])?;
    let cipher = sealed(alloc, plain, CHARSTRING_KEY, 0)?;
    push_all(out, &[cipher.as_slice(), b" ", phrase, b"\n"])
}

/// The text of a table of Subrs, or nothing for a shell without Subrs.
fn subrs_text(alloc: Global, shell: &Shell, subrs: &[Entry]) -> Result<Vec<u8>, AllocError> {
    let mut text = Vec::from_slice(alloc, shell.subrs)?;
    if shell.subrs.is_empty() {
        return Ok(text);
    }
    for (index, plain) in subrs {
        text.extend_from_slice(b"dup ")?;
        put_entry(alloc, &mut text, index, plain, shell.put)?;
    }
    text.extend_from_slice(shell.closing)?;
    Ok(text)
}

/// The text of glyphs, without what closes them.
pub fn glyphs_text(alloc: Global, shell: &Shell, glyphs: &[Entry]) -> Result<Vec<u8>, AllocError> {
    let mut text = Vec::new(alloc);
    for (name, plain) in glyphs {
        text.push(b'/')?;
        put_entry(alloc, &mut text, name, plain, shell.def)?;
    }
    Ok(text)
}

/// Adds the private text of a shell, of a table of Subrs and of a text of glyphs.
fn push_private(
    out: &mut Vec<u8>,
    shell: &Shell,
    subrs: &[u8],
    glyphs: &[u8],
) -> Result<(), AllocError> {
    out.extend_from_slice(shell.private)?;
    out.extend_from_slice(subrs)?;
    out.extend_from_slice(shell.middle)?;
    out.extend_from_slice(b"/CharStrings 9 dict dup begin\n")?;
    out.extend_from_slice(glyphs)?;
    out.extend_from_slice(b"end")?;
    out.extend_from_slice(shell.tail)
}

/// The file of a shell and of a private text.
fn file_of(alloc: Global, shell: &Shell, private: &[u8]) -> Result<Vec<u8>, AllocError> {
    let cipher = sealed(alloc, private, EEXEC_KEY, EEXEC_LEAD)?;
    let mut file = Vec::new(alloc);
    push_all(&mut file, &[shell.head, shell.encoding, shell.clear_tail])?;
    file.extend_from_slice(cipher.as_slice())?;
    Ok(file)
}

/// The file of a shell, of Subrs and of a text of glyphs.
pub fn file(
    alloc: Global,
    shell: &Shell,
    subrs: &[Entry],
    glyphs: &[u8],
) -> Result<Vec<u8>, AllocError> {
    let table = subrs_text(alloc, shell, subrs)?;
    let mut private = Vec::new(alloc);
    push_private(&mut private, shell, table.as_slice(), glyphs)?;
    file_of(alloc, shell, private.as_slice())
}

/// The file of a shell, of Subrs and of glyphs.
pub fn font(
    alloc: Global,
    shell: &Shell,
    subrs: &[Entry],
    glyphs: &[Entry],
) -> Result<Vec<u8>, AllocError> {
    let text = glyphs_text(alloc, shell, glyphs)?;
    file(alloc, shell, subrs, text.as_slice())
}

/// The file of the shell, the Subrs and the glyphs above.
pub fn whole(alloc: Global) -> Result<Vec<u8>, AllocError> {
    font(alloc, &SHELL, SUBRS, GLYPHS)
}

/// The file of the Subrs and the glyphs above with another shell.
pub fn with_shell(alloc: Global, shell: &Shell) -> Result<Vec<u8>, AllocError> {
    font(alloc, shell, SUBRS, GLYPHS)
}

/// The entries with another entry at this place.
pub fn replaced(
    alloc: Global,
    entries: &[Entry],
    place: usize,
    entry: Entry,
) -> Result<Vec<Entry>, AllocError> {
    let mut changed = Vec::new(alloc);
    for (at, old) in entries.iter().enumerate() {
        changed.push(if at == place { entry } else { *old })?;
    }
    Ok(changed)
}

/// The file of the font above with another Subr at this place.
pub fn with_subr(alloc: Global, place: usize, subr: Entry) -> Result<Vec<u8>, AllocError> {
    let subrs = replaced(alloc, SUBRS, place, subr)?;
    font(alloc, &SHELL, subrs.as_slice(), GLYPHS)
}

/// The file of the font above with another glyph at this place.
pub fn with_glyph(alloc: Global, place: usize, glyph: Entry) -> Result<Vec<u8>, AllocError> {
    let glyphs = replaced(alloc, GLYPHS, place, glyph)?;
    font(alloc, &SHELL, SUBRS, glyphs.as_slice())
}

/// The texts, borrowed.
pub fn lent<'a>(alloc: Global, texts: &'a [Vec<u8>]) -> Result<Vec<&'a [u8]>, AllocError> {
    let mut lent = Vec::new(alloc);
    for text in texts {
        match lent.push(text.as_slice()) {
            Ok(_) => {}
            Err(_) => return Err(AllocError),
        }
    }
    Ok(lent)
}

/// The canonical PFB of a font.
pub fn written(alloc: Global, font: &Font<'_>) -> Vec<u8> {
    write(alloc, font, Form::Pfb).unwrap_or(Vec::new(alloc))
}

/// The canonical PFB of a font's subset, or nothing if there is none.
fn cut_of(alloc: Global, font: &Font<'_>, names: &[&[u8]]) -> Vec<u8> {
    match subset(alloc, font, names) {
        Ok(cut) => {
            let file = written(alloc, &cut);
            drop(cut);
            file
        }
        Err(_) => Vec::new(alloc),
    }
}

/// The canonical PFB of the subset of a source's font.
fn lent_cut(alloc: Global, source: &Source, names: &[&[u8]]) -> Vec<u8> {
    match source.font(alloc) {
        Ok(font) => {
            let file = cut_of(alloc, &font, names);
            drop(font);
            file
        }
        Err(_) => Vec::new(alloc),
    }
}

/// The canonical PFB of the subset of a file's font.
pub fn cut(alloc: Global, file: &[u8], names: &[&[u8]]) -> Vec<u8> {
    match read(alloc, file) {
        Ok(source) => {
            let file = lent_cut(alloc, &source, names);
            drop(source);
            file
        }
        Err(_) => Vec::new(alloc),
    }
}
