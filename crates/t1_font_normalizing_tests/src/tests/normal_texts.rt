//! The kept texts of normalized fonts.

use std::alloc::{AllocError, Global};
use t1_font::{Font, Part, ReadFault, Source};
use t1_font_shared_tests::{of_source, source};

/// The five kept texts of a font, each with a bar behind it.
fn texts(alloc: Global, font: &Font<'_>) -> Result<Vec<u8>, AllocError> {
    let mut texts = Vec::new(alloc);
    for &part in &[
        Part::Head,
        Part::ClearTail,
        Part::Private,
        Part::Middle,
        Part::Tail,
    ] {
        texts.extend_from_slice(font.text(part))?;
        texts.push(b'|')?;
    }
    Ok(texts)
}

/// The source of a normalized font.
fn normal(alloc: Global, source: Result<Source, ReadFault>) -> Result<Source, ReadFault> {
    match source {
        Ok(source) => Ok(source.normalize(alloc, 0)?),
        Err(fault) => Err(fault),
    }
}

/// Whether the font of a source has these texts.
fn are_texts(
    alloc: Global,
    source: Result<Source, ReadFault>,
    want: &[u8],
) -> Result<bool, ReadFault> {
    of_source(
        alloc,
        source,
        |font| Ok(texts(alloc, font)?.as_slice() == want),
    )
}

/// Whether a font is normalized to these texts, or if it is normalized twice.
fn becomes(alloc: Global, (clear, private, want, _): Row, twice: bool) -> Result<bool, ReadFault> {
    let once = normal(alloc, source(alloc, clear, private));
    are_texts(alloc, if twice { normal(alloc, once) } else { once }, want)
}

/// A clear text, a private text, and their normalized texts.
type Row = (&'static [u8], &'static [u8], &'static [u8], &'static str);

const ROWS: &[Row] = &[
    (
        b"%! \t a\r\n\r\n/Encoding StandardEncoding def \r  b  c\r\ncurrentfile\r\neexec\n",
        b"/lenIV  0\tdef\n\n/Subrs 1  array\ndup 0 1 RD \x0e NP\nND  \r\n a /CharStrings 1 dict dup begin\n\
          /.notdef 1 RD \x1b ND\nend \t \nmark  currentfile\n\ncloseFile closefile",
        b"%! a\n|\nb c\ncurrentfile\neexec|/lenIV 0 def\n|\na |\nmark currentfile\ncloseFile closefile|",
        "white space in each text",
    ),
    (
        b"%!\x0c \x00\x0c\t\x0c\n/Encoding StandardEncoding def\ncurrentfile eexec\n",
        b"/lenIV 0 def /CharStrings 1 dict dup begin\n/.notdef 1 RD \x1b ND\nend\nmark currentfile closefile\n",
        b"%!\x0c \x00\x0c \x0c\n|\ncurrentfile eexec|/lenIV 0 def ||\nmark currentfile closefile|",
        "NUL and FF",
    ),
    (
        b"%!\n/UniqueID 5000793 def\r\n/FontName /T def\n/Encoding StandardEncoding def\n/XUID [1 10 5000793] readonly def\n\
          currentdict end\ncurrentfile eexec\n",
        b"/UniqueID 5000793 |-\n/lenIV 0 def\n /UniqueID  7  noaccess ND \r/A 1 def /CharStrings 1 dict dup begin\n\
          /.notdef 1 RD \x1b ND\nend\n/UniqueID 9 def\n/B closefile\n",
        b"%!\n/FontName /T def\n|\ncurrentdict end\ncurrentfile eexec|/lenIV 0 def\n/A 1 def ||\n/UniqueID 9 def\n/B closefile|",
        "lines that number the font, not in the tail",
    ),
    (
        b"%!\n/Encoding StandardEncoding def\n/FontType 1 def\n%/UniqueID 0 def\n/FontBBox{0 0 1 1}readonly def\ncurrentfile eexec\n",
        b"/lenIV 0 def\n%/UniqueID 0 def\n/StdHW[31]def\n/CharStrings 1 dict dup begin\n/.notdef 1 RD \x1b ND\nend\n\
          mark currentfile closefile\n",
        b"%!\n|\n/FontType 1 def\n%\n/FontBBox{0 0 1 1}readonly def\ncurrentfile eexec|/lenIV 0 def\n%\n/StdHW[31]def\n||\n\
          mark currentfile closefile|",
        "comments of Latin Modern",
    ),
    (
        b"%!\n/Encoding StandardEncoding def\n/FontType 1 def\n%               \n/FontBBox{0 0 1 1}readonly def\ncurrentfile eexec\n",
        b"/lenIV 0 def\n%               \n/StdHW[31]def\n/CharStrings 1 dict dup begin\n/.notdef 1 RD \x1b ND\nend\n\
          mark currentfile closefile\n",
        b"%!\n|\n/FontType 1 def\n%\n/FontBBox{0 0 1 1}readonly def\ncurrentfile eexec|/lenIV 0 def\n%\n/StdHW[31]def\n||\n\
          mark currentfile closefile|",
        "what cairo leaves of them",
    ),
    (
        b"% /UniqueID 1 def\n/UniqueID 2 def\ndup /A 1 def /UniqueID 3 def\n/UniqueIDs 4 def\n/UniqueID 5 put\n/UniqueID (6) def\n\
          /XUID [a] def\n/Encoding StandardEncoding def\ncurrentfile eexec\n",
        b"/lenIV 0 def /CharStrings 1 dict dup begin\n/.notdef 1 RD \x1b ND\nend\nmark currentfile closefile\n",
        b"% /UniqueID 1 def\n/UniqueID 2 def\ndup /A 1 def /UniqueID 3 def\n/UniqueIDs 4 def\n/UniqueID 5 put\n/UniqueID (6) def\n\
          /XUID [a] def\n|\ncurrentfile eexec|/lenIV 0 def ||\nmark currentfile closefile|",
        "lines that stay",
    ),
    (
        b"%!  ABCDEF+T\n/Encoding StandardEncoding def\n/FontName  /ABCDEF+T def\ncurrentfile eexec\n",
        b"/lenIV 0 def /CharStrings 1 dict dup begin\n/.notdef 1 RD \x1b ND\nend\nmark currentfile closefile\n",
        b"%! T\n|\n/FontName /T def\ncurrentfile eexec|/lenIV 0 def ||\nmark currentfile closefile|",
        "the name behind the Encoding",
    ),
    (
        b"%!\n/FontName  /ABCDEF+Encoding def\n/Encoding StandardEncoding def\ncurrentfile eexec\n",
        b"/lenIV 0 def\n/Subrs%\n/UniqueID 5 def\n/A /CharStrings 1 dict dup begin\n/.notdef 1 RD \x1b ND\nend\nmark currentfile closefile\n",
        b"%!\n/FontName /ABCDEF+Encoding def\n|\ncurrentfile eexec|/lenIV 0 def\n/Subrs%\n/A ||\nmark currentfile closefile|",
        "a name that would begin an Encoding",
    ),
    (
        b"%!\n/FontName /ABCDEF+eexec def currentfile ABCDEF+eexec\n/Encoding StandardEncoding def\ncurrentfile eexec\n",
        b"/lenIV 0 def /CharStrings 1 dict dup begin\n/.notdef 1 RD \x1b ND\nend\nmark currentfile closefile\n",
        b"%!\n/FontName /ABCDEF+eexec def currentfile ABCDEF+eexec\n|\ncurrentfile eexec|/lenIV 0 def ||\nmark currentfile closefile|",
        "a name that would end the clear text",
    ),
];

#[test]
fn texts_made_normal(rt: HostRuntime) {
    for &row in ROWS {
        let what = row.3;
        assert!(rt; becomes(rt.alloc(), row, false) == Ok(true), "{what}");
        assert!(rt; becomes(rt.alloc(), row, true) == Ok(true), "{what}, again");
    }
}
