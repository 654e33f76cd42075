//! What files carry, by rows from outside: jobs as printer drivers write them, and the first bytes of files of each kind.

use std::alloc::Global;
use t1_jobs::{FileKind, NoDocument, file_kind, job_of, with_document};

/// A file, and the document that it carries with how many bytes before it and behind it.
type Row = (&'static [u8], &'static [u8], usize, usize);

const EXIT: &[u8] = b"\x1b%-12345X";

/// An EPS file for DOS with a preview of three bytes behind its PostScript, and one with the preview before it.
const PREVIEW_BEHIND: &[u8] =
    b"\xc5\xd0\xd3\xc6\x1e\0\0\0\x06\0\0\0\0\0\0\0\0\0\0\0\x24\0\0\0\x03\0\0\0\xff\xff%!PS\r\nabc";

const PREVIEW_BEFORE: &[u8] =
    b"\xc5\xd0\xd3\xc6\x21\0\0\0\x06\0\0\0\x1e\0\0\0\x03\0\0\0\0\0\0\0\0\0\0\0\xff\xffabc%!PS\r\n";

const ROWS: &[Row] = &[
    (b"%!", b"%!", 0, 0),
    (b"%!PS\nshowpage\n", b"%!PS\nshowpage\n", 0, 0),
    (b"\x04%!PS\n", b"%!PS\n", 1, 0),
    (b"%!PS\n\x04", b"%!PS\n", 0, 1),
    (b"%!PS\n\x04\r\n\x04", b"%!PS\n", 0, 4),
    (b"\r\n%!PS\n", b"%!PS\n", 2, 0),
    (
        b"\x1b%-12345X@PJL JOB\r\n@PJL ENTER LANGUAGE=POSTSCRIPT\r\n%!PS\n\x04\x1b%-12345X@PJL EOJ\r\n\x1b%-12345X",
        b"%!PS\n",
        51,
        29,
    ),
    (b"@PJL\n%!PS\n", b"%!PS\n", 5, 0),
    (b"%!PS\n@PJL EOJ\n", b"%!PS\n@PJL EOJ\n", 0, 0),
    (b"%!PS\n\n\n", b"%!PS\n\n\n", 0, 0),
    (b"%!PS\x04a\x04\x04b", b"%!PS\x04a\x04\x04b", 0, 0),
    (b"%!PS\x1b%-1234", b"%!PS\x1b%-1234", 0, 0),
    (PREVIEW_BEHIND, b"%!PS\r\n", 0, 0),
    (PREVIEW_BEFORE, b"%!PS\r\n", 0, 0),
];

/// Whether a file carries this document, with so many bytes before it and behind it.
fn carries(file: &[u8], document: &[u8], before: usize, behind: usize) -> bool {
    match job_of(file) {
        Ok(job) => job.document == document && job.before == before && job.behind == behind,
        Err(_) => false,
    }
}

#[test]
fn documents(rt: HostRuntime) {
    for &(file, document, before, behind) in ROWS {
        assert!(rt; carries(file, document, before, behind));
    }
}

/// Files that carry no document, and why.
const NONE: &[(&[u8], NoDocument)] = &[
    (b"", NoDocument::IsA(FileKind::Empty)),
    (b"\x04", NoDocument::IsA(FileKind::Empty)),
    (EXIT, NoDocument::IsA(FileKind::Empty)),
    (b" %!PS\n", NoDocument::IsA(FileKind::Other)),
    (b"\x04%PDF-1.7\n", NoDocument::IsA(FileKind::Pdf)),
    (b"\xc5\xd0\xd3\xc6", NoDocument::BadHeader),
    (
        b"\xc5\xd0\xd3\xc6\x1e\0\0\0\x07\0\0\0\0\0\0\0\0\0\0\0\0\0\0\0\0\0\0\0\xff\xff%!PS\r\n",
        NoDocument::BadHeader,
    ),
    (
        b"\xc5\xd0\xd3\xc6\x1d\0\0\0\x06\0\0\0\0\0\0\0\0\0\0\0\0\0\0\0\0\0\0\0\xff%!PS\r\n\n",
        NoDocument::BadHeader,
    ),
    (
        b"\xc5\xd0\xd3\xc6\xff\xff\xff\xff\xff\xff\xff\xff\0\0\0\0\0\0\0\0\0\0\0\0\0\0\0\0\xff\xff%!PS\r\n",
        NoDocument::BadHeader,
    ),
    (b"%!PS\n\x04%!PS\n", NoDocument::JobEnds),
    (b"%!PS\n\x04\r\n\x04\n%!PS\n", NoDocument::JobEnds),
    (
        b"%!PS\n\x1b%-12345X@PJL ENTER LANGUAGE=PCL\n\x1bE",
        NoDocument::JobEnds,
    ),
];

/// Whether a file carries no document for this reason.
fn carries_none(file: &[u8], why: NoDocument) -> bool {
    match job_of(file) {
        Ok(_) => false,
        Err(found) => found == why,
    }
}

#[test]
fn no_documents(rt: HostRuntime) {
    for &(file, why) in NONE {
        assert!(rt; carries_none(file, why));
    }
}

/// Files, and what each is with the document `%!PS 2\r\n` in place of its own.
const REPLACED: &[(&[u8], &[u8])] = &[
    (b"%!", b"%!PS 2\r\n"),
    (b"\x04%!PS\n\x04\n", b"\x04%!PS 2\r\n\x04\n"),
    (
        b"\x1b%-12345X@PJL\n%!PS\n\x1b%-12345X",
        b"\x1b%-12345X@PJL\n%!PS 2\r\n\x1b%-12345X",
    ),
    (
        PREVIEW_BEHIND,
        b"\xc5\xd0\xd3\xc6\x1e\0\0\0\x08\0\0\0\0\0\0\0\0\0\0\0\x26\0\0\0\x03\0\0\0\xff\xff%!PS 2\r\nabc",
    ),
    (
        PREVIEW_BEFORE,
        b"\xc5\xd0\xd3\xc6\x1e\0\0\0\x08\0\0\0\x26\0\0\0\x03\0\0\0\0\0\0\0\0\0\0\0\xff\xff%!PS 2\r\nabc",
    ),
];

/// Whether a file with this document in place of its own is this.
fn is_replaced(alloc: Global, file: &[u8], document: &[u8], want: &[u8]) -> bool {
    match with_document(alloc, file, document) {
        Ok(made) => made.as_slice() == want,
        Err(_) => false,
    }
}

// meets with_document Ok at 2 bytes
#[test]
fn documents_replaced(rt: HostRuntime) {
    for &(file, want) in REPLACED {
        assert!(rt; is_replaced(rt.alloc(), file, b"%!PS 2\r\n", want));
    }
    for &(file, _) in NONE {
        assert!(rt; is_replaced(rt.alloc(), file, b"%!PS 2\r\n", b"%!PS 2\r\n"));
    }
}

/// The first bytes of files, their kind, and what is printed of it.
const KINDS: &[(&[u8], FileKind, &str)] = &[
    (b"", FileKind::Empty, "an empty file"),
    (b"%!", FileKind::PostScript, "a PostScript file"),
    (b"\xc5\xd0\xd3\xc6", FileKind::DosEps, "an EPS file for DOS"),
    (b"%PDF-1.4", FileKind::Pdf, "a PDF file"),
    (b"\x80\x01", FileKind::Pfb, "a PFB font"),
    (b"OTTO\0", FileKind::OpenType, "an OpenType font"),
    (b"\0\x01\0\0\0\x0c", FileKind::TrueType, "a TrueType font"),
    (b"ttcf\0", FileKind::TrueType, "a TrueType font"),
    (b"true\0", FileKind::TrueType, "a TrueType font"),
    (b"wOFF\0", FileKind::Woff, "a WOFF font"),
    (b"wOF2\0", FileKind::Woff, "a WOFF font"),
    (b"\x01\0\x04\x02", FileKind::Cff, "a CFF font"),
    (b"StartFontMetrics 4.1", FileKind::Afm, "an AFM file"),
    (b"\0\x01\x9f\x02\0\0C", FileKind::Pfm, "a PFM file"),
    (b"\x1f\x8b\x08", FileKind::Gzip, "a gzip file"),
    (b"\xfd7zXZ\0", FileKind::Xz, "an xz file"),
    (b"PK\x03\x04", FileKind::Zip, "a zip file"),
    (b"<!DOCTYPE html>", FileKind::Html, "an HTML page"),
    (b"<html>", FileKind::Html, "an HTML page"),
    (b"%%", FileKind::Other, "an unknown file"),
    (b"\0\x01\x9f\x02\0\x01C", FileKind::Other, "an unknown file"),
    (b"\0\x01\x9f\x02\0\0", FileKind::Other, "an unknown file"),
];

/// Whether the kind of a file is this, and printed so.
fn is_kind(alloc: Global, file: &[u8], kind: FileKind, text: &str) -> bool {
    match kind.to_string(alloc) {
        Ok(printed) => file_kind(file) == kind && printed.as_str() == text,
        Err(_) => false,
    }
}

#[test]
fn kinds(rt: HostRuntime) {
    for &(file, kind, text) in KINDS {
        assert!(rt; is_kind(rt.alloc(), file, kind, text));
    }
}

/// A document with so many ^D in it, and behind each of them as many as there are.
fn many_ends(alloc: Global, count: usize) -> Option<Vec<u8>> {
    let mut file = Vec::from_slice(alloc, b"%!").ok()?;
    for _ in 0..count {
        file.push(4).ok()?;
    }
    file.push(b'x').ok()?;
    Some(file)
}

#[test]
fn many_words(rt: HostRuntime) {
    let file = many_ends(rt.alloc(), 1_000_000);
    assert!(rt;
        match file {
            Some(file) => carries(file.as_slice(), file.as_slice(), 0, 0),
            None => false,
        }
    );
}

/// Whether a long document is put in place of a short one, of which this many bytes are ^D.
fn is_put(alloc: Global, count: usize) -> bool {
    match many_ends(alloc, count) {
        Some(long) => is_replaced(alloc, b"%!", long.as_slice(), long.as_slice()),
        None => false,
    }
}

// meets with_document Ok at 1000000 bytes
#[test]
fn long_documents_replaced(rt: HostRuntime) {
    assert!(rt; is_put(rt.alloc(), 1_000_000));
}

/// What a file with another document is, made again where a growth was refused.
fn replaced_again(alloc: Global, file: &[u8]) -> Option<Vec<u8>> {
    match with_document(alloc, file, b"%!PS 2\r\n") {
        Ok(made) => Some(made),
        Err(_) => with_document(alloc, file, b"%!PS 2\r\n").ok(),
    }
}

/// Whether it is this.
fn is_made(alloc: Global, file: &[u8], want: &[u8]) -> bool {
    match replaced_again(alloc, file) {
        Some(made) => made.as_slice() == want,
        None => false,
    }
}

// `tools/sweep_growths.py` refuses one growth after the other: a call that then answers want of memory gives the right
// answer when it is made again.
#[test]
fn growths(rt: HostRuntime) {
    for &(file, want) in REPLACED {
        assert!(rt; is_made(rt.alloc(), file, want));
    }
}

// The same refuses all growths: what takes no memory gives the right answer.
#[test]
fn no_growth(rt: HostRuntime) {
    assert!(rt; carries(PREVIEW_BEFORE, b"%!PS\r\n", 0, 0));
    assert!(rt; file_kind(b"OTTO") == FileKind::OpenType);
}
