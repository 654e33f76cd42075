//! The places of fonts in documents, and fonts that are taken out.
use super::documents::subset_of_x;
use std::alloc::{AllocError, Global};
use std::io::{ErrorKind, Read, Write};
use std::test::Fail;
use t1_cmd::{
    Counted, FilesRefusal, Reason, RunFault, extract_file, list_fonts, run_extract, run_fonts,
};
use t1_cmd_shared_tests::changed::with_all;
use t1_cmd_shared_tests::documents::{BEGIN, document, other, part, whole};
use t1_cmd_shared_tests::engines::subset;
use t1_cmd_shared_tests::feeds::{FINE, Feed, Plan, Sink, word};
use t1_cmd_shared_tests::lists::readers;
use t1_cmd_shared_tests::texts::{is, joined, makes_of, text_or_line, wrote};
use t1_jobs::{FileKind, NoDocument};
use t1_tiny::PFA;

/// What is asked of documents: their fonts, with these labels, or the font of a name.
#[derive(Clone, Copy)]
enum Asked<'a> {
    Fonts(&'a [&'a [u8]]),
    Font(&'a [u8]),
}

/// Runs the engine.
fn run<R: Read, W: Write>(
    alloc: Global,
    asked: Asked<'_>,
    readers: &mut [Counted<R>],
    writer: &mut Counted<W>,
) -> Result<(), RunFault> {
    match asked {
        Asked::Fonts(labels) => run_fonts(alloc, labels, readers, writer),
        Asked::Font(name) => run_extract(alloc, name, readers, writer),
    }
}

/// What the engine writes of readers, or the line of the refusal.
fn ran_from(alloc: Global, asked: Asked<'_>, readers: &mut [Counted<&[u8]>]) -> Vec<u8> {
    let mut out = Vec::new(alloc);
    let ended = run(alloc, asked, readers, &mut Counted::new(&mut out));
    text_or_line(alloc, out, ended)
}

/// The same of documents.
fn ran(alloc: Global, asked: Asked<'_>, documents: &[&[u8]]) -> Result<Vec<u8>, AllocError> {
    match readers(alloc, documents) {
        Ok(mut readers) => Ok(ran_from(alloc, asked, readers.as_mut_slice())),
        Err(fault) => Err(fault),
    }
}

/// What the call answers.
fn called(alloc: Global, asked: Asked<'_>, documents: &[&[u8]]) -> Result<Vec<u8>, FilesRefusal> {
    match asked {
        Asked::Fonts(labels) => list_fonts(alloc, labels, documents),
        Asked::Font(name) => extract_file(alloc, name, documents),
    }
}

/// Whether the engine and the call make this of documents.
fn make(alloc: Global, asked: Asked<'_>, documents: &[&[u8]], want: &[u8]) -> bool {
    is(ran(alloc, asked, documents), want) && is(called(alloc, asked, documents), want)
}

/// Whether it is told that no document has a font of this name.
fn lacks(answer: Result<Vec<u8>, FilesRefusal>, name: &[u8]) -> bool {
    match answer {
        Err(
            FilesRefusal {
                place: None,
                reason: Reason::NoFont { name: told },
            },
        ) => told.as_bytes() == name,
        other => {
            drop(other);
            false
        }
    }
}

/// Whether the engine and the call say that documents have no font of this name.
fn lack(alloc: Global, name: &[u8], documents: &[&[u8]], line: &[u8]) -> bool {
    is(ran(alloc, Asked::Font(name), documents), line)
        && lacks(extract_file(alloc, name, documents), name)
}

const LABELS: &[&[u8]] = &[b"a.ps", b"b c\xff"];

/// Tiny under a second name.
fn second(alloc: Global) -> Result<Vec<u8>, AllocError> {
    with_all(alloc, PFA, b"/FontName /Tiny", b"/FontName /T\xffny")
}

/// A document in another, with a font of a second name behind its first one.
fn inner(alloc: Global) -> Result<Vec<u8>, AllocError> {
    let second = second(alloc)?;
    joined(
        alloc,
        &[
            b"%!PS\n%%BeginDocument: b.eps\n",
            BEGIN,
            whole(),
            b"{restore}if\n%%EndFont\n%%BeginFont: T\n",
            second.as_slice(),
            b"%%EndFont\n%%EndDocument\n",
        ],
    )
}

/// Whether the fonts of documents with these labels are listed so.
fn lists(alloc: Global, documents: &[&[u8]], want: &[u8]) -> bool {
    make(alloc, Asked::Fonts(LABELS), documents, want)
}

// meets run_fonts Ok at 0, 1, 2, 3 documents
// like run_fonts: list_fonts
#[test]
fn fonts_are_listed(rt: HostRuntime) -> Result<(), Fail> {
    const NONE: &[u8] = b"0 places, 0 names, 0 kept\n";
    const ONE: &[u8] = b"a.ps: 23 Tiny 2 0 joined\n1 places, 1 names, 0 kept\n";
    const THREE: &[u8] = b"a.ps: 23 Tiny 2 0 joined
b c\xff: 23 Tiny 11 0 joined
: 51 Tiny 11 1 joined
: 2980 T\\xffny 11 1 joined
4 places, 2 names, 0 kept
";
    let alloc = rt.alloc();
    let cut = part(alloc);
    let a = document(alloc, cut.as_slice())?;
    let b = document(alloc, whole())?;
    let c = inner(alloc)?;
    let (a, b, c) = (a.as_slice(), b.as_slice(), c.as_slice());
    assert!(rt; lists(alloc, &[], NONE), "no document");
    assert!(rt; lists(alloc, &[b"%!", b"%!PS"], NONE), "no place");
    assert!(rt; lists(alloc, &[a], ONE), "one");
    assert!(rt; lists(alloc, &[a, b, c], THREE), "three");
    Ok(())
}

#[test]
fn kept_fonts_are_listed(rt: HostRuntime) -> Result<(), Fail> {
    let alloc = rt.alloc();
    let other = other(alloc)?;
    let a = document(alloc, whole())?;
    let b = document(alloc, other.as_slice())?;
    let want = b": 23 Tiny 11 0 kept: shells differ in head
: 23 Tiny 11 0 kept: shells differ in head
2 places, 1 names, 1 kept
";
    let documents = [a.as_slice(), b.as_slice()];
    assert!(rt; make(alloc, Asked::Fonts(&[]), &documents, want));
    Ok(())
}

/// Tiny with the test whether it was loaded before, behind its first line.
fn tested(alloc: Global) -> Result<Vec<u8>, AllocError> {
    const TESTED: &[u8] = b"001.001
FontDirectory/Tiny known{/Tiny findfont dup/UniqueID known{dup/UniqueID get 7 eq exch
/FontType get 1 eq and}{pop false}ifelse{save true}{false}ifelse}{false}ifelse
11";
    with_all(alloc, PFA, b"001.001\n11", TESTED)
}

/// Whether this font is taken out of documents under this name.
fn extracts(alloc: Global, name: &[u8], documents: &[&[u8]], want: &[u8]) -> bool {
    make(alloc, Asked::Font(name), documents, want)
}

/// What of a part of Tiny in a document, of Tiny and of two fonts is wrongly taken out, if anything; this is the file of that part.
fn what_is_wrong<'a>(
    alloc: Global,
    a: &'a [u8],
    b: &'a [u8],
    c: &'a [u8],
    file: &[u8],
) -> &'static str {
    if !extracts(alloc, b"Tiny", &[b], PFA) {
        "one"
    } else if !extracts(alloc, b"Tiny", &[b"%!", a, b], file) {
        "two"
    } else if !second_is_taken_out(alloc, &[a, c]) {
        "the second place"
    } else {
        ""
    }
}

/// Whether Tiny under its second name is taken out of documents.
fn second_is_taken_out(alloc: Global, documents: &[&[u8]]) -> bool {
    match second(alloc) {
        Ok(want) => extracts(alloc, b"T\xffny", documents, want.as_slice()),
        Err(_) => false,
    }
}

// meets run_extract Ok at 1, 2, 3 documents
// like run_extract: extract_file
#[test]
fn fonts_are_taken_out(rt: HostRuntime) -> Result<(), Fail> {
    let alloc = rt.alloc();
    let file = subset(alloc, PFA, &[b"X"]);
    let cut = part(alloc);
    let a = document(alloc, cut.as_slice())?;
    let b = document(alloc, whole())?;
    let c = inner(alloc)?;
    let (a, b, c) = (a.as_slice(), b.as_slice(), c.as_slice());
    let wrong = what_is_wrong(alloc, a, b, c, file.as_slice());
    assert!(rt; wrong.is_empty(), "{wrong}");
    let tested = tested(alloc)?;
    let d = document(alloc, tested.as_slice())?;
    let mended = with_all(alloc, PFA, b"001.001\n11", b"001.001\n\n11")?;
    let right = extracts(alloc, b"Tiny", &[d.as_slice()], mended.as_slice());
    assert!(rt; right, "with a test");
    Ok(())
}

// meets run_extract NoFont at 0, 1, 2 documents
// like run_extract: extract_file
#[test]
fn fonts_that_are_lacking(rt: HostRuntime) -> Result<(), Fail> {
    let alloc = rt.alloc();
    let b = document(alloc, whole())?;
    let b = b.as_slice();
    assert!(rt;
        lack(alloc, b"Tiny", &[], b"refused: no font Tiny\n"),
        "no document"
    );
    assert!(rt;
        lack(alloc, b"T\xffny", &[b, b], b"refused: no font T\\xffny\n"),
        "two"
    );
    assert!(rt;
        lack(alloc, b"Tin", &[b], b"refused: no font Tin\n"),
        "a shorter name"
    );
    assert!(rt;
        lack(alloc, b"Tiny2", &[b], b"refused: no font Tiny2\n"),
        "a longer name"
    );
    assert!(rt; lack(alloc, b"", &[b], b"refused: no font \n"), "no name");
    Ok(())
}

/// Whether the first of some files carries no document, since it is a PDF file.
fn is_a_pdf(made: Result<Vec<u8>, FilesRefusal>) -> bool {
    match made {
        Err(
            FilesRefusal {
                place: Some(0),
                reason: Reason::Document(NoDocument::IsA(FileKind::Pdf)),
            },
        ) => true,
        other => {
            drop(other);
            false
        }
    }
}

// meets run_fonts Document at 1 documents
// meets run_extract Document at 1 documents
// meets extract_file Document at 1 documents
#[test]
fn files_without_a_document(rt: HostRuntime) {
    const LINE: &[u8] = b"refused: no document: a PDF file\n";
    const FILES: &[&[u8]] = &[b"%PDF-1.7\n"];
    let alloc = rt.alloc();
    assert!(rt; is(ran(alloc, Asked::Fonts(&[]), FILES), LINE));
    assert!(rt; is(ran(alloc, Asked::Font(b"Tiny"), FILES), LINE));
    assert!(rt; is_a_pdf(called(alloc, Asked::Font(b"Tiny"), FILES)));
}

/// The listing of the fonts of so many documents, the last of which has two.
fn listing(alloc: Global, count: usize) -> Result<Vec<u8>, AllocError> {
    const LAST: &[u8] = b": 51 Tiny 11 1 joined
: 2980 T\\xffny 11 1 joined
301 places, 2 names, 0 kept
";
    let mut listing = Vec::new(alloc);
    for _ in 1..count {
        listing.extend_from_slice(b": 23 Tiny 11 0 joined\n")?;
    }
    listing.extend_from_slice(LAST)?;
    Ok(listing)
}

/// Whether the fonts of so many documents are listed, and the last font is taken out.
fn are_many(alloc: Global, count: usize) -> Result<bool, AllocError> {
    let text = document(alloc, whole())?;
    let last = inner(alloc)?;
    let mut documents = Vec::new(alloc);
    documents.resize(count.saturating_sub(1), text.as_slice())?;
    documents.push(last.as_slice())?;
    let want = listing(alloc, count)?;
    let second = second(alloc)?;
    let documents = documents.as_slice();
    Ok(
        make(alloc, Asked::Fonts(&[]), documents, want.as_slice())
            && make(alloc, Asked::Font(b"T\xffny"), documents, second.as_slice())
            && lack(alloc, b"Tony", documents, b"refused: no font Tony\n"),
    )
}

// meets run_fonts Ok at 300 documents
// meets run_extract Ok at 300 documents
// meets run_extract NoFont at 300 documents
// like run_fonts: list_fonts
// like run_extract: extract_file
#[test]
fn fonts_of_many_documents(rt: HostRuntime) {
    assert!(rt; are_many(rt.alloc(), 300) == Ok(true));
}

/// A first call that fails.
const FAILS: Plan = Plan {
    most: usize::MAX,
    fails: 1,
    kind: ErrorKind::Other,
};

/// How the engine over two documents ends that are read by these plans, as a word, where the writer goes by the third.
fn ended(alloc: Global, asked: Asked<'_>, first: Plan, second: Plan, writer: Plan) -> &'static str {
    let mut readers = [Feed::new(PFA, first), Feed::new(PFA, second)];
    let mut out = Counted::new(Sink::new(Vec::new(alloc), writer));
    word(run(alloc, asked, &mut readers, &mut out))
}

#[test]
fn fonts_of_readers_that_fail(rt: HostRuntime) {
    const FONTS: Asked<'static> = Asked::Fonts(LABELS);
    const FONT: Asked<'static> = Asked::Font(b"Tiny");
    const ROWS: &[(Asked<'static>, Plan, Plan, Plan, &str)] = &[
        (FONTS, FINE, FINE, FINE, "ok"),
        (FONTS, FAILS, FINE, FINE, "read"),
        (FONTS, FINE, FAILS, FINE, "read"),
        (FONTS, FINE, FINE, FAILS, "write"),
        (FONT, FINE, FAILS, FINE, "read"),
        (FONT, FINE, FINE, FINE, "refused"),
    ];
    for &(asked, first, second, writer, want) in ROWS {
        assert!(rt; ended(rt.alloc(), asked, first, second, writer) == want);
    }
}

/// Whether the engine over two documents writes this, with room for it, and the call answers it.
fn both_make(
    alloc: Global,
    asked: Asked<'_>,
    documents: [&[u8]; 2],
    want: &[u8],
) -> Result<bool, AllocError> {
    let [a, b] = documents;
    let mut readers = [Counted::new(a), Counted::new(b)];
    let mut out = Vec::with_capacity(alloc, want.len())?;
    let ended = run(alloc, asked, &mut readers, &mut Counted::new(&mut out));
    Ok(wrote(out, ended, want)? && makes_of(called(alloc, asked, &documents), want)?)
}

/// Whether the fonts of a document with a part of a font and of one with the whole are listed, and the second is told.
fn file_is_listed(alloc: Global, file: &[u8]) -> Result<bool, AllocError> {
    const LINES: &[u8] = b"a.ps: 23 Tiny 2 0 joined
b c\xff: 23 Tiny 11 0 joined
2 places, 1 names, 0 kept
";
    let [cut @ .., _] = file else {
        return Ok(false);
    };
    let a = document(alloc, cut)?;
    let b = document(alloc, whole())?;
    let documents = [a.as_slice(), b.as_slice()];
    Ok(
        both_make(alloc, Asked::Fonts(LABELS), documents, LINES)?
            && both_make(alloc, Asked::Font(b"Tiny"), documents, file)?,
    )
}

/// The same of the file of that part.
fn are_listed(alloc: Global) -> Result<bool, AllocError> {
    match subset_of_x(alloc) {
        Ok(Some(file)) => file_is_listed(alloc, file.as_slice()),
        Ok(None) => Ok(false),
        Err(fault) => Err(fault),
    }
}

#[test]
fn growths_of_fonts(rt: HostRuntime) {
    let right = match are_listed(rt.alloc()) {
        Err(AllocError) => are_listed(rt.alloc()),
        answer => answer,
    };
    assert!(rt; right == Ok(true));
}
