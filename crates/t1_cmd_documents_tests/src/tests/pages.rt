//! Documents that become one document, with all their pages.
use super::documents::{pooled_as, pooled_files};
use std::alloc::{AllocError, Global};
use std::io::ErrorKind;
use t1_cmd::{FilesRefusal, Pooling, Reason, pool_files, run_pool};
use t1_cmd_shared_tests::documents::{part, whole};
use t1_cmd_shared_tests::feeds::{FINE, Feed, Plan, Sink, word};
use t1_cmd_shared_tests::texts::{are_same, joined};
use t1_jobs::{FileKind, NoDocument};

const ONE: Pooling = Pooling {
    tags: false,
    dsc: true,
};

const ONE_WITH_FAMILIES: Pooling = Pooling {
    tags: true,
    dsc: true,
};

/// What stands behind the number of pages, where the fonts and the documents have no names of the pool.
const PROLOG: &[u8] = b"\n%%EndComments
%%BeginProlog
/pool:kept 3 dict def
/pool:begin{pool:kept begin/saved save def/operands count 1 sub def/dicts countdictstack 1 sub def end}bind def
/pool:end{count pool:kept/operands get sub dup 0 gt{{pop}repeat}{pop}ifelse \
    countdictstack pool:kept/dicts get sub dup 0 gt{{end}repeat}{pop}ifelse \
    pool:kept/saved get restore}bind def
%%EndProlog
%%BeginSetup
";

/// The same where the fonts have names of the pool.
const PROLOG_WITH_FONTS: &[u8] = b"\n%%EndComments
%%BeginProlog
/pool::kept 3 dict def
/pool::begin{pool::kept begin/saved save def/operands count 1 sub def/dicts countdictstack 1 sub def end}bind def
/pool::end{count pool::kept/operands get sub dup 0 gt{{pop}repeat}{pop}ifelse \
    countdictstack pool::kept/dicts get sub dup 0 gt{{end}repeat}{pop}ifelse \
    pool::kept/saved get restore}bind def
%%EndProlog
%%BeginSetup
";

/// Documents without fonts, and what they become, in pieces, with what is told behind it.
type Row = (&'static [&'static [u8]], &'static [&'static [u8]]);

const ROWS: &[Row] = &[
    (
        &[],
        &[
            b"%!PS-Adobe-3.0\n%%Pages: 0",
            PROLOG,
            b"%%EndSetup\n%%Trailer\n%%EOF\n",
        ],
    ),
    (
        &[
            b"%!PS\n%%Page: 1 1\na\n%%Trailer\nt\n",
            b"\x04%!PS\n%%Page: x 7\nb\n%%Page: y 8\nc\n\x04",
        ],
        &[
            b"%!PS-Adobe-3.0\n%%Pages: 3",
            PROLOG,
            b"%%EndSetup\n%%Page: 1 1\n%%BeginPageSetup\npool:begin\n% %%Page: 1 1\n%\n%%EndPageSetup\na\n% %%Trailer\nt\npool:end\n\
              %%Page: 2 2\n%%BeginPageSetup\npool:begin\n% %%Page: x 7\n%\n%%EndPageSetup\nb\npool:end\n\
              %%Page: 3 3\n%%BeginPageSetup\npool:begin\n% %%Page: y 8\n%\n%%EndPageSetup\nc\npool:end\n%%Trailer\n%%EOF\n",
        ],
    ),
    (
        &[b"%!PS\na", b"%!PS\n%%Page: 1 1\nb\n", b"%!"],
        &[
            b"%!PS-Adobe-3.0\n%%Pages: 3",
            PROLOG,
            b"%%EndSetup\n%%Page: 1 1\n%%BeginPageSetup\npool:begin\n%\n%%EndPageSetup\na\npool:end\n\
              %%Page: 2 2\n%%BeginPageSetup\npool:begin\n% %%Page: 1 1\n%\n%%EndPageSetup\nb\npool:end\n\
              %%Page: 3 3\n%%BeginPageSetup\npool:begin\n%\n%%EndPageSetup\npool:end\n%%Trailer\n%%EOF\n",
            b"document 1 has no pages by its comments: it is one page\ndocument 3 has no pages by its comments: it is one page\n",
        ],
    ),
];

/// Whether the engine and the call make this of documents.
fn become_so(alloc: Global, how: Pooling, documents: &[&[u8]], want: &[&[u8]]) -> bool {
    are_same(pooled_as(alloc, how, documents), joined(alloc, want))
        && are_same(pooled_files(alloc, how, documents), joined(alloc, want))
}

// meets run_pool Ok at 0, 2, 3 documents
#[test]
fn documents_without_fonts(rt: HostRuntime) {
    for &(documents, want) in ROWS {
        assert!(rt; become_so(rt.alloc(), ONE, documents, want));
        assert!(rt; become_so(rt.alloc(), ONE_WITH_FAMILIES, documents, want));
    }
}

/// A document with a font before its page.
fn paged(alloc: Global, font: &[u8]) -> Result<Vec<u8>, AllocError> {
    joined(
        alloc,
        &[
            b"%!PS\n%%BeginFont: Tiny\n",
            font,
            b"\n%%EndFont\n%%Page: 1 1\nshowpage\n",
        ],
    )
}

/// What stands around the font in the setup, and the pages behind it.
const AROUND: (&[u8], &[u8]) = (
    b"%%BeginResource: font Tiny\n",
    b"\n%%EndResource\n/pool:Tiny /Tiny findfont definefont pop\nsystemdict/undefinefont known{/Tiny undefinefont}if\n%%EndSetup\n",
);

const PAGE: &[u8] =
    b"%%BeginPageSetup\npool::begin\n%%BeginFont: Tiny\n/Tiny /pool:Tiny findfont definefont pop\n%%EndFont\n\
    % %%Page: 1 1\n%\n%%EndPageSetup\nshowpage\npool::end\n";

/// Whether a document with one font becomes one that has it in its setup.
fn has_one_font(alloc: Global) -> Result<bool, AllocError> {
    let document = paged(alloc, whole())?;
    let want: &[&[u8]] = &[
        b"%!PS-Adobe-3.0\n%%Pages: 1",
        PROLOG_WITH_FONTS,
        AROUND.0,
        whole(),
        AROUND.1,
        b"%%Page: 1 1\n",
        PAGE,
        b"%%Trailer\n%%EOF\n",
    ];
    let documents: &[&[u8]] = &[document.as_slice()];
    Ok(
        become_so(alloc, ONE, documents, want)
            && become_so(alloc, ONE_WITH_FAMILIES, documents, want),
    )
}

/// Whether documents with a font and a subset of it become one that has the font once.
fn has_fonts_once(alloc: Global) -> Result<bool, AllocError> {
    let cut = part(alloc);
    let one = paged(alloc, cut.as_slice())?;
    let two = paged(alloc, whole())?;
    let want: &[&[u8]] = &[
        b"%!PS-Adobe-3.0\n%%Pages: 2",
        PROLOG_WITH_FONTS,
        AROUND.0,
        whole(),
        AROUND.1,
        b"%%Page: 1 1\n",
        PAGE,
        b"%%Page: 2 2\n",
        PAGE,
        b"%%Trailer\n%%EOF\n",
    ];
    let documents: &[&[u8]] = &[one.as_slice(), two.as_slice()];
    Ok(become_so(alloc, ONE, documents, want))
}

// meets run_pool Ok at 1, 2 documents
#[test]
fn documents_with_fonts(rt: HostRuntime) {
    assert!(rt; has_one_font(rt.alloc()) == Ok(true));
    assert!(rt; has_fonts_once(rt.alloc()) == Ok(true));
}

/// Whether a call says that the second of two files is a PDF file.
fn is_second(alloc: Global) -> bool {
    match pool_files(alloc, ONE, &[b"%!", b"%PDF-1.7\n"]) {
        Err(
            FilesRefusal {
                place: Some(1),
                reason: Reason::Document(NoDocument::IsA(FileKind::Pdf)),
            },
        ) => true,
        other => {
            drop(other);
            false
        }
    }
}

/// How two documents become one that are read by these plans, as a word, where the writer goes by the third.
fn ended(alloc: Global, first: Plan, second: Plan, writer: Plan) -> &'static str {
    let mut readers = [Feed::new(b"%!PS\n", first), Feed::new(b"%!PS\n", second)];
    let mut out = t1_cmd::Counted::new(Sink::new(Vec::new(alloc), writer));
    word(run_pool(alloc, ONE, &mut readers, &mut out))
}

/// A first call that fails.
const FAILS: Plan = Plan {
    most: usize::MAX,
    fails: 1,
    kind: ErrorKind::Other,
};

#[test]
fn documents_that_fail(rt: HostRuntime) {
    assert!(rt; is_second(rt.alloc()));
    assert!(rt; ended(rt.alloc(), FINE, FINE, FINE) == "ok");
    assert!(rt; ended(rt.alloc(), FINE, FAILS, FINE) == "read");
    assert!(rt; ended(rt.alloc(), FINE, FINE, FAILS) == "write");
}
