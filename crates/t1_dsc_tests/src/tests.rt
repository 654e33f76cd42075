//! Documents as one, by rows that were written by hand.

use std::alloc::{AllocError, Global};
use t1_dsc::{JoinedPages, PagesFault, join_pages};

/// Fonts, documents, how many pages each has, and the text that they become, in pieces.
type Row = (
    &'static [u8],
    &'static [&'static [u8]],
    &'static [usize],
    &'static [&'static [u8]],
);

const PROLOG: &[u8] = b"%%EndComments
%%BeginProlog
/pool:kept 3 dict def
/pool:begin{pool:kept begin/saved save def/operands count 1 sub def/dicts countdictstack 1 sub def end}bind def
/pool:end{count pool:kept/operands get sub dup 0 gt{{pop}repeat}{pop}ifelse \
    countdictstack pool:kept/dicts get sub dup 0 gt{{end}repeat}{pop}ifelse \
    pool:kept/saved get restore}bind def
%%EndProlog
%%BeginSetup
";

const OTHER_PROLOG: &[u8] = b"%%EndComments
%%BeginProlog
/pool::kept 3 dict def
/pool::begin{pool::kept begin/saved save def/operands count 1 sub def/dicts countdictstack 1 sub def end}bind def
/pool::end{count pool::kept/operands get sub dup 0 gt{{pop}repeat}{pop}ifelse \
    countdictstack pool::kept/dicts get sub dup 0 gt{{end}repeat}{pop}ifelse \
    pool::kept/saved get restore}bind def
%%EndProlog
%%BeginSetup
";

const ROWS: &[Row] = &[
    (
        b"",
        &[],
        &[],
        &[
            b"%!PS-Adobe-3.0\n%%Pages: 0\n",
            PROLOG,
            b"%%EndSetup\n%%Trailer\n%%EOF\n",
        ],
    ),
    // The whole of a document, and one without pages and without an end.
    (
        b"/f 1 def",
        &[
            b"%!PS-Adobe-3.0\n%%Pages: (atend)\n%%EndComments\n%%BeginProlog\np\n%%EndProlog\n%%Page: a 1\n%%PageMedia: A4\n%%+ 2\n\
              %%BeginPageSetup\ns\n%%EndPageSetup\n1\n%%Page: b 2\n2\n%%Trailer\nt\n%%Pages: 2\n%%EOF\n",
            b"%!\nshowpage",
        ],
        &[2, 0],
        &[
            b"%!PS-Adobe-3.0\n%%Pages: 3\n",
            PROLOG,
            b"/f 1 def\n%%EndSetup\n",
            b"%%Page: 1 1\n%%PageMedia: A4\n%%+ 2\n%%BeginPageSetup\npool:begin\n% %%BeginProlog\np\n% %%EndProlog\n% %%Page: a 1\n%\n\
              % %%BeginPageSetup\ns\n%%EndPageSetup\n% %%EndPageSetup\n1\n% %%Trailer\nt\n% %%Pages: 2\n% %%EOF\npool:end\n",
            b"%%Page: 2 2\n%%BeginPageSetup\npool:begin\n% %%BeginProlog\np\n% %%EndProlog\n% %%Page: b 2\n%\n%%EndPageSetup\n2\n\
              % %%Trailer\nt\n% %%Pages: 2\n% %%EOF\npool:end\n",
            b"%%Page: 3 3\n%%BeginPageSetup\npool:begin\n%\n%%EndPageSetup\nshowpage\npool:end\n",
            b"%%Trailer\n%%EOF\n",
        ],
    ),
    // CR, and CR LF, which is one end of a line.
    (
        b"",
        &[
            b"%!PS\r%%Page: 1 1\r\ra\r%%EOF",
            b"%!PS\r\n%%Page: 1 1\r\na\r\n",
        ],
        &[1, 1],
        &[
            b"%!PS-Adobe-3.0\n%%Pages: 2\n",
            PROLOG,
            b"%%EndSetup\n%%Page: 1 1\n%%BeginPageSetup\npool:begin\n% %%Page: 1 1\r%\n%%EndPageSetup\n\ra\r% %%EOF\npool:end\n",
            b"%%Page: 2 2\n%%BeginPageSetup\npool:begin\n% %%Page: 1 1\r\n%\n%%EndPageSetup\na\r\npool:end\n%%Trailer\n%%EOF\n",
        ],
    ),
    // Embedded documents and data stay as they are; what is left open is ended.
    (
        b"",
        &[
            b"%%Page: 1 1\n%%BeginDocument: a\n%!PS\n%%Page: 1 1\n%%Trailer\n%%EOF\n%%EndDocument\n%%BeginData: 1\n%%EndProlog\n%%EndData\n%%EndSetup\n",
            b"%%BeginDocument: a\n%%BeginDocument: b\n%%BeginBinary: 1\n%%Page: 1 1\n",
        ],
        &[1, 0],
        &[
            b"%!PS-Adobe-3.0\n%%Pages: 2\n",
            PROLOG,
            b"%%EndSetup\n%%Page: 1 1\n%%BeginPageSetup\npool:begin\n% %%Page: 1 1\n%\n%%EndPageSetup\n%%BeginDocument: a\n%!PS\n\
              %%Page: 1 1\n%%Trailer\n%%EOF\n%%EndDocument\n%%BeginData: 1\n%%EndProlog\n%%EndData\n% %%EndSetup\npool:end\n",
            b"%%Page: 2 2\n%%BeginPageSetup\npool:begin\n%\n%%EndPageSetup\n%%BeginDocument: a\n%%BeginDocument: b\n%%BeginBinary: 1\n\
              %%Page: 1 1\n%%EndDocument\n%%EndDocument\n%%EndData\npool:end\n",
            b"%%Trailer\n%%EOF\n",
        ],
    ),
    // A page behind a trailer; names that the fonts have; a demand in the header.
    (
        b"/pool:CMR10 1 def\n",
        &[b"%!PS\n%%IncludeResource: font A\n%%Page: 1 1\n%%EOF\n%!PS\n%%Page: 1 1\n"],
        &[0],
        &[
            b"%!PS-Adobe-3.0\n%%Pages: 1\n",
            OTHER_PROLOG,
            b"/pool:CMR10 1 def\n%%EndSetup\n%%Page: 1 1\n%%BeginPageSetup\npool::begin\n%\n%%EndPageSetup\n%%IncludeResource: font A\n\
              % %%Page: 1 1\n% %%EOF\n%!PS\n% %%Page: 1 1\npool::end\n%%Trailer\n%%EOF\n",
        ],
    ),
];

/// Whether a text is made of these pieces.
fn is_made_of(text: &[u8], pieces: &[&[u8]]) -> bool {
    let mut rest = text;
    'pieces: for piece in pieces {
        if rest.len() < piece.len() {
            return false;
        }
        let (front, behind) = rest.split_at(piece.len());
        if front != *piece {
            return false;
        }
        rest = behind;
    }
    rest.is_empty()
}

/// Documents joined, again where a growth was refused.
fn joined_again(
    alloc: Global,
    fonts: &[u8],
    documents: &[&[u8]],
) -> Result<JoinedPages, PagesFault> {
    match join_pages(alloc, fonts, documents, usize::MAX) {
        Ok(joined) => Ok(joined),
        Err(_) => join_pages(alloc, fonts, documents, usize::MAX),
    }
}

/// Whether documents become this.
fn is_joined(alloc: Global, row: Row) -> bool {
    let (fonts, documents, pages, pieces) = row;
    match joined_again(alloc, fonts, documents) {
        Ok(joined) => joined.pages.as_slice() == pages
            && is_made_of(joined.text.as_slice(), pieces),
        Err(_) => false,
    }
}

// meets join_pages Ok at 0, 1, 2 documents
// `tools/sweep_growths.py` refuses one growth after the other: a call that then answers want of memory gives the right
// answer when it is made again.
#[test]
fn growths(rt: HostRuntime) {
    for &row in ROWS {
        assert!(rt; is_joined(rt.alloc(), row));
    }
}

/// A document of so many pages, each of one line.
fn many_pages(alloc: Global, count: usize) -> Result<Vec<u8>, AllocError> {
    let mut text = Vec::from_slice(alloc, b"%!PS\nhead\n")?;
    'pages: for _ in 0..count {
        text.extend_from_slice(b"%%Page: 1 1\npage\n")?;
    }
    Ok(text)
}

/// How many pages are told of so many, and whether the last one has this number.
fn last_of(alloc: Global, count: usize, last: &[u8]) -> Result<bool, PagesFault> {
    let document = many_pages(alloc, count)?;
    let joined = join_pages(alloc, b"", &[document.as_slice()], usize::MAX)?;
    Ok(joined.pages.as_slice() == [count].as_slice() && joined.text.as_slice().ends_with(last))
}

// meets join_pages Ok at 1000 pages
#[test]
fn many(rt: HostRuntime) {
    assert!(rt;
        last_of(
            rt.alloc(),
            1000,
            b"%%Page: 1000 1000\n%%BeginPageSetup\npool:begin\nhead\n% %%Page: 1 1\n%\n%%EndPageSetup\npage\npool:end\n%%Trailer\n%%EOF\n"
        ) == Ok(true)
    );
}

/// Whether a document joins within its own length, and within no less.
fn is_limited(alloc: Global, count: usize) -> Result<bool, PagesFault> {
    let document = many_pages(alloc, count)?;
    let documents: &[&[u8]] = &[document.as_slice()];
    let size = join_pages(alloc, b"", documents, usize::MAX)?.text.len();
    let again = join_pages(alloc, b"", documents, size)?.text.len();
    Ok(
        again == size
            && is_refused(alloc, documents, size.saturating_sub(1))?
            && is_refused(alloc, documents, 0)?,
    )
}

/// Whether documents are too long for this limit, and the refusal is printed so.
fn is_refused(alloc: Global, documents: &[&[u8]], limit: usize) -> Result<bool, PagesFault> {
    match join_pages(alloc, b"", documents, limit) {
        Err(fault) => Ok(
            fault == PagesFault::TooLong && fault.to_string(alloc)?.as_str() == "document too long",
        ),
        Ok(_) => Ok(false),
    }
}

// meets join_pages TooLong at 1, 1000 pages
#[test]
fn limits(rt: HostRuntime) {
    assert!(rt; is_limited(rt.alloc(), 1) == Ok(true));
    assert!(rt; is_limited(rt.alloc(), 1000) == Ok(true));
}
