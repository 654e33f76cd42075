//! A page with all that it stands on.

ghost use Rattle.std.specs.Prelude.{◌≡◌, ◌++◌, ◌+◌, length, map, decimal, IfOk, IfErr, OnOk};
ghost use Rattle.t1_dsc.specs.Limits.{IsOver};
ghost use Rattle.t1_dsc.specs.{Joining.{page_line, page_front, with_setup, page_inner, page_bytes, pages_bytes}, Views.{line_view, page_view, frame_view}};

use crate::fault::PagesFault;
use crate::lines::Line;
use crate::names::push_name;
use crate::parts::{PageLines, comments_len, setup_len};
use crate::quiet::push_quiet;
use itoa::Buffer;
use std::alloc::AllocError;

/// What all pages of a document have: the bytes before a page's own lines, and those behind them.
#[derive(Clone, Copy)]
pub(crate) struct Frame<'f> {
    pub(crate) head: &'f [u8],
    pub(crate) tail: &'f [u8],
}

/// A sum. One that 64 bits don't hold counts pages that no memory holds.
pub(crate) fn sum(a: usize, b: usize) -> Result<usize, AllocError>
    ensures { IfOk result (λ n. n ≡ a + b) }
{
    match a.checked_add(b) {
        Some(n) => Ok(n),
        None => Err(AllocError),
    }
}

/// Adds a number.
pub(crate) fn push_number(out: &mut Vec<u8>, n: usize) -> Result<(), AllocError>
    ensures { OnOk result (out.new.items ≡ out.old.items ++ decimal n) }
{
    let mut buffer = Buffer::new();
    out.extend_from_slice(buffer.format(n).as_bytes())
}

/// Adds the line that begins a page of this number.
fn push_page_line(out: &mut Vec<u8>, n: usize) -> Result<(), AllocError>
    ensures { OnOk result (out.new.items ≡ out.old.items ++ page_line n) }
{
    out.extend_from_slice(b"%%Page: ")?;
    push_number(out, n)?;
    out.extend_from_slice(b" ")?;
    push_number(out, n)?;
    out.extend_from_slice(b"\n")
}

/// Adds the front of a page: its line, its comments, and the procedure that begins it.
#[tactic(auto, unfolding(crate::specs::Joining::page_front))]
fn push_front(
    out: &mut Vec<u8>,
    start: &[u8],
    n: usize,
    body: &[Line<'_>],
) -> Result<(), AllocError>
    ensures { OnOk result (out.new.items ≡ out.old.items ++ page_front start.now n (map line_view body.now)) }
{
    let (comments, _) = body.split_at(comments_len(body));
    push_page_line(out, n)?;
    push_quiet(out, comments)?;
    out.extend_from_slice(b"%%BeginPageSetup\n")?;
    push_name(out, start, b"begin\n")
}

/// Adds lines, of which those of the setup come before its end.
fn push_with_setup(out: &mut Vec<u8>, lines: &[Line<'_>]) -> Result<(), AllocError>
    ensures { OnOk result (out.new.items ≡ out.old.items ++ with_setup (map line_view lines.now)) }
{
    let (setup, text) = lines.split_at(setup_len(lines));
    push_quiet(out, setup)?;
    out.extend_from_slice(b"%%EndPageSetup\n")?;
    push_quiet(out, text)
}

/// Adds what stands between the procedures: the head of the document, and the page's own lines behind a line of ours.
#[tactic(auto, unfolding(crate::specs::Joining::page_inner))]
fn push_inner(out: &mut Vec<u8>, head: &[u8], page: &PageLines<'_, '_>) -> Result<(), AllocError>
    ensures { OnOk result (out.new.items ≡ out.old.items ++ page_inner head.now (page_view page.now)) }
{
    let (_, lines) = page.body.split_at(comments_len(page.body));
    out.extend_from_slice(head)?;
    push_quiet(out, page.own)?;
    out.extend_from_slice(b"%\n")?;
    push_with_setup(out, lines)
}

/// Adds a page of this number.
#[tactic(auto, unfolding(crate::specs::Joining::page_bytes))]
fn push_page(
    out: &mut Vec<u8>,
    start: &[u8],
    frame: Frame<'_>,
    n: usize,
    page: &PageLines<'_, '_>,
) -> Result<(), AllocError>
    ensures { OnOk result (out.new.items ≡ out.old.items ++ page_bytes start.now (frame_view frame.entry) n (page_view page.now)) }
{
    push_front(out, start, n, page.body)?;
    push_inner(out, frame.head, page)?;
    out.extend_from_slice(frame.tail)?;
    push_name(out, start, b"end\n")
}

/// Adds pages, numbered from this number on, and tells the number behind theirs. No page is begun behind so many bytes.
pub(crate) fn push_pages(
    out: &mut Vec<u8>,
    start: &[u8],
    frame: Frame<'_>,
    first: usize,
    pages: &[PageLines<'_, '_>],
    limit: usize,
) -> Result<usize, PagesFault>
    ensures next { IfOk result (λ n. n ≡ first + length pages.now) }
    ensures bytes { OnOk result (out.new.items ≡ out.old.items
        ++ pages_bytes start.now (frame_view frame.entry) first (map page_view pages.now)) }
    ensures over { IfErr result (IsOver limit (out.old.items
        ++ pages_bytes start.now (frame_view frame.entry) first (map page_view pages.now))) }
{
    let mut n = first;
    'pages: for page in pages {
        if out.len() > limit {
            return Err(PagesFault::TooLong);
        }
        push_page(out, start, frame, n, page)?;
        n = sum(n, 1)?;
    }
    Ok(n)
}
