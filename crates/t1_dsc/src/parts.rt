//! The parts of a document: its header, its head, its pages and its trailer.

ghost use Rattle.std.specs.{Prelude.{◌≡◌, map, length, IfOk, ◌≤◌}, Option.{option_map}};
ghost use Rattle.t1_dsc.specs.Parts.{len_before, before, from, has, is_header, header_len, behind_header, page_at, pages_in, has_pages, parts_of, is_page_comment, comments_len, setup_len};
ghost use Rattle.t1_dsc.specs.Views.{line_view, page_view, parts_view};

use crate::lines::{Line, Role, begins_with};
use std::alloc::{AllocError, Global};

/// A page: the line that begins it, if there is one, and the lines behind that.
#[derive(Clone, Copy)]
pub(crate) struct PageLines<'l, 'a> {
    pub(crate) own: &'l [Line<'a>],
    pub(crate) body: &'l [Line<'a>],
}

/// The head of a document, which each page stands on, its pages, and its trailer.
#[derive(Drop)]
pub(crate) struct Parts<'l, 'a> {
    pub(crate) head: &'l [Line<'a>],
    pub(crate) pages: Vec<PageLines<'l, 'a>>,
    pub(crate) trailer: &'l [Line<'a>],
}

/// How many lines come before the first one of a role.
fn len_before(lines: &[Line<'_>], role: Role) -> usize
    ensures equal { result ≡ len_before role (map line_view lines.now) }
    ensures within { result ≤ length lines.now }
{
    'lines: for (at, line) in lines.iter().enumerate() {
        if role.is(line.role) {
            return at;
        }
    }
    lines.len()
}

/// Whether some line has this role.
fn has(lines: &[Line<'_>], role: Role) -> bool
    ensures { result ≡ has role (map line_view lines.now) }
{
    'lines: for line in lines {
        if role.is(line.role) {
            return true;
        }
    }
    false
}

/// Whether a line is a comment as the header of a document has them.
fn is_header(line: &[u8]) -> bool
    ensures { result ≡ is_header line.now }
{
    (begins_with(line, b"%%") || begins_with(line, b"%!"))
        && !(begins_with(line, b"%%Begin")
            || begins_with(line, b"%%Page:")
            || begins_with(line, b"%%Include"))
}

/// How many lines the header has.
fn header_len(lines: &[Line<'_>]) -> usize
    ensures equal { result ≡ header_len (map line_view lines.now) }
    ensures within { result ≤ length lines.now }
{
    'lines: for (at, line) in lines.iter().enumerate() {
        if !is_header(line.text) {
            return at;
        }
    }
    lines.len()
}

/// The lines behind the header.
pub(crate) fn behind_header<'l, 'a>(lines: &'l [Line<'a>]) -> &'l [Line<'a>]
    ensures { map line_view result.now ≡ behind_header (map line_view lines.now) }
{
    let (_, behind) = lines.split_at(header_len(lines));
    behind
}

/// The lines before the first one of a role, and those from it on.
fn parted<'l, 'a>(lines: &'l [Line<'a>], role: Role) -> (&'l [Line<'a>], &'l [Line<'a>])
    ensures front { map line_view result.0.now ≡ before role (map line_view lines.now) }
    ensures back { map line_view result.1.now ≡ from role (map line_view lines.now) }
{
    lines.split_at(len_before(lines, role))
}

/// The page that lines begin with, up to the next one.
fn page_at<'l, 'a>(lines: &'l [Line<'a>]) -> Option<PageLines<'l, 'a>>
    ensures { option_map page_view result ≡ page_at (map line_view lines.now) }
{
    let (line, _) = lines.split_first()?;
    if !Role::Page.is(line.role) {
        return None;
    }
    let (own, behind) = lines.split_at(1);
    let (body, _) = parted(behind, Role::Page);
    Some(PageLines { own, body })
}

/// The pages of lines.
fn pages_in<'l, 'a>(
    alloc: Global,
    lines: &'l [Line<'a>],
) -> Result<Vec<PageLines<'l, 'a>>, AllocError>
    ensures { IfOk result (λ v. map page_view v.items ≡ pages_in (map line_view lines.now)) }
{
    let mut pages = Vec::new(alloc);
    'lines: for at in 0..lines.len() {
        let (_, rest) = lines.split_at(at);
        if let Some(page) = page_at(rest) {
            pages.push(page)?;
        }
    }
    Ok(pages)
}

/// Whether lines have pages, and none stands behind the beginning of a trailer.
pub(crate) fn has_pages(lines: &[Line<'_>]) -> bool
    ensures { result ≡ has_pages (map line_view lines.now) }
{
    let (front, trailer) = parted(lines, Role::Trailer);
    has(front, Role::Page) && !has(trailer, Role::Page)
}

/// The parts of the lines behind a header.
pub(crate) fn parts_of<'l, 'a>(
    alloc: Global,
    lines: &'l [Line<'a>],
) -> Result<Parts<'l, 'a>, AllocError>
    ensures { IfOk result (λ p. parts_view p ≡ parts_of (map line_view lines.now)) }
{
    if has_pages(lines) {
        let (front, trailer) = parted(lines, Role::Trailer);
        let (head, _) = parted(front, Role::Page);
        let pages = pages_in(alloc, front)?;
        return Ok(Parts {
            head,
            pages,
            trailer,
        });
    }
    let (none, body) = lines.split_at(0);
    let mut pages = Vec::new(alloc);
    pages.push(PageLines { own: none, body })?;
    Ok(Parts {
        head: none,
        pages,
        trailer: none,
    })
}

/// Whether a line is a comment that speaks of its page.
fn is_page_comment(line: &[u8]) -> bool
    ensures { result ≡ is_page_comment line.now }
{
    (begins_with(line, b"%%Page") && !begins_with(line, b"%%PageTrailer"))
        || begins_with(line, b"%%+")
}

/// How many comments on their page come first.
pub(crate) fn comments_len(lines: &[Line<'_>]) -> usize
    ensures equal { result ≡ comments_len (map line_view lines.now) }
    ensures within { result ≤ length lines.now }
{
    'lines: for (at, line) in lines.iter().enumerate() {
        if !is_page_comment(line.text) {
            return at;
        }
    }
    lines.len()
}

/// How many lines the setup of a page has.
pub(crate) fn setup_len(lines: &[Line<'_>]) -> usize
    ensures equal { result ≡ setup_len (map line_view lines.now) }
    ensures within { result ≤ length lines.now }
{
    if has(lines, Role::SetupEnd) {
        len_before(lines, Role::SetupEnd)
    } else {
        0
    }
}
