//! A glyph that calls another Subr where hints are kept.

use super::closures::keeps;
use super::fonts::{cut, whole, with_subr};
use super::mergers::subr_differs;
use std::alloc::Global;
use std::test::Fail;

/// Whether the subset of a font over a glyph and that of another font over P differ in Subr 5, which P executes.
fn cuts_differ(alloc: Global, left: &[u8], name: &[u8], right: &[u8]) -> bool {
    let left = cut(alloc, left, &[name]);
    let right = cut(alloc, right, &[b"P"]);
    subr_differs(alloc, left.as_slice(), right.as_slice(), 5, Some(b"P"))
}

#[test]
fn both_answers_are_kept(rt: HostRuntime) -> Result<(), Fail> {
    let whole = whole(rt.alloc())?;
    assert!(rt; keeps(rt.alloc(), whole.as_slice(), &[b"P"], b".notdef P 01235"));
    let stubbed = with_subr(rt.alloc(), 5, (b"5", b"\x0b"))?;
    let one = cuts_differ(rt.alloc(), whole.as_slice(), b"X", stubbed.as_slice());
    assert!(rt; one, "a Subr that one calls where hints are kept");
    let both = cuts_differ(rt.alloc(), whole.as_slice(), b"P", stubbed.as_slice());
    assert!(rt; both, "a subset by one answer with one by both");
    Ok(())
}
