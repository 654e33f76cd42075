//! Each call that grows while fonts are made alike. `tools/sweep_growths.py` refuses one growth after the other: a call that
//! then answers want of memory gives the right answer when it is made again.

use super::boxes::{ONE_BOX, TWO, boxed};
use super::names::{all_become, becomes};
use super::normalizing::{MARKS, TABLES, is_left, normalized};
use super::untested;
use super::untested::UNTESTED;
use std::alloc::{AllocError, Global};
use t1_font::PartsFault;
use t1_font_shared_tests::TESTED;

/// Whether fonts are normalized: `Source::normalize` leaves a head without its tag, `normalize_shells` and `fill_all` the same Subrs in
/// each, and `normalize_boxes` one box.
fn normalizes(alloc: Global) -> Result<bool, PartsFault> {
    let left = is_left(
        alloc,
        b"/FontName /ABCDEF+Tiny def ",
        b"/FontName /Tiny def ",
    )?;
    let marks = normalized(alloc, TABLES)?;
    let boxes = boxed(alloc, TWO)?;
    Ok(left && marks.as_slice() == MARKS && boxes.as_slice() == ONE_BOX)
}

/// Whether fonts get a name: `Source::named` one, `normalize_named` two that are normalized.
fn get_names(alloc: Global) -> Result<bool, AllocError> {
    let one = becomes(alloc, b"/FontName /T def ", b"U", b"/FontName /U def ")?;
    Ok(one && all_become(alloc, 2)?)
}

#[test]
fn growths_of_normalizing(rt: HostRuntime) {
    let right = match normalizes(rt.alloc()) {
        Err(PartsFault::Memory) => normalizes(rt.alloc()),
        answer => answer,
    };
    assert!(rt; right == Ok(true));
}

#[test]
fn growths_of_untested(rt: HostRuntime) {
    let right = match untested::is_left(rt.alloc(), TESTED, UNTESTED) {
        Err(_) => untested::is_left(rt.alloc(), TESTED, UNTESTED),
        answer => answer,
    };
    assert!(rt; right == Ok(true));
}

#[test]
fn growths_of_names(rt: HostRuntime) {
    let right = match get_names(rt.alloc()) {
        Err(_) => get_names(rt.alloc()),
        answer => answer,
    };
    assert!(rt; right == Ok(true));
}
