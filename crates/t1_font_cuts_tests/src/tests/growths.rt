//! Each call that grows, over cuts of Tiny. `tools/sweep_growths.py` refuses one growth after the other: a call that then
//! answers want of memory gives the right answer when it is made again.

use super::cuts::{X, X_AND_Y, Y, joined, tiny_cut};
use super::tables::tiny_is_right;
use std::alloc::Global;
use t1_font::PartsFault;

/// Whether two cuts of Tiny join to the cut to the names of both.
fn cuts_join(alloc: Global) -> Result<bool, PartsFault> {
    let x = tiny_cut(alloc, X)?;
    let y = tiny_cut(alloc, Y)?;
    let both = tiny_cut(alloc, X_AND_Y)?;
    let parts = joined(alloc, x.as_slice(), y.as_slice())?;
    Ok(parts.as_slice() == both.as_slice())
}

#[test]
fn growths_of_parts(rt: HostRuntime) {
    let right = match cuts_join(rt.alloc()) {
        Err(PartsFault::Memory) => cuts_join(rt.alloc()),
        answer => answer,
    };
    assert!(rt; right == Ok(true));
}

#[test]
fn growths_of_tables(rt: HostRuntime) {
    let right = match tiny_is_right(rt.alloc()) {
        Err(_) => tiny_is_right(rt.alloc()),
        answer => answer,
    };
    assert!(rt; right == Ok(true));
}
