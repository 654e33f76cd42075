//! The first tables of a list that join.

use super::{Numbered, THREE, many_entries, tables_of};
use std::alloc::{AllocError, Global};
use std::test::Fail;
use t1_join::join_first;

// The number of keys of the first tables that join, and how many these tables are.
pub(super) fn keys_of_first_tables(
    alloc: Global,
    tables: &[Numbered],
) -> Result<Option<(usize, usize)>, AllocError> {
    match join_first(alloc, tables)? {
        Some((all, count)) => Ok(Some((all.entries().count(), count))),
        None => Ok(None),
    }
}

// The same of tables with one entry each.
fn keys_of_first(
    alloc: Global,
    entries: &[(u16, u8)],
) -> Result<Option<(usize, usize)>, AllocError> {
    let tables = tables_of(alloc, entries)?;
    keys_of_first_tables(alloc, tables.as_slice())
}

// meets join_first Some at 1, 2, 3, 5, 100000, 100001 tables
// meets join_first None at 0 tables
#[test]
fn joins_the_first(rt: HostRuntime) -> Result<(), Fail> {
    const ROWS: &[(&[(u16, u8)], Option<(usize, usize)>, &str)] = &[
        (&[], None, "none"),
        (&[(5, 0x0b)], Some((1, 1)), "one"),
        (&[(5, 0x0b), (6, 0x0e)], Some((2, 2)), "two"),
        (&[(5, 0x0b), (5, 0x0e)], Some((1, 1)), "two that differ"),
        (THREE, Some((2, 3)), "three"),
        (
            &[(5, 0x0b), (6, 0x0e), (5, 0x0e)],
            Some((2, 2)),
            "three, the last of which differs",
        ),
        (
            &[(5, 0x0b), (5, 0x0e), (6, 0x0e), (7, 0x0e), (8, 0x0e)],
            Some((1, 1)),
            "five, the second of which differs",
        ),
        (
            &[(5, 0x0b), (6, 0x0b), (7, 0x0b), (6, 0x0e), (8, 0x0e)],
            Some((3, 3)),
            "five, the fourth of which differs",
        ),
    ];
    for &(entries, want, what) in ROWS {
        assert!(rt; keys_of_first(rt.alloc(), entries)? == want, "{what}");
    }
    let mut many = many_entries(rt.alloc())?;
    assert!(rt; keys_of_first(rt.alloc(), many.as_slice())? == Some((10, 100_000)));
    many.push((9, 0x0e))?;
    let all = keys_of_first(rt.alloc(), many.as_slice())?;
    assert!(rt;
        all == Some((10, 100_000)) && many.len() == 100_001,
        "many, the last of which differs"
    );
    Ok(())
}
