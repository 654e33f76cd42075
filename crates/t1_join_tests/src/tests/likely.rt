//! Where entries likely stand, which no clause says, since each look-up tests what it finds.

use std::alloc::{AllocError, Global};
use std::test::Fail;
use t1_join::likely_places;

/// The likely places of entries with these indices.
fn places(alloc: Global, indices: &[u16]) -> Result<Vec<u16>, AllocError> {
    let mut entries = Vec::new(alloc);
    for index in indices {
        entries.push((*index, ()))?;
    }
    likely_places(alloc, entries.as_slice())
}

// meets likely_places Ok at 0, 1, 3, 4, 7, 1031, 65534 indices
#[test]
fn likely_places_of_indices(rt: HostRuntime) -> Result<(), Fail> {
    const ROWS: &[(&[u16], &[u16])] = &[
        (&[], &[]),
        (&[0], &[]),
        (&[0, 1, 2], &[]),
        (&[2], &[0, 0, 0]),
        (&[0, 3], &[0, 0, 0, 1]),
        (&[1, 2, 5, 6], &[0, 0, 1, 0, 0, 2, 3]),
    ];
    for (indices, want) in ROWS {
        assert!(rt; places(rt.alloc(), indices)?.as_slice() == *want);
    }
    let last = places(rt.alloc(), &[7, 1_030])?;
    assert!(rt; last.len() == 1_031 && last[7] == 0 && last[1_030] == 1);
    assert!(rt; places(rt.alloc(), &[7, 1_031])?.is_empty());
    assert!(rt; places(rt.alloc(), &[7, 65_534])?.is_empty());
    Ok(())
}
