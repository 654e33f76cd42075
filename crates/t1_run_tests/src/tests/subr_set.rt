// Sets of called indices, up to all that there are.

use std::alloc::{AllocError, Global};
use std::collections::BTreeSet;
use std::test::Fail;
use t1_run::SubrSet;

// The first indices of all 65,536, in an order that goes up and down: an odd number's multiples meet each of them once.
fn first(alloc: Global, count: u32) -> Result<Vec<u16>, AllocError> {
    let mut indices = Vec::new(alloc);
    for step in 0..count {
        indices.push((step.wrapping_mul(40_503) % 65_536) as u16)?;
    }
    Ok(indices)
}

// Adds indices.
fn insert_all(called: &mut SubrSet, indices: &[u16]) -> Result<(), AllocError> {
    for index in indices {
        called.insert(*index)?;
    }
    Ok(())
}

// Whether a set has all of these.
fn has_all(set: &BTreeSet<u16>, indices: &[u16]) -> bool {
    for index in indices {
        if !set.contains(index) {
            return false;
        }
    }
    true
}

// Whether a set of so many indices, each added twice, has each of them once.
fn holds(alloc: Global, count: u32) -> Result<bool, Fail> {
    let indices = first(alloc, count)?;
    let mut called = SubrSet::new(alloc);
    insert_all(&mut called, &indices)?;
    insert_all(&mut called, &indices)?;
    let set = called.to_set(alloc)?;
    let is_all = set.len() == indices.len() && has_all(&set, &indices);
    let is_once = called.as_slice().len() == indices.len();
    called.clear();
    Ok(is_all && is_once && called.as_slice().is_empty())
}

// meets SubrSet::new Ok at 1 sets
// meets SubrSet::insert Ok at 1, 1001, 65536 indices
// meets SubrSet::to_set Ok at 0, 1, 1001, 65536 indices
#[test]
fn holds_all_indices(rt: HostRuntime) -> Result<(), Fail> {
    for count in [0, 1, 2, 1_001, 65_536] {
        assert!(rt; holds(rt.alloc(), count)?, "{count} indices");
    }
    Ok(())
}
