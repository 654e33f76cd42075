//! Where the entries of a table of numbers likely stand.

use std::alloc::{AllocError, Global};

/// How many indices there may be for each entry.
const INDICES: usize = 8;

/// As many entries are counted at least, so a table of some hundred entries has a place for each index, whichever entries are left.
const FEW: usize = 128;

/// Where the entry of each index up to the last one stands, so that a look-up needs no search; an index without an entry has any
/// place. There are none where each entry's place is its index, and none where few entries have places among very many, so that a
/// small table takes little room. Whoever takes a place looks whether the index stands there.
pub fn likely_places<V>(alloc: Global, entries: &[(u16, V)]) -> Result<Vec<u16>, AllocError> {
    let mut likely = Vec::new(alloc);
    let Some((last, _)) = entries.last() else {
        return Ok(likely);
    };
    let count = *last as usize + 1;
    if count == entries.len() || count / INDICES > entries.len().max(FEW) {
        return Ok(likely);
    }
    likely.resize(count, 0)?;
    let mut place = 0u16;
    'entries: for (index, _) in entries {
        if let Some(at) = likely.get_mut(*index as usize) {
            *at = place;
        }
        place = place.saturating_add(1);
    }
    Ok(likely)
}
