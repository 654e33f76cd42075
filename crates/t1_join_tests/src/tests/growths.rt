// Each call that grows, and those that don't.

use crate::tests::firsts::keys_of_first_tables;
use crate::tests::{Numbered, keys_of_all, keys_of_both, small, table};
use std::alloc::{AllocError, Global};
use std::test::Fail;
use t1_join::listing::{self, JoinFault, ListFault, Listing};
use t1_join::{Flat, Hex, Join, Table, likely_places, push_item};

// The listing that a text spells; want of memory is no answer, and any other fault is a wrong one.
fn listing_of(alloc: Global, text: &[u8]) -> Result<Option<Listing<'_>>, AllocError> {
    match listing::read(alloc, text) {
        Ok(listing) => Ok(Some(listing)),
        Err(ListFault::Memory) => Err(AllocError),
        Err(_) => Ok(None),
    }
}

// Whether this is the text of the join of two listings.
fn is_joined_text(
    alloc: Global,
    left: &Listing<'_>,
    right: &Listing<'_>,
    text: &[u8],
) -> Result<bool, AllocError> {
    match listing::write_joined(alloc, left, right) {
        Ok(written) => Ok(written.as_slice() == text),
        Err(JoinFault::Memory) => Err(AllocError),
        Err(_) => Ok(false),
    }
}

// Whether two listings join to what is written as this text, with the joined listing and without it.
fn is_written_as(
    alloc: Global,
    left: &Listing<'_>,
    right: &Listing<'_>,
    text: &[u8],
) -> Result<bool, AllocError> {
    match listing::join(alloc, left, right) {
        Ok(both) => {
            let same = listing::write(alloc, &both)?.as_slice() == text;
            Ok(same && is_joined_text(alloc, left, right, text)?)
        }
        Err(JoinFault::Memory) => Err(AllocError),
        Err(_) => Ok(false),
    }
}

// Whether two texts are listings that join so.
fn texts_join(alloc: Global, left: &[u8], right: &[u8], text: &[u8]) -> Result<bool, AllocError> {
    match (listing_of(alloc, left)?, listing_of(alloc, right)?) {
        (Some(left), Some(right)) => is_written_as(alloc, &left, &right, text),
        _ => Ok(false),
    }
}

// Whether two small tables join to as many keys as they have.
fn two_tables_join(alloc: Global) -> Result<bool, AllocError> {
    let one = small(alloc)?;
    let other = table(alloc, 11, 14, 1)?;
    Ok(keys_of_both(alloc, &one, &other)? == Some(6))
}

// Whether four do, of which the last three have these keys.
fn four_tables_join(alloc: Global) -> Result<bool, AllocError> {
    const KEYS: &[(u16, u16)] = &[(11, 14), (20, 22), (20, 21)];
    let mut list = Vec::new(alloc);
    list.push(small(alloc)?)?;
    for &(from, to) in KEYS {
        list.push(table(alloc, from, to, 1)?)?;
    }
    Ok(
        keys_of_all(alloc, list.as_slice())? == Some(8)
            && keys_of_first_tables(alloc, list.as_slice())? == Some((8, 4)),
    )
}

// Whether flats join to what is in one of them.
fn flats_join(alloc: Global) -> Result<bool, AllocError> {
    let full = Flat::Full(b"ab".to_vec(alloc)?);
    match Flat::Empty.join(alloc, &full)? {
        Flat::Full(joined) => Ok(joined.as_slice() == b"ab".as_slice()),
        Flat::Empty => Ok(false),
    }
}

// Whether digits of either case spell their bytes.
fn digits_spell(alloc: Global) -> Result<bool, AllocError> {
    match Hex::read(b"eF06") {
        Some(hex) => Ok(hex.bytes(alloc)?.as_slice() == b"\xef\x06".as_slice()),
        None => Ok(false),
    }
}

// Whether an item is pushed behind another.
fn items_stand(alloc: Global) -> Result<bool, AllocError> {
    let mut list = Vec::new(alloc);
    push_item(&mut list, 5u16)?;
    push_item(&mut list, 7)?;
    Ok(list.as_slice() == [5, 7].as_slice())
}

// Whether the likely places of three entries are right.
fn places_stand(alloc: Global) -> Result<bool, AllocError> {
    let places = likely_places(alloc, &[(0, b'a'), (1, b'b'), (3, b'c')])?;
    Ok(places.as_slice() == [0, 1, 0, 2].as_slice())
}

// Whether all calls that grow answer right.
fn answers_right(alloc: Global) -> Result<bool, AllocError> {
    let listings = texts_join(
        alloc,
        b"S 5 ef060b\nG X 8b0e\n",
        b"G Y 0E\nS 5 ef060b\n",
        b"S 5 ef060b\nG X 8b0e\nG Y 0e\n",
    )?;
    Ok(
        listings
            && digits_spell(alloc)?
            && two_tables_join(alloc)?
            && four_tables_join(alloc)?
            && flats_join(alloc)?
            && items_stand(alloc)?
            && places_stand(alloc)?,
    )
}

// `tools/sweep_growths.py` refuses one growth after the other: a call that then answers want of memory gives the right
// answer when it is made again.
#[test]
fn growths(rt: HostRuntime) -> Result<(), Fail> {
    let right = match answers_right(rt.alloc()) {
        Err(AllocError) => answers_right(rt.alloc())?,
        answer => answer?,
    };
    assert!(rt; right);
    Ok(())
}

// The same refuses all growths.
#[test]
fn no_growth(rt: HostRuntime) {
    let one: Numbered = Table::new(rt.alloc());
    let other: Numbered = Table::new(rt.alloc());
    assert!(rt; one.get(&5).is_none());
    assert!(rt; one.entries().next().is_none());
    assert!(rt; one.conflict(&other).is_none() && one.agrees(&other));
}
