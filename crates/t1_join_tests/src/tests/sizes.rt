// Each call that grows, at its smallest sizes and at its largest.

use crate::tests::{Numbered, Want, holds, join_so, long_line, put, table};
use std::alloc::{AllocError, Global};
use std::test::Fail;
use t1_join::{Hex, Join, Table, push_item};

// How many bytes so many digits spell, if each of them is 0xbb.
fn spelled(alloc: Global, digits: usize) -> Result<Option<usize>, AllocError> {
    let mut text = Vec::new(alloc);
    text.resize(digits, b'b')?;
    match Hex::read(text.as_slice()) {
        Some(hex) => {
            let bytes = hex.bytes(alloc)?;
            let right = bytes.iter().all(|byte| *byte == 0xbb);
            Ok(if right { Some(bytes.len()) } else { None })
        }
        None => Ok(None),
    }
}

// meets Hex::bytes Ok at 0, 2, 100002, 131070 digits
#[test]
fn digits_of_each_size(rt: HostRuntime) -> Result<(), Fail> {
    const ROWS: &[(usize, Option<usize>)] = &[
        (0, Some(0)),
        (1, None),
        (2, Some(1)),
        (100_002, Some(50_001)),
        (131_070, Some(65_535)),
        (131_072, None),
    ];
    for &(digits, want) in ROWS {
        assert!(rt; spelled(rt.alloc(), digits)? == want, "{digits} digits");
    }
    Ok(())
}

// Whether a table with so many entries takes one more before them and one after them, and then another value.
fn takes_more(alloc: Global, entries: u16) -> Result<bool, AllocError> {
    let last = entries.saturating_add(1);
    let mut table = table(alloc, 1, last, 1)?;
    put(alloc, &mut table, 0, 2)?;
    put(alloc, &mut table, last, 3)?;
    put(alloc, &mut table, 0, 4)?;
    let all = table.entries().count() == usize::from(last).saturating_add(1);
    Ok(all && holds(&table, 0, 4) && holds(&table, last, 3))
}

// How many keys two tables have that agree, of which one has so many and the other one more before them.
fn agreed(alloc: Global, entries: u16, byte: u8) -> Result<Option<usize>, AllocError> {
    let last = entries.saturating_add(1);
    let one = table(alloc, 1, last, 1)?;
    let mut other = table(alloc, 0, last, 1)?;
    put(alloc, &mut other, entries, byte)?;
    match one.join_if_agreed(alloc, &other)? {
        Some(both) => Ok(Some(both.entries().count())),
        None => Ok(None),
    }
}

// meets Table::new Ok at 0 entries
// meets Table::insert Ok at 0, 1, 1000, 65534 entries
// meets join_if_agreed Some at 1, 1000, 65534 entries
// meets join_if_agreed None at 1, 1000, 65534 entries
#[test]
fn tables_of_each_size(rt: HostRuntime) -> Result<(), Fail> {
    let none: Numbered = Table::new(rt.alloc());
    assert!(rt; none.entries().next().is_none());
    const ROWS: &[u16] = &[0, 1, 1_000, 65_534];
    for &entries in ROWS {
        let taken = takes_more(rt.alloc(), entries)?;
        assert!(rt; taken, "{entries} entries and two more");
        let keys = usize::from(entries).saturating_add(1);
        assert!(rt;
            agreed(rt.alloc(), entries, 1)? == Some(keys),
            "{keys} keys"
        );
        let apart = agreed(rt.alloc(), entries, 2)?;
        assert!(rt;
            entries == 0 || apart.is_none(),
            "{keys} keys, the last of which differ"
        );
    }
    Ok(())
}

// Whether a line with a name and digits of these lengths joins with itself, and not with one that has two more digits.
fn joins_with_itself(alloc: Global, name: usize, digits: usize) -> Result<bool, AllocError> {
    let line = long_line(alloc, name, digits)?;
    let other = long_line(alloc, name, digits.saturating_add(2))?;
    let mut key = Vec::new(alloc);
    key.resize(name, b'n')?;
    let apart = join_so(
        alloc,
        line.as_slice(),
        other.as_slice(),
        Want::Glyph(key.as_slice()),
    );
    let same = Want::Text(line.as_slice());
    Ok(apart && join_so(alloc, line.as_slice(), line.as_slice(), same))
}

// meets join Ok at 1, 100, 101, 127 bytes
// meets join Glyph at 1, 100, 101, 127 bytes
// like join: write_joined
// meets write Ok at 1, 101, 127, 131068 bytes
#[test]
fn long_lines_join(rt: HostRuntime) -> Result<(), Fail> {
    const ROWS: &[(usize, usize)] = &[(1, 0), (100, 2), (101, 2), (127, 2), (127, 131_068)];
    for &(name, digits) in ROWS {
        let right = joins_with_itself(rt.alloc(), name, digits)?;
        assert!(rt; right, "a name of {name} bytes and {digits} digits");
    }
    Ok(())
}

// The count and the last of the items of a list to which the numbers below this one were added one by one.
fn added(alloc: Global, end: usize) -> Result<(usize, Option<usize>), AllocError> {
    let mut list = Vec::new(alloc);
    for number in 0..end {
        push_item(&mut list, number)?;
    }
    Ok((list.len(), list.as_slice().last().copied()))
}

// meets push_item Ok at 0, 1, 65535 items
#[test]
fn items_of_each_count(rt: HostRuntime) -> Result<(), Fail> {
    assert!(rt; added(rt.alloc(), 0)? == (0, None));
    assert!(rt; added(rt.alloc(), 1)? == (1, Some(0)));
    assert!(rt; added(rt.alloc(), 65_535)? == (65_535, Some(65_534)));
    Ok(())
}
