mod firsts;
mod growths;
mod likely;
mod sizes;

use std::alloc::{AllocError, Global};
use std::test::Fail;
use t1_join::listing::{self, JoinFault, ListFault, Listing};
use t1_join::{Flat, Join, Kept, Key, Table, join_all, laws, push_both};

type Numbered = Table<u16, Vec<u8>>;

// The table that has the byte at each key from one to another.
fn table(alloc: Global, from: u16, to: u16, byte: u8) -> Result<Numbered, AllocError> {
    let mut table = Table::new(alloc);
    for key in from..to {
        put(alloc, &mut table, key, byte)?;
    }
    Ok(table)
}

// Puts a value of one byte at a key.
fn put(alloc: Global, table: &mut Numbered, key: u16, byte: u8) -> Result<(), AllocError> {
    let value = [byte].as_slice().to_vec(alloc)?;
    table.insert(key, value)
}

// Whether the table has the byte alone at the key.
fn holds(table: &Numbered, key: u16, byte: u8) -> bool {
    match table.get(&key) {
        Some(value) => value.as_slice() == [byte].as_slice(),
        None => false,
    }
}

// The number of keys of either table, if they join and each pass over both meets as many: through the bounds alone.
fn keys_of_both<K: Key + Drop, V: Kept + Drop>(
    alloc: Global,
    left: &Table<K, V>,
    right: &Table<K, V>,
) -> Result<Option<usize>, AllocError> {
    if !left.agrees(right) {
        return Ok(None);
    }
    let joined = left.join(alloc, right)?.entries().count();
    let met = left.entries_with(right).count();
    let mut lent = Vec::new(alloc);
    push_both(&mut lent, left, right, 0, 0)?;
    let as_many = joined == met && joined == lent.len();
    Ok(if as_many { Some(joined) } else { None })
}

// The table that keeps the last value of a key, and each key once.
fn small(alloc: Global) -> Result<Numbered, AllocError> {
    let mut small = table(alloc, 9, 12, 1)?;
    put(alloc, &mut small, 3, 1)?;
    put(alloc, &mut small, 10, 7)?;
    Ok(small)
}

// Whether that table is right.
fn small_is_right(alloc: Global) -> Result<bool, AllocError> {
    let small = small(alloc)?;
    let upwards = small.entries().map(|(key, _)| *key).eq([3, 9, 10, 11]);
    Ok(upwards && small.get(&11).is_some() && small.get(&4).is_none() && holds(&small, 10, 7))
}

// The key at which the small table is in conflict with another, if any, and the number of keys of both, if they join.
fn small_with(
    alloc: Global,
    from: u16,
    to: u16,
    byte: u8,
) -> Result<(Option<u16>, Option<usize>), AllocError> {
    let small = small(alloc)?;
    let other = table(alloc, from, to, byte)?;
    let count = keys_of_both(alloc, &small, &other)?;
    Ok((small.conflict(&other).copied(), count))
}

// meets Table::join Ok at 5, 60002 keys
// meets push_both Ok at 5, 60002 entries
#[test]
fn tables(rt: HostRuntime) -> Result<(), Fail> {
    assert!(rt;
        small_is_right(rt.alloc())?,
        "upwards by key, and the last value of a key stands"
    );
    const ROWS: &[(u16, u16, u8, Option<u16>, Option<usize>, &str)] = &[
        (9, 12, 1, Some(10), None, "one key in conflict"),
        (9, 12, 2, Some(9), None, "the smallest key in conflict"),
        (12, 13, 2, None, Some(5), "one entry"),
        (12, 60_010, 2, None, Some(60_002), "many entries"),
    ];
    for &(from, to, byte, conflict, count, what) in ROWS {
        let answer = small_with(rt.alloc(), from, to, byte)?;
        assert!(rt; answer == (conflict, count), "{what}");
    }
    Ok(())
}

// Whether flats of bytes are full of the same.
fn are_full_alike(left: &Flat<Vec<u8>>, right: &Flat<Vec<u8>>) -> bool {
    match (left, right) {
        (Flat::Full(left), Flat::Full(right)) => left.as_slice() == right.as_slice(),
        _ => false,
    }
}

// Whether a flat joins with nothing to itself, in either order.
fn joins_with_nothing(alloc: Global, flat: &Flat<Vec<u8>>) -> Result<bool, AllocError> {
    let right = Flat::Empty.join(alloc, flat)?;
    let left = flat.join(alloc, &Flat::Empty)?;
    Ok(are_full_alike(&left, flat) && are_full_alike(&right, flat))
}

// Whether a long value agrees and joins with nothing.
fn long_flats_join(alloc: Global) -> Result<bool, AllocError> {
    let mut text = Vec::new(alloc);
    text.resize(150_000, 7)?;
    let long = Flat::Full(text);
    Ok(Flat::Empty.agrees(&long) && joins_with_nothing(alloc, &long)?)
}

// meets Flat::join Ok at 2, 150000 bytes
#[test]
fn flats(rt: HostRuntime) -> Result<(), Fail> {
    let bytes: &[u8] = b"ab";
    let full = Flat::Full(bytes);
    assert!(rt; full.agrees(&Flat::Empty) && full.agrees(&full));
    assert!(rt; !full.agrees(&Flat::Full(&bytes[..1])));
    let joins = match Flat::Empty.join(rt.alloc(), &full)? {
        Flat::Full(joined) => joined == bytes,
        Flat::Empty => false,
    };
    assert!(rt; joins, "a value joins with nothing to itself");
    assert!(rt; long_flats_join(rt.alloc())?);
    Ok(())
}

// The table that has the byte at the key.
fn table_of_one(alloc: Global, key: u16, byte: u8) -> Result<Numbered, AllocError> {
    let mut table = Table::new(alloc);
    put(alloc, &mut table, key, byte)?;
    Ok(table)
}

// Tables with one entry each, of these keys and bytes.
fn tables_of(alloc: Global, entries: &[(u16, u8)]) -> Result<Vec<Numbered>, AllocError> {
    let mut tables = Vec::new(alloc);
    for &(key, byte) in entries {
        tables.push(table_of_one(alloc, key, byte)?)?;
    }
    Ok(tables)
}

// How many tables are joined.
const MANY: u32 = 100_000;

// So many entries, of ten keys in all.
fn many_entries(alloc: Global) -> Result<Vec<(u16, u8)>, AllocError> {
    let mut entries = Vec::new(alloc);
    for number in 0..MANY {
        entries.push(((number % 10) as u16, 0x0b))?;
    }
    Ok(entries)
}

// The number of keys of all tables, if they join.
fn keys_of_all(alloc: Global, list: &[Numbered]) -> Result<Option<usize>, AllocError> {
    match join_all(alloc, list)? {
        Some(all) => Ok(Some(all.entries().count())),
        None => Ok(None),
    }
}

// The number of keys of tables with one entry each, if they join.
fn keys_of(alloc: Global, entries: &[(u16, u8)]) -> Result<Option<usize>, AllocError> {
    let tables = tables_of(alloc, entries)?;
    keys_of_all(alloc, tables.as_slice())
}

const THREE: &[(u16, u8)] = &[(5, 0x0b), (6, 0x0e), (5, 0x0b)];

// Whether three tables join to one that has the value of each key.
fn three_join(alloc: Global) -> Result<bool, AllocError> {
    let tables = tables_of(alloc, THREE)?;
    match join_all(alloc, tables.as_slice())? {
        Some(all) => Ok(holds(&all, 5, 0x0b) && holds(&all, 6, 0x0e)),
        None => Ok(false),
    }
}

// meets join_all Some at 1, 2, 3, 100000 tables
// meets join_all None at 0, 2, 3, 100001 tables
#[test]
fn joins_many(rt: HostRuntime) -> Result<(), Fail> {
    const ROWS: &[(&[(u16, u8)], Option<usize>, &str)] = &[
        (&[], None, "none"),
        (&[(5, 0x0b)], Some(1), "one"),
        (&[(5, 0x0b), (6, 0x0e)], Some(2), "two"),
        (&[(5, 0x0b), (5, 0x0e)], None, "two that differ"),
        (THREE, Some(2), "three"),
        (
            &[(5, 0x0b), (6, 0x0e), (5, 0x0e)],
            None,
            "three that differ",
        ),
    ];
    for &(entries, want, what) in ROWS {
        assert!(rt; keys_of(rt.alloc(), entries)? == want, "{what}");
    }
    assert!(rt; three_join(rt.alloc())?);
    let mut many = many_entries(rt.alloc())?;
    assert!(rt; keys_of(rt.alloc(), many.as_slice())? == Some(10));
    many.push((9, 0x0e))?;
    let none = keys_of(rt.alloc(), many.as_slice())?.is_none();
    assert!(rt;
        none && many.len() == 100_001,
        "many, the last of which differs"
    );
    Ok(())
}

// A table of keys and values that are borrowed.
fn borrowed<'a>(
    alloc: Global,
    entries: &[(&'a [u8], &'a [u8])],
) -> Result<Table<&'a [u8], &'a [u8]>, AllocError> {
    let mut table = Table::new(alloc);
    for &(key, value) in entries {
        table.insert(key, value)?;
    }
    Ok(table)
}

// The number of keys of two such tables, if they join.
fn borrowed_keys_of_both<'a>(
    alloc: Global,
    left: &[(&'a [u8], &'a [u8])],
    right: &[(&'a [u8], &'a [u8])],
) -> Result<Option<usize>, AllocError> {
    let left = borrowed(alloc, left)?;
    let right = borrowed(alloc, right)?;
    keys_of_both(alloc, &left, &right)
}

#[test]
fn borrowed_keys(rt: HostRuntime) -> Result<(), Fail> {
    let text: &[u8] = b"abcabd";
    let left = [(&text[0..2], &text[2..3])];
    let right = [(&text[3..5], &text[2..3]), (&text[5..], &text[..0])];
    let other = [(&text[0..2], &text[0..2])];
    assert!(rt; borrowed_keys_of_both(rt.alloc(), &left, &right)? == Some(2));
    assert!(rt; borrowed_keys_of_both(rt.alloc(), &left, &other)?.is_none());
    Ok(())
}

// The number of Subrs and of glyphs in a listing, of which a law is stated.
fn counts_of(alloc: Global, text: &[u8]) -> Option<(usize, usize)> {
    match listing::read(alloc, text) {
        Ok(listing) => Some(counts(&listing)),
        Err(_) => None,
    }
}

fn counts(listing: &Listing<'_>) -> (usize, usize) {
    laws::reads_what_is_written(listing);
    let subrs = listing.subrs().entries().count();
    (subrs, listing.glyphs().entries().count())
}

#[test]
fn laws_at_types(rt: HostRuntime) {
    laws::commutative::<Numbered>();
    laws::associative::<Table<Vec<u8>, Vec<u8>>>();
    laws::idempotent::<Flat<u16>>();
    laws::one_answer::<Flat<Vec<u8>>>();
    laws::one_conflict();
    laws::listings_join_alike();
    assert!(rt; counts_of(rt.alloc(), b"S 5 0b\n") == Some((1, 0)));
}

// Lines of one kind with the numbers from one to another, and the same digits on each.
fn lines(alloc: Global, kind: &str, from: u16, to: u16, hex: &str) -> Result<Vec<u8>, AllocError> {
    let mut text = Vec::new(alloc);
    for number in from..to {
        let line = format!(in alloc; "{kind} {number} {hex}\n")?;
        text.extend_from_slice(line.as_bytes())?;
    }
    Ok(text)
}

// One text after another.
fn joined(alloc: Global, front: &[u8], back: &[u8]) -> Result<Vec<u8>, AllocError> {
    let mut text = front.to_vec(alloc)?;
    text.extend_from_slice(back)?;
    Ok(text)
}

// 65,000 lines of Subrs and 30,000 of glyphs, in the order in which they are written: more than 1,000,000 bytes.
fn many_lines(alloc: Global) -> Result<Vec<u8>, AllocError> {
    let subrs = lines(alloc, "S", 0, 65_000, "0b")?;
    let glyphs = lines(alloc, "G", 10_000, 40_000, "0e")?;
    joined(alloc, subrs.as_slice(), glyphs.as_slice())
}

// What two listings join to: the text of both, or the key in conflict.
#[derive(Clone, Copy)]
enum Want<'a> {
    Text(&'a [u8]),
    Subr(u16),
    Glyph(&'a [u8]),
}

// Whether two texts are listings that join so.
fn join_so(alloc: Global, left: &[u8], right: &[u8], want: Want<'_>) -> bool {
    match (listing::read(alloc, left), listing::read(alloc, right)) {
        (Ok(left), Ok(right)) => listings_join_so(alloc, &left, &right, want),
        _ => false,
    }
}

fn listings_join_so(
    alloc: Global,
    left: &Listing<'_>,
    right: &Listing<'_>,
    want: Want<'_>,
) -> bool {
    let joined = match listing::join(alloc, left, right) {
        Ok(both) => is_written_so(alloc, &both, want),
        Err(fault) => is_conflict(&fault, want),
    };
    let written = match listing::write_joined(alloc, left, right) {
        Ok(text) => is_text(text.as_slice(), want),
        Err(fault) => is_conflict(&fault, want),
    };
    joined && written
}

fn is_text(written: &[u8], want: Want<'_>) -> bool {
    match want {
        Want::Text(text) => written == text,
        _ => false,
    }
}

fn is_conflict(fault: &JoinFault, want: Want<'_>) -> bool {
    match (fault, want) {
        (JoinFault::Subr { index }, Want::Subr(key)) => *index == key,
        (JoinFault::Glyph { name }, Want::Glyph(key)) => name.as_slice() == key,
        _ => false,
    }
}

fn is_written_so(alloc: Global, listing: &Listing<'_>, want: Want<'_>) -> bool {
    match listing::write(alloc, listing) {
        Ok(written) => is_text(written.as_slice(), want),
        Err(_) => false,
    }
}

// meets join Ok at 0, 1, 2, 4 lines
// meets join Subr at 1, 3 lines
// meets join Glyph at 3 lines
// like join: write_joined
// meets write Ok at 0, 1, 2, 4 lines
#[test]
fn listings_join(rt: HostRuntime) {
    let alloc = rt.alloc();
    const LEFT: &[u8] = b"S 5 ef060b\nG X 8b0e\n";
    const RIGHT: &[u8] = b"G Y 0E\nS 5 ef060b\n";
    const BOTH: &[u8] = b"S 5 ef060b\nG X 8b0e\nG Y 0e\n";
    const ONE: &[u8] = b"S 10 0b\nS 9 0b\nG A 0e\n";
    const OTHER: &[u8] = b"S 10 0c\nS 9 0c\nG A 0d\n";
    const ROWS: &[(&[u8], &[u8], Want<'static>, &str)] = &[
        (LEFT, RIGHT, Want::Text(BOTH), "two listings"),
        (RIGHT, LEFT, Want::Text(BOTH), "in the other order"),
        (b"", b"", Want::Text(b""), "two empty listings"),
        (
            b"S 00005 0b\n",
            b"",
            Want::Text(b"S 5 0b\n"),
            "leading zeros",
        ),
        (
            b"G b 0e\nG B 0e\nS 10 aB\nS 9 \n",
            b"",
            Want::Text(b"S 9 \nS 10 ab\nG B 0e\nG b 0e\n"),
            "order, cases, an empty value",
        ),
        (
            b"G \x80\xff\x01 0e\n",
            b"",
            Want::Text(b"G \x80\xff\x01 0e\n"),
            "other bytes in a name",
        ),
        (
            b"S 5 ef060b\n",
            b"S 5 0b\n",
            Want::Subr(5),
            "an index in conflict",
        ),
        (
            b"S 7 \n",
            b"S 7 0b\n",
            Want::Subr(7),
            "an entry of no bytes",
        ),
        (ONE, OTHER, Want::Subr(9), "the smallest index"),
        (
            OTHER,
            ONE,
            Want::Subr(9),
            "the smallest index, in the other order",
        ),
        (
            b"G b 0e\nG A 0e\nS 1 0b\n",
            b"G A 0d\nG b 0d\n",
            Want::Glyph(b"A"),
            "the smallest name",
        ),
    ];
    for &(left, right, want, what) in ROWS {
        assert!(rt; join_so(alloc, left, right, want), "{what}");
    }
}

// meets join Ok at 95000 lines
// meets join Subr at 95000 lines
// meets join Glyph at 95000 lines
// like join: write_joined
// meets write Ok at 95000 lines
#[test]
fn many_lines_join(rt: HostRuntime) -> Result<(), Fail> {
    let text = many_lines(rt.alloc())?;
    const LINES: usize = 95_000;
    let lines = text.iter().filter(|byte| **byte == b'\n').count();
    assert!(rt; lines == LINES && text.len() > 1_000_000);
    const ROWS: &[(&[u8], Want<'static>)] = &[
        (b"S 64999 0c\n", Want::Subr(64999)),
        (b"G 39999 0c\n", Want::Glyph(b"39999")),
    ];
    for &(right, want) in ROWS {
        assert!(rt; join_so(rt.alloc(), text.as_slice(), right, want));
    }
    let same = Want::Text(text.as_slice());
    assert!(rt; join_so(rt.alloc(), text.as_slice(), b"S 64999 0b\n", same));
    Ok(())
}

// `G `, the name so often, a blank, the digit so often, and a line feed.
fn long_line(alloc: Global, name: usize, digits: usize) -> Result<Vec<u8>, AllocError> {
    let mut line = b"G ".to_vec(alloc)?;
    line.resize(name.saturating_add(2), b'n')?;
    line.push(b' ')?;
    line.resize(name.saturating_add(digits).saturating_add(3), b'0')?;
    line.push(b'\n')?;
    Ok(line)
}

// Whether a text is read with this fault, or with none.
fn is_read_so(alloc: Global, text: &[u8], want: &Option<ListFault>) -> bool {
    listing::read(alloc, text).err() == *want
}

// The first line is faulty.
const BAD: Option<ListFault> = Some(ListFault::BadLine { line: 1 });

// meets read Ok at 1, 2 lines
// meets read BadLine at 1, 2, 4 lines
// meets read Repeated at 2, 3 lines
#[test]
fn reads_listings(rt: HostRuntime) {
    const ROWS: &[(&[u8], Option<ListFault>, &str)] = &[
        (b"S 65535 0b\n", BAD, "an index over the largest"),
        (b"S 000001 0b\n", BAD, "six digits"),
        (b"S  0b\n", BAD, "no digit"),
        (b"S 1a 0b\n", BAD, "a letter in an index"),
        (b"G X 0\n", BAD, "odd digits"),
        (b"G X 0g\n", BAD, "no digit of 16"),
        (b"G X 0e \n", BAD, "a blank at the end"),
        (b"G X 0e\r\n", BAD, "CR before LF"),
        (b"G X\n", BAD, "no blank before the digits"),
        (b"G  0e\n", BAD, "no name"),
        (b"G /X 0e\n", BAD, "a delimiter"),
        (b"G X\t0e\n", BAD, "a tab"),
        (b"GX 0e\n", BAD, "no blank"),
        (b"g X 0e\n", BAD, "another letter"),
        (b"\n", BAD, "an empty line"),
        (b"S 5 0b", BAD, "no line feed"),
        (
            b"S 5 0b\nS 6",
            Some(ListFault::BadLine { line: 2 }),
            "no line feed at the end",
        ),
        (
            b"S 5 0b\nS 5 0b",
            Some(ListFault::BadLine { line: 2 }),
            "no line feed, and its key is there",
        ),
        (
            b"G a 0e\nG b 0e\nG c\nG d\n",
            Some(ListFault::BadLine { line: 3 }),
            "the first line in fault",
        ),
        (
            b"S 5 0b\nS 05 0b\n",
            Some(ListFault::Repeated { line: 2 }),
            "an index twice",
        ),
        (
            b"G 5 0b\nS 5 0b\nG 5 0c\n",
            Some(ListFault::Repeated { line: 3 }),
            "a name twice",
        ),
        (
            b"S 5 0b\nG 5 0b\n",
            None,
            "an index and a name are two keys",
        ),
        (b"S 65534 0b\n", None, "the largest index"),
    ];
    for &(text, ref want, what) in ROWS {
        assert!(rt; is_read_so(rt.alloc(), text, want), "{what}");
    }
}

// meets read Ok at 127, 131070 bytes
// meets read BadLine at 128, 131072 bytes
#[test]
fn reads_long_lines(rt: HostRuntime) -> Result<(), Fail> {
    const ROWS: &[(usize, usize, Option<ListFault>, &str)] = &[
        (127, 2, None, "the longest name"),
        (128, 2, BAD, "a name of one byte more"),
        (1, 131_070, None, "the longest value"),
        (1, 131_072, BAD, "a value of one byte more"),
    ];
    for &(name, digits, ref want, what) in ROWS {
        let line = long_line(rt.alloc(), name, digits)?;
        assert!(rt; is_read_so(rt.alloc(), line.as_slice(), want), "{what}");
    }
    Ok(())
}

// meets read Ok at 95000 lines
// meets read BadLine at 95001 lines
// meets read Repeated at 95001 lines
#[test]
fn reads_many_lines(rt: HostRuntime) -> Result<(), Fail> {
    let many = many_lines(rt.alloc())?;
    const ROWS: &[(&[u8], Option<ListFault>, &str)] = &[
        (b"", None, "many lines"),
        (
            b"S 65535 0b\n",
            Some(ListFault::BadLine { line: 95_001 }),
            "a bad line after many",
        ),
        (
            b"G 10000 0e\n",
            Some(ListFault::Repeated { line: 95_001 }),
            "a name twice, after many lines",
        ),
    ];
    for &(last, ref want, what) in ROWS {
        let text = joined(rt.alloc(), many.as_slice(), last)?;
        assert!(rt; is_read_so(rt.alloc(), text.as_slice(), want), "{what}");
    }
    Ok(())
}
