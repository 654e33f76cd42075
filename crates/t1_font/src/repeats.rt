//! Entries whose keys may be repeated: the last entry of each key stands.

ghost use Rattle.std.specs.{Prelude.{◌≡◌, ◌≤◌, ◌↔◌, [], length, drop, IfOk, OnOk, OnErr, IsTrue}, Cmp.{IsTotalOrder, nat_cmp_total}};
ghost use Rattle.std.specs.{Cmp.Lexicographic.{on_texts}, Ordering.{nat_cmp}, declared.cmp.Ordering.{Ordering}, List.Sorted.{IsPermutation, IsStableByKey}};
ghost use Rattle.t1_font.specs.Ranges.{bytes_at, by_name, front, long_front};
ghost use Rattle.t1_text.specs.Entries.{comes_again, run_end, run_ends, KeysRise, AreLast, AreSettled};

use crate::ranges::Range;
use std::alloc::AllocError;
use std::cmp::Ordering;
use std::mem;

/// How many entries of a table are gathered before the first look for repeated keys.
pub(crate) const ROOM: usize = 4096;

/// An order of keys, which may look elsewhere for what they stand for.
pub(crate) trait KeyOrder<K>: Copy + Drop {
    ghost by: { Self → K → K → Ordering };

    /// The order of two keys.
    fn compare(self, one: &K, other: &K) -> Ordering
        ensures { result ≡ by self one.now other.now };

    ghost total: { (order : Self) → IsTotalOrder (by order) };

    /// Entries in another order, of which sorting has little left to do. Those of one key stand as they stood.
    fn presorted<V: Copy + Drop>(self, entries: Vec<(K, V)>) -> Result<Vec<(K, V)>, AllocError>
        ensures same { IfOk result (λ es. IsPermutation entries.items es.items) }
        ensures stable { IfOk result (λ es. IsStableByKey (λ e. e.0) (by self) entries.items es.items) };

    /// The same by more of each key, where `presorted` left something to do.
    fn resorted<V: Copy + Drop>(self, entries: Vec<(K, V)>) -> Result<Vec<(K, V)>, AllocError>
        ensures same { IfOk result (λ es. IsPermutation entries.items es.items) }
        ensures stable { IfOk result (λ es. IsStableByKey (λ e. e.0) (by self) entries.items es.items) };
}

/// The order of numbers.
#[derive(Clone, Copy)]
pub(crate) struct ByNumber;

impl KeyOrder<u16> for ByNumber {
    ghost by = { λ _. nat_cmp };

    ghost total = { λ _. nat_cmp_total };

    fn compare(self, one: &u16, other: &u16) -> Ordering {
        one.cmp(other)
    }

    fn presorted<V: Copy + Drop>(self, entries: Vec<(u16, V)>) -> Result<Vec<(u16, V)>, AllocError>
        ensures same { IfOk result (λ es. IsPermutation entries.items es.items) }
        ensures stable { IfOk result (λ es. IsStableByKey (λ e. e.0) nat_cmp entries.items es.items) }
    {
        Ok(entries)
    }

    fn resorted<V: Copy + Drop>(self, entries: Vec<(u16, V)>) -> Result<Vec<(u16, V)>, AllocError>
        ensures same { IfOk result (λ es. IsPermutation entries.items es.items) }
        ensures stable { IfOk result (λ es. IsStableByKey (λ e. e.0) nat_cmp entries.items es.items) }
    {
        Ok(entries)
    }
}

/// The number that a name's first eight bytes spell, so that names with different ones are told apart at once.
fn front(name: &[u8]) -> u64
    ensures { result ≡ front name.now }
{
    let mut bytes = [0u8; 8];
    let len = name.len().min(8);
    bytes[..len].copy_from_slice(&name[..len]);
    u64::from_be_bytes(bytes)
}

/// The number that a name's first sixteen bytes spell.
fn long_front(name: &[u8]) -> u128
    ensures { result ≡ long_front name.now }
{
    let (_, behind) = name.split_at(name.len().min(8));
    u128::from(front(name)) * (1 << 64) + u128::from(front(behind))
}

/// The order of names that stand in a buffer.
#[derive(Clone, Copy)]
pub(crate) struct ByName<'a> {
    pub(crate) buffer: &'a [u8],
}

impl<'a> KeyOrder<Range> for ByName<'a> {
    ghost by = { λ order. by_name order.buffer.now };

    ghost total = { λ order. on_texts (bytes_at order.buffer.now) };

    fn compare(self, one: &Range, other: &Range) -> Ordering {
        one.of(self.buffer).cmp(other.of(self.buffer))
    }

    fn presorted<V: Copy + Drop>(
        self,
        entries: Vec<(Range, V)>,
    ) -> Result<Vec<(Range, V)>, AllocError>
        ensures same { IfOk result (λ es. IsPermutation entries.items es.items) }
        ensures stable { IfOk result (λ es. IsStableByKey (λ e. e.0) (by_name self.entry.buffer.now) entries.items es.items) }
    {
        let buffer = self.buffer;
        let mut sorted = entries;
        sorted.sort_by_cached_key(|entry| front(entry.0.of(buffer)))?;
        Ok(sorted)
    }

    fn resorted<V: Copy + Drop>(
        self,
        entries: Vec<(Range, V)>,
    ) -> Result<Vec<(Range, V)>, AllocError>
        ensures same { IfOk result (λ es. IsPermutation entries.items es.items) }
        ensures stable { IfOk result (λ es. IsStableByKey (λ e. e.0) (by_name self.entry.buffer.now) entries.items es.items) }
    {
        let buffer = self.buffer;
        let mut sorted = entries;
        sorted.sort_by_cached_key(|entry| long_front(entry.0.of(buffer)))?;
        Ok(sorted)
    }
}

/// How many entries there may be until the next look, if this many are left: twice as many, so that a table of repeated
/// keys takes no more room than a table with each of them once.
fn next_room(left: usize) -> usize {
    left.saturating_mul(2).max(ROOM)
}

/// If there are this many entries, keeps only the last of each key. Answers how many there may be until the next time.
pub(crate) fn settle<K: Copy + Drop, V: Copy + Drop, O: KeyOrder<K>>(
    entries: &mut Vec<(K, V)>,
    order: O,
    room: usize,
) -> Result<usize, AllocError>
    ensures settled { OnOk result (AreSettled (O.by order) entries.old.items entries.new.items) }
    ensures lost { OnErr result (entries.new.items ≡ []) }
{
    if entries.len() < room {
        return Ok(room);
    }
    let alloc = *entries.allocator();
    let all = mem::replace(entries, Vec::new(alloc));
    let last = last_entries(all, order)?;
    let next = next_room(last.len());
    *entries = last;
    Ok(next)
}

/// Whether the first of these entries has the key.
fn comes_again<K, V, O: KeyOrder<K>>(order: O, key: &K, entries: &[(K, V)]) -> bool
    ensures { result ≡ comes_again (O.by order) key.now entries.now }
{
    match entries.first() {
        Some(entry) => matches!(order.compare(&entry.0, key), Ordering::Equal),
        None => false,
    }
}

/// The entry at a place, unless its key comes again.
fn end_at<K: Copy + Drop, V: Copy + Drop, O: KeyOrder<K>>(
    order: O,
    entries: &[(K, V)],
    at: usize,
) -> Option<(K, V)>
    requires { at ≤ length entries.now }
    ensures { result ≡ run_end (O.by order) (drop at entries.now) }
{
    let (_, rest) = entries.split_at(at);
    let (entry, after) = rest.split_first()?;
    if comes_again(order, &entry.0, after) {
        return None;
    }
    Some(*entry)
}

/// Keeps only the last of the entries of each key, which stand together.
fn keep_ends<K: Copy + Drop, V: Copy + Drop, O: KeyOrder<K>>(order: O, entries: &mut Vec<(K, V)>)
    ensures { entries.new.items ≡ run_ends (O.by order) entries.old.items }
{
    let mut kept = 0;
    'entries: for at in 0..entries.len() {
        if let Some(entry) = end_at(order, entries.as_slice(), at) {
            entries[kept] = entry;
            kept += 1;
        }
    }
    entries.truncate(kept);
}

/// Whether each key is below the next.
fn rises<K, V, O: KeyOrder<K>>(order: O, entries: &[(K, V)]) -> bool
    ensures { IsTrue result ↔ KeysRise (O.by order) entries.now }
{
    'entries: for at in 1..entries.len() {
        if !order.compare(&entries[at - 1].0, &entries[at].0).is_lt() {
            return false;
        }
    }
    true
}

/// The entries upwards by key, with the last of each repeated key.
pub(crate) fn last_entries<K: Copy + Drop, V: Copy + Drop, O: KeyOrder<K>>(
    entries: Vec<(K, V)>,
    order: O,
) -> Result<Vec<(K, V)>, AllocError>
    ensures { IfOk result (λ last. AreLast (O.by order) entries.items last.items) }
{
    let near = order.presorted(entries)?;
    if rises(order, near.as_slice()) {
        return Ok(near);
    }
    let mut last = order.resorted(near)?;
    if rises(order, last.as_slice()) {
        return Ok(last);
    }
    last.sort_by(|one, other| order.compare(&one.0, &other.0))?;
    keep_ends(order, &mut last);
    Ok(last)
}
