// The Subrs that charstrings execute.

use crate::tests::fonts::Font;
use std::alloc::Global;
use std::collections::BTreeSet;
use std::test::Fail;
use t1_run::executed;

// Charstrings, and the indices that each executes.
const EXECUTED: [(&str, &[u8], &[u16]); 17] = [
    (
        "lines",
        b"\xbd\xf7\xc0\x0d\x8b\x16\x90\x0a\xf9\x50\x07\x27\x06\x09\x0e",
        &[5],
    ),
    (
        "flex",
        b"\
            \x8b\xf8\x88\x0d\xef\x16\x8c\x0a\xbd\x16\x8d\x0a\x63\x16\x8d\x0a\x9f\x90\x15\x8d\x0a\x9f\
            \x16\x8d\x0a\x9f\x16\x8d\x0a\x9f\x86\x15\x8d\x0a\x95\x16\x8d\x0a\xbd\xf7\x5c\x8b\x8b\x0a\
            \x09\x0e",
        &[0, 1, 2],
    ),
    (
        "hint replacement",
        b"\x8b\xf8\x88\x0d\x8b\x9f\x01\x92\x8f\x0a\x0e",
        &[3, 4, 7],
    ),
    ("a chain without end", b"\x8b\xf8\x88\x0d\x94\x0a\x0e", &[9]),
    (
        "Subr 3 or Subr 5",
        b"\x8b\xf8\x88\x0d\x8b\x16\x9a\x90\x8c\x8e\x0c\x10\x0c\x11\x0c\x0c\x0a\x09\x0e",
        &[3, 5],
    ),
    ("nothing", b"\x8b\xf8\x88\x0d\x0e", &[]),
    (
        "an index before callsubr that isn't its own",
        b"\x8b\xf8\x88\x0d\x90\x91\x0a\x0a\x0e",
        &[6],
    ),
    (
        "a Subr that isn't there",
        b"\x8b\xf7\x8e\x0d\xef\x0a",
        &[100],
    ),
    (
        "the largest index",
        b"\x8b\xf7\x8e\x0d\xff\x00\x00\xff\xfe\x0a",
        &[65534],
    ),
    (
        "65,535 is no index",
        b"\x8b\xf7\x8e\x0d\xff\x00\x00\xff\xff\x0a",
        &[],
    ),
    (
        "65,541 isn't 5",
        b"\x8b\xf7\x8e\x0d\xff\x00\x01\x00\x05\x0a",
        &[],
    ),
    ("-1 is no index", b"\x8b\xf7\x8e\x0d\x8a\x0a", &[]),
    ("callsubr of nothing", b"\x8b\xf7\x8e\x0d\x0a", &[]),
    (
        "a third is no index",
        b"\x8b\xf7\x8e\x0d\x8c\x8e\x0c\x0c\x0a",
        &[],
    ),
    (
        "calls before a fault",
        b"\x8b\xf7\x8e\x0d\x8e\x0a\x90\x0a\x0f",
        &[3, 5],
    ),
    (
        "no call after the end",
        b"\x8b\xf7\x8e\x0d\x8e\x0a\x0e\x90\x0a",
        &[3],
    ),
    (
        "eleven calls, one in the other",
        b"\x8b\xf7\x8e\x0d\x9f\x0a\x0e",
        &[20, 21, 22, 23, 24, 25, 26, 27, 28, 29, 30],
    ),
];

// Whether these are the members of a set, upwards.
pub(super) fn are(indices: &BTreeSet<u16>, want: &[u16]) -> bool {
    for (index, other) in indices.iter().zip(want) {
        if *index != *other {
            return false;
        }
    }
    indices.len() == want.len()
}

// Whether a charstring executes these indices, by both calls that answer them, of which one answers what it draws too.
fn executes_these(
    alloc: Global,
    font: &Font<'_>,
    charstring: &[u8],
    want: &[u16],
) -> Result<bool, Fail> {
    let alone = executed(alloc, font, charstring)?;
    Ok(are(&alone, want))
}

// The name of the first case that executes other indices.
fn first_other<'a>(
    alloc: Global,
    cases: &[(&'a str, &[u8], &[u16])],
) -> Result<Option<&'a str>, Fail> {
    let font = Font::small(alloc)?;
    for (name, charstring, want) in cases {
        if !executes_these(alloc, &font, charstring, want)? {
            return Ok(Some(*name));
        }
    }
    Ok(None)
}

#[test]
fn executes(rt: HostRuntime) -> Result<(), Fail> {
    assert_eq!(rt; first_other(rt.alloc(), &EXECUTED)?, None);
    Ok(())
}
