// Each fault, by a charstring that reaches it; if two apply, the first in the order of tests.

use crate::tests::fonts::{Font, fault};
use std::alloc::Global;
use std::test::Fail;
use t1_run::{Fault, direct};

// A case, its charstring and its fault. All but the last of these tables are of charstrings that begin with `0 250 hsbw`.
type Case = (&'static str, &'static [u8], Fault);

// Of calls of Subrs.
const CALLS: &[Case] = &[
    (
        "eleven calls, one in the other",
        b"\x8b\xf7\x8e\x0d\x9f\x0a",
        Fault::Nesting,
    ),
    (
        "a Subr that isn't there, nine calls deep",
        b"\x8b\xf7\x8e\x0d\xef\x99\x99\x99\x99\x99\x99\x99\x99\x99\x0a",
        Fault::NoSubr,
    ),
    (
        "a Subr that isn't there, ten calls deep: not NoSubr",
        b"\x8b\xf7\x8e\x0d\xef\x99\x99\x99\x99\x99\x99\x99\x99\x99\x99\x0a",
        Fault::Nesting,
    ),
    (
        "Subr 65,535, ten calls deep: not NoSubr",
        b"\x8b\xf7\x8e\x0d\xff\x00\x00\xff\xff\x99\x99\x99\x99\x99\x99\x99\x99\x99\x99\x0a",
        Fault::Nesting,
    ),
    (
        "Subr 65,541, ten calls deep: not NoSubr",
        b"\x8b\xf7\x8e\x0d\xff\x00\x01\x00\x05\x99\x99\x99\x99\x99\x99\x99\x99\x99\x99\x0a",
        Fault::Nesting,
    ),
    (
        "Subr -1, ten calls deep: not NoSubr",
        b"\x8b\xf7\x8e\x0d\x8a\x99\x99\x99\x99\x99\x99\x99\x99\x99\x99\x0a",
        Fault::Nesting,
    ),
    (
        "a chain without end",
        b"\x8b\xf7\x8e\x0d\x94\x0a",
        Fault::Nesting,
    ),
    (
        "a Subr that isn't there",
        b"\x8b\xf7\x8e\x0d\xef\x0a",
        Fault::NoSubr,
    ),
    ("Subr -1", b"\x8b\xf7\x8e\x0d\x8a\x0a", Fault::NoSubr),
    (
        "Subr 65,535",
        b"\x8b\xf7\x8e\x0d\xff\x00\x00\xff\xff\x0a",
        Fault::NoSubr,
    ),
    (
        "Subr 65,541, which isn't 5",
        b"\x8b\xf7\x8e\x0d\xff\x00\x01\x00\x05\x0a",
        Fault::NoSubr,
    ),
];

// Of operands: too few, too many, or one that isn't whole.
const OPERANDS: &[Case] = &[
    (
        "OtherSubr 0 without its arguments, outside flex: not BadFlex",
        b"\x8b\xf7\x8e\x0d\x8e\x8b\x0c\x10",
        Fault::Underflow,
    ),
    (
        "a third as index, ten calls deep: not Nesting",
        b"\x8b\xf7\x8e\x0d\x8c\x8e\x0c\x0c\x99\x99\x99\x99\x99\x99\x99\x99\x99\x99\x0a",
        Fault::NotWhole,
    ),
    (
        "hlineto of nothing",
        b"\x8b\xf7\x8e\x0d\x06",
        Fault::Underflow,
    ),
    (
        "rlineto of one operand",
        b"\x8b\xf7\x8e\x0d\x8c\x05",
        Fault::Underflow,
    ),
    (
        "rrcurveto of five operands",
        b"\x8b\xf7\x8e\x0d\x8b\x8b\x8b\x8b\x8b\x08",
        Fault::Underflow,
    ),
    (
        "vhcurveto of three operands",
        b"\x8b\xf7\x8e\x0d\x8b\x8b\x8b\x1e",
        Fault::Underflow,
    ),
    (
        "hstem3 of five operands",
        b"\x8b\xf7\x8e\x0d\x8b\x8b\x8b\x8b\x8b\x0c\x02",
        Fault::Underflow,
    ),
    (
        "seac of four operands",
        b"\x8b\xf7\x8e\x0d\x8b\x8b\x8b\x8b\x0c\x06",
        Fault::Underflow,
    ),
    (
        "div of one operand",
        b"\x8b\xf7\x8e\x0d\x8b\x0c\x0c",
        Fault::Underflow,
    ),
    (
        "callsubr of nothing",
        b"\x8b\xf7\x8e\x0d\x0a",
        Fault::Underflow,
    ),
    (
        "callothersubr of one operand",
        b"\x8b\xf7\x8e\x0d\x8b\x0c\x10",
        Fault::Underflow,
    ),
    (
        "OtherSubr 3 without its argument",
        b"\x8b\xf7\x8e\x0d\x8c\x8e\x0c\x10",
        Fault::Underflow,
    ),
    (
        "OtherSubr 12 without its arguments",
        b"\x8b\xf7\x8e\x0d\x90\x97\x0c\x10",
        Fault::Underflow,
    ),
    (
        "rlineto of nothing in flex: not BadFlex",
        b"\x8b\xf7\x8e\x0d\x8b\x8c\x0c\x10\x05",
        Fault::Underflow,
    ),
    (
        "hsbw of one operand: not a second width",
        b"\x8b\xf7\x8e\x0d\x8b\x0d",
        Fault::Underflow,
    ),
    (
        "a third as index",
        b"\x8b\xf7\x8e\x0d\x8c\x8e\x0c\x0c\x0a",
        Fault::NotWhole,
    ),
    (
        "a third as OtherSubr",
        b"\x8b\xf7\x8e\x0d\x8b\x8c\x8e\x0c\x0c\x0c\x10",
        Fault::NotWhole,
    ),
    (
        "a third as the number of arguments: not OtherProc",
        b"\x8b\xf7\x8e\x0d\x8c\x8e\x0c\x0c\x8f\x0c\x10",
        Fault::NotWhole,
    ),
    (
        "a third as code",
        b"\x8b\xf7\x8e\x0d\x8b\x8b\x8b\x8c\x8e\x0c\x0c\x8b\x0c\x06",
        Fault::NotWhole,
    ),
    (
        "a number on 24 operands",
        b"\
            \x8b\xf7\x8e\x0d\x8b\x8b\x8b\x8b\x8b\x8b\x8b\x8b\x8b\x8b\x8b\x8b\x8b\x8b\x8b\x8b\x8b\x8b\
            \x8b\x8b\x8b\x8b\x8b\x8b\x8b",
        Fault::Overflow,
    ),
    (
        "a pop on 24 operands",
        b"\
            \x8b\xf7\x8e\x0d\x90\x8c\x8e\x0c\x10\x8b\x8b\x8b\x8b\x8b\x8b\x8b\x8b\x8b\x8b\x8b\x8b\x8b\
            \x8b\x8b\x8b\x8b\x8b\x8b\x8b\x8b\x8b\x8b\x8b\x0c\x11",
        Fault::Overflow,
    ),
];

// Of OtherSubrs and what they give.
const OTHER_SUBRS: &[Case] = &[
    (
        "OtherSubr 4",
        b"\x8b\xf7\x8e\x0d\x8b\x8f\x0c\x10",
        Fault::OtherProc,
    ),
    (
        "OtherSubr 14",
        b"\x8b\xf7\x8e\x0d\x8b\x99\x0c\x10",
        Fault::OtherProc,
    ),
    (
        "OtherSubr -1",
        b"\x8b\xf7\x8e\x0d\x8b\x8a\x0c\x10",
        Fault::OtherProc,
    ),
    (
        "OtherSubr 12 of -1 arguments",
        b"\x8b\xf7\x8e\x0d\x8a\x97\x0c\x10",
        Fault::OtherProc,
    ),
    (
        "OtherSubr 3 of no argument",
        b"\x8b\xf7\x8e\x0d\x8b\x8e\x0c\x10",
        Fault::OtherProc,
    ),
    (
        "OtherSubr 1 of one argument",
        b"\x8b\xf7\x8e\x0d\x8b\x8c\x8c\x0c\x10",
        Fault::OtherProc,
    ),
    (
        "OtherSubr 0 of two arguments",
        b"\x8b\xf7\x8e\x0d\x8b\x8b\x8d\x8b\x0c\x10",
        Fault::OtherProc,
    ),
    (
        "OtherSubr 3 of five arguments that aren't there: not Underflow",
        b"\x8b\xf7\x8e\x0d\x90\x8e\x0c\x10",
        Fault::OtherProc,
    ),
    (
        "a pop of nothing",
        b"\x8b\xf7\x8e\x0d\x8c\x0c\x11",
        Fault::EmptyPop,
    ),
    (
        "a pop after OtherSubrs 3 and 12",
        b"\x8b\xf7\x8e\x0d\x90\x8c\x8e\x0c\x10\x8b\x97\x0c\x10\x0c\x11",
        Fault::EmptyPop,
    ),
    (
        "a pop after OtherSubrs 3 and 13",
        b"\x8b\xf7\x8e\x0d\x90\x8c\x8e\x0c\x10\x8b\x98\x0c\x10\x0c\x11",
        Fault::EmptyPop,
    ),
    (
        "a pop after OtherSubrs 3 and 1",
        b"\x8b\xf7\x8e\x0d\x90\x8c\x8e\x0c\x10\x8b\x8c\x0c\x10\x0c\x11",
        Fault::EmptyPop,
    ),
    (
        "a pop after OtherSubrs 1, 3 and 2",
        b"\x8b\xf7\x8e\x0d\x8b\x8c\x0c\x10\x90\x8c\x8e\x0c\x10\x8b\x8d\x0c\x10\x0c\x11",
        Fault::EmptyPop,
    ),
    (
        "a pop of nothing on 24 operands: not Overflow",
        b"\
            \x8b\xf7\x8e\x0d\x8b\x8b\x8b\x8b\x8b\x8b\x8b\x8b\x8b\x8b\x8b\x8b\x8b\x8b\x8b\x8b\x8b\x8b\
            \x8b\x8b\x8b\x8b\x8b\x8b\x0c\x11",
        Fault::EmptyPop,
    ),
    (
        "a third pop after flex",
        b"\
            \x8b\xf7\x8e\x0d\x8b\x8c\x0c\x10\x8b\x8d\x0c\x10\x8b\x8d\x0c\x10\x8b\x8d\x0c\x10\x8b\x8d\
            \x0c\x10\x8b\x8d\x0c\x10\x8b\x8d\x0c\x10\x8b\x8d\x0c\x10\x8b\x8b\x8b\x8e\x8b\x0c\x10\x0c\
            \x11\x0c\x11\x0c\x11",
        Fault::EmptyPop,
    ),
];

// Of flex.
const FLEX: &[Case] = &[
    (
        "flex in flex",
        b"\x8b\xf7\x8e\x0d\x8b\x8c\x0c\x10\x8b\x8c\x0c\x10",
        Fault::BadFlex,
    ),
    (
        "a flex point outside flex",
        b"\x8b\xf7\x8e\x0d\x8b\x8d\x0c\x10",
        Fault::BadFlex,
    ),
    (
        "the end of flex outside flex",
        b"\x8b\xf7\x8e\x0d\x8b\x8b\x8b\x8e\x8b\x0c\x10",
        Fault::BadFlex,
    ),
    (
        "a line in flex",
        b"\x8b\xf7\x8e\x0d\x8b\x8c\x0c\x10\x8c\x06",
        Fault::BadFlex,
    ),
    (
        "a curve in flex",
        b"\x8b\xf7\x8e\x0d\x8b\x8c\x0c\x10\x8b\x8b\x8b\x8b\x8b\x8b\x08",
        Fault::BadFlex,
    ),
    (
        "closepath in flex",
        b"\x8b\xf7\x8e\x0d\x8b\x8c\x0c\x10\x09",
        Fault::BadFlex,
    ),
    (
        "endchar in flex",
        b"\x8b\xf7\x8e\x0d\x8b\x8c\x0c\x10\x0e",
        Fault::BadFlex,
    ),
    (
        "seac in flex: not NotWhole",
        b"\x8b\xf7\x8e\x0d\x8b\x8c\x0c\x10\x8b\x8b\x8b\x8c\x8e\x0c\x0c\x8b\x0c\x06",
        Fault::BadFlex,
    ),
    (
        "a far line in flex: not Range",
        b"\x8b\xf7\x8e\x0d\xff\x7f\xff\xff\xff\x16\x8b\x8c\x0c\x10\x8d\x06",
        Fault::BadFlex,
    ),
    (
        "an eighth flex point",
        b"\
            \x8b\xf7\x8e\x0d\x8b\x8c\x0c\x10\x8b\x8d\x0c\x10\x8b\x8d\x0c\x10\x8b\x8d\x0c\x10\x8b\x8d\
            \x0c\x10\x8b\x8d\x0c\x10\x8b\x8d\x0c\x10\x8b\x8d\x0c\x10\x8b\x8d\x0c\x10",
        Fault::BadFlex,
    ),
    (
        "the end of flex after six points",
        b"\
            \x8b\xf7\x8e\x0d\x8b\x8c\x0c\x10\x8b\x8d\x0c\x10\x8b\x8d\x0c\x10\x8b\x8d\x0c\x10\x8b\x8d\
            \x0c\x10\x8b\x8d\x0c\x10\x8b\x8d\x0c\x10\x8b\x8b\x8b\x8e\x8b\x0c\x10",
        Fault::BadFlex,
    ),
];

// Of tokens, second widths and numbers.
const TOKENS: &[Case] = &[
    ("no token", b"\x8b\xf7\x8e\x0d", Fault::Unended),
    (
        "return outside a Subr",
        b"\x8b\xf7\x8e\x0d\x0b",
        Fault::Unended,
    ),
    (
        "a Subr without a token",
        b"\x8b\xf7\x8e\x0d\x93\x0a",
        Fault::Unended,
    ),
    ("byte 15", b"\x8b\xf7\x8e\x0d\x0f", Fault::BadToken),
    (
        "byte 15 after calls",
        b"\x8b\xf7\x8e\x0d\x8e\x0a\x90\x0a\x0f",
        Fault::BadToken,
    ),
    ("escape 15", b"\x8b\xf7\x8e\x0d\x0c\x0f", Fault::BadToken),
    (
        "a number that is cut off",
        b"\x8b\xf7\x8e\x0d\xff\x00",
        Fault::BadToken,
    ),
    (
        "a second hsbw",
        b"\x8b\xf7\x8e\x0d\x8b\x8b\x0d",
        Fault::NoWidth,
    ),
    (
        "a second width by sbw",
        b"\x8b\xf7\x8e\x0d\x8b\x8b\x8b\x8b\x0c\x07",
        Fault::NoWidth,
    ),
    (
        "a division by zero",
        b"\x8b\xf7\x8e\x0d\x8c\x8b\x0c\x0c",
        Fault::ZeroDivisor,
    ),
    (
        "a point beyond the range",
        b"\x8b\xf7\x8e\x0d\xff\x7f\xff\xff\xff\x16\x8d\x16\x0e",
        Fault::Range,
    ),
    (
        "a curve whose first point alone is beyond the range",
        b"\x8b\xf7\x8e\x0d\xff\x7f\xff\xff\xff\x16\x8d\x8b\x89\x8b\x8b\x8b\x08",
        Fault::Range,
    ),
    (
        "a curve whose first point alone is beyond the range, in y alone",
        b"\x8b\xf7\x8e\x0d\xff\x7f\xff\xff\xff\x04\x8b\x8d\x8b\x89\x8b\x8b\x08",
        Fault::Range,
    ),
    (
        "a curve whose second point alone is beyond the range, in y alone",
        b"\x8b\xf7\x8e\x0d\xff\x7f\xff\xff\xff\x04\x8b\x8b\x8b\x8d\x8b\x89\x08",
        Fault::Range,
    ),
    (
        "a curve whose end alone is beyond the range, in y alone",
        b"\x8b\xf7\x8e\x0d\xff\x7f\xff\xff\xff\x04\x8b\x8b\x8b\x8b\x8b\x8d\x08",
        Fault::Range,
    ),
    (
        "a quotient beyond the range",
        b"\x8b\xf7\x8e\x0d\xff\x80\x00\x00\x00\x8c\xff\x00\x01\x00\x00\x0c\x0c\x0c\x0c",
        Fault::Range,
    ),
    (
        "a quotient a little beyond the range",
        b"\
            \x8b\xf7\x8e\x0d\xff\x80\x00\x00\x00\xff\x00\x00\xff\xff\xff\x00\x01\x00\x00\x0c\x0c\x0c\
            \x0c",
        Fault::Range,
    ),
];

// Of charstrings without a width.
const BEFORE_WIDTH: &[Case] = &[
    (
        "hlineto of nothing before the width: not NoWidth",
        b"\x06",
        Fault::Underflow,
    ),
    ("hlineto before the width", b"\xef\x06", Fault::NoWidth),
    ("endchar before the width", b"\x0e", Fault::NoWidth),
    ("closepath before the width", b"\x09", Fault::NoWidth),
    ("dotsection before the width", b"\x0c\x00", Fault::NoWidth),
    (
        "setcurrentpoint before the width",
        b"\x8b\x8b\x0c\x21",
        Fault::NoWidth,
    ),
    (
        "seac of a third before the width: not NotWhole",
        b"\x8b\x8b\x8b\x8c\x8e\x0c\x0c\x8b\x0c\x06",
        Fault::NoWidth,
    ),
    (
        "OtherSubr 1 before the width",
        b"\x8b\x8c\x0c\x10",
        Fault::NoWidth,
    ),
    (
        "a third as OtherSubr before the width: not NotWhole",
        b"\x8b\x8c\x8e\x0c\x0c\x0c\x10",
        Fault::NoWidth,
    ),
    (
        "a division by zero before the width",
        b"\x8c\x8b\x0c\x0c",
        Fault::ZeroDivisor,
    ),
    (
        "a pop of nothing before the width",
        b"\x0c\x11",
        Fault::EmptyPop,
    ),
    ("return before the width", b"\x0b", Fault::Unended),
    (
        "a Subr that isn't there before the width",
        b"\xef\x0a",
        Fault::NoSubr,
    ),
    (
        "a third as index before the width",
        b"\x8c\x8e\x0c\x0c\x0a",
        Fault::NotWhole,
    ),
    (
        "25 operands before the width",
        b"\
            \x8b\x8b\x8b\x8b\x8b\x8b\x8b\x8b\x8b\x8b\x8b\x8b\x8b\x8b\x8b\x8b\x8b\x8b\x8b\x8b\x8b\x8b\
            \x8b\x8b\x8b",
        Fault::Overflow,
    ),
];

// Whether a charstring answers this fault.
fn answers(alloc: Global, font: &Font<'_>, charstring: &[u8], want: Fault) -> Result<bool, Fail> {
    let answer = direct(alloc, font, charstring)?;
    Ok(fault(&answer) == Some(want))
}

// The first case whose charstring doesn't answer its fault.
fn first_other(alloc: Global, cases: &[Case]) -> Result<Option<&'static str>, Fail> {
    let font = Font::small(alloc)?;
    for &(name, charstring, want) in cases {
        if !answers(alloc, &font, charstring, want)? {
            return Ok(Some(name));
        }
    }
    Ok(None)
}

// The first such case of each table: a function for each, so that no proof has all charstrings before it.
fn calls_of_subrs(alloc: Global) -> Result<Option<&'static str>, Fail> {
    first_other(alloc, CALLS)
}

fn operands(alloc: Global) -> Result<Option<&'static str>, Fail> {
    first_other(alloc, OPERANDS)
}

fn other_subrs(alloc: Global) -> Result<Option<&'static str>, Fail> {
    first_other(alloc, OTHER_SUBRS)
}

fn flex(alloc: Global) -> Result<Option<&'static str>, Fail> {
    first_other(alloc, FLEX)
}

fn tokens(alloc: Global) -> Result<Option<&'static str>, Fail> {
    first_other(alloc, TOKENS)
}

fn before_the_width(alloc: Global) -> Result<Option<&'static str>, Fail> {
    first_other(alloc, BEFORE_WIDTH)
}

#[test]
fn each_fault(rt: HostRuntime) -> Result<(), Fail> {
    let alloc = rt.alloc();
    assert_eq!(rt; calls_of_subrs(alloc)?, None);
    assert_eq!(rt; operands(alloc)?, None);
    assert_eq!(rt; other_subrs(alloc)?, None);
    assert_eq!(rt; flex(alloc)?, None);
    assert_eq!(rt; tokens(alloc)?, None);
    assert_eq!(rt; before_the_width(alloc)?, None);
    Ok(())
}
