//! Drawings of glyphs of the font Tiny and of changed ones.
use std::alloc::{AllocError, Global};
use t1_cmd_shared_tests::changed::{tiny_and, without_acute};
use t1_cmd_shared_tests::engines::{Engine, answers, of_tiny, subset};
use t1_font::Font;
use t1_font_shared_tests::of_font;
use t1_tiny::PFA;

// meets run_show Ok at 11 glyphs
// like run_show: show_file
#[test]
fn glyphs_of_tiny(rt: HostRuntime) {
    const ROWS: &[(&[u8], &[u8], &str)] = &[
        (
            b"X",
            b"width 300 0\nbearing 50 0\npart 0 0\nmove 50 0\nline 150 0\nline 150 700\nline 50 700\nclose\n",
            "a box",
        ),
        (
            b"F",
            b"width 500 0\nbearing 0 0\npart 0 0\nmove 100 0\nflex 50\ncurve 110 0 130 5 150 5\ncurve 170 5 190 0 200 0\nclose\n",
            "flex",
        ),
        (
            b"H",
            b"width 500 0\nbearing 0 0\npart 0 0\nhstem 0 20\nreplace\nhstem 100 20\n",
            "hint replacement",
        ),
        (
            b"Aacute",
            b"width 500 0\nbearing 0 0\npart 0 0\nmove 0 0\nline -100 0\nclose\npart 70 200\nmove 50 0\nline 150 0\nclose\n",
            "an accented glyph",
        ),
        (b"N", b"fault NestedSeac\n", "an accented glyph for a base"),
        (b"L", b"fault Nesting\n", "a Subr that calls itself"),
        (b"Zed", b"refused: no glyph Zed\n", "a name that Tiny lacks"),
        (
            b"Zed\\",
            b"refused: no glyph Zed\\x5c\n",
            "such a name with a backslash",
        ),
    ];
    for &(name, want, what) in ROWS {
        assert!(rt;
            answers(rt.alloc(), Engine::Show(name), PFA, want),
            "{what}"
        );
    }
}

/// A charstring that makes one mark of each kind but flex and Replace, with and without horizontal or vertical parts.
const MARKS: &[u8] = b"\x8b\xf7\x8e\x0d\x8c\x8d\x01\x8c\x8d\x03\x8c\x8d\x8e\x8f\x90\x91\x0c\x02\
\x8c\x8d\x8e\x8f\x90\x91\x0c\x01\x0c\x00\x8c\x8d\x15\x8c\x16\x8c\x04\x8c\x8d\x05\x8c\x06\x8c\x07\
\x8c\x8d\x8e\x8f\x90\x91\x08\x8c\x8d\x8e\x8f\x1e\x8c\x8d\x8e\x8f\x1f\x8c\x8d\x0c\x21\x09\x8c\x06\x0e";

const MARKS_SHOWN: &[u8] = b"width 250 0
bearing 0 0
part 0 0
hstem 1 2
vstem 1 2
hstem3 1 2 3 4 5 6
vstem3 1 2 3 4 5 6
dot
move 1 2
move 2 2
move 2 3
line 3 5
line 4 5
line 4 6
curve 5 8 8 12 13 18
curve 13 19 15 22 19 22
curve 20 22 22 25 22 29
close
line 2 2
";

const AACUTE: &[u8] = b"\x8b\xf8\x88\x0d\xbd\xf7\x0c\xf7\x5c\xcc\xf7\x56\x0c\x06";

/// A glyph that Tiny is given, its charstring, a glyph, and what that draws.
type Row = (
    &'static [u8],
    &'static [u8],
    &'static [u8],
    &'static [u8],
    &'static str,
);

const CHANGED: &[Row] = &[
    (b"G", MARKS, b"G", MARKS_SHOWN, "each mark"),
    (
        b"G",
        b"\x8b\xf7\x8e\x0d\x8c\x8e\x0c\x0c\x16\x0e",
        b"G",
        b"width 250 0\nbearing 0 0\npart 0 0\nmove 21845/65536 0\n",
        "a third",
    ),
    (
        b"G",
        b"\x8b\xf7\x8e\x0d\x8a\x8e\x0c\x0c\x16\x0e",
        b"G",
        b"width 250 0\nbearing 0 0\npart 0 0\nmove -21845/65536 0\n",
        "a third to the left",
    ),
    (
        b"G",
        b"\x8b\xf7\x8e\x0d\xff\x7f\xff\xff\xff\x16\x8c\x16\x0e",
        b"G",
        b"width 250 0\nbearing 0 0\npart 0 0\nmove 2147483647 0\nmove 2147483648 0\n",
        "the farthest point",
    ),
    (
        b"G",
        b"\x8c\x8d\x8e\x8f\x0c\x07\x0e",
        b"G",
        b"width 3 4\nbearing 1 2\npart 0 0\n",
        "two-dimensional metrics",
    ),
    (
        b"G",
        b"\x8b\xf7\x8e\x0d\xff\x7f\xff\xff\xff\x16\x8d\x16\x0e",
        b"G",
        b"fault Range\n",
        "too far",
    ),
    (b"G", b"\x06", b"G", b"fault Underflow\n", "no operand"),
    (b"G", b"", b"G", b"fault Unended\n", "no bytes"),
    (
        b"G",
        b"\x8c\x0c\x11",
        b"G",
        b"fault EmptyPop\n",
        "nothing to pop",
    ),
    (
        b"M",
        b"\x8b\xf8\x88\x0d\xbd\xf7\x0c\xf7\x5c\x8b\xf7\x56\x0c\x06",
        b"M",
        b"fault NoPart\n",
        "code 0 for a base",
    ),
    (
        b"A",
        AACUTE,
        b"A",
        b"fault NestedSeac\n",
        "itself for a base",
    ),
    (
        b"A",
        AACUTE,
        b"Aacute",
        b"fault NestedSeac\n",
        "such a base",
    ),
    (
        b"A",
        b"\x8b\xf8\x88\x0d\xff",
        b"Aacute",
        b"fault PartFault\n",
        "a base with a fault",
    ),
];

/// Whether a glyph of a file draws so.
fn draws(alloc: Global, file: Result<Vec<u8>, AllocError>, name: &[u8], want: &[u8]) -> bool {
    match file {
        Ok(file) => answers(alloc, Engine::Show(name), file.as_slice(), want),
        Err(_) => false,
    }
}

/// Whether a glyph draws so in the file of Tiny that has this glyph, too.
fn drawn_with(alloc: Global, row: Row) -> bool {
    let (name, plain, shown, want, _) = row;
    draws(alloc, tiny_and(alloc, name, plain), shown, want)
}

#[test]
fn changed_glyphs(rt: HostRuntime) {
    for &row in CHANGED {
        assert!(rt; drawn_with(rt.alloc(), row), "{}", row.4);
    }
}

#[test]
fn a_part_that_is_missing(rt: HostRuntime) {
    let file = without_acute(rt.alloc());
    assert!(rt; draws(rt.alloc(), file, b"Aacute", b"fault MissingPart\n"));
}

const NAMES: &[&str] = &[
    ".notdef", "A", "Aacute", "B", "F", "H", "L", "N", "X", "Y", "acute",
];

/// Whether the glyph of a name draws in a file as it does in Tiny.
fn is_as_in_tiny(alloc: Global, file: &[u8], name: &[u8]) -> bool {
    let want = of_tiny(alloc, Engine::Show(name));
    answers(alloc, Engine::Show(name), file, want.as_slice())
}

/// How many glyphs a font has, if each of them draws in its file as it does in Tiny; 0 if one doesn't.
fn count_drawn(alloc: Global, font: &Font<'_>, file: &[u8]) -> usize {
    let mut count = 0usize;
    for name in font.names() {
        if !is_as_in_tiny(alloc, file, name) {
            return 0;
        }
        count = count.saturating_add(1);
    }
    count
}

/// The same of the file of Tiny's subset by these names.
fn drawn_as_in_tiny(alloc: Global, names: &[&[u8]]) -> usize {
    let file = subset(alloc, PFA, names);
    let file = file.as_slice();
    match of_font(alloc, file, |font| Ok(count_drawn(alloc, font, file))) {
        Ok(count) => count,
        Err(_) => 0,
    }
}

/// The sum of these by a name alone, and by it and each later one; 0 if one of them is.
fn drawn_with_later(alloc: Global, at: usize, first: &'static str) -> usize {
    let mut count = drawn_as_in_tiny(alloc, &[first.as_bytes()]);
    for second in NAMES.iter().skip(at.saturating_add(1)) {
        let drawn = drawn_as_in_tiny(alloc, &[first.as_bytes(), second.as_bytes()]);
        if count == 0 || drawn == 0 {
            return 0;
        }
        count = count.saturating_add(drawn);
    }
    count
}

#[test]
fn subsets_draw_as_tiny(rt: HostRuntime) {
    // Aacute and B name A and acute, and N names B and acute. So of the 11 names each keeps .notdef, 4 keep A,
    // 4 keep acute, 2 keep B, and 1 keeps each of the other seven. Of the 55 pairs a glyph that k names keep is in
    // all but those of the 11 - k other names: 55, 34, 34, 19 and seven times 10 pairs.
    let mut count = 0usize;
    for (at, first) in NAMES.iter().enumerate() {
        let drawn = drawn_with_later(rt.alloc(), at, first);
        assert!(rt; drawn > 0, "{first} and each later name");
        count = count.saturating_add(drawn);
    }
    assert!(rt; count == 28 + 212, "in subsets of one name and of two");
}
