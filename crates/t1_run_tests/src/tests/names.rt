// The names of StandardEncoding, and the parts that outcomes name by them.

use crate::tests::fonts::{Font, GlyphFont};
use std::alloc::Global;
use std::test::Fail;
use t1_run::{SubrSet, parts_and_executed, standard_name};

// The codes that have names, and their names; no other code has one.
const NAMES: [(u8, &str); 149] = [
    (32, "space"),
    (33, "exclam"),
    (34, "quotedbl"),
    (35, "numbersign"),
    (36, "dollar"),
    (37, "percent"),
    (38, "ampersand"),
    (39, "quoteright"),
    (40, "parenleft"),
    (41, "parenright"),
    (42, "asterisk"),
    (43, "plus"),
    (44, "comma"),
    (45, "hyphen"),
    (46, "period"),
    (47, "slash"),
    (48, "zero"),
    (49, "one"),
    (50, "two"),
    (51, "three"),
    (52, "four"),
    (53, "five"),
    (54, "six"),
    (55, "seven"),
    (56, "eight"),
    (57, "nine"),
    (58, "colon"),
    (59, "semicolon"),
    (60, "less"),
    (61, "equal"),
    (62, "greater"),
    (63, "question"),
    (64, "at"),
    (65, "A"),
    (66, "B"),
    (67, "C"),
    (68, "D"),
    (69, "E"),
    (70, "F"),
    (71, "G"),
    (72, "H"),
    (73, "I"),
    (74, "J"),
    (75, "K"),
    (76, "L"),
    (77, "M"),
    (78, "N"),
    (79, "O"),
    (80, "P"),
    (81, "Q"),
    (82, "R"),
    (83, "S"),
    (84, "T"),
    (85, "U"),
    (86, "V"),
    (87, "W"),
    (88, "X"),
    (89, "Y"),
    (90, "Z"),
    (91, "bracketleft"),
    (92, "backslash"),
    (93, "bracketright"),
    (94, "asciicircum"),
    (95, "underscore"),
    (96, "quoteleft"),
    (97, "a"),
    (98, "b"),
    (99, "c"),
    (100, "d"),
    (101, "e"),
    (102, "f"),
    (103, "g"),
    (104, "h"),
    (105, "i"),
    (106, "j"),
    (107, "k"),
    (108, "l"),
    (109, "m"),
    (110, "n"),
    (111, "o"),
    (112, "p"),
    (113, "q"),
    (114, "r"),
    (115, "s"),
    (116, "t"),
    (117, "u"),
    (118, "v"),
    (119, "w"),
    (120, "x"),
    (121, "y"),
    (122, "z"),
    (123, "braceleft"),
    (124, "bar"),
    (125, "braceright"),
    (126, "asciitilde"),
    (161, "exclamdown"),
    (162, "cent"),
    (163, "sterling"),
    (164, "fraction"),
    (165, "yen"),
    (166, "florin"),
    (167, "section"),
    (168, "currency"),
    (169, "quotesingle"),
    (170, "quotedblleft"),
    (171, "guillemotleft"),
    (172, "guilsinglleft"),
    (173, "guilsinglright"),
    (174, "fi"),
    (175, "fl"),
    (177, "endash"),
    (178, "dagger"),
    (179, "daggerdbl"),
    (180, "periodcentered"),
    (182, "paragraph"),
    (183, "bullet"),
    (184, "quotesinglbase"),
    (185, "quotedblbase"),
    (186, "quotedblright"),
    (187, "guillemotright"),
    (188, "ellipsis"),
    (189, "perthousand"),
    (191, "questiondown"),
    (193, "grave"),
    (194, "acute"),
    (195, "circumflex"),
    (196, "tilde"),
    (197, "macron"),
    (198, "breve"),
    (199, "dotaccent"),
    (200, "dieresis"),
    (202, "ring"),
    (203, "cedilla"),
    (205, "hungarumlaut"),
    (206, "ogonek"),
    (207, "caron"),
    (208, "emdash"),
    (225, "AE"),
    (227, "ordfeminine"),
    (232, "Lslash"),
    (233, "Oslash"),
    (234, "OE"),
    (235, "ordmasculine"),
    (241, "ae"),
    (245, "dotlessi"),
    (248, "lslash"),
    (249, "oslash"),
    (250, "oe"),
    (251, "germandbls"),
];

// The name of a code in the table.
fn name_in_table(code: u8) -> Option<&'static str> {
    for (other, name) in &NAMES {
        if *other == code {
            return Some(*name);
        }
    }
    None
}

// The first code of another name.
fn first_other_code() -> Option<u8> {
    for code in 0..=255 {
        if standard_name(code) != name_in_table(code) {
            return Some(code);
        }
    }
    None
}

#[test]
fn names_all_codes(rt: HostRuntime) {
    assert_eq!(rt; first_other_code(), None);
}

// Charstrings, and the parts that each names.
const PARTS: [(&str, &[u8], &[&str]); 6] = [
    (
        "an accented glyph",
        b"\x8b\xf8\x88\x0d\xbd\xf7\x0c\xf7\x5c\xcc\xf7\x56\x0c\x06",
        &["A", "acute"],
    ),
    (
        "code 0 as base",
        b"\x8b\xf8\x88\x0d\xbd\xf7\x0c\xf7\x5c\x8b\xf7\x56\x0c\x06",
        &["acute"],
    ),
    (
        "code 65 + 256 as accent",
        b"\x8b\xf8\x88\x0d\xbd\xf7\x0c\xf7\x5c\xcc\xf7\xd5\x0c\x06",
        &["A"],
    ),
    (
        "codes -1 and 255",
        b"\x8b\xf8\x88\x0d\xbd\xf7\x0c\xf7\x5c\x8a\xf7\x93\x0c\x06",
        &[],
    ),
    ("a plain glyph", b"\x8b\xf7\x8e\x0d\x0e", &[]),
    ("no token", &[], &[]),
];

// Whether a charstring names these parts, where hints are replaced and again where they are kept.
fn names(alloc: Global, font: &Font<'_>, charstring: &[u8], want: &[&str]) -> Result<bool, Fail> {
    let mut called = SubrSet::new(alloc);
    let names = parts_and_executed(alloc, font, charstring, &mut called)?;
    let (replaced, kept) = names.as_slice().split_at(names.len() / 2);
    Ok(replaced == want && kept == want)
}

// The first of these cases that names other parts.
fn first_other<'a>(
    alloc: Global,
    cases: &[(&'a str, &[u8], &[&str])],
) -> Result<Option<&'a str>, Fail> {
    let font = Font::small(alloc)?;
    for (name, charstring, want) in cases {
        if !names(alloc, &font, charstring, want)? {
            return Ok(Some(*name));
        }
    }
    Ok(None)
}

#[test]
fn names_parts(rt: HostRuntime) -> Result<(), Fail> {
    assert_eq!(rt; first_other(rt.alloc(), &PARTS)?, None);
    Ok(())
}

// `50 120 200 65 194 seac`, as Subr 8.
const SUBR_8: &[u8] = b"\xbd\xf7\x0c\xf7\x5c\xcc\xf7\x56\x0c\x06";

// `0 500 hsbw 8 1 3 callothersubr pop callsubr 50 120 200 66 194 seac`: Subr 8 is called where hints are replaced, and Subr 3 where
// they are kept.
const BY_HINTS: &[u8] =
    b"\x8b\xf8\x88\x0d\x93\x8c\x8e\x0c\x10\x0c\x11\x0a\xbd\xf7\x0c\xf7\x5c\xcd\xf7\x56\x0c\x06";

#[test]
fn each_run_names_its_own_parts(rt: HostRuntime) -> Result<(), Fail> {
    let font = GlyphFont::new(rt.alloc(), &[(8, SUBR_8)], &[], None)?;
    let mut called = SubrSet::new(rt.alloc());
    let names = parts_and_executed(rt.alloc(), &font, BY_HINTS, &mut called)?;
    assert!(rt; names.as_slice() == ["A", "acute", "B", "acute"].as_slice());
    Ok(())
}
