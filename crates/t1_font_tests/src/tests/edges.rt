//! The borders of the grammar: what still reads, and what it reads as.

use std::test::Fail;
use t1_font::{Font, Form, ReadFault};
use t1_font_shared_tests::{CLEAR, GLYPHS, counts, fault, file, of_file, rewritten};
use t1_run::Subroutines;

#[test]
fn words_at_their_limits(rt: HostRuntime) {
    const BAD: Option<ReadFault> = Some(ReadFault::BadSubrs { at: 28 });
    const ROWS: &[(&[u8], Option<ReadFault>, &str)] = &[
        (b"ND\n", None, "an empty table"),
        (
            b"dup 2 0 a  b\ndup 0 0 a  b\nND\n",
            None,
            "out of order, with a gap",
        ),
        (
            b"dup 3 0 a  b ND\n",
            BAD,
            "an index equal to the declared count",
        ),
        (b"dup 0 0 RD  dup ND\n", None, "dup as the put-phrase"),
        (
            b"dup 0 0 RD  NP noaccess dup ",
            Some(ReadFault::BadSubrs { at: 43 }),
            "noaccess dup doesn't close",
        ),
        (b"dup 0 0 RD  noaccess", BAD, "noaccess without a word"),
        (
            b"dup 0 0 12345678901234567890123456789012  NP ND\n",
            None,
            "a word of 32 bytes",
        ),
        (
            b"dup 0 0 123456789012345678901234567890123  NP ND\n",
            BAD,
            "a word of 33 bytes",
        ),
        (
            b"dup 0 0 RD  noaccess 12345678901234567890123 ND\n",
            None,
            "a phrase of 32 bytes",
        ),
        (
            b"dup 0 0 RD  noaccess 123456789012345678901234 ND\n",
            BAD,
            "a phrase of 33 bytes",
        ),
        (
            b"dup 0 0 RD  noaccess put noaccess def\n",
            None,
            "phrases of two words",
        ),
        (b"dup 0 65536 RD  NP ND\n", BAD, "a length of 65,536"),
        (b"dup 0 65535 RD  NP ND\n", BAD, "a length beyond the end"),
        (
            b"dup 0 1 RD%\x1b NP ND\n",
            BAD,
            "a delimiter for the one byte of white space",
        ),
        (
            b"dup 0 1 RD\0\x1b\x0cNP\rND\t",
            None,
            "a null, a form feed, CR and a tab",
        ),
        (
            b"dup 0000000002 0 RD  NP ND\n",
            BAD,
            "an index of ten digits",
        ),
    ];
    for &(table, want, name) in ROWS {
        let private: &[&[u8]] = &[b"/lenIV 0 def /Subrs 3 array ", table, GLYPHS];
        assert!(rt; fault(rt.alloc(), &[CLEAR], private) == want, "{name}");
    }
}

#[test]
fn codes_at_their_limits(rt: HostRuntime) {
    const BAD: Option<ReadFault> = Some(ReadFault::BadEncoding { at: 23 });
    const ROWS: &[(&[u8], Option<ReadFault>, &str)] = &[
        (b"dup 8#000000377/X put def", None, "nine octal digits"),
        (b"dup 8#0000000377/X put def", BAD, "ten octal digits"),
        (b"dup 8#400/X put def", BAD, "octal 256"),
        (b"dup 8#8/X put def", BAD, "a digit that isn't octal"),
        (b"dup 16#41/X put def", BAD, "another radix"),
        (
            b"dup 000000065/X put readonly def",
            None,
            "nine digits, and readonly",
        ),
        (b"dup 65/ put def", BAD, "an empty name"),
        (b"readonly readonly def", BAD, "readonly twice"),
        (b"def ", None, "no names"),
        (b"/X put def", BAD, "no dup"),
    ];
    for &(table, want, name) in ROWS {
        let clear: &[&[u8]] = &[b"%!\n/Encoding 256 array ", table, b" currentfile eexec "];
        assert!(rt;
            fault(rt.alloc(), clear, &[b"/lenIV 0 def ", GLYPHS]) == want,
            "{name}"
        );
    }
}

/// What a font says of codes 65 and 66: whether the first has no name, and the second the name Y; and whether it has a
/// table.
fn codes(font: &Font<'_>) -> (bool, bool, bool) {
    (
        font.encoding_at(65).is_none(),
        font.encoding_at(66) == Some(b"Y".as_slice()),
        font.encoding_word().is_none(),
    )
}

/// What a font says of its Subrs: whether there is a table, how many are declared, whether 0 and 2 are present, and the
/// lowest index that is present.
fn subrs(font: &Font<'_>) -> (bool, u16, bool, bool, Option<u16>) {
    (
        font.has_subrs(),
        font.count(),
        font.present(0),
        font.present(2),
        font.indices().next(),
    )
}

/// What a font says of its codes and of its Subrs, and its lenIV.
type Said = ((bool, bool, bool), (bool, u16, bool, bool, Option<u16>), u8);

/// What a font says.
fn said(font: &Font<'_>) -> Said {
    (codes(font), subrs(font), font.len_iv())
}

#[test]
fn last_entries_and_first_words(rt: HostRuntime) -> Result<(), Fail> {
    let clear =
        b"%!\n/Encoding 256 array dup 65/X put dup 66/Y put dup 65/.notdef put def currentfile eexec ";
    let private =
        b"/lenIV 0 def /lenIV 9 def /Subrs 3 array dup 2 1 a \x01 b dup 2 1 c \x0b d ND\nx \
        /CharStrings 9 dict dup begin /.notdef 1 e \x01 f /.notdef 1 g \x02 end\nend \
        closefileclosefile/Subrs 0 array ";
    let file = file(rt.alloc(), clear, private)?;
    let said = of_file(rt.alloc(), file.as_slice(), |font| Ok(said(font)));
    assert!(rt;
        said == Ok(((true, true, true), (true, 3, false, true, Some(2)), 0)),
        "a later .notdef takes a code away, the first lenIV counts, a gap stays"
    );
    assert!(rt;
        counts(rt.alloc(), file.as_slice()) == Ok((1, 446)),
        "one name, and one Subr"
    );
    let again = rewritten(rt.alloc(), file.as_slice(), Form::Pfb);
    assert!(rt;
        again.is_ok_and(|pfb| pfb.as_slice().starts_with(b"\x80\x01")),
        "a PFB"
    );
    Ok(())
}
