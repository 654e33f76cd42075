// What no clause says: that the table of encodings is the standard's, and that a call succeeds if there is memory.

use std::alloc::{AllocError, Global};
use std::test::Fail;
use t1_char::{CharFault, Command, Token, Tokens, write};

// The bytes of each command, as the table of commands has them.
const COMMANDS: [(u8, Command); 16] = [
    (1, Command::Hstem),
    (3, Command::Vstem),
    (4, Command::Vmoveto),
    (5, Command::Rlineto),
    (6, Command::Hlineto),
    (7, Command::Vlineto),
    (8, Command::Rrcurveto),
    (9, Command::Closepath),
    (10, Command::Callsubr),
    (11, Command::Return),
    (13, Command::Hsbw),
    (14, Command::Endchar),
    (21, Command::Rmoveto),
    (22, Command::Hmoveto),
    (30, Command::Vhcurveto),
    (31, Command::Hvcurveto),
];

// The bytes after 12 of each escape command.
const ESCAPES: [(u8, Command); 9] = [
    (0, Command::Dotsection),
    (1, Command::Vstem3),
    (2, Command::Hstem3),
    (6, Command::Seac),
    (7, Command::Sbw),
    (12, Command::Div),
    (16, Command::Callothersubr),
    (17, Command::Pop),
    (33, Command::Setcurrentpoint),
];

// The command that a table has for a code, or the code as no command.
fn coded(table: &[(u8, Command)], code: u8, bad: u16) -> Token {
    for (byte, command) in table {
        if *byte == code {
            return Token::Cmd(*command);
        }
    }
    Token::Bad(bad)
}

// The one token that a first byte and four zero bytes after it begin with, by the table of encodings.
fn expected(first: u8) -> Token {
    match first {
        12 => Token::Cmd(Command::Dotsection),
        0..=31 => coded(&COMMANDS, first, u16::from(first)),
        32..=246 => Token::Num(i32::from(first) - 139),
        247 => Token::Num(108),
        248 => Token::Num(364),
        249 => Token::Num(620),
        250 => Token::Num(876),
        251 => Token::Num(-108),
        252 => Token::Num(-364),
        253 => Token::Num(-620),
        254 => Token::Num(-876),
        255 => Token::Num(0),
    }
}

#[test]
fn reads_each_first_byte(rt: HostRuntime) {
    for first in 0..=255u8 {
        let bytes = [first, 0, 0, 0, 0];
        assert!(rt;
            Tokens::new(&bytes).next() == Some(expected(first)),
            "first byte {first}"
        );
    }
}

#[test]
fn reads_each_escape(rt: HostRuntime) {
    for second in 0..=255u8 {
        let bytes = [12, second, 14];
        let want = coded(&ESCAPES, second, 3072 + u16::from(second));
        let mut tokens = Tokens::new(&bytes);
        assert!(rt; tokens.next() == Some(want), "escape {second}");
        assert!(rt;
            tokens.next() == Some(Token::Cmd(Command::Endchar)),
            "after escape {second}"
        );
        assert!(rt; tokens.next().is_none(), "end after escape {second}");
    }
}

#[test]
fn cut_after_each_byte(rt: HostRuntime) {
    let cuts: [&[u8]; 10] = [
        &[12],
        &[247],
        &[248],
        &[250],
        &[251],
        &[254],
        &[255],
        &[255, 1],
        &[255, 1, 2],
        &[255, 1, 2, 3],
    ];
    for bytes in cuts {
        let mut tokens = Tokens::new(bytes);
        assert!(rt; tokens.next() == Some(Token::Cut), "{bytes:?}");
        assert!(rt; tokens.next().is_none(), "after {bytes:?}");
    }
}

#[test]
fn writes_each_command(rt: HostRuntime) -> Result<(), Fail> {
    for (byte, command) in COMMANDS {
        let written = write(rt.alloc(), &[Token::Cmd(command)])?;
        assert!(rt; written.as_slice() == [byte].as_slice(), "command {byte}");
    }
    for (byte, command) in ESCAPES {
        let written = write(rt.alloc(), &[Token::Cmd(command)])?;
        assert!(rt;
            written.as_slice() == [12, byte].as_slice(),
            "escape {byte}"
        );
    }
    Ok(())
}

// `0 250 hsbw setcurrentpoint 66051 endchar`, and a number that is cut off.
const MIXED: [u8; 14] = [
    0x8b, 0xf7, 0x8e, 0x0d, 0x0c, 0x21, 0xff, 0x00, 0x01, 0x02, 0x03, 0x0e, 0xff, 0x01,
];

// The token at an offset, if one stands there, and the offset after it.
fn read_at(charstring: &[u8], offset: usize) -> Option<(Token, usize)> {
    if offset > charstring.len() {
        return None;
    }
    let mut tokens = Tokens::at(charstring, offset);
    let token = tokens.next()?;
    Some((token, tokens.offset()))
}

#[test]
fn reads_from_each_offset(rt: HostRuntime) {
    let cases = [
        (0, Some((Token::Num(0), 1))),
        (1, Some((Token::Num(250), 3))),
        (2, Some((Token::Num(3), 3))),
        (3, Some((Token::Cmd(Command::Hsbw), 4))),
        (4, Some((Token::Cmd(Command::Setcurrentpoint), 6))),
        (5, Some((Token::Num(-106), 6))),
        (6, Some((Token::Num(66051), 11))),
        (7, Some((Token::Bad(0), 8))),
        (11, Some((Token::Cmd(Command::Endchar), 12))),
        (12, Some((Token::Cut, 14))),
        (14, None),
    ];
    for (offset, want) in cases {
        assert!(rt; read_at(&MIXED, offset) == want, "at {offset}");
    }
}

#[test]
fn offset_after_each_token(rt: HostRuntime) {
    let mut tokens = Tokens::new(&MIXED);
    assert!(rt; tokens.offset() == 0);
    for want in [1, 3, 4, 6, 11, 12, 14, 14] {
        let _ = tokens.next();
        assert!(rt; tokens.offset() == want);
    }
}

// The tokens of a glyph: `0 250 hsbw endchar`.
const GLYPH: [Token; 4] = [
    Token::Num(0),
    Token::Num(250),
    Token::Cmd(Command::Hsbw),
    Token::Cmd(Command::Endchar),
];

// The bytes of that glyph.
const GLYPH_BYTES: [u8; 5] = [0x8b, 0xf7, 0x8e, 0x0d, 0x0e];

// Numbers at the borders of their forms, and a glyph, each with its shortest form; and tokens that have none.
const WRITTEN: &[(&[Token], Result<&[u8], CharFault>)] = &[
    (&[Token::Num(0)], Ok(b"\x8b")),
    (&[Token::Num(107)], Ok(b"\xf6")),
    (&[Token::Num(108)], Ok(b"\xf7\x00")),
    (&[Token::Num(250)], Ok(b"\xf7\x8e")),
    (&[Token::Num(1131)], Ok(b"\xfa\xff")),
    (&[Token::Num(1132)], Ok(b"\xff\x00\x00\x04\x6c")),
    (&[Token::Num(32000)], Ok(b"\xff\x00\x00\x7d\x00")),
    (&[Token::Num(2147483647)], Ok(b"\xff\x7f\xff\xff\xff")),
    (&[Token::Num(-1)], Ok(b"\x8a")),
    (&[Token::Num(-107)], Ok(b"\x20")),
    (&[Token::Num(-108)], Ok(b"\xfb\x00")),
    (&[Token::Num(-1131)], Ok(b"\xfe\xff")),
    (&[Token::Num(-1132)], Ok(b"\xff\xff\xff\xfb\x94")),
    (&[Token::Num(-32000)], Ok(b"\xff\xff\xff\x83\x00")),
    (&[Token::Num(-2147483648)], Ok(b"\xff\x80\x00\x00\x00")),
    (&[], Ok(&[])),
    (&GLYPH, Ok(&GLYPH_BYTES)),
    (&[Token::Bad(15)], Err(CharFault::NotWritable)),
    (&[Token::Bad(3087)], Err(CharFault::NotWritable)),
    (&[Token::Cut], Err(CharFault::NotWritable)),
    (
        &[Token::Cmd(Command::Pop), Token::Bad(15)],
        Err(CharFault::NotWritable),
    ),
    (
        &[Token::Num(1), Token::Bad(3087), Token::Num(1132)],
        Err(CharFault::NotWritable),
    ),
    (&[Token::Num(1), Token::Cut], Err(CharFault::NotWritable)),
    (&[Token::Cut, Token::Num(1)], Err(CharFault::NotWritable)),
    (
        &[Token::Num(1), Token::Num(2), Token::Num(1132)],
        Ok(b"\x8c\x8d\xff\x00\x00\x04\x6c"),
    ),
];

// Whether tokens are written so and are read again, or are refused so.
fn writes(
    alloc: Global,
    tokens: &[Token],
    want: Result<&[u8], CharFault>,
) -> Result<bool, AllocError> {
    match (write(alloc, tokens), want) {
        (Ok(bytes), Ok(text)) => {
            let again: Vec<Token> = Tokens::new(text).collect(alloc)?;
            Ok(bytes.as_slice() == text && again.as_slice() == tokens)
        }
        (Err(fault), Err(other)) => Ok(fault == other),
        _ => Ok(false),
    }
}

// meets write Ok at 0, 1, 3, 4 tokens
// meets write NotWritable at 1, 2, 3 tokens
#[test]
fn numbers_and_glyphs_both_ways(rt: HostRuntime) -> Result<(), Fail> {
    for &(tokens, want) in WRITTEN {
        assert!(rt; writes(rt.alloc(), tokens, want)?, "{tokens:?}");
    }
    Ok(())
}

// The glyph, so many times.
fn many_tokens(alloc: Global, times: u32) -> Result<Vec<Token>, AllocError> {
    let mut tokens = Vec::new(alloc);
    for _ in 0..times {
        tokens.extend_from_slice(&GLYPH)?;
    }
    Ok(tokens)
}

// The bytes of these.
fn many_bytes(alloc: Global, times: u32) -> Result<Vec<u8>, AllocError> {
    let mut bytes = Vec::new(alloc);
    for _ in 0..times {
        bytes.extend_from_slice(&GLYPH_BYTES)?;
    }
    Ok(bytes)
}

// How many tokens so many glyphs are, of how many bytes, and how many they are with one more.
#[derive(Clone, Copy)]
struct Many {
    times: u32,
    tokens: usize,
    bytes: usize,
    with_one_more: usize,
}

const MANY: [Many; 5] = [
    Many {
        times: 0,
        tokens: 0,
        bytes: 0,
        with_one_more: 1,
    },
    Many {
        times: 1,
        tokens: 4,
        bytes: 5,
        with_one_more: 5,
    },
    Many {
        times: 5_000,
        tokens: 20_000,
        bytes: 25_000,
        with_one_more: 20_001,
    },
    Many {
        times: 13_107,
        tokens: 52_428,
        bytes: 65_535,
        with_one_more: 52_429,
    },
    Many {
        times: 25_000,
        tokens: 100_000,
        bytes: 125_000,
        with_one_more: 100_001,
    },
];

// Whether so many glyphs are written, and refused with one more token, which can't be written.
fn writes_many(alloc: Global, many: Many) -> Result<bool, Fail> {
    let mut tokens = many_tokens(alloc, many.times)?;
    let bytes = many_bytes(alloc, many.times)?;
    let are_so_many = tokens.len() == many.tokens && bytes.len() == many.bytes;
    let is_written = writes(alloc, &tokens, Ok(&bytes))?;
    tokens.push(Token::Cut)?;
    let is_refused = writes(alloc, &tokens, Err(CharFault::NotWritable))?;
    Ok(are_so_many && is_written && is_refused && tokens.len() == many.with_one_more)
}

// meets write Ok at 0, 4, 20000, 52428, 100000 tokens
// meets write NotWritable at 1, 5, 20001, 52429, 100001 tokens
#[test]
fn many_tokens_both_ways(rt: HostRuntime) -> Result<(), Fail> {
    for many in MANY {
        assert!(rt; writes_many(rt.alloc(), many)?, "{} glyphs", many.times);
    }
    Ok(())
}

// `0 250 hsbw endchar`.
const ENDED: [Token; 4] = [
    Token::Num(0),
    Token::Num(250),
    Token::Cmd(Command::Hsbw),
    Token::Cmd(Command::Endchar),
];

// `tools/sweep_growths.py` refuses one growth after the other: a call that then answers want of memory gives the right
// answer when it is made again.
#[test]
fn growths(rt: HostRuntime) -> Result<(), Fail> {
    let bytes = match write(rt.alloc(), &ENDED) {
        Err(CharFault::Memory) => write(rt.alloc(), &ENDED)?,
        answer => answer?,
    };
    assert!(rt; bytes.as_slice() == b"\x8b\xf7\x8e\x0d\x0e".as_slice());
    Ok(())
}

// The same refuses all growths.
#[test]
fn no_growth(rt: HostRuntime) {
    let mut tokens = Tokens::new(b"\x8b\xf7\x8e\x0d\x0e");
    for token in ENDED {
        assert!(rt; tokens.next() == Some(token));
    }
    assert!(rt; tokens.next().is_none() && tokens.offset() == 5);
}
