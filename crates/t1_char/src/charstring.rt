//! The tokens of a charstring, one after the other.

ghost use Rattle.std.specs.{Prelude.{◌≡◌, ◌≤◌, ◌<◌, ◌+◌, ◌*◌, length, drop, min}, Iterator.{item_count}};
ghost use Rattle.t1_char.specs.{Commands.{coded, commands, escapes}, Tokens.{tokens, token_at, more_of}};

use crate::token::{Command, Token};
use byteorder::{BigEndian, ByteOrder};

/// The tokens of a charstring (Adobe Type 1 Font Format 1.1, chapter 6), as an iterator over borrowed bytes. It takes no
/// memory, and it ends.
#[derive(Clone, Copy, Debug)]
pub struct Tokens<'a> {
    charstring: &'a [u8],
    offset: usize,
    ghost within: { offset ≤ length charstring.now },
}

impl<'a> Tokens<'a> {
    ghost use Rattle.t1_char.specs.Charstring.{charstring_of, tokens_left};

    /// All tokens of a plain charstring, which is decrypted and without its lead bytes.
    #[inline(always)]
    pub fn new(charstring: &'a [u8]) -> Tokens<'a>
        ensures all { tokens_left result ≡ tokens charstring.now }
        ensures whole { charstring_of result ≡ charstring.now }
    {
        Tokens {
            charstring,
            offset: 0,
        }
    }

    /// The tokens of a plain charstring from an offset in bytes on. From an offset that `Tokens` reached in it, they are
    /// the tokens that were left there; from an offset inside a token, the bytes are read as if a charstring began there.
    #[inline(always)]
    pub fn at(charstring: &'a [u8], offset: usize) -> Tokens<'a>
        requires { offset ≤ length charstring.now }
        ensures rest { tokens_left result ≡ tokens (drop offset charstring.now) }
        ensures whole { charstring_of result ≡ charstring.now }
    {
        Tokens { charstring, offset }
    }

    /// How many bytes of the charstring have been read. Its tokens from this offset on are those that are left.
    #[inline(always)]
    pub fn offset(&self) -> usize
        ensures within { result ≤ length (charstring_of self.now) }
        ensures rest { tokens (drop result (charstring_of self.now)) ≡ tokens_left self.now }
    {
        self.offset
    }
}

impl<'a> Iterator for Tokens<'a> {
    type Item = Token;

    ghost use Rattle.t1_char.specs.Charstring.{tokens_left, GivesNext};

    ghost next_gives = { GivesNext };

    ghost remaining = { item_count tokens_left };

    #[inline(always)]
    fn next(&mut self) -> Option<Token> {
        let (first, rest) = self.charstring[self.offset..].split_first()?;
        let (token, more) = token_at(*first, rest);
        self.offset += 1 + more;
        Some(token)
    }
}

/// The token that begins with `first`, before the bytes that follow, and how many of these are the token's.
#[inline(always)]
fn token_at(first: u8, rest: &[u8]) -> (Token, usize)
    ensures token { result.0 ≡ token_at first rest.now }
    ensures more { result.1 ≡ min (more_of first) (length rest.now) }
{
    // A number of one byte, the most frequent token.
    if 32 <= first && first <= 246 {
        return (Token::Num(i32::from(first) - 139), 0);
    }
    if first > 246 {
        return number_at(first, rest);
    }
    if first == 12 {
        return escape_at(rest);
    }
    (command(first), 0)
}

/// A number of more than one byte, in the same way.
#[inline(always)]
fn number_at(first: u8, rest: &[u8]) -> (Token, usize)
    requires { 246 < first }
    ensures token { result.0 ≡ token_at first rest.now }
    ensures more { result.1 ≡ min (more_of first) (length rest.now) }
{
    if first == 255 {
        return if rest.len() < 4 {
            (Token::Cut, rest.len())
        } else {
            (Token::Num(BigEndian::read_i32(rest)), 4)
        };
    }
    let Some(second) = rest.first() else {
        return (Token::Cut, 0);
    };
    if first < 251 {
        (Token::Num(i32::from(long_size(first - 247, *second))), 1)
    } else {
        (Token::Num(-i32::from(long_size(first - 251, *second))), 1)
    }
}

/// What begins with the escape byte, in the same way.
#[inline(always)]
fn escape_at(rest: &[u8]) -> (Token, usize)
    ensures token { result.0 ≡ token_at 12 rest.now }
    ensures more { result.1 ≡ min 1 (length rest.now) }
{
    match rest.first() {
        Some(second) => (escape(*second), 1),
        None => (Token::Cut, 0),
    }
}

/// The size of a number of two bytes.
#[inline(always)]
fn long_size(high: u8, low: u8) -> u16
    requires { high < 4 }
    ensures { result ≡ high * 256 + low + 108 }
{
    u16::from(high) * 256 + u16::from(low) + 108
}

/// The command of one byte, if the byte is one.
#[inline(always)]
fn command(code: u8) -> Token
    ensures { result ≡ coded commands code code }
{
    let command = match code {
        1 => Command::Hstem,
        3 => Command::Vstem,
        4 => Command::Vmoveto,
        5 => Command::Rlineto,
        6 => Command::Hlineto,
        7 => Command::Vlineto,
        8 => Command::Rrcurveto,
        9 => Command::Closepath,
        10 => Command::Callsubr,
        11 => Command::Return,
        13 => Command::Hsbw,
        14 => Command::Endchar,
        21 => Command::Rmoveto,
        22 => Command::Hmoveto,
        30 => Command::Vhcurveto,
        31 => Command::Hvcurveto,
        _ => return Token::Bad(u16::from(code)),
    };
    Token::Cmd(command)
}

/// The command of two bytes, by its second byte, if there is one.
#[inline(always)]
fn escape(code: u8) -> Token
    ensures { result ≡ coded escapes code (12 * 256 + code) }
{
    match code {
        0 => Token::Cmd(Command::Dotsection),
        1 => Token::Cmd(Command::Vstem3),
        2 => Token::Cmd(Command::Hstem3),
        6 => Token::Cmd(Command::Seac),
        7 => Token::Cmd(Command::Sbw),
        12 => Token::Cmd(Command::Div),
        16 => Token::Cmd(Command::Callothersubr),
        17 => Token::Cmd(Command::Pop),
        33 => Token::Cmd(Command::Setcurrentpoint),
        _ => Token::Bad(12 * 256 + u16::from(code)),
    }
}
