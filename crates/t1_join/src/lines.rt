//! The lines of a listing's text.
ghost use Rattle.std.specs.{Prelude.{◌≡◌, ◌==◌, position, option_and_then, not}, List.{list_all}, Option.{option_map}};
ghost use Rattle.t1_join.specs.{ListingMeaning.{ends_name, is_listed_name}, ListingText.{split_at, listed_index, subr_of, glyph_of, listed_entry}};
ghost use Rattle.t1_join.specs.LineMeaning.{line_entry, slice_pair};

use crate::hexadecimal::Hex;

/// What a line says.
#[derive(Drop)]
pub enum Line<'a> {
    Subr(u16, Hex<'a>),
    Glyph(&'a [u8], Hex<'a>),
}

fn find(text: &[u8], byte: u8) -> Option<usize>
    ensures { result ≡ position (λ b. b == byte) text.now }
{
    text.iter().position(|b| *b == byte)
}

/// What stands before and after the first occurrence of a byte.
pub fn split_at_byte(text: &[u8], byte: u8) -> Option<(&[u8], &[u8])>
    ensures { option_map slice_pair result ≡ split_at byte text.now }
{
    match find(text, byte) {
        Some(i) => Some((&text[..i], &text[i + 1..])),
        None => None,
    }
}

fn index(word: &[u8]) -> Option<u16>
    ensures { result ≡ listed_index word.now }
{
    if word.is_empty() || word.len() > 5 {
        return None;
    }
    let mut n = 0u32;
    for c in word {
        if !c.is_ascii_digit() {
            return None;
        }
        n = n * 10 + u32::from(*c - b'0');
    }
    if n <= 65534 { Some(n as u16) } else { None }
}

/// Whether a byte can't stand in a name that is written without quotes: white space, NUL, or a byte that parts words.
pub fn ends_name(byte: u8) -> bool
    ensures { result ≡ ends_name byte }
{
    matches!(
        byte,
        0 | 9
            | 10
            | 12
            | 13
            | 32
            | b'('
            | b')'
            | b'<'
            | b'>'
            | b'['
            | b']'
            | b'{'
            | b'}'
            | b'/'
            | b'%'
    )
}

fn has_no_end(word: &[u8]) -> bool
    ensures { result ≡ list_all (λ b. not (ends_name b)) word.now }
{
    word.iter().all(|b| !ends_name(*b))
}

/// The most bytes that a name has.
const NAME_LIMIT: usize = 127;

fn may_name(word: &[u8]) -> bool
    ensures { result ≡ is_listed_name word.now }
{
    if word.is_empty() || word.len() > NAME_LIMIT {
        return false;
    }
    has_no_end(word)
}

/// What a line says, without its line feed.
pub fn read_line(line: &[u8]) -> Option<Line<'_>>
    ensures { option_map line_entry result ≡ listed_entry line.now }
{
    let (kind, after) = line.split_first()?;
    let (blank, rest) = after.split_first()?;
    if *blank != b' ' {
        return None;
    }
    if *kind == b'S' {
        subr(rest)
    } else if *kind == b'G' {
        glyph(rest)
    } else {
        None
    }
}

fn subr(rest: &[u8]) -> Option<Line<'_>>
    ensures { option_map line_entry result ≡ option_and_then subr_of (split_at 32 rest.now) }
{
    let (word, digits) = split_at_byte(rest, b' ')?;
    let index = index(word)?;
    let bytes = Hex::read(digits)?;
    Some(Line::Subr(index, bytes))
}

fn glyph(rest: &[u8]) -> Option<Line<'_>>
    ensures { option_map line_entry result ≡ option_and_then glyph_of (split_at 32 rest.now) }
{
    let (word, digits) = split_at_byte(rest, b' ')?;
    if !may_name(word) {
        return None;
    }
    let bytes = Hex::read(digits)?;
    Some(Line::Glyph(word, bytes))
}
