//! Lists of codes as the program is given them, such as `65-90,97`.
ghost use Rattle.std.specs.{Prelude.{◌≡◌, ◌++◌, IfOk, OnOk}, Option.{option_map}};
ghost use Rattle.t1_cmd.specs.CodeLists.{code_of, codes_between, ends_of, codes_listed};

use std::alloc::{AllocError, Global};
use t1_join::split_at_byte;

// The code of one to three decimal digits.
fn code(word: &[u8]) -> Option<u8>
    ensures { result ≡ code_of word.now }
{
    if word.is_empty() || word.len() > 3 {
        return None;
    }
    let mut code = 0u32;
    'digits: for digit in word {
        if !digit.is_ascii_digit() {
            return None;
        }
        code = code * 10 + u32::from(*digit - b'0');
    }
    if code <= 255 { Some(code as u8) } else { None }
}

// The first and the last code of a word.
fn ends(word: &[u8]) -> Option<(u8, u8)>
    ensures { result ≡ ends_of word.now }
{
    let Some((first, last)) = split_at_byte(word, b'-') else {
        let code = code(word)?;
        return Some((code, code));
    };
    let first = code(first)?;
    let last = code(last)?;
    if first <= last {
        Some((first, last))
    } else {
        None
    }
}

// The codes from one to another.
fn push_codes(codes: &mut Vec<u8>, first: u8, last: u8) -> Result<(), AllocError>
    ensures { OnOk result (codes.new.items ≡ codes.old.items ++ codes_between (first, last)) }
{
    'codes: for code in u16::from(first)..u16::from(last) + 1 {
        codes.push(code as u8)?;
    }
    Ok(())
}

/// The codes that a list spells, in its order: codes and ranges `FIRST-LAST` with commas between them, each code in one to three
/// decimal digits and at most 255. It answers `None` if the text is no such list.
pub fn read_codes(alloc: Global, text: &[u8]) -> Result<Option<Vec<u8>>, AllocError>
    ensures { IfOk result (λ list. option_map (λ v. v.items) list ≡ codes_listed text.now) }
{
    let mut codes = Vec::new(alloc);
    let mut rest = text;
    'words: while let Some((word, behind)) = split_at_byte(rest, b',') {
        let Some((first, last)) = ends(word) else {
            return Ok(None);
        };
        push_codes(&mut codes, first, last)?;
        rest = behind;
    }
    let Some((first, last)) = ends(rest) else {
        return Ok(None);
    };
    push_codes(&mut codes, first, last)?;
    Ok(Some(codes))
}
