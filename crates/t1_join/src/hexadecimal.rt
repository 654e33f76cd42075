//! Bytes as they stand in the text of a listing.
ghost use Rattle.std.specs.{Prelude.{◌≡◌, ◌++◌, ◌≤◌, length, take, drop, map, IfOk, OnOk, is_some, Some, None}, Char.{to_ascii_lowercase}, List.{list_all}};
ghost use Rattle.hex.specs.Hex.{encode_lower, is_hex_digit};
ghost use Rattle.t1_join.specs.ListingText.{bytes_of};

use crate::keys::Kept;
use std::alloc::{AllocError, Global};
use std::marker::Model;

/// Bytes, as the borrowed hexadecimal digits that spell them in a text: two digits of either case for each byte, at most
/// 65,535 bytes.
#[derive(Drop)]
pub struct Hex<'a> {
    digits: &'a [u8],
}

impl<'a> Model for Hex<'a> {
    ghost use Rattle.std.specs.Prelude.{◌≡◌, is_some, true};
    ghost use Rattle.t1_join.specs.{Meaning.{Meaning}, TableMeaning.{meaning_code}, ListingText.{bytes_of, spelled}};

    ghost Value = { Meaning };

    ghost coded = { meaning_code };

    ghost view = { λ h. spelled h.digits.now };

    ghost invariant = { λ h. is_some (bytes_of h.digits.now) ≡ true };
}

/// Whether each byte is a hexadecimal digit. Each is looked at, whatever those before it are, so that a compiler takes many at once.
fn are_digits(text: &[u8]) -> bool
    ensures { result ≡ list_all is_hex_digit text.now }
{
    let mut all = true;
    'digits: for digit in text {
        all &= digit.is_ascii_hexdigit();
    }
    all
}

/// The most digits that a value has: two for each of at most 65,535 bytes.
const DIGITS_LIMIT: usize = 131_070;

/// Whether the text is pairs of digits, and not too many.
fn spells_bytes(text: &[u8]) -> bool
    ensures { result ≡ is_some (bytes_of text.now) }
{
    if text.len() > DIGITS_LIMIT || text.len() % 2 != 0 {
        return false;
    }
    are_digits(text)
}

/// Makes the letters of a text that stand from a place on lower case.
fn lower_from(text: &mut Vec<u8>, from: usize)
    requires { from ≤ length text.old.items }
    ensures { text.new.items
        ≡ take from text.old.items ++ map to_ascii_lowercase (drop from text.old.items) }
{
    let (_, rest) = text.as_mut_slice().split_at_mut(from);
    rest.make_ascii_lowercase();
}

impl<'a> Hex<'a> {
    /// The bytes that a text spells.
    pub fn read(text: &'a [u8]) -> Option<Hex<'a>>
        ensures { result ≡ bytes_of text.now }
    {
        if spells_bytes(text) {
            Some(Hex { digits: text })
        } else {
            None
        }
    }

    /// Adds the digits of the bytes, in lower case.
    pub(crate) fn put_digits(&self, out: &mut Vec<u8>) -> Result<(), AllocError>
        ensures { OnOk result (out.new.items ≡ out.old.items ++ encode_lower self.now) }
    {
        let start = out.len();
        out.extend_from_slice(self.digits)?;
        lower_from(out, start);
        Ok(())
    }

    /// The bytes themselves.
    pub fn bytes(&self, alloc: Global) -> Result<Vec<u8>, AllocError>
        ensures { IfOk result (λ v. v.items ≡ self.now) }
    {
        match hex::decode(alloc, self.digits) {
            Ok(bytes) => Ok(bytes),
            Err(_) => Err(AllocError),
        }
    }
}

impl<'a> Kept for Hex<'a> {
    ghost meaning = { λ h. h };

    fn same(&self, other: &Hex<'a>) -> bool {
        self.digits == other.digits || self.digits.eq_ignore_ascii_case(other.digits)
    }

    fn copy(&self, _alloc: Global) -> Result<Hex<'a>, AllocError> {
        Ok(Hex {
            digits: self.digits,
        })
    }
}
