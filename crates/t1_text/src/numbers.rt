//! Decimal numbers of font text, whole or with a point, and the order of their values.

ghost use Rattle.std.specs.{Prelude.{◌≡◌, ◌+◌, length, drop, take_while}, List.{list_any, list_all, suffix_len}, Option.{option_map}};
ghost use Rattle.t1_text.specs.Words.{is_digit};
ghost use Rattle.t1_text.specs.Numbers.{unsigned, at_point, is_fraction, is_number, number, is_nought, significant, trimmed, size_of, size_cmp, is_minus, below_zero, above_zero, value_cmp};
ghost use Rattle.t1_text.specs.{Numbers.{spelling_cmp, least_first, greatest_first, sooner, is_other_digit, is_zero}, NumberViews.{size_view}};

use crate::words::regular_at;
use std::cmp::Ordering;

/// Whether a byte is a digit.
fn is_digit(byte: u8) -> bool
    ensures { result ≡ is_digit byte }
{
    b'0' <= byte && byte <= b'9'
}

/// A word without the sign that it begins with.
fn unsigned(word: &[u8]) -> &[u8]
    ensures { result.now ≡ unsigned word.now }
{
    match word.split_first() {
        Some((first, behind)) => {
            if *first == b'+' || *first == b'-' {
                behind
            } else {
                word
            }
        }
        None => word,
    }
}

/// How many digits come first.
fn digits_len(bytes: &[u8]) -> usize
    ensures { result ≡ length (take_while is_digit bytes.now) }
{
    bytes.iter().take_while(|b| is_digit(**b)).count()
}

/// The digits before the point of a number, and what stands from the point on.
fn at_point(word: &[u8]) -> (&[u8], &[u8])
    ensures { (result.0.now, result.1.now) ≡ at_point word.now }
{
    let digits = unsigned(word);
    digits.split_at(digits_len(digits))
}

/// Whether all bytes are digits.
fn are_digits(bytes: &[u8]) -> bool
    ensures { result ≡ list_all is_digit bytes.now }
{
    bytes.iter().all(|b| is_digit(*b))
}

/// Whether a point and digits come, and nothing else, or nothing at all.
fn is_fraction(bytes: &[u8]) -> bool
    ensures { result ≡ is_fraction bytes.now }
{
    match bytes.split_first() {
        Some((first, behind)) => *first == b'.' && are_digits(behind),
        None => true,
    }
}

/// Whether a word has a digit.
fn has_digit(word: &[u8]) -> bool
    ensures { result ≡ list_any is_digit word.now }
{
    word.iter().any(|b| is_digit(*b))
}

/// Whether a word is a number.
fn is_number(word: &[u8]) -> bool
    ensures { result ≡ is_number word.now }
{
    let (_, behind) = at_point(word);
    is_fraction(behind) && has_digit(word)
}

/// A word that is a number.
#[tactic(auto, unfolding(crate::specs::Numbers::number))]
pub(crate) fn number_at(bytes: &[u8]) -> Option<(&[u8], &[u8])>
    ensures { option_map (λ x. (x.0.now, x.1.now)) result ≡ number.read bytes.now }
{
    let (word, rest) = regular_at(bytes);
    if !is_number(word) {
        return None;
    }
    Some((word, rest))
}

// ---- values

/// How far a number is from zero.
#[derive(Clone, Copy)]
struct Size<'a> {
    whole: &'a [u8],
    fraction: &'a [u8],
}

/// How many zeros come first.
fn noughts_len(digits: &[u8]) -> usize
    ensures { result ≡ length (take_while is_nought digits.now) }
{
    digits.iter().take_while(|d| **d == b'0').count()
}

/// Digits without the zeros that they begin with.
fn significant(digits: &[u8]) -> &[u8]
    ensures { result.now ≡ significant digits.now }
{
    let (_, behind) = digits.split_at(noughts_len(digits));
    behind
}

/// How many digits come before the zeros at the end.
fn trimmed_len(digits: &[u8]) -> usize
    ensures { result + suffix_len is_nought digits.now ≡ length digits.now }
{
    let mut len = digits.len();
    'noughts: while len > 0 && digits[len - 1] == b'0' {
        len -= 1;
    }
    len
}

/// Digits without the zeros that they end with.
fn trimmed(digits: &[u8]) -> &[u8]
    ensures { result.now ≡ trimmed digits.now }
{
    let (front, _) = digits.split_at(trimmed_len(digits));
    front
}

/// What stands behind the first byte.
fn behind_first(bytes: &[u8]) -> &[u8]
    ensures { result.now ≡ drop 1 bytes.now }
{
    match bytes.split_first() {
        Some((_, behind)) => behind,
        None => bytes,
    }
}

/// How far a number is from zero.
fn size_of(word: &[u8]) -> Size<'_>
    ensures { size_view result ≡ size_of word.now }
{
    let (whole, behind) = at_point(word);
    Size {
        whole: significant(whole),
        fraction: trimmed(behind_first(behind)),
    }
}

/// The order of sizes.
fn size_cmp(s: Size<'_>, t: Size<'_>) -> Ordering
    ensures { result ≡ size_cmp (size_view s.entry) (size_view t.entry) }
{
    s.whole
        .len()
        .cmp(&t.whole.len())
        .then(s.whole.cmp(t.whole).then(s.fraction.cmp(t.fraction)))
}

/// Whether a word begins with a minus sign.
fn is_minus(word: &[u8]) -> bool
    ensures { result ≡ is_minus word.now }
{
    match word.first() {
        Some(first) => *first == b'-',
        None => false,
    }
}

/// How far a number is below zero.
fn below_zero(word: &[u8]) -> Size<'_>
    ensures { size_view result ≡ below_zero word.now }
{
    if is_minus(word) {
        size_of(word)
    } else {
        Size {
            whole: b"",
            fraction: b"",
        }
    }
}

/// How far a number is above zero.
fn above_zero(word: &[u8]) -> Size<'_>
    ensures { size_view result ≡ above_zero word.now }
{
    if is_minus(word) {
        Size {
            whole: b"",
            fraction: b"",
        }
    } else {
        size_of(word)
    }
}

/// The order of numbers by value.
fn value_cmp(v: &[u8], w: &[u8]) -> Ordering
    ensures { result ≡ value_cmp v.now w.now }
{
    let below = size_cmp(below_zero(w), below_zero(v));
    let above = size_cmp(above_zero(v), above_zero(w));
    below.then(above)
}

/// The order of spellings.
fn spelling_cmp(v: &[u8], w: &[u8]) -> Ordering
    ensures { result ≡ spelling_cmp v.now w.now }
{
    v.len().cmp(&w.len()).then(v.cmp(w))
}

/// The less of two numbers; of two spellings of one value the shorter, or the less by bytes.
pub(crate) fn lesser<'a>(v: &'a [u8], w: &'a [u8]) -> &'a [u8]
    ensures { result.now ≡ sooner least_first v.now w.now }
{
    let order = value_cmp(v, w).then(spelling_cmp(v, w));
    if order.is_gt() { w } else { v }
}

/// The greater of two numbers; of two spellings of one value the shorter, or the less by bytes.
pub(crate) fn greater<'a>(v: &'a [u8], w: &'a [u8]) -> &'a [u8]
    ensures { result.now ≡ sooner greatest_first v.now w.now }
{
    let order = value_cmp(w, v).then(spelling_cmp(v, w));
    if order.is_gt() { w } else { v }
}

/// Whether a word has one of the digits 1 to 9.
fn has_other_digit(word: &[u8]) -> bool
    ensures { result ≡ list_any is_other_digit word.now }
{
    word.iter().any(|b| b'1' <= *b && *b <= b'9')
}

/// Whether each digit of a number is 0.
pub(crate) fn is_zero(word: &[u8]) -> bool
    ensures { result ≡ is_zero word.now }
{
    !has_other_digit(word)
}
