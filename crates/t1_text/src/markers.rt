//! The markers of font text.

ghost use Rattle.std.specs.{Prelude.{◌≡◌, ℕ, List, codes}, Option.{option_map}};
ghost use Rattle.t1_grammar.specs.{Grammar.{Grammar, first, Begins}, Places.{occurs}};
ghost use Rattle.t1_text.specs.Markers.{white_comes, break_comes, encoding_marker, subrs_marker, chars_marker, len_iv_marker, len_iv, closefile, encoding_begins, subrs_begins, chars_begins};
ghost use Rattle.t1_text.specs.Markers.{len_iv_begins, closefile_begins};

use crate::words::{decimal_at, is_regular, keyword_at};
use t1_bytes::texts::{find_from, fixed_at, gap_at, is_white, white_at};

/// A marker, which is searched for by the text that it begins with.
pub trait Marker: Copy {
    ghost Said: { Type 0 };

    ghost said: { Self → Said };

    ghost text: { List ℕ };

    ghost marker: { Grammar Said };

    /// The text that it begins with.
    fn text() -> &'static [u8]
        ensures { result.now ≡ text };

    /// The marker at the front of bytes, and what stands after it.
    fn at(bytes: &[u8]) -> Option<(Self, &[u8])>
        ensures { option_map (λ x. (said x.0, x.1.now)) result ≡ marker.read bytes.now };

    ghost begins: { Begins text marker };
}

/// What stands before the first marker, the marker, and what stands after it.
pub fn first<M: Marker>(bytes: &[u8]) -> Option<(&[u8], M, &[u8])>
    ensures { option_map (λ x. ((x.0.now, M.said x.1), x.2.now)) result
        ≡ (first M.marker).read bytes.now }
{
    let mut from = 0;
    'places: while let Some(place) = find_from(bytes, M::text(), from) {
        let (front, here) = bytes.split_at(place);
        if let Some((marker, rest)) = M::at(here) {
            return Some((front, marker, rest));
        }
        from = place + 1;
    }
    None
}

/// Whether a marker stands somewhere in a text.
pub fn occurs<M: Marker>(text: &[u8]) -> bool
    ensures { result ≡ occurs M.marker text.now }
{
    first::<M>(text).is_some()
}

fn white_comes(bytes: &[u8]) -> bool
    ensures { result ≡ white_comes bytes.now }
{
    !bytes.is_empty() && is_white(bytes[0])
}

fn break_comes(bytes: &[u8]) -> bool
    ensures { result ≡ break_comes bytes.now }
{
    !bytes.is_empty() && !is_regular(bytes[0])
}

/// Where the Encoding begins.
#[derive(Clone, Copy)]
pub struct EncodingMarker;

impl Marker for EncodingMarker {
    ghost Said = { Unit {0} };

    ghost said = { λ _. tt };

    ghost text = { codes "/Encoding" };

    ghost marker = { encoding_marker };

    fn text() -> &'static [u8] {
        b"/Encoding"
    }

    #[tactic(auto, unfolding(crate::specs::Markers::encoding_marker))]
    fn at(bytes: &[u8]) -> Option<(EncodingMarker, &[u8])> {
        let (_, rest) = fixed_at(bytes, b"/Encoding")?;
        if !break_comes(rest) {
            return None;
        }
        Some((EncodingMarker, rest))
    }

    ghost begins = { encoding_begins };
}

/// Where the entries of Subrs begin, with the declared count.
#[derive(Clone, Copy)]
pub struct SubrsMarker {
    pub declared: u32,
}

impl Marker for SubrsMarker {
    ghost Said = { ℕ };

    ghost said = { λ m. m.declared };

    ghost text = { codes "/Subrs" };

    ghost marker = { subrs_marker };

    fn text() -> &'static [u8] {
        b"/Subrs"
    }

    #[tactic(auto, unfolding(crate::specs::Markers::subrs_marker))]
    fn at(bytes: &[u8]) -> Option<(SubrsMarker, &[u8])> {
        let (_, rest) = fixed_at(bytes, b"/Subrs")?;
        let (_, rest) = gap_at(rest)?;
        let (declared, rest) = decimal_at(rest)?;
        let (_, rest) = gap_at(rest)?;
        let (_, rest) = keyword_at(rest, b"array")?;
        if !white_comes(rest) {
            return None;
        }
        Some((SubrsMarker { declared }, rest))
    }

    ghost begins = { subrs_begins };
}

/// Where the glyphs begin.
#[derive(Clone, Copy)]
pub struct CharsMarker;

impl Marker for CharsMarker {
    ghost Said = { Unit {0} };

    ghost said = { λ _. tt };

    ghost text = { codes "/CharStrings" };

    ghost marker = { chars_marker };

    fn text() -> &'static [u8] {
        b"/CharStrings"
    }

    #[tactic(auto, unfolding(crate::specs::Markers::chars_marker))]
    fn at(bytes: &[u8]) -> Option<(CharsMarker, &[u8])> {
        let (_, rest) = fixed_at(bytes, b"/CharStrings")?;
        let (_, rest) = gap_at(rest)?;
        let (_, rest) = decimal_at(rest)?;
        let (_, rest) = gap_at(rest)?;
        let (_, rest) = keyword_at(rest, b"dict")?;
        let (_, rest) = gap_at(rest)?;
        let (_, rest) = keyword_at(rest, b"dup")?;
        let (_, rest) = gap_at(rest)?;
        let (_, rest) = keyword_at(rest, b"begin")?;
        if !white_comes(rest) {
            return None;
        }
        Some((CharsMarker, rest))
    }

    ghost begins = { chars_begins };
}

/// What stands before the number of lead bytes.
#[derive(Clone, Copy)]
pub struct LenIvMarker;

impl Marker for LenIvMarker {
    ghost Said = { Unit {0} };

    ghost said = { λ _. tt };

    ghost text = { codes "/lenIV" };

    ghost marker = { len_iv_marker };

    fn text() -> &'static [u8] {
        b"/lenIV"
    }

    #[tactic(auto, unfolding(crate::specs::Markers::len_iv_marker))]
    fn at(bytes: &[u8]) -> Option<(LenIvMarker, &[u8])> {
        let (_, rest) = fixed_at(bytes, b"/lenIV")?;
        if !white_comes(rest) {
            return None;
        }
        Some((LenIvMarker, rest))
    }

    ghost begins = { len_iv_begins };
}

/// The number of lead bytes.
#[tactic(auto, unfolding(crate::specs::Markers::len_iv))]
pub fn len_iv_at(bytes: &[u8]) -> Option<(u8, &[u8])>
    ensures { option_map (λ x. (x.0, x.1.now)) result ≡ len_iv.read bytes.now }
{
    let (_, rest) = white_at(bytes);
    let (value, rest) = decimal_at(rest)?;
    if value > 255 {
        return None;
    }
    Some((value as u8, rest))
}

/// The word at the end of a font's own text.
#[derive(Clone, Copy)]
pub struct Closefile;

impl Marker for Closefile {
    ghost Said = { List ℕ };

    ghost said = { λ _. codes "closefile" };

    ghost text = { codes "closefile" };

    ghost marker = { closefile };

    fn text() -> &'static [u8] {
        b"closefile"
    }

    #[tactic(auto, unfolding(crate::specs::Markers::closefile))]
    fn at(bytes: &[u8]) -> Option<(Closefile, &[u8])> {
        let (_, rest) = fixed_at(bytes, b"closefile")?;
        Some((Closefile, rest))
    }

    ghost begins = { closefile_begins };
}
