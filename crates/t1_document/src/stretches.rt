//! A document as stretches: what stands before its first mark, and each mark with what stands behind it.

ghost use Rattle.std.specs.Prelude.{◌≡◌, ◌<◌, ◌++◌, [], ◌∷◌, None, length, IfSome, MatchOption};
ghost use Rattle.t1_document.specs.{Lines.{line_of}, Marks.{mark_of}, Stretches.{stretches}, Views.{stretch_view}};

use crate::lines::line_of;
use crate::marks::{Mark, mark_of};

/// A mark, its line, and the text behind that line up to the next mark.
#[derive(Clone, Copy)]
pub(crate) struct Stretch<'a> {
    pub(crate) mark: Mark,
    pub(crate) line: &'a [u8],
    pub(crate) text: &'a [u8],
}

/// How many bytes stand before the first mark.
pub(crate) fn unmarked_len(bytes: &[u8]) -> usize
    ensures { result ≡ length (stretches bytes.now).0 }
{
    let mut len = 0;
    'lines: while len < bytes.len() {
        let (_, rest) = bytes.split_at(len);
        let (line, _) = line_of(rest);
        if mark_of(line).is_some() {
            return len;
        }
        len += line.len();
    }
    len
}

/// The stretch that bytes begin with, if they begin with a mark, and what stands behind it.
pub(crate) fn first_stretch(bytes: &[u8]) -> Option<(Stretch<'_>, &[u8])>
    ensures first { MatchOption result (mark_of (line_of bytes.now).0 ≡ None) (λ x. stretches bytes.now
        ≡ ([], stretch_view x.0 ∷ (stretches x.1.now).1)) }
    ensures whole { IfSome result (λ x. bytes.now ≡ x.0.line.now ++ (x.0.text.now ++ x.1.now)) }
    ensures behind { IfSome result (λ x. (stretches x.1.now).0 ≡ []) }
    ensures shorter { IfSome result (λ x. length x.1.now < length bytes.now) }
{
    let (line, rest) = line_of(bytes);
    let mark = mark_of(line)?;
    let (text, behind) = rest.split_at(unmarked_len(rest));
    Some((Stretch { mark, line, text }, behind))
}
