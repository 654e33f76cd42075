//! The work of a tool that joins documents whose fonts other programs cut.

ghost use Rattle.std.specs.Prelude.{◌≡◌, ◌∷◌, [], Option, None, Ok, IfOk, MatchResult};
ghost use Rattle.t1_font.specs.{Canon.{canon}, FontValue.{FontValue}, IsFont.{IsFont}};
ghost use Rattle.t1_text.specs.Boxes.{Box};
ghost use Rattle.t1_algebra.specs.Rejoins.{Truncated, GetBox, rejoined};
ghost use Rattle.t1_cmd.specs.{Fonts.{mended_input}, Cuts.{IsCutFile, AllDrawIn}};

use std::alloc::Global;
use t1_cmd::{FilesRefusal, Reason, rejoin_files};
use t1_font::Form;

/// The file of the font that two cuts of a font come to, as dvips and pdfTeX make them: each is mended, both are normalized and
/// merged, and the merged font is written.
///
/// If each file, however it is spelled, is mended to a truncated subset of one font (its texts may differ in white space, in lines
/// that number the font, in tags and in FontBBox, and it is cut to its first Subrs, which include those that it keeps), the answer
/// is the file of the subset of the names of both, with normalized texts and cut to the larger count, and only want of memory is
/// refused. Its box is the font's where both have that, and else the least that holds both, where both and the font can have it.
/// Whatever two fonts come to, each of their glyphs draws in what is written as it did, or has the fault that it had.
pub fn cuts_joined(
    alloc: Global,
    first: &[u8],
    second: &[u8],
    form: Form,
) -> Result<Vec<u8>, FilesRefusal>
    ensures bytes { (f : FontValue)
        → IsFont f
        → (t u : Truncated)
        → IsCutFile f t first.now
        → IsCutFile f u second.now
        → (o : Option Box)
        → GetBox f (t ∷ u ∷ []) o
        → MatchResult result (λ v. v.items ≡ canon (rejoined f (t ∷ u ∷ []) o) form)
        (λ e. (e.place ≡ None) × (e.reason ≡ Reason.Memory)) }
    ensures draws { (f g : FontValue)
        → mended_input first.now ≡ Ok f
        → mended_input second.now ≡ Ok g
        → IfOk result (λ v. (j : FontValue)
        × (v.items ≡ canon j form)
        × AllDrawIn (f ∷ g ∷ []) j) }
{
    rejoin_files(alloc, &[first, second], form)
}
