//! A caller of `t1_cmd`.

ghost use Rattle.std.specs.Prelude.{◌≡◌, ◌∷◌, [], None, MatchResult};
ghost use Rattle.t1_algebra.specs.{Groupings.{union_all}, Interpreter.{Names}, Keep.{subset}, Profile.{profile}};
ghost use Rattle.t1_bytes.specs.declared.form.Form.TheVariants.{Pfa};
ghost use Rattle.t1_cmd.specs.WrittenSubsets.{IsSubsetFile};
ghost use Rattle.t1_font.specs.{Canon.{canon}, FontValue.{FontValue}, IsFont.{IsFont}};

use std::alloc::Global;
use t1_cmd::{FilesRefusal, Reason, merge_files};
use t1_font::Form;

/// The file of the font that two subsets make together, a PFA. If both are written subsets of one font, it has the names of both,
/// and only want of memory is refused.
pub fn both_files(alloc: Global, first: &[u8], second: &[u8]) -> Result<Vec<u8>, FilesRefusal>
    ensures { (f : FontValue) (a b : Names)
        → IsFont f
        → IsSubsetFile f a first.now
        → IsSubsetFile f b second.now
        → MatchResult result
        (λ v. v.items ≡ canon (subset profile f (union_all (a ∷ b ∷ []))) Pfa)
        (λ e. (e.place ≡ None) × (e.reason ≡ Reason.Memory)) }
{
    merge_files(alloc, &[first, second], Form::Pfa)
}
