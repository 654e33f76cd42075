//! What fonts have to share to join, and the first part in which they differ.

ghost use Rattle.std.specs.{Prelude.{◌≡◌, ◌↔◌, IsTrue, IfOk, not, map}, Option.{option_map}, List.{find}};
ghost use Rattle.t1_font.specs.FontModel.{part_of, clamp};
ghost use Rattle.t1_algebra.specs.{Interpreter.{same_bytes}, StateTables.{shared_weight}, Conflicts.{without_subrs}};
ghost use Rattle.t1_algebra.specs.Shared.{shared_of, same_part, same_word, differing_part};
ghost use Rattle.t1_subset.specs.Differences.{shell_part};

use crate::conflict::ShellPart;
use std::alloc::{AllocError, Global};
use std::marker::Model;
use t1_font::{Font, FontShell, Part, Shell, SparseArray};

/// What fonts have to share to join: the shell, the Encoding if it is a word, and which Subrs are present.
#[derive(Drop)]
pub(crate) struct Shared<'a> {
    /// The shell, and the word of the Encoding.
    pub(crate) shell: FontShell<'a>,
    /// The Subrs. Only their indices count here, and a table of a source is lent.
    pub(crate) subrs: SparseArray<'a>,
}

impl<'a> Model for Shared<'a> {
    ghost use Rattle.std.specs.FinMap.{keys};
    ghost use Rattle.t1_algebra.specs.Shared.{Shared as SharedValue, shared_code};

    ghost Value = { SharedValue };

    ghost coded = { shared_code };

    ghost view = { λ s. (s.shell.0, (s.shell.1, keys s.subrs)) };
}

/// The parts of a shell, in the order in which they are compared.
pub(crate) const PARTS: [ShellPart; 9] = [
    ShellPart::Head,
    ShellPart::Encoding,
    ShellPart::ClearTail,
    ShellPart::Private,
    ShellPart::SubrsTable,
    ShellPart::SubrsWords,
    ShellPart::Middle,
    ShellPart::GlyphsWords,
    ShellPart::Tail,
];

/// Whether two byte strings are the same.
pub(crate) fn same_bytes(left: &[u8], right: &[u8]) -> bool
    ensures { result ≡ same_bytes left.now right.now }
{
    left == right
}

/// Whether both are the same word, or neither is a word.
fn same_word(left: Option<&[u8]>, right: Option<&[u8]>) -> bool
    ensures { result
        ≡ same_word (option_map (λ b. b.now) left.entry)
        (option_map (λ b. b.now) right.entry) }
{
    match (left, right) {
        (Some(left), Some(right)) => same_bytes(left, right),
        (None, None) => true,
        _ => false,
    }
}

/// Whether this kept text or word is the same in both shells.
fn same_text(left: &Shell, right: &Shell, part: Part) -> bool
    ensures { result ≡ same_bytes (part_of part left.now) (part_of part right.now) }
{
    same_bytes(left.text(part), right.text(part))
}

/// Whether a part is the same in both.
pub(crate) fn same_part(left: &Shared<'_>, right: &Shared<'_>, part: ShellPart) -> bool
    ensures { result ≡ same_part left.now right.now (shell_part part) }
{
    let own = left.shell.texts();
    let other = right.shell.texts();
    match part {
        ShellPart::Head => same_text(own, other, Part::Head),
        ShellPart::Encoding => same_word(left.shell.word(), right.shell.word()),
        ShellPart::ClearTail => same_text(own, other, Part::ClearTail),
        ShellPart::Private => {
            same_text(own, other, Part::Private) && own.len_iv() == other.len_iv()
        }
        ShellPart::SubrsTable => {
            own.has_subrs() == other.has_subrs()
                && own.declared_count() == other.declared_count()
                && left.subrs.same_numbers(&right.subrs)
        }
        ShellPart::SubrsWords => {
            same_text(own, other, Part::SubrsRd)
                && same_text(own, other, Part::SubrsPut)
                && same_text(own, other, Part::SubrsDef)
        }
        ShellPart::Middle => same_text(own, other, Part::Middle),
        ShellPart::GlyphsWords => {
            same_text(own, other, Part::GlyphsRd) && same_text(own, other, Part::GlyphsDef)
        }
        ShellPart::Tail => same_text(own, other, Part::Tail),
    }
}

/// The first of these parts that differs.
fn first_differing(left: &Shared<'_>, right: &Shared<'_>, parts: &[ShellPart]) -> Option<ShellPart>
    ensures { option_map shell_part result
        ≡ find (λ part. not (same_part left.now right.now part))
        (map shell_part parts.now) }
{
    'parts: for part in parts {
        if !same_part(left, right, *part) {
            return Some(*part);
        }
    }
    None
}

impl<'a> Shared<'a> {
    /// What the font shares with each font that it joins.
    pub(crate) fn of(alloc: Global, font: &Font<'a>) -> Result<Shared<'a>, AllocError>
        ensures { IfOk result (λ s. s ≡ shared_of font.now) }
    {
        Ok(Shared {
            shell: font.shell(),
            subrs: font.subrs().copy(alloc)?,
        })
    }

    /// What the font shares without its Subrs: its shell and the word of its Encoding.
    pub(crate) fn without_subrs(alloc: Global, font: &Font<'a>) -> Shared<'a>
        ensures { result ≡ shared_of (without_subrs font.now) }
    {
        Shared {
            shell: font.shell(),
            subrs: SparseArray::none(alloc),
        }
    }

    /// A copy of the value.
    pub(crate) fn copy(&self, alloc: Global) -> Result<Shared<'a>, AllocError>
        ensures { IfOk result (λ s. s ≡ self.now) }
    {
        Ok(Shared {
            shell: self.shell.again(),
            subrs: self.subrs.copy(alloc)?,
        })
    }

    /// How many lead bytes a charstring has in a file.
    pub(crate) fn len_iv(&self) -> u8
        ensures { result ≡ self.now.0.len_iv }
    {
        self.shell.texts().len_iv()
    }

    /// What a font weighs that shares this, has no glyph and has no Subr but stubs, as far as 64 bits hold it.
    pub(crate) fn weight(&self) -> u64
        ensures { result ≡ clamp (shared_weight self.now) }
    {
        let each = 129 + self.len_iv() as u64;
        let stubs = (self.subrs.len() as u64).saturating_mul(each);
        self.shell.texts().texts_weight().saturating_add(stubs)
    }

    /// The first part that differs.
    pub(crate) fn differing_part(&self, other: &Shared<'_>) -> Option<ShellPart>
        ensures { option_map shell_part result ≡ differing_part self.now other.now }
    {
        first_differing(self, other, &PARTS)
    }

    /// Whether the fonts share all that they have to.
    pub(crate) fn is_same(&self, other: &Shared<'_>) -> bool
        ensures { IsTrue result ↔ (self.now ≡ other.now) }
    {
        self.differing_part(other).is_none()
    }
}
