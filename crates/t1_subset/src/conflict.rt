//! Why two fonts do not join.

ghost use Rattle.std.specs.Prelude.{◌≡◌, Some};
ghost use Rattle.t1_subset.specs.FaultTexts.{part_text, conflict_text};

use std::alloc::AllocError;
use std::fmt;
use t1_join::Shown;

/// A part of a font's shell, in the order in which parts are compared.
#[derive(Clone, Copy, PartialEq, Eq, Debug)]
pub enum ShellPart {
    /// The clear text before the Encoding.
    Head,
    /// The Encoding: a word and a table, or two words that differ.
    Encoding,
    /// The clear text after the Encoding.
    ClearTail,
    /// The private text before Subrs, and lenIV.
    Private,
    /// Whether Subrs are there, how many are declared, and which indices are present.
    SubrsTable,
    /// The kept words and phrases of Subrs.
    SubrsWords,
    /// The private text between Subrs and CharStrings.
    Middle,
    /// The kept word and phrase of CharStrings.
    GlyphsWords,
    /// The private text after CharStrings.
    Tail,
}

/// Why two fonts do not join. The lowest conflict is told, in the order of the variants up to `Limit`; among conflicts
/// of one kind it is the one with the smallest part, code, name or index. Names compare by their bytes.
#[derive(PartialEq, Eq, Debug, Drop)]
pub enum Conflict {
    /// The shells differ, and this is the first part that does.
    Shell { part: ShellPart },
    /// Both Encodings are tables that have the code, with different names.
    Code { code: u8 },
    /// Both fonts have the name, with different charstrings.
    Glyph { name: Vec<u8> },
    /// One font lacks the component `part`, which the other font has, and `glyph` is its smallest glyph that names it.
    Part { glyph: Vec<u8>, part: Vec<u8> },
    /// The entries of the Subr differ, and neither is a `return` that no glyph of its font executes. `glyph` is the
    /// smallest glyph of either font that executes the Subr there, if there is one.
    Subr { index: u16, glyph: Option<Vec<u8>> },
    /// The joined font would weigh too much or have too many glyphs.
    Limit,
    /// A growth was refused.
    Memory,
    /// There are no fonts to merge.
    Empty,
}

impl fmt::Display for ShellPart {
    ghost output = { λ part. Some (part_text part) };

    fn fmt<W: fmt::Write>(&self, f: &mut fmt::Formatter<W>) -> fmt::Result {
        f.write_str(match self {
            ShellPart::Head => "head",
            ShellPart::Encoding => "encoding",
            ShellPart::ClearTail => "clear tail",
            ShellPart::Private => "private",
            ShellPart::SubrsTable => "Subrs table",
            ShellPart::SubrsWords => "Subrs words",
            ShellPart::Middle => "middle",
            ShellPart::GlyphsWords => "CharStrings words",
            ShellPart::Tail => "tail",
        })
    }
}

impl fmt::Display for Conflict {
    ghost output = { λ conflict. Some (conflict_text conflict) };

    fn fmt<W: fmt::Write>(&self, f: &mut fmt::Formatter<W>) -> fmt::Result {
        match self {
            Conflict::Shell { part } => write!(f, "shells differ in {part}"),
            Conflict::Code { code } => write!(f, "code {code} differs"),
            Conflict::Glyph { name } => write!(f, "glyph {} differs", Shown(name.as_slice())),
            Conflict::Part { glyph, part } => {
                let glyph = Shown(glyph.as_slice());
                write!(f, "glyph {glyph} lacks part {}", Shown(part.as_slice()))
            }
            Conflict::Subr { index, glyph: None } => write!(f, "subr {index} differs"),
            Conflict::Subr {
                index,
                glyph: Some(name),
            } => {
                write!(
                    f,
                    "subr {index} differs, used by {}",
                    Shown(name.as_slice())
                )
            }
            Conflict::Limit => f.write_str("over a limit"),
            Conflict::Memory => f.write_str("out of memory"),
            Conflict::Empty => f.write_str("nothing to merge"),
        }
    }
}

impl std::error::Error for Conflict {}

impl From<AllocError> for Conflict {
    ghost use Rattle.std.specs.Prelude.{◌≡◌};
    ghost use Rattle.t1_subset.specs.declared.conflict.Conflict.TheVariants.{Memory};

    ghost from_gives = { λ _ e. e ≡ Memory };

    fn from(_fault: AllocError) -> Conflict {
        Conflict::Memory
    }
}
