//! Why an engine gives no result.
ghost use Rattle.std.specs.Prelude.{◌≡◌};
ghost use Rattle.t1_cmd.specs.Runs.{status_of};

use std::alloc::{AllocError, Global};
use std::fmt;
use std::marker::Model;
use t1_font::ReadFault;
use t1_jobs::NoDocument;
use t1_join::{JoinFault, ListFault, Shown};
use t1_subset::Conflict;
use thiserror::Error;

/// The name of a glyph or of a font, without its `/`.
#[derive(Debug, Drop)]
pub struct Name {
    bytes: Vec<u8>,
}

impl Model for Name {
    ghost use Rattle.std.specs.Prelude.{List, ℕ};

    ghost Value = { List ℕ };

    ghost view = { λ n. n.bytes.items };
}

impl Name {
    ghost use Rattle.std.specs.Prelude.{◌≡◌, IfOk};

    /// The name of these bytes.
    pub fn new(alloc: Global, bytes: &[u8]) -> Result<Name, AllocError>
        ensures { IfOk result (λ name. name ≡ bytes.now) }
    {
        let bytes = bytes.to_vec(alloc)?;
        Ok(Name { bytes })
    }

    /// Its bytes.
    pub fn as_bytes(&self) -> &[u8]
        ensures { result.now ≡ self.now }
    {
        self.bytes.as_slice()
    }
}

/// Why the input is refused.
///
/// Want of memory and a file over the limit have variants of their own, whichever call met them.
#[derive(Debug, Drop, Error)]
pub enum Reason {
    /// An input is over the file limit.
    TooLong,
    /// A growth was refused.
    Memory,
    /// A text is not a listing.
    List(ListFault),
    /// Two listings don't join.
    Join(JoinFault),
    /// A file spells no font.
    Font(ReadFault),
    /// The font has no glyph of this name.
    NoGlyph { name: Name },
    /// The font's Encoding has no name for this code.
    NoCode { code: u8 },
    /// No document has a font of this name.
    NoFont { name: Name },
    /// A file carries no PostScript document.
    Document(NoDocument),
    /// The glyphs that have to be run execute more tokens than the budget has.
    TooManyTokens,
    /// Of fonts that are rejoined, the first that lacks a Subr which its glyph executes and another of the fonts has: a stub there
    /// would draw something else. The index is the smallest, and the glyph the smallest that executes it.
    Lacks { glyph: Name, index: u16 },
    /// Fonts don't merge.
    Merge(Conflict),
}

impl fmt::Display for Reason {
    ghost use Rattle.std.specs.Prelude.{Some};
    ghost use Rattle.t1_cmd.specs.Texts.{reason_text};

    ghost output = { λ reason. Some (reason_text reason) };

    fn fmt<W: fmt::Write>(&self, f: &mut fmt::Formatter<W>) -> fmt::Result {
        match self {
            Reason::TooLong => f.write_str("file too long"),
            Reason::Memory => f.write_str("out of memory"),
            Reason::List(fault) => write!(f, "{fault}"),
            Reason::Join(fault) => write!(f, "{fault}"),
            Reason::Font(fault) => write!(f, "{fault}"),
            Reason::NoGlyph { name } => write!(f, "no glyph {}", Shown(name.as_bytes())),
            Reason::NoCode { code } => write!(f, "no code {code}"),
            Reason::NoFont { name } => write!(f, "no font {}", Shown(name.as_bytes())),
            Reason::Document(why) => write!(f, "{why}"),
            Reason::TooManyTokens => f.write_str("too many tokens"),
            Reason::Lacks { glyph, index } => {
                write!(f, "glyph {} lacks subr {index}", Shown(glyph.as_bytes()))
            }
            Reason::Merge(conflict) => write!(f, "{conflict}"),
        }
    }
}

impl From<AllocError> for Reason {
    ghost use Rattle.std.specs.Prelude.{◌≡◌};
    ghost use Rattle.t1_cmd.specs.declared.faults.Reason.TheVariants.{Memory};

    ghost from_gives = { λ _ e. e ≡ Memory };

    fn from(_error: AllocError) -> Reason {
        Reason::Memory
    }
}

/// Why an engine did not finish.
#[derive(Debug, Drop, Error)]
pub enum RunFault {
    /// The input is refused; nothing was written.
    Refused(#[from] Reason),
    /// A reader failed; nothing was written.
    Read,
    /// The writer failed; a part of the result may have been written.
    Write,
}

impl fmt::Display for RunFault {
    ghost use Rattle.std.specs.Prelude.{Some};
    ghost use Rattle.t1_cmd.specs.Texts.{run_fault_text};

    ghost output = { λ fault. Some (run_fault_text fault) };

    fn fmt<W: fmt::Write>(&self, f: &mut fmt::Formatter<W>) -> fmt::Result {
        match self {
            RunFault::Refused(reason) => write!(f, "refused: {reason}"),
            RunFault::Read => f.write_str("failed: read"),
            RunFault::Write => f.write_str("failed: write"),
        }
    }
}

impl From<AllocError> for RunFault {
    ghost use Rattle.std.specs.Prelude.{◌≡◌};
    ghost use Rattle.t1_cmd.specs.{declared.faults.Reason.TheVariants.{Memory}, declared.faults.RunFault.TheVariants.{Refused}};

    ghost from_gives = { λ _ e. e ≡ Refused Memory };

    fn from(_error: AllocError) -> RunFault {
        RunFault::Refused(Reason::Memory)
    }
}

/// Why several files are refused.
#[derive(Debug, Drop, Error)]
pub struct FilesRefusal {
    /// The place of the file that is refused, counted from 0; `None` if all are refused together, or for want of memory.
    pub place: Option<usize>,
    /// Why it is, or they are.
    pub reason: Reason,
}

impl fmt::Display for FilesRefusal {
    ghost use Rattle.std.specs.Prelude.{Some};
    ghost use Rattle.t1_cmd.specs.Texts.{reason_text};

    ghost output = { λ refusal. Some (reason_text refusal.reason) };

    fn fmt<W: fmt::Write>(&self, f: &mut fmt::Formatter<W>) -> fmt::Result {
        let reason = &self.reason;
        write!(f, "{reason}")
    }
}

/// The exit status of the program: 1 for a refusal, 3 for a reader or a writer that failed.
pub fn status(fault: &RunFault) -> u8
    ensures { result ≡ status_of fault.now }
{
    match fault {
        RunFault::Refused(_) => 1,
        RunFault::Read | RunFault::Write => 3,
    }
}
