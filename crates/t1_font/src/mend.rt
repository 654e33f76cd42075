//! What is mended of a file that other programs spell.

ghost use Rattle.std.specs.Prelude.{◌≡◌, ◌++◌, ◌∷◌, List, Some, IfOk, IfErr};
ghost use Rattle.t1_font.specs.{declared.fault.ReadFault.TheVariants.{Memory}, Answers.{Answers}};
ghost use Rattle.t1_text.specs.{declared.dialect.Rule.{Rule}, Dialect.{wide}};
ghost use Rattle.t1_font.specs.{ReadFont.{read_font, read_font_widely}, Mends.{place_of, mend_by, all_rules, needed, mends_by_rules, test_in, mends_of}};

use crate::fault::ReadFault;
use crate::file::{read_in, read_vec, read_wide};
use std::alloc::{AllocError, Global};
use std::fmt;
use t1_text::dialect::{Dialect, Rule};
use t1_text::font_test::taken_test;

/// What is mended of a file, and where that stands: in the flat text, or for Subrs in the private text. A place is that at which
/// reading by the other rules breaks off, which the fault tells that it has for an answer.
#[derive(Clone, Copy, Debug, PartialEq, Eq)]
pub enum Mend {
    /// A comment stands in the Encoding.
    CommentInEncoding { at: usize },
    /// An entry of the Encoding copies the names of codes.
    CodeCopied { at: usize },
    /// `readonly` stands behind a word that is the whole Encoding.
    ReadonlyEncoding { at: usize },
    /// A comment stands among the Subrs.
    CommentInSubrs { at: usize },
    /// The head asks PostScript's `FontDirectory` whether the font was loaded before.
    TestTakenOut { at: usize },
}

impl fmt::Display for Mend {
    ghost use Rattle.t1_font.specs.Mends.{mend_text};

    ghost output = { λ mend. Some (mend_text mend) };

    fn fmt<W: fmt::Write>(&self, f: &mut fmt::Formatter<W>) -> fmt::Result {
        match self {
            Mend::CommentInEncoding { at } => write!(f, "comment in Encoding at {at}"),
            Mend::CodeCopied { at } => write!(f, "code copied at {at}"),
            Mend::ReadonlyEncoding { at } => write!(f, "readonly Encoding at {at}"),
            Mend::CommentInSubrs { at } => write!(f, "comment in Subrs at {at}"),
            Mend::TestTakenOut { at } => write!(f, "test of FontDirectory taken out at {at}"),
        }
    }
}

/// Where reading broke off; 0 where the fault has no place.
fn place_of(fault: ReadFault) -> usize
    ensures { result ≡ place_of fault }
{
    match fault {
        ReadFault::BadSegment { at }
        | ReadFault::BadEncoding { at }
        | ReadFault::BadSubrs { at }
        | ReadFault::BadGlyphs { at } => at,
        _ => 0,
    }
}

/// The mend of a rule that is needed at a place.
fn mend_by(rule: Rule, at: usize) -> Mend
    ensures { result ≡ mend_by rule at }
{
    match rule {
        Rule::EncodingComments => Mend::CommentInEncoding { at },
        Rule::CopiedCodes => Mend::CodeCopied { at },
        Rule::ReadonlyWord => Mend::ReadonlyEncoding { at },
        Rule::SubrsComments => Mend::CommentInSubrs { at },
    }
}

/// By which rules a file is to be read on: without one of them, if it isn't needed. If it is, its mend is added.
fn without(
    alloc: Global,
    file: &[u8],
    dialect: Dialect,
    rule: Rule,
    mends: &mut Vec<Mend>,
) -> Result<Dialect, ReadFault>
    ensures mends { IfOk result (λ d. (rs : List Rule)
        → mends.old.items ++ needed file.now dialect (rule ∷ rs) ≡ mends.new.items ++ needed file.now d rs) }
    ensures refused { IfErr result (λ e. e ≡ Memory) }
{
    let less = dialect.without(rule);
    match read_in(alloc, less, Vec::from_slice(alloc, file)?) {
        Ok(source) => {
            drop(source);
            Ok(less)
        }
        Err(ReadFault::Memory) => Err(ReadFault::Memory),
        Err(fault) => {
            match mends.push(mend_by(rule, place_of(fault))) {
                Ok(()) => Ok(dialect),
                Err(_) => Err(ReadFault::Memory),
            }
        }
    }
}

/// The rules that a file needs which spells no font without any.
fn needed(alloc: Global, file: &[u8]) -> Result<Vec<Mend>, ReadFault>
    ensures mends { IfOk result (λ v. v.items ≡ needed file.now wide all_rules) }
    ensures refused { IfErr result (λ e. e ≡ Memory) }
{
    let mut mends = Vec::new(alloc);
    let dialect = Dialect::wide();
    let dialect = without(alloc, file, dialect, Rule::EncodingComments, &mut mends)?;
    let dialect = without(alloc, file, dialect, Rule::CopiedCodes, &mut mends)?;
    let dialect = without(alloc, file, dialect, Rule::ReadonlyWord, &mut mends)?;
    without(alloc, file, dialect, Rule::SubrsComments, &mut mends)?;
    Ok(mends)
}

/// The mends by rules.
fn mends_by_rules(alloc: Global, file: &[u8]) -> Result<Vec<Mend>, ReadFault>
    ensures mends { IfOk result (λ v. v.items ≡ mends_by_rules file.now (read_font file.now)) }
    ensures refused { IfErr result (λ e. e ≡ Memory) }
{
    match read_vec(alloc, Vec::from_slice(alloc, file)?) {
        Ok(source) => {
            drop(source);
            Ok(Vec::new(alloc))
        }
        Err(ReadFault::Memory) => Err(ReadFault::Memory),
        Err(_) => needed(alloc, file),
    }
}

/// Where the test stands in a font's head, if it loses one, or why the file spells no font widely.
fn test_of(alloc: Global, file: &[u8]) -> Result<Option<usize>, ReadFault>
    ensures { Answers (λ o. o) result (test_in (read_font_widely file.now)) }
{
    let source = read_wide(alloc, file)?;
    let taken = taken_test(alloc, source.parts.shell.head.as_slice());
    drop(source);
    Ok(taken?)
}

/// What is mended of a file that spells a font widely: each of the rules of [`read_wide`] that it needs, in the order of
/// [`Mend`], with the place where reading breaks off without it; and the test in the font's head, if it loses one
/// ([`Source::untested`](crate::Source::untested)).
///
/// # Errors
///
/// Those of [`read_wide`].
pub fn mends(alloc: Global, file: &[u8]) -> Result<Vec<Mend>, ReadFault>
    ensures { Answers (λ v. v.items) result (mends_of file.now) }
{
    let test = test_of(alloc, file)?;
    let mut mends = mends_by_rules(alloc, file)?;
    if let Some(at) = test {
        if mends.push(Mend::TestTakenOut { at }).is_err() {
            return Err(ReadFault::Memory);
        }
    }
    Ok(mends)
}
