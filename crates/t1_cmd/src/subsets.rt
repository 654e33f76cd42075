//! The engine that subsets a font.
ghost use Rattle.std.specs.{Prelude.{◌≡◌, ◌+◌, ◌≤◌, ◌∷◌, [], List, ℕ, None, Ok, OnOk, IfOk, IfErr}, Option.{option_map}, Str.{bytes_eq}};
ghost use Rattle.t1_subset.specs.{Budgets.{subset_tokens, IsEnough}, NameSets.{lent, asked}};
ghost use Rattle.t1_algebra.specs.{Profile.{profile}, Keep.{subset}};
ghost use Rattle.t1_cmd.specs.{Count.{calls_counted}, Inputs.{input_of}, Runs.{RunEnds, Succeeds}, Answers.{Prints, OfOne, OfThere, MayRefuse}};
ghost use Rattle.t1_cmd.specs.{Budgets.{Within, CutsWithin, SubsetsWithin}, Fonts.{font_input, of_file}};
ghost use Rattle.t1_cmd.specs.Subsets.{first_absent, unless_absent, subset_answer, standard_word, code_name, names_with, subset_with_codes};
ghost use Rattle.t1_bytes.specs.Limits.{file_limit};

use crate::counting::Counted;
use crate::faults::{Name, Reason, RunFault};
use crate::font_commands::{Taking, read_font};
use crate::fonts::font_file;
use crate::several::source_in;
use crate::writing::write_text;
use std::alloc::Global;
use std::io::{Read, Write};
use t1_font::{Font, Form, Source};
use t1_run::standard_name;
use t1_subset::{Budget, BudgetFault, SubsetFault, subset_within};

// The subset of a font, within a budget.
#[tactic(auto, using(crate::proofs::Budgets::name_enough))]
fn cut<'a>(
    alloc: Global,
    font: &Font<'a>,
    names: &[&[u8]],
    budget: Budget,
) -> Result<Font<'a>, Reason>
    ensures cut { IfOk result (λ s. s ≡ subset profile font.now (asked names.now)) }
    ensures present { OnOk result (first_absent font.now (lent names.now) ≡ None) }
    ensures enough { OnOk result (IsEnough budget.left (subset_tokens font.now (lent names.now))) }
    ensures refused { IfErr result (λ e. (text : List ℕ)
        → MayRefuse (Within budget.left (subset_tokens font.now (lent names.now))
        (λ a. a ≡ unless_absent (first_absent font.now (lent names.now)) text)) e) }
{
    match subset_within(alloc, font, names, budget) {
        Ok(cut) => Ok(cut),
        Err(BudgetFault::TooManyTokens) => Err(Reason::TooManyTokens),
        Err(BudgetFault::Plain(SubsetFault::NoSuchGlyph { name })) => {
            let name = Name::new(alloc, name.as_slice())?;
            Err(Reason::NoGlyph { name })
        }
        Err(BudgetFault::Plain(SubsetFault::Memory)) => Err(Reason::Memory),
    }
}

// The canonical file of a font's subset, within a budget. The font is dropped before the file is written.
fn file_of_cut(
    alloc: Global,
    font: Font<'_>,
    names: &[&[u8]],
    form: Form,
    budget: Budget,
) -> Result<Vec<u8>, Reason>
    ensures text { IfOk result (λ text. CutsWithin budget.left form (lent names.now) font.entry
        (Ok text.items)) }
    ensures refused { IfErr result
        (MayRefuse (CutsWithin budget.left form (lent names.now) font.entry)) }
{
    let cut = match cut(alloc, &font, names, budget) {
        Ok(cut) => cut,
        Err(reason) => return Err(reason),
    };
    drop(font);
    let text = font_file(alloc, &cut, form);
    drop(cut);
    let text = text?;
    Ok(text)
}

// Whether the word of an Encoding is StandardEncoding.
fn is_standard(word: &[u8]) -> bool
    ensures { result ≡ bytes_eq word.now standard_word }
{
    word == b"StandardEncoding".as_slice()
}

// The name of a code in a font's Encoding, if it has one.
fn name_of_code<'a>(font: &Font<'a>, code: u8) -> Option<&'a [u8]>
    ensures { option_map (λ n. n.now) result ≡ code_name font.now.encoding code }
{
    let Some(word) = font.encoding_word() else {
        return font.encoding_at(code);
    };
    if !is_standard(word) {
        return None;
    }
    match standard_name(code) {
        Some(name) => Some(name.as_bytes()),
        None => None,
    }
}

// Names, and behind them the names of codes in a font's Encoding.
fn names_and_codes<'t, 'a: 't>(
    alloc: Global,
    font: &Font<'a>,
    names: &[&'t [u8]],
    codes: &[u8],
) -> Result<Vec<&'t [u8]>, Reason>
    ensures names { IfOk result (λ all. names_with font.now.encoding (lent names.now) codes.now
        ≡ Ok (lent all.items)) }
    ensures refused { IfErr result
        (MayRefuse (λ a. a ≡ names_with font.now.encoding (lent names.now) codes.now)) }
{
    let mut all = names.to_vec(alloc)?;
    'codes: for code in codes {
        let Some(name) = name_of_code(font, *code) else {
            return Err(Reason::NoCode { code: *code });
        };
        if all.push(name).is_err() {
            return Err(Reason::Memory);
        }
    }
    Ok(all)
}

// The canonical file of a font's subset over names and the names of codes, within a budget.
fn file_with_codes(
    alloc: Global,
    font: Font<'_>,
    names: &[&[u8]],
    codes: &[u8],
    form: Form,
    budget: Budget,
) -> Result<Vec<u8>, Reason>
    ensures text { IfOk result (λ text. SubsetsWithin budget.left form (lent names.now) codes.now font.entry
        (Ok text.items)) }
    ensures refused { IfErr result
        (MayRefuse (SubsetsWithin budget.left form (lent names.now) codes.now font.entry)) }
{
    let all = match names_and_codes(alloc, &font, names, codes) {
        Ok(all) => all,
        Err(reason) => return Err(reason),
    };
    file_of_cut(alloc, font, all.as_slice(), form, budget)
}

// The canonical file of the subset of a source's font over names and the names of codes, within a budget.
fn text_within(
    alloc: Global,
    source: &Source,
    names: &[&[u8]],
    codes: &[u8],
    form: Form,
    budget: Budget,
) -> Result<Vec<u8>, Reason>
    ensures text { IfOk result (λ text. SubsetsWithin budget.left form (lent names.now) codes.now source.now
        (Ok text.items)) }
    ensures refused { IfErr result
        (MayRefuse (SubsetsWithin budget.left form (lent names.now) codes.now source.now)) }
{
    let font = source.font(alloc)?;
    file_with_codes(alloc, font, names, codes, form, budget)
}

/// The canonical file, in one of the two forms, of the subset of the font of a file over these names, as [`run_subset`]
/// writes it. A name is without its `/`, and may be asked for more than once.
///
/// # Errors
///
/// [`Reason::TooLong`] or [`Reason::Font`] if the file spells no font, for its first fault; else [`Reason::NoGlyph`] with the
/// first name that the font lacks. [`Reason::Memory`] if a growth was refused.
pub fn subset_file(
    alloc: Global,
    file: &[u8],
    names: &[&[u8]],
    form: Form,
) -> Result<Vec<u8>, Reason>
    ensures text { IfOk result (λ text. of_file (subset_answer form (lent names.now)) file.now ≡ Ok text.items) }
    ensures refused { IfErr result (MayRefuse (λ a. a ≡ of_file (subset_answer form (lent names.now)) file.now)) }
{
    subset_file_within(alloc, file, names, &[], form, Budget { left: None })
}

/// Writes the canonical file, in one of the two forms, of the subset of a font that keeps what these names need: their
/// glyphs and `.notdef`, the components of accented glyphs, and the Subrs that all of these execute. A name is without
/// its `/`, and may be asked for more than once.
///
/// A file that is not a font is refused before a name that the font lacks; of several such names the first is reported, as
/// [`Reason::NoGlyph`].
pub fn run_subset<R: Read, W: Write>(
    alloc: Global,
    reader: &mut Counted<R>,
    names: &[&[u8]],
    form: Form,
    writer: &mut Counted<W>,
) -> Result<(), RunFault>
    ensures ends { RunEnds font_input (Prints (subset_answer form (lent names.now))) W.contents
        (input_of R.remaining reader.old reader.new ∷ []) writer.old writer.new result }
    ensures succeeds { Succeeds font_input (Prints (subset_answer form (lent names.now)))
        (input_of R.remaining reader.old reader.new ∷ []) writer.old writer.new result }
    ensures turns { calls_counted reader.new ≤ calls_counted reader.old + (file_limit + 1) }
{
    let budget = Budget { left: None };
    run_subset_within(alloc, reader, names, &[], form, budget, writer)
}

/// The canonical file, in one of the two forms, of the subset of the font of a file over these names and the names that these
/// codes have in its Encoding, as [`run_subset_with_codes`] writes it. If the Encoding is the word StandardEncoding, the names
/// are those of StandardEncoding; by another word no code has a name.
///
/// # Errors
///
/// [`Reason::TooLong`] or [`Reason::Font`] if the file spells no font, for its first fault; else [`Reason::NoCode`] with the
/// first code that has no name; else [`Reason::NoGlyph`] with the first name that the font lacks, where names stand before
/// those of codes. [`Reason::Memory`] if a growth was refused.
pub fn subset_file_with_codes(
    alloc: Global,
    file: &[u8],
    names: &[&[u8]],
    codes: &[u8],
    form: Form,
) -> Result<Vec<u8>, Reason>
    ensures text { IfOk result (λ text. of_file (subset_with_codes form (lent names.now) codes.now) file.now ≡ Ok text.items) }
    ensures refused { IfErr result (MayRefuse (λ a. a ≡ of_file (subset_with_codes form (lent names.now) codes.now) file.now)) }
{
    subset_file_within(alloc, file, names, codes, form, Budget { left: None })
}

/// Writes what [`run_subset`] writes of these names and the names that these codes have in the font's Encoding. If that is the
/// word StandardEncoding, the names are those of StandardEncoding; by another word no code has a name.
///
/// A file that is not a font is refused before a code without a name, as [`Reason::NoCode`]; of several such codes the first is
/// reported. A name that the font lacks comes after that, as [`Reason::NoGlyph`]; the names of codes stand behind the others.
pub fn run_subset_with_codes<R: Read, W: Write>(
    alloc: Global,
    reader: &mut Counted<R>,
    names: &[&[u8]],
    codes: &[u8],
    form: Form,
    writer: &mut Counted<W>,
) -> Result<(), RunFault>
    ensures ends { RunEnds font_input (Prints (subset_with_codes form (lent names.now) codes.now)) W.contents
        (input_of R.remaining reader.old reader.new ∷ []) writer.old writer.new result }
    ensures succeeds { Succeeds font_input (Prints (subset_with_codes form (lent names.now) codes.now))
        (input_of R.remaining reader.old reader.new ∷ []) writer.old writer.new result }
    ensures turns { calls_counted reader.new ≤ calls_counted reader.old + (file_limit + 1) }
{
    let budget = Budget { left: None };
    run_subset_within(alloc, reader, names, codes, form, budget, writer)
}

/// The same as [`subset_file_with_codes`] within a budget, out of which the runs of glyphs take their tokens.
///
/// # Errors
///
/// As [`subset_file_with_codes`]; but behind all else comes [`Reason::TooManyTokens`], if the runs of the glyphs that are kept execute
/// more tokens than the budget has.
pub fn subset_file_within(
    alloc: Global,
    file: &[u8],
    names: &[&[u8]],
    codes: &[u8],
    form: Form,
    budget: Budget,
) -> Result<Vec<u8>, Reason>
    ensures text { IfOk result (λ text. OfThere (SubsetsWithin budget.left form (lent names.now) codes.now)
        (font_input file.now) (Ok text.items)) }
    ensures refused { IfErr result (MayRefuse (OfThere
        (SubsetsWithin budget.left form (lent names.now) codes.now) (font_input file.now))) }
{
    let source = match source_in(alloc, Taking::Spelled, file) {
        Ok(source) => source,
        Err(reason) => return Err(reason),
    };
    text_within(alloc, &source, names, codes, form, budget)
}

/// Writes what [`run_subset_with_codes`] writes, within a budget, out of which the runs of glyphs take their tokens.
///
/// Behind all else it is refused with [`Reason::TooManyTokens`], if the runs of the glyphs that are kept execute more tokens than the
/// budget has.
pub fn run_subset_within<R: Read, W: Write>(
    alloc: Global,
    reader: &mut Counted<R>,
    names: &[&[u8]],
    codes: &[u8],
    form: Form,
    budget: Budget,
    writer: &mut Counted<W>,
) -> Result<(), RunFault>
    ensures ends { RunEnds font_input (OfOne (SubsetsWithin budget.left form (lent names.now) codes.now)) W.contents
        (input_of R.remaining reader.old reader.new ∷ []) writer.old writer.new result }
    ensures turns { calls_counted reader.new ≤ calls_counted reader.old + (file_limit + 1) }
{
    let source = match read_font(alloc, Taking::Spelled, reader) {
        Ok(source) => source,
        Err(fault) => return Err(fault),
    };
    let text = match text_within(alloc, &source, names, codes, form, budget) {
        Ok(text) => text,
        Err(reason) => return Err(RunFault::Refused(reason)),
    };
    write_text(writer, text.as_slice())
}
