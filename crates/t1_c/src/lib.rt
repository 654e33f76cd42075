//! `libt1subset`: the calls of `t1_cmd` over files in memory, as functions for C.
//!
//! Each function takes whole files as bytes, and an [`Answer`] to fill. It returns 0 and gives the text that the program
//! would write; or it returns the number of a refusal, and gives the text that the program would print of it. No function
//! requires anything beyond what its types say, none keeps anything from call to call, and each may run in any thread.
//! `include/t1subset.h` declares them, and says what every number and field means.
#![tactic(auto)]

mod answers;
mod documents;
mod labels;
mod numbers;
#[cfg(test)]
mod tests;

ghost use Rattle.std.specs.Prelude.{◌≡◌, ◌∷◌, [], Some, false, length, true};
ghost use Rattle.t1_subset.specs.NameSets.{lent};
ghost use Rattle.t1_cmd.specs.{CheckText.{check_answer}, ListText.{list_answer}, FullText.{full_answer}, DrawingText.{show_answer}};
ghost use Rattle.t1_cmd.specs.{Fonts.{font_input, mended_input, file_answer}, Mends.{mends_answer}, Subsets.{subset_answer, subset_with_codes}};
ghost use Rattle.t1_cmd.specs.{Budgets.{SubsetsWithin, MergesWithin, RejoinsWithin, DiffersWithin}, Mergers.{MergesToFile}, Rejoins.{RejoinsTo}};
ghost use Rattle.t1_cmd.specs.{Diffs.{DiffersBy}, Listings.{listing_input, JoinsTo}, WrittenSubsets.{OfUnion}, Cuts.{OfRejoined}};
ghost use Rattle.t1_cmd.specs.{Documents.{text_input}, Pages.{PoolsTo}, FontPlaces.{ListsTo}, Extracts.{ExtractsTo}};
ghost use Rattle.t1_c.specs.Numbers.{form_at, pooling_at, bad_call};
ghost use Rattle.t1_c.specs.Gives.{GivesOne, GivesOf, GivesMended, GivesAnswer, GivesFiles, GivesLevels, HaveNothing, In, IfForm, GivesText, place_labels};

pub use answers::Answer;
use answers::{give_each, give_files, give_none, give_nothing, give_of};
use documents::{places, pooled};
use numbers::{BAD_CALL, form_of, pooling_of};
use std::alloc::Global;
use t1_cmd::{
    Budget, check_file, convert_file, diff_files, diff_files_within, extract_file, join_listings,
    level_files, list_file, list_file_full, list_mends, mend_file, merge_files, merge_files_within,
    rejoin_files, rejoin_files_within, show_file, subset_file, subset_file_with_codes,
    subset_file_within,
};

/// What a call may cost.
#[repr(C)]
#[derive(Clone, Copy)]
pub struct Limits {
    /// How many tokens the charstrings of glyphs may execute in all.
    pub tokens: u64,
}

/// Says what a font has: the line of `t1subset check`.
#[unsafe(no_mangle)]
pub extern "C" fn t1subset_check(alloc: Global, font: &[u8], answer: &mut Answer) -> u32
    ensures { GivesOf check_answer font.now result answer.new }
{
    give_of(alloc, check_file(alloc, font), answer)
}

/// Lists what a font has: the lines of `t1subset list`.
#[unsafe(no_mangle)]
pub extern "C" fn t1subset_list(alloc: Global, font: &[u8], answer: &mut Answer) -> u32
    ensures { GivesOf list_answer font.now result answer.new }
{
    give_of(alloc, list_file(alloc, font), answer)
}

/// Lists what a font has, what its dictionary says, and how wide its glyphs are: the lines of `t1subset list --full`.
#[unsafe(no_mangle)]
pub extern "C" fn t1subset_list_full(alloc: Global, font: &[u8], answer: &mut Answer) -> u32
    ensures { GivesOf full_answer font.now result answer.new }
{
    give_of(alloc, list_file_full(alloc, font), answer)
}

/// Says what a glyph draws: the lines of `t1subset show`.
#[unsafe(no_mangle)]
pub extern "C" fn t1subset_show(alloc: Global, font: &[u8], name: &[u8], answer: &mut Answer) -> u32
    ensures { GivesOf (show_answer name.now) font.now result answer.new }
{
    give_of(alloc, show_file(alloc, font, name), answer)
}

/// Makes the canonical file of a font, in the form of a number.
#[unsafe(no_mangle)]
pub extern "C" fn t1subset_convert(
    alloc: Global,
    font: &[u8],
    form: u32,
    answer: &mut Answer,
) -> u32
    ensures { In (form_at form) (λ f. GivesOf (file_answer f) font.now) result answer.new }
{
    match form_of(form) {
        Some(form) => give_of(alloc, convert_file(alloc, font, form), answer),
        None => give_nothing(BAD_CALL, answer),
    }
}

/// Makes the canonical file of the font that a file spells widely, without the test whether it was loaded before, in the form of
/// a number.
#[unsafe(no_mangle)]
pub extern "C" fn t1subset_mend(alloc: Global, font: &[u8], form: u32, answer: &mut Answer) -> u32
    ensures { In (form_at form) (λ f. GivesMended (file_answer f) font.now) result answer.new }
{
    match form_of(form) {
        Some(form) => give_of(alloc, mend_file(alloc, font, form), answer),
        None => give_nothing(BAD_CALL, answer),
    }
}

/// Lists what is mended of a font: the lines that `t1subset mend` prints on standard error.
#[unsafe(no_mangle)]
pub extern "C" fn t1subset_mends(alloc: Global, font: &[u8], answer: &mut Answer) -> u32
    ensures { GivesOne (mends_answer font.now) result answer.new }
{
    give_of(alloc, list_mends(alloc, font), answer)
}

/// Makes the canonical file of the subset that keeps these names.
#[unsafe(no_mangle)]
pub extern "C" fn t1subset_subset(
    alloc: Global,
    font: &[u8],
    names: &[&[u8]],
    form: u32,
    answer: &mut Answer,
) -> u32
    ensures { In (form_at form) (λ f. GivesOf (subset_answer f (lent names.now)) font.now)
        result answer.new }
{
    match form_of(form) {
        Some(form) => give_of(alloc, subset_file(alloc, font, names, form), answer),
        None => give_nothing(BAD_CALL, answer),
    }
}

/// Makes the canonical file of the subset that keeps these names and the names that these codes have in the font's Encoding.
#[unsafe(no_mangle)]
pub extern "C" fn t1subset_subset_codes(
    alloc: Global,
    font: &[u8],
    names: &[&[u8]],
    codes: &[u8],
    form: u32,
    answer: &mut Answer,
) -> u32
    ensures { In (form_at form) (λ f. GivesOf (subset_with_codes f (lent names.now) codes.now) font.now)
        result answer.new }
{
    match form_of(form) {
        Some(form) => give_of(
            alloc,
            subset_file_with_codes(alloc, font, names, codes, form),
            answer,
        ),
        None => give_nothing(BAD_CALL, answer),
    }
}

/// Makes the canonical file of the subset that keeps these names and the names that these codes have in the font's Encoding, if the
/// glyphs that are kept execute no more tokens than the limits allow.
#[unsafe(no_mangle)]
pub extern "C" fn t1subset_subset_within(
    alloc: Global,
    font: &[u8],
    names: &[&[u8]],
    codes: &[u8],
    form: u32,
    limits: &Limits,
    answer: &mut Answer,
) -> u32
    ensures { In (form_at form) (λ f. GivesAnswer (SubsetsWithin (Some limits.now.tokens) f (lent names.now) codes.now) font.now)
        result answer.new }
{
    let left = Some(limits.tokens);
    match form_of(form) {
        Some(form) => give_of(
            alloc,
            subset_file_within(alloc, font, names, codes, form, Budget { left }),
            answer,
        ),
        None => give_nothing(BAD_CALL, answer),
    }
}

/// Makes the canonical file of the font that fonts merge to. Of written subsets of one font this is the subset over all
/// their names.
#[unsafe(no_mangle)]
pub extern "C" fn t1subset_merge(
    alloc: Global,
    fonts: &[&[u8]],
    form: u32,
    answer: &mut Answer,
) -> u32
    ensures gives { In (form_at form) (λ f. GivesFiles font_input (MergesToFile f) (lent fonts.now))
        result answer.new }
    ensures subsets { IfForm (form_at form)
        (λ f. OfUnion f (lent fonts.now) (GivesText result answer.new)) }
{
    match form_of(form) {
        Some(form) => give_files(alloc, merge_files(alloc, fonts, form), answer),
        None => give_nothing(BAD_CALL, answer),
    }
}

/// Makes the canonical file of the font that fonts merge to, if their glyphs execute no more tokens than the limits allow.
#[unsafe(no_mangle)]
pub extern "C" fn t1subset_merge_within(
    alloc: Global,
    fonts: &[&[u8]],
    form: u32,
    limits: &Limits,
    answer: &mut Answer,
) -> u32
    ensures { In (form_at form) (λ f. GivesFiles font_input (MergesWithin (Some limits.now.tokens) f) (lent fonts.now))
        result answer.new }
{
    let left = Some(limits.tokens);
    match form_of(form) {
        Some(form) => give_files(
            alloc,
            merge_files_within(alloc, fonts, form, Budget { left }),
            answer,
        ),
        None => give_nothing(BAD_CALL, answer),
    }
}

/// Makes the canonical file of the font that fonts merge to once they are normalized. Of truncated subsets of one font, such as
/// dvips and pdfTeX cut, this is the subset over all their names.
#[unsafe(no_mangle)]
pub extern "C" fn t1subset_rejoin(
    alloc: Global,
    fonts: &[&[u8]],
    form: u32,
    answer: &mut Answer,
) -> u32
    ensures gives { In (form_at form) (λ f. GivesFiles mended_input (RejoinsTo f) (lent fonts.now))
        result answer.new }
    ensures cuts { IfForm (form_at form)
        (λ f. OfRejoined f (lent fonts.now) (GivesText result answer.new)) }
{
    match form_of(form) {
        Some(form) => give_files(alloc, rejoin_files(alloc, fonts, form), answer),
        None => give_nothing(BAD_CALL, answer),
    }
}

/// Makes the canonical file of the font that fonts merge to once they are normalized, if their glyphs execute no more tokens than the
/// limits allow.
#[unsafe(no_mangle)]
pub extern "C" fn t1subset_rejoin_within(
    alloc: Global,
    fonts: &[&[u8]],
    form: u32,
    limits: &Limits,
    answer: &mut Answer,
) -> u32
    ensures { In (form_at form) (λ f. GivesFiles mended_input (RejoinsWithin (Some limits.now.tokens) f) (lent fonts.now))
        result answer.new }
{
    let left = Some(limits.tokens);
    match form_of(form) {
        Some(form) => give_files(
            alloc,
            rejoin_files_within(alloc, fonts, form, Budget { left }),
            answer,
        ),
        None => give_nothing(BAD_CALL, answer),
    }
}

/// Tells all conflicts of two fonts: the lines of `t1subset diff`.
#[unsafe(no_mangle)]
pub extern "C" fn t1subset_diff(
    alloc: Global,
    first: &[u8],
    second: &[u8],
    answer: &mut Answer,
) -> u32
    ensures { GivesFiles font_input DiffersBy (first.now ∷ second.now ∷ []) result answer.new }
{
    give_files(alloc, diff_files(alloc, first, second), answer)
}

/// Tells all conflicts of two fonts, if their glyphs execute no more tokens than the limits allow.
#[unsafe(no_mangle)]
pub extern "C" fn t1subset_diff_within(
    alloc: Global,
    first: &[u8],
    second: &[u8],
    limits: &Limits,
    answer: &mut Answer,
) -> u32
    ensures { GivesFiles font_input (DiffersWithin (Some limits.now.tokens)) (first.now ∷ second.now ∷ []) result answer.new }
{
    let left = Some(limits.tokens);
    give_files(
        alloc,
        diff_files_within(alloc, first, second, Budget { left }),
        answer,
    )
}

/// Makes the text of the join of two listings.
#[unsafe(no_mangle)]
pub extern "C" fn t1subset_join(
    alloc: Global,
    first: &[u8],
    second: &[u8],
    answer: &mut Answer,
) -> u32
    ensures { GivesFiles listing_input JoinsTo (first.now ∷ second.now ∷ []) result answer.new }
{
    give_files(alloc, join_listings(alloc, first, second), answer)
}

/// Makes documents in which each font stands once: one text, one behind the other, or as one document.
#[unsafe(no_mangle)]
pub extern "C" fn t1subset_pool(
    alloc: Global,
    documents: &[&[u8]],
    pooling: u32,
    answer: &mut Answer,
) -> u32
    ensures { In (pooling_at pooling) (λ how. GivesFiles text_input (PoolsTo how) (lent documents.now)) result answer.new }
{
    match pooling_of(pooling) {
        Some(how) => give_files(alloc, pooled(alloc, how, documents), answer),
        None => give_nothing(BAD_CALL, answer),
    }
}

/// Makes documents in which each place of a name has the joined font, each in an answer of its own. C calls it as
/// `t1subset_level`, which passes as many answers as documents; any other number is a bad call.
#[unsafe(no_mangle)]
pub extern "C" fn level_answers(alloc: Global, documents: &[&[u8]], answers: &mut [Answer]) -> u32
    ensures levels { length answers.old ≡ length documents.now
        → GivesLevels (lent documents.now) result answers.new }
    ensures unlike { (length answers.old ≡ length documents.now → ⊥)
        → HaveNothing bad_call result answers.new }
{
    if answers.len() != documents.len() {
        return give_none(BAD_CALL, answers);
    }
    give_each(alloc, level_files(alloc, documents), answers)
}

/// Lists the places of fonts in documents: the lines of `t1subset fonts`, where the place of a document stands for its path.
#[unsafe(no_mangle)]
pub extern "C" fn t1subset_fonts(alloc: Global, documents: &[&[u8]], answer: &mut Answer) -> u32
    ensures { GivesFiles text_input (ListsTo (place_labels (length documents.now))) (lent documents.now)
        result answer.new }
{
    give_files(alloc, places(alloc, documents), answer)
}

/// Makes the canonical PFA of the first font of a name in documents.
#[unsafe(no_mangle)]
pub extern "C" fn t1subset_extract(
    alloc: Global,
    name: &[u8],
    documents: &[&[u8]],
    answer: &mut Answer,
) -> u32
    ensures { GivesFiles text_input (ExtractsTo name.now) (lent documents.now) result answer.new }
{
    give_files(alloc, extract_file(alloc, name, documents), answer)
}
