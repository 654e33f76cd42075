//! What a call gives to C.
ghost use Rattle.std.specs.Prelude.{◌≡◌, length, map, All, IfOk, IfErr};
ghost use Rattle.t1_c.specs.Gives.{HasNothing, HasWhole, GivesReason, HoldsNothing, HaveNothing, HaveTexts, FirstGives, place_in_one, input_at};

use crate::numbers::{MEMORY, OK, detail_of, number_of};
use std::alloc::Global;
use t1_cmd::{FilesRefusal, Levelled, Reason};

/// What a call answers. The bytes are the caller's, who frees them if there are any.
#[repr(C)]
#[derive(Drop)]
pub struct Answer {
    /// The offset, code, index, line or part that a refusal names; else 0.
    pub detail: u64,
    /// The place, from 0, of the file that is refused for itself; -1 if none is.
    pub input: i64,
    /// The result, or the text of the refusal.
    pub bytes: &'static [u8],
}

const NO_INPUT: i64 = -1;

/// Gives nothing but a number.
pub(crate) fn give_nothing(code: u32, answer: &mut Answer) -> u32
    ensures { HasNothing code result answer.new }
{
    answer.detail = 0;
    answer.input = NO_INPUT;
    answer.bytes = b"";
    code
}

// Gives a text.
fn give_text(text: Vec<u8>, answer: &mut Answer) -> u32
    ensures { HasWhole text.items result answer.new }
{
    answer.detail = 0;
    answer.input = NO_INPUT;
    answer.bytes = text.leak();
    OK
}

// The place of an input, as the field says it.
fn input_at(place: Option<usize>) -> i64
    ensures { result ≡ input_at place }
{
    match place {
        None => NO_INPUT,
        Some(place) => place.min(i64::MAX as usize) as i64,
    }
}

// Tells a reason, with the place of the input that is refused.
fn tell(alloc: Global, place: Option<usize>, reason: &Reason, answer: &mut Answer) -> u32
    ensures { GivesReason place reason.now result answer.new }
{
    if let Reason::Memory = reason {
        return give_nothing(MEMORY, answer);
    }
    let Ok(text) = reason.to_string(alloc) else {
        return give_nothing(MEMORY, answer);
    };
    answer.detail = detail_of(reason);
    answer.input = input_at(place);
    answer.bytes = text.into_bytes().leak();
    number_of(reason)
}

// Where a single file is refused for itself.
fn place_in_one(reason: &Reason) -> Option<usize>
    ensures { result ≡ place_in_one reason.now }
{
    match reason {
        Reason::TooLong | Reason::Font(_) => Some(0),
        _ => None,
    }
}

/// Gives the text that a call over one file answered, or tells why there is none.
pub(crate) fn give_of(alloc: Global, text: Result<Vec<u8>, Reason>, answer: &mut Answer) -> u32
    ensures whole { IfOk text (λ text. HasWhole text.items result answer.new) }
    ensures told { IfErr text (λ r. GivesReason (place_in_one r) r result answer.new) }
{
    match text {
        Ok(text) => give_text(text, answer),
        Err(reason) => tell(alloc, place_in_one(&reason), &reason, answer),
    }
}

/// Gives the text that a call over several files answered, or tells why there is none.
pub(crate) fn give_files(
    alloc: Global,
    text: Result<Vec<u8>, FilesRefusal>,
    answer: &mut Answer,
) -> u32
    ensures whole { IfOk text (λ text. HasWhole text.items result answer.new) }
    ensures told { IfErr text (λ e. GivesReason e.place e.reason result answer.new) }
{
    match text {
        Ok(text) => give_text(text, answer),
        Err(refusal) => tell(alloc, refusal.place, &refusal.reason, answer),
    }
}

// ---- several answers

// No answer holds anything.
fn clear(answers: &mut [Answer])
    ensures { All HoldsNothing answers.new }
{
    'answers: for i in 0..answers.len() {
        give_nothing(OK, &mut answers[i]);
    }
}

/// Gives nothing but a number.
pub(crate) fn give_none(code: u32, answers: &mut [Answer]) -> u32
    ensures { HaveNothing code result answers.new }
{
    clear(answers);
    code
}

// Gives each text in the answer at its place.
fn give_texts(mut texts: Vec<Vec<u8>>, answers: &mut [Answer]) -> u32
    requires { length texts.items ≡ length answers.old }
    ensures { HaveTexts (map (λ t. t.items) texts.items) result answers.new }
{
    'texts: while let Some(text) = texts.pop() {
        let at = texts.len();
        give_text(text, &mut answers[at]);
    }
    OK
}

// Tells why files are refused in the first answer. Where there are no files, none is refused but for want of memory.
fn tell_first(alloc: Global, refusal: &FilesRefusal, answers: &mut [Answer]) -> u32
    ensures { FirstGives refusal.now.place refusal.now.reason result answers.new }
{
    clear(answers);
    if answers.is_empty() {
        return MEMORY;
    }
    tell(alloc, refusal.place, &refusal.reason, &mut answers[0])
}

/// Gives the texts that a call over documents answered, one in each answer, or tells in the first why there are none.
pub(crate) fn give_each(
    alloc: Global,
    levelled: Result<Levelled, FilesRefusal>,
    answers: &mut [Answer],
) -> u32
    requires { IfOk levelled (λ l. length l.texts.items ≡ length answers.old) }
    ensures whole { IfOk levelled (λ l. HaveTexts (map (λ t. t.items) l.texts.items) result answers.new) }
    ensures told { IfErr levelled (λ e. FirstGives e.place e.reason result answers.new) }
{
    match levelled {
        Ok(levelled) => {
            let Levelled { texts, .. } = levelled;
            give_texts(texts, answers)
        }
        Err(refusal) => tell_first(alloc, &refusal, answers),
    }
}
