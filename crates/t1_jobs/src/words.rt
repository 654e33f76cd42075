//! What a printer reads around a document: ^D, and the universal exit and lines of Hewlett-Packard's Printer Job Language.

ghost use Rattle.std.specs.{Prelude.{◌≡◌, ◌≤◌, length, take_while, IfSome}, Option.{option_map}};
ghost use Rattle.t1_grammar.specs.Grammar.{either, fixed};
ghost use Rattle.t1_jobs.specs.Words.{end_of_job, universal_exit, is_in_line, pjl_line, line_end, word, behind_words, may_end, another_begins, document_len, Scanned};

use crate::kinds::begins_with;
use memchr::memchr2;
use t1_bytes::texts::fixed_at;

/// ^D, which ends a job where bytes come one by one.
const END_OF_JOB: &[u8] = b"\x04";

/// The universal exit of PJL, which leaves every language of a printer.
const UNIVERSAL_EXIT: &[u8] = b"\x1b%-12345X";

/// How many bytes come before the end of a line.
fn line_len(bytes: &[u8]) -> usize
    ensures { result ≡ length (take_while is_in_line bytes.now) }
{
    bytes.iter().take_while(|b| **b != b'\n').count()
}

/// What stands behind a line of PJL.
#[tactic(auto, unfolding(crate::specs::Words::pjl_line))]
fn behind_pjl_line(bytes: &[u8]) -> Option<&[u8]>
    ensures { option_map (λ r. r.now) result ≡ option_map (λ x. x.1) (pjl_line.read bytes.now) }
{
    let (_, rest) = fixed_at(bytes, b"@PJL")?;
    let (_, rest) = rest.split_at(line_len(rest));
    match fixed_at(rest, b"\n") {
        Some((_, rest)) => Some(rest),
        None => Some(rest),
    }
}

/// What stands behind the end of a line.
fn behind_line_end(bytes: &[u8]) -> Option<&[u8]>
    ensures { option_map (λ r. r.now) result ≡ option_map (λ x. x.1) (line_end.read bytes.now) }
{
    match fixed_at(bytes, b"\r") {
        Some((_, rest)) => Some(rest),
        None => {
            let (_, rest) = fixed_at(bytes, b"\n")?;
            Some(rest)
        }
    }
}

/// What stands behind ^D or the universal exit.
fn behind_end(bytes: &[u8]) -> Option<&[u8]>
    ensures { option_map (λ r. r.now) result
        ≡ option_map (λ x. x.1) ((either (fixed end_of_job) (fixed universal_exit)).read bytes.now) }
{
    match fixed_at(bytes, END_OF_JOB) {
        Some((_, rest)) => Some(rest),
        None => {
            let (_, rest) = fixed_at(bytes, UNIVERSAL_EXIT)?;
            Some(rest)
        }
    }
}

/// What stands behind a word of a printer.
#[tactic(auto, unfolding(crate::specs::Words::word))]
fn behind_word(bytes: &[u8]) -> Option<&[u8]>
    ensures { option_map (λ r. r.now) result ≡ option_map (λ x. x.1) (word.read bytes.now) }
{
    if let Some(rest) = behind_end(bytes) {
        return Some(rest);
    }
    match behind_pjl_line(bytes) {
        Some(rest) => Some(rest),
        None => behind_line_end(bytes),
    }
}

/// What stands behind all words of a printer that come first.
pub(crate) fn behind_words(text: &[u8]) -> &[u8]
    ensures { result.now ≡ behind_words text.now }
{
    let mut rest = text;
    'words: while let Some(behind) = behind_word(rest) {
        rest = behind;
    }
    rest
}

/// Whether a job may end here.
fn may_end(text: &[u8]) -> bool
    ensures { result ≡ may_end text.now }
{
    begins_with(END_OF_JOB, text) || begins_with(UNIVERSAL_EXIT, text)
}

/// Whether something else begins behind these words.
fn another_begins(words: &[u8], behind: &[u8]) -> bool
    ensures { result ≡ another_begins words.now behind.now }
{
    begins_with(UNIVERSAL_EXIT, words) || begins_with(b"%!", behind)
}

/// The first place, from this one on, at which ^D or ESC stands, or else the end of the text.
fn next_end(text: &[u8], from: usize) -> usize
    requires { from ≤ length text.now }
    ensures within { result ≤ length text.now }
    ensures further { from ≤ result }
    ensures passed { Scanned text.now from → Scanned text.now result }
{
    let (_, rest) = text.split_at(from);
    match memchr2(b'\x04', b'\x1b', rest) {
        Some(skipped) => from + skipped,
        None => text.len(),
    }
}

/// How many bytes of a text stand before the words that end its job; `None` if something else begins in it.
pub(crate) fn document_len(text: &[u8]) -> Option<usize>
    ensures exact { result ≡ document_len text.now }
    ensures within { IfSome result (λ n. n ≤ length text.now) }
{
    let mut at = next_end(text, 0);
    'places: while at < text.len() {
        let (_, here) = text.split_at(at);
        if !may_end(here) {
            at = next_end(text, at + 1);
            continue;
        }
        let behind = behind_words(here);
        if behind.is_empty() {
            return Some(at);
        }
        if another_begins(here, behind) {
            return None;
        }
        at = next_end(text, text.len() - behind.len());
    }
    Some(at)
}
