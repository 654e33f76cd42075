//! The shell of what was read.

ghost use Rattle.std.specs.{Prelude.{◌≡◌, ◌≤◌, [], Option, unwrap_or, IfOk}, Option.{option_map}};
ghost use Rattle.t1_font.specs.{FontValue.{count_limit}, FontModel.{subrs_view}, Gathering.{Entries}};
ghost use Rattle.t1_text.specs.Views.{words_view};
ghost use Rattle.t1_font.specs.{Pieces.{ClearPieces, SubrsPieces, PrivatePieces}, ReadFont.{subrs_shell, shell_of}};
ghost use Rattle.t1_font.specs.Answers.{ShowsClear, ShowsTable, ShowsSubrs, ShowsPrivate, declared_in};

use crate::encoding::ClearParts;
use crate::private::PrivateParts;
use crate::shell::{KeptSubrs, Shell};
use crate::subrs::SubrsParts;
use std::alloc::{AllocError, Global};
use t1_text::words::Words;

/// The kept words of a table, empty if it has no entry.
fn kept_words(alloc: Global, words: Option<Words>) -> (Vec<u8>, Vec<u8>)
    ensures { (result.0.items, result.1.items) ≡ unwrap_or (option_map words_view words) ([], []) }
{
    match words {
        Some(words) => (words.rd, words.phrase),
        None => (Vec::new(alloc), Vec::new(alloc)),
    }
}

/// What is kept of a table of Subrs beside its Subrs.
fn kept_subrs(alloc: Global, parts: SubrsParts) -> KeptSubrs
    requires { parts.declared ≤ count_limit }
    ensures { (p : SubrsPieces) → ShowsTable parts p → subrs_view result ≡ subrs_shell p }
{
    let (rd, put) = kept_words(alloc, parts.words);
    KeptSubrs {
        declared: parts.declared as u16,
        rd,
        put,
        closing: parts.closing,
    }
}

/// The same, if there is a table of Subrs.
fn kept_table(alloc: Global, parts: Option<SubrsParts>) -> Option<KeptSubrs>
    requires { declared_in parts ≤ count_limit }
    ensures { (p : Option SubrsPieces)
        → ShowsSubrs parts p
        → option_map subrs_view result ≡ option_map subrs_shell p }
{
    match parts {
        Some(parts) => Some(kept_subrs(alloc, parts)),
        None => None,
    }
}

/// The shell of what was read.
pub(crate) fn kept_shell(
    alloc: Global,
    outside: &ClearParts<'_>,
    inside: PrivateParts,
) -> Result<Shell, AllocError>
    requires { declared_in inside.subrs ≤ count_limit }
    ensures { IfOk result (λ s. (c : ClearPieces) (p : PrivatePieces) (g : Entries)
        → ShowsClear outside.now g.codes c
        → ShowsPrivate inside g p
        → s ≡ shell_of c p) }
{
    let (glyphs_rd, glyphs_def) = kept_words(alloc, inside.glyphs.words);
    Ok(Shell {
        head: Vec::from_slice(alloc, outside.head)?,
        clear_tail: Vec::from_slice(alloc, outside.clear_tail)?,
        private: inside.private,
        middle: inside.middle,
        tail: inside.tail,
        len_iv: inside.len_iv,
        subrs: kept_table(alloc, inside.subrs),
        glyphs_rd,
        glyphs_def,
    })
}
