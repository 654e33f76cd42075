//! Fonts without the test whether they were loaded before, which begins many heads: those of Computer Modern among them.

ghost use Rattle.std.specs.Prelude.{◌≡◌, IfOk, MatchOption};
ghost use Rattle.t1_text.specs.FontTest.{untested};
ghost use Rattle.t1_font.specs.{FontBoxes.{with_texts}, IsFont.{IsFont}};
ghost use Rattle.t1_font.specs.UntestedFonts.{untested_font};

use crate::source::{Source, SourceParts};
use std::alloc::{AllocError, Global};
use t1_text::font_test;

/// The head without its test, if it loses one.
fn untested(alloc: Global, parts: &SourceParts) -> Result<Option<Vec<u8>>, AllocError>
    ensures { IfOk result (λ o. MatchOption o (untested parts.now.shell.head
        ≡ parts.now.shell.head) (λ v. v.items ≡ untested parts.now.shell.head)) }
{
    font_test::untested(alloc, parts.shell.head.as_slice())
}

impl Source {
    /// The font without the test in its head whether it was loaded before. What the test answers is for a `restore` behind
    /// the font's `cleartomark`, which isn't kept, so where a font keeps its test an operand is left on PostScript's stack.
    ///
    /// The test is found as Computer Modern spells it, or with `known pop false` in place of its second `known`, by which cairo makes
    /// it answer false; with any white space between its tokens, with one name in both places and with any number. The first one is
    /// removed, and the white space around it stays. A head in which another test is left stays as it is, and so does one in which a
    /// marker would arise that ends the head or the clear text.
    ///
    /// # Errors
    ///
    /// A growth was refused.
    pub fn untested(self, alloc: Global) -> Result<Source, AllocError>
        ensures { IfOk result (λ f. f ≡ untested_font self) }
    {
        let head = match untested(alloc, &self.parts) {
            Ok(head) => head,
            Err(fault) => {
                drop(self);
                return Err(fault);
            }
        };
        match head {
            Some(head) => Ok(self.with_head(head)),
            None => Ok(self),
        }
    }

    /// The font with this head.
    fn with_head(self, head: Vec<u8>) -> Source
        requires { IsFont (with_texts self (head.items, self.shell.clear_tail)) }
        ensures { result ≡ with_texts self (head.items, self.shell.clear_tail) }
    {
        let mut parts = self.parts;
        parts.shell.head = head;
        Source { parts }
    }
}
