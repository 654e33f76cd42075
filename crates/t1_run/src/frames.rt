//! The charstrings that are being run at one time: a glyph, and Subrs that are each called by the charstring before.

ghost use Rattle.std.specs.{Prelude.{◌≡◌}, Iterator.{YieldsFirst}};
ghost use Rattle.t1_char.specs.Tokens.{tokens};

use t1_char::{Token, Tokens};

/// A charstring that is being run: its bytes that haven't been read.
#[derive(Clone, Copy)]
pub(crate) struct Frame<'a> {
    rest: &'a [u8],
}

// What an `ArrayVec` has in its free places.
impl<'a> Default for Frame<'a> {
    fn default() -> Frame<'a> {
        Frame { rest: &[] }
    }
}

impl<'a> Frame<'a> {
    ghost use Rattle.t1_run.specs.Frames.{frame_left};

    /// A charstring before its first token.
    #[inline(always)]
    pub(crate) fn new(charstring: &'a [u8]) -> Frame<'a>
        ensures { frame_left result ≡ tokens charstring.now }
    {
        Frame { rest: charstring }
    }

    /// The next token of the charstring, if one is left.
    #[inline(always)]
    pub(crate) fn next(&mut self) -> Option<Token>
        ensures { YieldsFirst frame_left self.old result self.new }
    {
        let mut tokens = Tokens::new(self.rest);
        let token = tokens.next();
        self.rest = &self.rest[tokens.offset()..];
        token
    }
}
