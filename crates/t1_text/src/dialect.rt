//! By which rules a font may be spelled, beside those of the standard.

ghost use Rattle.std.specs.{Prelude.{◌≡◌, Some}, Option.{option_map}};
ghost use Rattle.t1_grammar.specs.Scans.{taken};
ghost use Rattle.t1_text.specs.Dialect.{Blank, ends_comment, spacing, white_in, gap_in, strict, wide, without};

use t1_bytes::texts::{gap_at, is_white, white_at};

/// What may stand between two words.
#[derive(Clone, Copy)]
pub enum Spacing {
    /// White space alone.
    White,
    /// White space and comments.
    Comments,
}

/// By which rules a font may be spelled, beside those of the standard.
#[derive(Clone, Copy)]
pub struct Dialect {
    /// What may stand between the words of an Encoding.
    pub encoding: Spacing,
    /// Whether an Encoding's table may copy the names of codes.
    pub copies: bool,
    /// Whether `readonly` may stand behind a word that is the whole Encoding.
    pub readonly: bool,
    /// What may stand before an entry of Subrs, and before the words that close them.
    pub subrs: Spacing,
}

/// Whether a byte ends a comment.
fn ends_comment(byte: u8) -> bool
    ensures { result ≡ ends_comment byte }
{
    byte == b'\n' || byte == b'\x0c' || byte == b'\r'
}

/// How many bytes of white space and comments come first.
fn spacing_len(bytes: &[u8]) -> usize
    ensures { result ≡ taken spacing Blank bytes.now }
{
    let mut in_comment = false;
    let mut len = 0;
    'bytes: for byte in bytes {
        if in_comment {
            in_comment = !ends_comment(*byte);
        } else if *byte == b'%' {
            in_comment = true;
        } else if !is_white(*byte) {
            return len;
        }
        len += 1;
    }
    len
}

/// One of these rules.
#[derive(Clone, Copy)]
pub enum Rule {
    /// Comments may stand in the Encoding.
    EncodingComments,
    /// An Encoding's table may copy the names of codes.
    CopiedCodes,
    /// `readonly` may stand behind a word that is the whole Encoding.
    ReadonlyWord,
    /// Comments may stand among Subrs.
    SubrsComments,
}

impl Spacing {
    /// What stands between two words, and what stands after it.
    pub fn white_at(self, bytes: &[u8]) -> (&[u8], &[u8])
        ensures { Some (result.0.now, result.1.now) ≡ (white_in self).read bytes.now }
    {
        match self {
            Spacing::White => white_at(bytes),
            Spacing::Comments => bytes.split_at(spacing_len(bytes)),
        }
    }

    /// What stands between two words that nothing else keeps apart, and what stands after it.
    pub fn gap_at(self, bytes: &[u8]) -> Option<(&[u8], &[u8])>
        ensures { option_map (λ x. (x.0.now, x.1.now)) result ≡ (gap_in self).read bytes.now }
    {
        match self {
            Spacing::White => gap_at(bytes),
            Spacing::Comments => {
                let (front, rest) = self.white_at(bytes);
                if front.is_empty() {
                    return None;
                }
                Some((front, rest))
            }
        }
    }
}

impl Dialect {
    /// None of these rules.
    pub fn strict() -> Dialect
        ensures { result ≡ strict }
    {
        Dialect {
            encoding: Spacing::White,
            copies: false,
            readonly: false,
            subrs: Spacing::White,
        }
    }

    /// All of them.
    pub fn wide() -> Dialect
        ensures { result ≡ wide }
    {
        Dialect {
            encoding: Spacing::Comments,
            copies: true,
            readonly: true,
            subrs: Spacing::Comments,
        }
    }

    /// Without one of them.
    pub fn without(self, rule: Rule) -> Dialect
        ensures { result ≡ without rule self }
    {
        let mut dialect = self;
        match rule {
            Rule::EncodingComments => dialect.encoding = Spacing::White,
            Rule::CopiedCodes => dialect.copies = false,
            Rule::ReadonlyWord => dialect.readonly = false,
            Rule::SubrsComments => dialect.subrs = Spacing::White,
        }
        dialect
    }
}
