//! Sources normalized: fonts that other programs cut get normalized texts, and declare one count of Subrs.

ghost use Rattle.std.specs.{Prelude.{◌≡◌, IfOk}, Option.{option_map}};
ghost use Rattle.t1_font.specs.{FontValue.{declared_count}, FontModel.{subrs_view}};
ghost use Rattle.t1_font.specs.Normalizing.{raised, normal_shell, normal, largest_count, each_normal, normalized_shells};

use crate::font_boxes::normalize_boxes;
use crate::normal_texts::{ClearTexts, KeptText, normal_clear, normal_text, squeezed_text};
use crate::shell::{KeptSubrs, Shell};
use crate::source::{Source, SourceParts};
use std::alloc::{AllocError, Global};
use t1_join::push_item;

/// A table of Subrs that declares at least this many.
fn raised(
    alloc: Global,
    kept: &Option<KeptSubrs>,
    declared: u16,
) -> Result<Option<KeptSubrs>, AllocError>
    ensures { IfOk result (λ s. option_map subrs_view s
        ≡ option_map (raised declared) (option_map subrs_view kept.now)) }
{
    match kept {
        Some(kept) => Ok(Some(KeptSubrs {
            declared: if kept.declared < declared {
                declared
            } else {
                kept.declared
            },
            rd: Vec::from_slice(alloc, kept.rd.as_slice())?,
            put: Vec::from_slice(alloc, kept.put.as_slice())?,
            closing: Vec::from_slice(alloc, kept.closing.as_slice())?,
        })),
        None => Ok(None),
    }
}

/// A shell whose texts are normalized, and whose table declares at least this many Subrs.
fn normal_shell(alloc: Global, shell: &Shell, declared: u16) -> Result<Shell, AllocError>
    ensures { IfOk result (λ s. s ≡ normal_shell declared shell.now) }
{
    let ClearTexts { head, clear_tail } = normal_clear(
        alloc,
        shell.head.as_slice(),
        shell.clear_tail.as_slice(),
    )?;
    let private = normal_text(
        alloc,
        KeptText::Private(shell.len_iv),
        shell.private.as_slice(),
    )?;
    Ok(Shell {
        head,
        clear_tail,
        private,
        middle: squeezed_text(alloc, KeptText::Middle, shell.middle.as_slice())?,
        tail: squeezed_text(alloc, KeptText::Tail, shell.tail.as_slice())?,
        len_iv: shell.len_iv,
        subrs: raised(alloc, &shell.subrs, declared)?,
        glyphs_rd: Vec::from_slice(alloc, shell.glyphs_rd.as_slice())?,
        glyphs_def: Vec::from_slice(alloc, shell.glyphs_def.as_slice())?,
    })
}

impl Source {
    /// How many Subrs the font declares, 0 if there is no table of them.
    pub fn declared_count(&self) -> u16
        ensures { result ≡ declared_count self.now.shell.subrs }
    {
        self.parts.shell.declared_count()
    }

    /// The font with its five kept texts normalized, and with at least this declared count if it has a table of Subrs.
    ///
    /// Each longest run of blanks, tabs, CR and LF becomes one LF if it has CR or LF, else one blank; runs within strings, too,
    /// which draw nothing. Then lines of the head, of the clear tail and of the private text that number the font (`/UniqueID`,
    /// `/XUID`) go, where the text ends or a name, a comment or `currentdict` follows; of a comment that would be such a line without
    /// its `%`, that `%` stays, as cairo leaves it. Then the font's name loses its tags in each word of the head
    /// and of the clear tail that begins with it; it is what stands behind the first `/FontName`, white space and a slash of the head, or
    /// else of the clear tail.
    ///
    /// A step is taken where its results are again texts of a font, and stay when it and those before it are tried again. So a font
    /// whose name without tags would be `Encoding` keeps its tags, since that name would begin an Encoding.
    ///
    /// # Errors
    ///
    /// A growth was refused.
    pub fn normalize(self, alloc: Global, declared: u16) -> Result<Source, AllocError>
        ensures { IfOk result (λ f. f ≡ normal declared self) }
    {
        let shell = match normal_shell(alloc, &self.parts.shell, declared) {
            Ok(shell) => shell,
            Err(fault) => {
                drop(self);
                return Err(fault);
            }
        };
        let mut parts = self.parts;
        parts.shell = shell;
        Ok(Source { parts })
    }
}

/// The largest declared count of some sources.
fn largest_count(sources: &[Source]) -> u16
    ensures { result ≡ largest_count sources.now }
{
    let mut largest = 0;
    'sources: for source in sources {
        let declared = source.declared_count();
        if largest < declared {
            largest = declared;
        }
    }
    largest
}

/// The sources with normalized texts ([`Source::normalize`]), each with the largest declared count among them.
fn each_normal(alloc: Global, sources: Vec<Source>) -> Result<Vec<Source>, AllocError>
    ensures { IfOk result (λ all. all.items ≡ each_normal sources.items) }
{
    let declared = largest_count(sources.as_slice());
    let mut all = Vec::with_capacity(alloc, sources.len())?;
    'sources: for source in sources {
        // Spelled out: with `?` each source that is left would be dropped field by field, and each step proved.
        let source = match source.normalize(alloc, declared) {
            Ok(source) => source,
            Err(fault) => return Err(fault),
        };
        push_item(&mut all, source)?;
    }
    Ok(all)
}

/// The sources with normalized texts ([`Source::normalize`]), each with the largest declared count among them, and then with one FontBBox
/// ([`normalize_boxes`]): fonts that other programs cut differ in white space, in lines that number the font and in tags, declare no
/// Subrs after the last one that is used, and have boxes of their own where a program converted them.
///
/// The sources are consumed whatever the answer is; after an error none of them is left.
///
/// # Errors
///
/// A growth was refused.
pub fn normalize_shells(alloc: Global, sources: Vec<Source>) -> Result<Vec<Source>, AllocError>
    ensures { IfOk result (λ all. all.items ≡ normalized_shells sources.items) }
{
    match each_normal(alloc, sources) {
        Ok(sources) => normalize_boxes(alloc, sources),
        Err(fault) => Err(fault),
    }
}
