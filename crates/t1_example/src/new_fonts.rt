//! A caller of `t1_document`.

ghost use Rattle.std.specs.Prelude.{◌≡◌, IfOk};
ghost use Rattle.t1_document.specs.Rewriting.{levelled};
ghost use Rattle.t1_example.specs.NewFonts.{only};

use std::alloc::{AllocError, Global};
use t1_document::{Texts, read_document};

/// A PostScript document in which each place of this name has another font text, if that can stand at all of them.
pub fn with_font(
    alloc: Global,
    text: &[u8],
    name: &[u8],
    font: &[u8],
) -> Result<Vec<u8>, AllocError>
    ensures { IfOk result (λ v. v.items ≡ levelled (only name.now font.now) text.now) }
{
    let document = read_document(alloc, text)?;
    let mut texts = Texts::new(alloc);
    texts.put(name, font)?;
    document.level(alloc, &texts)
}
