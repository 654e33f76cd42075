//! A caller of `t1_font`.

ghost use Rattle.std.specs.Prelude.{◌≡◌, ◌⊎◌, Err, IfOk, IfErr};
ghost use Rattle.t1_font.specs.{declared.fault.ReadFault.TheVariants.{Memory}, ReadFont.{read_font}};

use std::alloc::Global;
use t1_font::{Form, ReadFault, read, write};

/// The canonical file of a file's font, a PFB: it is read as the same font.
pub fn respelled(alloc: Global, file: &[u8]) -> Result<Vec<u8>, ReadFault>
    ensures same { IfOk result (λ v. read_font v.items ≡ read_font file.now) }
    ensures refused { IfErr result (λ e. (e ≡ Memory) ⊎ (read_font file.now ≡ Err e)) }
{
    let source = read(alloc, file)?;
    let font = source.font(alloc)?;
    let file = write(alloc, &font, Form::Pfb);
    drop(font);
    Ok(file?)
}
