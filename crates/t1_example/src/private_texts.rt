//! A caller of `t1_bytes`.

ghost use Rattle.std.specs.Prelude.{◌≡◌, IfOk, IfErr};
ghost use Rattle.t1_bytes.specs.declared.fault.BytesFault.TheVariants.{Memory};

use std::alloc::Global;
use t1_bytes::{BytesFault, EEXEC_KEY, EEXEC_LEAD, laws, open, seal};

/// A private text, encrypted as `eexec` wants it, and decrypted again.
pub fn sealed_and_opened(alloc: Global, text: &[u8]) -> Result<Vec<u8>, BytesFault>
    ensures same { IfOk result (λ v. v.items ≡ text.now) }
    ensures refused { IfErr result (λ e. e ≡ Memory) }
{
    laws::opens_sealed();
    let cipher = seal(alloc, text, EEXEC_KEY, EEXEC_LEAD)?;
    Ok(open(cipher, EEXEC_KEY, EEXEC_LEAD))
}
