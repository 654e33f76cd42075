//! The lines that report a fault.
ghost use Rattle.std.specs.{Prelude.{◌≡◌, ◌++◌, OnOk, IfOk}, Fmt.{decimal}};
ghost use Rattle.t1_join.specs.Shown.{shown};
ghost use Rattle.t1_cmd.specs.Texts.{fault_line, fault_line_of};

use crate::faults::RunFault;
use itoa::Buffer;
use std::alloc::{AllocError, Global};
use t1_join::Shown;

/// Adds a name at the end, as it is printed.
pub(crate) fn push_shown(alloc: Global, out: &mut Vec<u8>, name: &[u8]) -> Result<(), AllocError>
    ensures { OnOk result (out.new.items ≡ out.old.items ++ shown name.now) }
{
    let shown = Shown(name);
    if shown.is_plain() {
        return out.extend_from_slice(name);
    }
    let text = shown.to_string(alloc)?;
    out.extend_from_slice(text.as_bytes())
}

/// Adds a number at the end.
pub(crate) fn push_number(out: &mut Vec<u8>, n: usize) -> Result<(), AllocError>
    ensures { OnOk result (out.new.items ≡ out.old.items ++ decimal n) }
{
    let mut buffer = Buffer::new();
    out.extend_from_slice(buffer.format(n).as_bytes())
}

// The words, and then the number.
pub(crate) fn push_about(out: &mut Vec<u8>, words: &[u8], n: usize) -> Result<(), AllocError>
    ensures { OnOk result (out.new.items ≡ out.old.items ++ (words.now ++ decimal n)) }
{
    out.extend_from_slice(words)?;
    push_number(out, n)
}

/// The line that reports a fault: its text, and a line feed.
pub fn fault_line_of(alloc: Global, fault: &RunFault) -> Result<Vec<u8>, AllocError>
    ensures { IfOk result (λ line. line.items ≡ fault_line fault.now) }
{
    let mut line = fault.to_string(alloc)?.into_bytes();
    line.push(b'\n')?;
    Ok(line)
}

/// The same line behind the path of a file, a colon and a blank.
pub fn fault_line_behind(
    alloc: Global,
    path: &[u8],
    fault: &RunFault,
) -> Result<Vec<u8>, AllocError>
    ensures { IfOk result (λ line. line.items ≡ fault_line_of path.now fault.now) }
{
    let line = fault_line_of(alloc, fault)?;
    let mut text = Vec::new(alloc);
    text.extend_from_slice(path)?;
    text.extend_from_slice(b": ")?;
    text.extend_from_slice(line.as_slice())?;
    Ok(text)
}
