//! Writing a whole text.
ghost use Rattle.std.specs.{Prelude.{◌≡◌, ◌+◌, IfErr, OnOk, OnErr}, Io.KnownBytes.{Appends}};
ghost use Rattle.t1_cmd.specs.{Count.{failed_of, inner_of}, Inputs.{RoseByOne}, Runs.{AppendsPrefix, WriteRefusal}, Texts.{fault_line, fault_line_of}};

use crate::counting::Counted;
use crate::faults::{Reason, RunFault};
use crate::texts::{fault_line_behind, fault_line_of};
use std::alloc::Global;
use std::io::Write;

/// Writes a whole text by calls of `write`, and does not flush. The first call that fails, is interrupted or takes
/// no byte is the last, and the answer is `Write`; an empty text makes no call.
pub fn write_text<W: Write>(writer: &mut Counted<W>, text: &[u8]) -> Result<(), RunFault>
    ensures whole { OnOk result
        (Appends (W.contents (inner_of writer.old)) (W.contents (inner_of writer.new)) text.now) }
    ensures fault { IfErr result (λ e. e ≡ RunFault.Write) }
    ensures prefix { OnErr result
        (AppendsPrefix (W.contents (inner_of writer.old))
        (W.contents (inner_of writer.new)) text.now) }
    ensures rose { OnErr result (RoseByOne (failed_of writer.old) (failed_of writer.new)) }
    ensures fine { OnOk result (failed_of writer.new ≡ failed_of writer.old) }
{
    let mut at = 0;
    while at < text.len() {
        match writer.write(&text[at..]) {
            Ok(n) if n > 0 => at += n,
            _ => return Err(RunFault::Write),
        }
    }
    Ok(())
}

/// Makes the line that reports a fault, and then writes it.
pub fn write_fault<W: Write>(
    alloc: Global,
    fault: &RunFault,
    writer: &mut Counted<W>,
) -> Result<(), RunFault>
    ensures whole { OnOk result
        (Appends (W.contents (inner_of writer.old)) (W.contents (inner_of writer.new))
        (fault_line fault.now)) }
    ensures refused { IfErr result
        (WriteRefusal (fault_line fault.now) (W.contents (inner_of writer.old))
        (W.contents (inner_of writer.new)) (failed_of writer.old) (failed_of writer.new)) }
{
    match fault_line_of(alloc, fault) {
        Ok(line) => write_text(writer, line.as_slice()),
        Err(_) => Err(RunFault::Refused(Reason::Memory)),
    }
}

/// Makes the line that reports a fault behind the path of a file, as it stands, a colon and a blank, and then writes it.
pub fn write_fault_of<W: Write>(
    alloc: Global,
    path: &[u8],
    fault: &RunFault,
    writer: &mut Counted<W>,
) -> Result<(), RunFault>
    ensures whole { OnOk result
        (Appends (W.contents (inner_of writer.old)) (W.contents (inner_of writer.new))
        (fault_line_of path.now fault.now)) }
    ensures refused { IfErr result
        (WriteRefusal (fault_line_of path.now fault.now) (W.contents (inner_of writer.old))
        (W.contents (inner_of writer.new)) (failed_of writer.old) (failed_of writer.new)) }
{
    match fault_line_behind(alloc, path, fault) {
        Ok(line) => write_text(writer, line.as_slice()),
        Err(_) => Err(RunFault::Refused(Reason::Memory)),
    }
}
