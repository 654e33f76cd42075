//! Reading a whole input.
ghost use Rattle.std.specs.Prelude.{◌≡◌, ◌+◌, ◌≤◌, IfOk, IfErr, IfSome, length};
ghost use Rattle.t1_cmd.specs.{Count.{calls_counted, failed_of, inner_of}, Runs.{ReadRefusal}};

use crate::counting::Counted;
use crate::faults::{Reason, RunFault};
use std::alloc::Global;
use std::io::{ErrorKind, Read};

/// How many bytes are asked for at a time.
const CHUNK: usize = 8192;

/// All the bytes of a reader, which is called at most `limit + 1` times, interrupted calls included.
///
/// `TooLong` comes after the call that brought more than `limit` bytes. `Read` is answered only if a call
/// failed: any other call brings a byte or is the end.
pub fn read_all<R: Read>(
    alloc: Global,
    reader: &mut Counted<R>,
    limit: usize,
) -> Result<Vec<u8>, RunFault>
    ensures all { IfOk result (λ v. IfSome (R.remaining (inner_of reader.old)) (λ xs. v.items
        ≡ xs)) }
    ensures short { IfOk result (λ v. length v.items ≤ limit) }
    ensures refused { IfErr result
        (ReadRefusal limit (R.remaining (inner_of reader.old)) (failed_of reader.old)
        (failed_of reader.new)) }
    ensures turns { calls_counted reader.new ≤ calls_counted reader.old + (limit + 1) }
    ensures kept { failed_of reader.old ≤ failed_of reader.new }
{
    let mut bytes = Vec::new(alloc);
    let mut buffer = [0u8; CHUNK];
    for _turn in 0..=limit {
        match reader.read(&mut buffer) {
            Ok(0) => return Ok(bytes),
            Ok(n) => {
                if n > limit - bytes.len() {
                    return Err(RunFault::Refused(Reason::TooLong));
                }
                if bytes.extend_from_slice(&buffer[..n]).is_err() {
                    return Err(RunFault::Refused(Reason::Memory));
                }
            }
            Err(e) => {
                if e.kind() != ErrorKind::Interrupted {
                    return Err(RunFault::Read);
                }
            }
        }
    }
    Err(RunFault::Read)
}
