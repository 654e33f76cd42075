//! Each call that reads and writes, over the two files of Tiny. `tools/sweep_growths.py` refuses one growth after the
//! other: a call that then answers want of memory gives the right answer when it is made again.

use super::wide::with_copies;
use std::alloc::Global;
use t1_font::{Form, ReadFault, mends, read_vec, read_wide, read_wide_vec, write};
use t1_font_shared_tests::{of_source, rewritten, seen};
use t1_tiny::{PFA, PFB};

/// Whether a file of Tiny is written again in both forms, and takes its place where its bytes are handed over.
fn is_written_again(alloc: Global, file: &[u8]) -> Result<bool, ReadFault> {
    let pfa = rewritten(alloc, file, Form::Pfa)?;
    let pfb = rewritten(alloc, file, Form::Pfb)?;
    let taken = seen(read_vec(alloc, Vec::from_slice(alloc, file)?), |_| true)?;
    Ok(taken && pfa.as_slice() == PFA.as_slice() && pfb.as_slice() == PFB.as_slice())
}

/// Whether Tiny with codes that are copied is read widely as Tiny, lent and handed over, and is mended in two places.
fn is_read_widely(alloc: Global) -> Result<bool, ReadFault> {
    let file = with_copies(alloc)?;
    let told = seen(mends(alloc, file.as_slice()), |mends| mends.len() == 2)?;
    let lent = of_source(
        alloc,
        read_wide(alloc, file.as_slice()),
        |font| write(alloc, font, Form::Pfa),
    )?;
    let handed_over = of_source(
        alloc,
        read_wide_vec(alloc, file),
        |font| write(alloc, font, Form::Pfa),
    )?;
    Ok(told && lent.as_slice() == PFA.as_slice() && handed_over.as_slice() == PFA.as_slice())
}

/// Whether a file of Tiny is written again, even if memory is wanting the first time.
fn is_written_in_the_end(alloc: Global, file: &[u8]) -> bool {
    let right = match is_written_again(alloc, file) {
        Err(ReadFault::Memory) => is_written_again(alloc, file),
        answer => answer,
    };
    right == Ok(true)
}

#[test]
fn growths_of_files(rt: HostRuntime) {
    assert!(rt; is_written_in_the_end(rt.alloc(), PFA));
    assert!(rt; is_written_in_the_end(rt.alloc(), PFB));
}

#[test]
fn growths_of_wide_files(rt: HostRuntime) {
    let right = match is_read_widely(rt.alloc()) {
        Err(ReadFault::Memory) => is_read_widely(rt.alloc()),
        answer => answer,
    };
    assert!(rt; right == Ok(true));
}
