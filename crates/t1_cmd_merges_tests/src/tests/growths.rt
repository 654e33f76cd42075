//! Each engine over several fonts, and the call below it, with room for what it writes. `tools/sweep_growths.py` refuses one
//! growth after the other: an engine that is then refused memory writes nothing, and writes right when it is run again.
use std::alloc::{AllocError, Global};
use t1_cmd::{Counted, diff_files, run_diff, run_merge, run_rejoin};
use t1_cmd_shared_tests::changed::{tagged, with_all};
use t1_cmd_shared_tests::lists::{List, made_of};
use t1_cmd_shared_tests::texts::{done, makes_of, wrote};
use t1_font::Form;
use t1_tiny::{PFA, PFB};

/// Whether the call below an engine over a list makes Tiny's PFA of its two files.
fn makes_of_both(alloc: Global, list: List) -> Result<bool, AllocError> {
    makes_of(made_of(alloc, list, &[PFA, PFB]), PFA)
}

/// Whether Tiny's two files, one of them twice, merge to its PFA.
fn merges(alloc: Global) -> Result<bool, AllocError> {
    let mut readers = [
        Counted::new(PFA.as_slice()),
        Counted::new(PFB.as_slice()),
        Counted::new(PFA.as_slice()),
    ];
    let mut out = Vec::with_capacity(alloc, PFA.len())?;
    let ended = run_merge(alloc, &mut readers, Form::Pfa, &mut Counted::new(&mut out));
    wrote(out, ended, PFA)
}

/// Whether a file and Tiny's two files rejoin to its PFA.
fn rejoins_with(alloc: Global, file: &[u8]) -> Result<bool, AllocError> {
    let mut readers = [
        Counted::new(file),
        Counted::new(PFB.as_slice()),
        Counted::new(PFA.as_slice()),
    ];
    let mut out = Vec::with_capacity(alloc, PFA.len())?;
    let ended = run_rejoin(alloc, &mut readers, Form::Pfa, &mut Counted::new(&mut out));
    wrote(out, ended, PFA)
}

/// Whether Tiny with a tag does.
fn rejoins(alloc: Global) -> Result<bool, AllocError> {
    let file = tagged(alloc, PFA, b"/FontName /ABCDEF+Tiny")?;
    rejoins_with(alloc, file.as_slice())
}

const DIFFERENCE: &[u8] = b"code 66 differs\n";

/// Whether the engine tells the conflict of Tiny and of this file.
fn differs_from(alloc: Global, other: &[u8]) -> Result<bool, AllocError> {
    let mut out = Vec::with_capacity(alloc, DIFFERENCE.len())?;
    let ended = run_diff(
        alloc,
        &mut Counted::new(PFA.as_slice()),
        &mut Counted::new(other),
        &mut Counted::new(&mut out),
    );
    wrote(out, done(ended), DIFFERENCE)
}

/// Whether the conflict of Tiny and of it with another name of a code is told, by the engine and by the call over files.
fn differs(alloc: Global) -> Result<bool, AllocError> {
    let other = with_all(alloc, PFA, b"dup 66 /Y put", b"dup 66 /A put")?;
    let other = other.as_slice();
    Ok(differs_from(alloc, other)? && makes_of(diff_files(alloc, PFA, other), DIFFERENCE)?)
}

/// Whether each of them answers right.
fn are_right(alloc: Global) -> Result<bool, AllocError> {
    let lists = makes_of_both(alloc, List::Merge(Form::Pfa))?
        && makes_of_both(alloc, List::Rejoin(Form::Pfa))?;
    Ok(lists && merges(alloc)? && rejoins(alloc)? && differs(alloc)?)
}

#[test]
fn growths_of_mergers(rt: HostRuntime) {
    let right = match are_right(rt.alloc()) {
        Err(AllocError) => are_right(rt.alloc()),
        answer => answer,
    };
    assert!(rt; right == Ok(true));
}
