//! Each engine over one font, and listings that join, with room for what is written. `tools/sweep_growths.py` refuses one growth
//! after the other: an engine that is then refused memory writes nothing, and writes right when it is run again.
use super::{LEFT, RIGHT};
use std::alloc::{AllocError, Global};
use t1_cmd::{
    Counted, Reason, RunFault, join_listings, list_mends, read_all, read_codes, run_join,
    write_fault, write_fault_of,
};
use t1_cmd_shared_tests::engines::{Engine, TINY_IN_FULL, TINY_LISTED, made, run};
use t1_cmd_shared_tests::texts;
use t1_cmd_shared_tests::texts::{joined, makes_of, wrote};
use t1_font::Form;
use t1_tiny::{PFA, PFB};

/// Whether an engine writes this of a file.
fn writes(
    alloc: Global,
    engine: Engine<'_>,
    input: &[u8],
    want: &[u8],
) -> Result<bool, AllocError> {
    let mut out = Vec::with_capacity(alloc, want.len())?;
    let ended = run(
        alloc,
        engine,
        &mut Counted::new(input),
        &mut Counted::new(&mut out),
    );
    wrote(out, ended, want)
}

/// Whether the call below an engine makes this of a file.
fn makes(alloc: Global, engine: Engine<'_>, file: &[u8], want: &[u8]) -> Result<bool, AllocError> {
    texts::makes(made(alloc, engine, file), want)
}

/// Whether an engine writes this of Tiny, and the call below it makes it.
fn answers(alloc: Global, engine: Engine<'_>, want: &[u8]) -> Result<bool, AllocError> {
    Ok(writes(alloc, engine, PFA, want)? && makes(alloc, engine, PFA, want)?)
}

/// Whether the subset of the code of X is this, and the list of this code is read.
fn subsets_by_codes(alloc: Global, want: &[u8]) -> Result<bool, AllocError> {
    match read_codes(alloc, b"65") {
        Ok(Some(codes)) if codes.as_slice() == b"A".as_slice() => {
            answers(alloc, Engine::Codes(&[], b"A", Form::Pfa), want)
        }
        Ok(_) => Ok(false),
        Err(fault) => Err(fault),
    }
}

/// Whether the subset of X has its size, and is written and made.
fn subsets(alloc: Global) -> Result<bool, AllocError> {
    const X: Engine<'static> = Engine::Subset(&[b"X"], Form::Pfa);
    match made(alloc, X, PFA) {
        Ok(text) => {
            let text = text.as_slice();
            Ok(text.len() == 2224 && answers(alloc, X, text)? && subsets_by_codes(alloc, text)?)
        }
        Err(Reason::Memory) => Err(AllocError),
        Err(reason) => {
            drop(reason);
            Ok(false)
        }
    }
}

/// Whether Tiny is listed in full.
fn lists_in_full(alloc: Global) -> Result<bool, AllocError> {
    let want = joined(alloc, &[TINY_LISTED, TINY_IN_FULL])?;
    answers(alloc, Engine::ListFull, want.as_slice())
}

/// Whether two listings join to this text.
fn joins(alloc: Global, left: &[u8], right: &[u8], want: &[u8]) -> Result<bool, AllocError> {
    let mut out = Vec::with_capacity(alloc, want.len())?;
    let ended = run_join(
        alloc,
        &mut Counted::new(left),
        &mut Counted::new(right),
        &mut Counted::new(&mut out),
    );
    wrote(out, ended, want)
}

/// Whether a file is read whole.
fn reads(alloc: Global) -> Result<bool, AllocError> {
    match read_all(alloc, &mut Counted::new(PFA.as_slice()), PFA.len()) {
        Ok(bytes) => Ok(bytes.as_slice() == PFA.as_slice()),
        Err(RunFault::Refused(Reason::Memory)) => Err(AllocError),
        Err(fault) => {
            drop(fault);
            Ok(false)
        }
    }
}

/// Whether a fault is told by its line.
fn tells(alloc: Global) -> Result<bool, AllocError> {
    let mut out = Vec::with_capacity(alloc, 20)?;
    let ended = write_fault(alloc, &RunFault::Read, &mut Counted::new(&mut out));
    wrote(out, ended, b"failed: read\n")
}

/// Whether a fault is told by its line behind a path.
fn tells_of(alloc: Global) -> Result<bool, AllocError> {
    let mut out = Vec::with_capacity(alloc, 20)?;
    let ended = write_fault_of(alloc, b"a b", &RunFault::Write, &mut Counted::new(&mut out));
    wrote(out, ended, b"a b: failed: write\n")
}

const CHECKED: &[u8] = b"ok 11 glyphs, 10 subrs, weight 4936\n";

const CHECKED_OF: &[u8] = b"tiny: ok 11 glyphs, 10 subrs, weight 4936\n";

const SHOWN: &[u8] = b"width 300 0
bearing 50 0
part 0 0
move 50 0
line 150 0
line 150 700
line 50 700
close
";

const LISTED: &[u8] = b"S 5 ef060b\nG X 8b0e\nG Y 0e\n";

/// Whether it is told that nothing is mended of Tiny.
fn tells_nothing(alloc: Global) -> Result<bool, AllocError> {
    texts::makes(list_mends(alloc, PFB), b"")
}

/// The engines over Tiny's PFA, and what they write.
const ENGINES: &[(Engine<'static>, &[u8])] = &[
    (Engine::Check, CHECKED),
    (Engine::CheckOf(b"tiny"), CHECKED_OF),
    (Engine::List, TINY_LISTED),
    (Engine::Show(b"X"), SHOWN),
    (Engine::Convert(Form::Pfb), PFB),
    (Engine::Mend(Form::Pfb), PFB),
];

/// Whether each of these engines writes right, and the call below it makes the same.
fn engines_write(alloc: Global) -> Result<bool, AllocError> {
    for &(engine, want) in ENGINES {
        if !answers(alloc, engine, want)? {
            return Ok(false);
        }
    }
    Ok(true)
}

/// Whether faults are told, and that nothing is mended, and a file is read.
fn tells_right(alloc: Global) -> Result<bool, AllocError> {
    Ok(tells(alloc)? && tells_of(alloc)? && tells_nothing(alloc)? && reads(alloc)?)
}

/// Whether the engines write right, and the calls over listings answer right.
fn write_right(alloc: Global) -> Result<bool, AllocError> {
    let fonts = engines_write(alloc)? && lists_in_full(alloc)? && subsets(alloc)?;
    let texts = joins(alloc, LEFT, RIGHT, LISTED)?
        && makes_of(join_listings(alloc, LEFT, RIGHT), LISTED)?;
    Ok(fonts && texts && tells_right(alloc)?)
}

#[test]
fn growths(rt: HostRuntime) {
    let right = match write_right(rt.alloc()) {
        Err(AllocError) => write_right(rt.alloc()),
        answer => answer,
    };
    assert!(rt; right == Ok(true));
}
