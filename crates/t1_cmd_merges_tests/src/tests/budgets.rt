//! Commands within budgets of tokens.
use std::alloc::Global;
use std::test::Fail;
use t1_cmd::{
    Budget, Counted, RunFault, diff_files_within, merge_files_within, rejoin_files_within,
    run_diff_within, run_merge_within, run_rejoin_within, run_subset_within, subset_file_within,
};
use t1_cmd_shared_tests::changed::tiny_changed;
use t1_cmd_shared_tests::diffs::{OTHER, other};
use t1_cmd_shared_tests::engines::{Engine, of_tiny};
use t1_cmd_shared_tests::texts::{done, made_or_line, of_files_or_line, text_or_line};
use t1_font::Form;
use t1_tiny::{PFA, PFB};

/// More tokens than all glyphs of two fonts like Tiny execute.
const ENOUGH: u64 = 10_000;

/// What an engine wrote, or the line of its refusal, if the call below it has this answer, too; else nothing.
fn agreed(alloc: Global, out: Vec<u8>, ended: Result<(), RunFault>, made: Vec<u8>) -> Vec<u8> {
    let written = text_or_line(alloc, out, ended);
    if made.as_slice() == written.as_slice() {
        made
    } else {
        Vec::new(alloc)
    }
}

/// What the subset of a file's font over names and codes is answered with.
fn cut(alloc: Global, file: &[u8], names: &[&[u8]], codes: &[u8], left: u64) -> Vec<u8> {
    let budget = Budget { left: Some(left) };
    let mut out = Vec::new(alloc);
    let ended = run_subset_within(
        alloc,
        &mut Counted::new(file),
        names,
        codes,
        Form::Pfa,
        budget,
        &mut Counted::new(&mut out),
    );
    let made = subset_file_within(alloc, file, names, codes, Form::Pfa, budget);
    agreed(alloc, out, ended, made_or_line(alloc, made))
}

const TOO_MANY: &[u8] = b"refused: too many tokens\n";

/// A file, names and codes, and what is answered.
type Row = (
    &'static [u8],
    &'static [&'static [u8]],
    &'static [u8],
    &'static [u8],
);

/// Files, names and codes that are refused without a token, and the line.
const REFUSED: &[Row] = &[
    (PFA, &[], b"", TOO_MANY),
    (PFB, &[b"X"], b"B", TOO_MANY),
    (PFA, &[b"X", b"Zed"], b"A", b"refused: no glyph Zed\n"),
    (PFB, &[b"Zed"], b"\xff", b"refused: no code 255\n"),
    (b"%!", &[b"X"], b"", b"refused: no eexec\n"),
];

/// Whether this is what it is answered with.
fn is_cut(alloc: Global, (file, names, codes, want): Row, left: u64) -> bool {
    cut(alloc, file, names, codes, left).as_slice() == want
}

// meets run_subset_within TooManyTokens at 0, 1 names
// like run_subset_within: subset_file_within
#[test]
fn subsets_within_budgets(rt: HostRuntime) {
    let alloc = rt.alloc();
    for &row in REFUSED {
        assert!(rt; is_cut(alloc, row, 0));
    }
    let want = of_tiny(alloc, Engine::Subset(&[b"X", b"Y"], Form::Pfa));
    let got = cut(alloc, PFB, &[b"X"], b"B", ENOUGH);
    assert!(rt; got.as_slice() == want.as_slice());
}

/// What a merger of files is answered with.
fn merged(alloc: Global, files: [&[u8]; 2], left: u64) -> Vec<u8> {
    let budget = Budget { left: Some(left) };
    let mut readers = [Counted::new(files[0]), Counted::new(files[1])];
    let mut out = Vec::new(alloc);
    let ended = run_merge_within(
        alloc,
        &mut readers,
        Form::Pfa,
        budget,
        &mut Counted::new(&mut out),
    );
    let made = merge_files_within(alloc, &files, Form::Pfa, budget);
    agreed(alloc, out, ended, of_files_or_line(alloc, made))
}

/// A file beside Tiny, and how both are refused where there are no tokens and they are merged or rejoin.
const BESIDE: &[(&[u8], &[u8])] = &[(PFB, TOO_MANY), (b"%!", b"refused: no eexec\n")];

// meets run_merge_within TooManyTokens at 2 fonts
// like run_merge_within: merge_files_within
#[test]
fn mergers_within_budgets(rt: HostRuntime) -> Result<(), Fail> {
    let alloc = rt.alloc();
    for &(file, want) in BESIDE {
        assert!(rt; merged(alloc, [PFA, file], 0).as_slice() == want);
    }
    assert!(rt; merged(alloc, [PFA, PFB], ENOUGH).as_slice() == PFA.as_slice());
    let changed = tiny_changed(alloc, b"5839", b"5840")?;
    let line = merged(alloc, [PFA, changed.as_slice()], 0);
    assert!(rt; line.as_slice() == b"refused: shells differ in private\n".as_slice());
    Ok(())
}

/// What files rejoin to.
fn rejoined(alloc: Global, files: [&[u8]; 2], left: u64) -> Vec<u8> {
    let budget = Budget { left: Some(left) };
    let mut readers = [Counted::new(files[0]), Counted::new(files[1])];
    let mut out = Vec::new(alloc);
    let ended = run_rejoin_within(
        alloc,
        &mut readers,
        Form::Pfa,
        budget,
        &mut Counted::new(&mut out),
    );
    let made = rejoin_files_within(alloc, &files, Form::Pfa, budget);
    agreed(alloc, out, ended, of_files_or_line(alloc, made))
}

// meets run_rejoin_within TooManyTokens at 2 fonts
// like run_rejoin_within: rejoin_files_within
#[test]
fn rejoined_within_budgets(rt: HostRuntime) {
    for &(file, want) in BESIDE {
        assert!(rt; rejoined(rt.alloc(), [PFA, file], 0).as_slice() == want);
    }
    assert!(rt; rejoined(rt.alloc(), [PFA, PFB], ENOUGH).as_slice() == PFA.as_slice());
}

/// The lines of the conflicts of two files.
fn conflicts(alloc: Global, files: [&[u8]; 2], left: u64) -> Vec<u8> {
    let budget = Budget { left: Some(left) };
    let mut out = Vec::new(alloc);
    let ended = run_diff_within(
        alloc,
        &mut Counted::new(files[0]),
        &mut Counted::new(files[1]),
        budget,
        &mut Counted::new(&mut out),
    );
    let made = diff_files_within(alloc, files[0], files[1], budget);
    agreed(alloc, out, done(ended), of_files_or_line(alloc, made))
}

// meets run_diff_within TooManyTokens at 2 fonts
// like run_diff_within: diff_files_within
#[test]
fn conflicts_within_budgets(rt: HostRuntime) -> Result<(), Fail> {
    let alloc = rt.alloc();
    assert!(rt; conflicts(alloc, [PFA, PFB], 0).as_slice() == TOO_MANY);
    assert!(rt; conflicts(alloc, [b"%!", PFA], 0).as_slice() == b"refused: no eexec\n".as_slice());
    let other = other(alloc)?;
    let lines = conflicts(alloc, [PFA, other.as_slice()], ENOUGH);
    assert!(rt; lines.as_slice() == OTHER);
    Ok(())
}
