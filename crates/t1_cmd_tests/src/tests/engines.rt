//! The engines over one font: what they write of the font Tiny and of changed ones, and how they end.
use std::alloc::Global;
use std::io::ErrorKind;
use t1_cmd::Counted;
use t1_cmd_shared_tests::changed::tiny_encoded;
use t1_cmd_shared_tests::engines::{
    ENGINES, Engine, TINY_IN_FULL, TINY_LISTED, answer, answers, of_tiny, run,
};
use t1_cmd_shared_tests::feeds::{FINE, Feed, Plan, Sink, word};
use t1_font::Form;
use t1_tiny::{PFA, PFB};

// meets run_check_of Ok at 11 glyphs
#[test]
fn tiny_is_checked_behind_its_path(rt: HostRuntime) {
    let want = b"a: b/\xff\n: ok 11 glyphs, 10 subrs, weight 4936\n";
    let engine = Engine::CheckOf(b"a: b/\xff\n");
    assert!(rt; answers(rt.alloc(), engine, PFB, want));
    assert!(rt; answers(rt.alloc(), engine, b"", b"refused: no eexec\n"));
}

// meets run_check Ok at 11 glyphs
// like run_check: check_file
#[test]
fn tiny_is_checked(rt: HostRuntime) {
    const FILES: &[(&[u8], &[u8], &str)] = &[
        (
            PFA,
            b"ok 11 glyphs, 10 subrs, weight 4936\n",
            "the PFA file",
        ),
        (
            PFB,
            b"ok 11 glyphs, 10 subrs, weight 4936\n",
            "the PFB file",
        ),
        (b"", b"refused: no eexec\n", "an empty file"),
    ];
    for &(file, want, what) in FILES {
        assert!(rt; answers(rt.alloc(), Engine::Check, file, want), "{what}");
    }
}

/// Whether the PFA of a file is that of Tiny.
fn is_pfa(alloc: Global, file: &[u8]) -> bool {
    answers(alloc, Engine::Convert(Form::Pfa), file, PFA)
}

/// Whether the PFB of a file is that of Tiny.
fn is_pfb(alloc: Global, file: &[u8]) -> bool {
    answers(alloc, Engine::Convert(Form::Pfb), file, PFB)
}

// meets run_convert Ok at 11 glyphs
// like run_convert: convert_file
#[test]
fn tiny_in_both_forms(rt: HostRuntime) {
    const FILES: &[(&[u8], &str)] = &[(PFA, "the PFA file"), (PFB, "the PFB file")];
    for &(file, what) in FILES {
        assert!(rt;
            is_pfa(rt.alloc(), file) && is_pfb(rt.alloc(), file),
            "{what}"
        );
    }
}

// meets run_list Ok at 11 glyphs
// like run_list: list_file
#[test]
fn tiny_is_listed(rt: HostRuntime) {
    assert!(rt; answers(rt.alloc(), Engine::List, PFB, TINY_LISTED));
}

/// Whether a text is one and then another.
fn is_both(text: &[u8], one: &[u8], other: &[u8]) -> bool {
    text.len() == one.len().saturating_add(other.len())
        && text.starts_with(one)
        && text.ends_with(other)
}

// meets run_list_full Ok at 11 glyphs
// like run_list_full: list_file_full
#[test]
fn tiny_is_listed_in_full(rt: HostRuntime) {
    let text = answer(rt.alloc(), Engine::ListFull, PFB);
    assert!(rt; is_both(text.as_slice(), TINY_LISTED, TINY_IN_FULL));
}

/// What spells an Encoding, and what a font of it is listed with first.
const ENCODINGS: &[(&[u8], &[u8], &str)] = &[
    (
        b"/Encoding 256 array dup 65 /\x7e\x21 put def",
        b"code 65 ~!\nsubr 0 11\n",
        "the last and the first byte as they are",
    ),
    (
        b"/Encoding 256 array dup 65 /\x7f put def",
        b"code 65 \\x7f\nsubr 0 11\n",
        "byte 127",
    ),
    (
        b"/Encoding 256 array dup 65 /\x1f\xff put def",
        b"code 65 \\x1f\\xff\nsubr 0 11\n",
        "bytes 31 and 255",
    ),
    (
        b"/Encoding 256 array dup 65 /a\\ put def",
        b"code 65 a\\x5c\nsubr 0 11\n",
        "the backslash",
    ),
    (
        b"/Encoding Standard\\Encoding def",
        b"encoding Standard\\x5cEncoding\nsubr 0 11\n",
        "one word",
    ),
];

/// Whether the list of Tiny with this Encoding begins so.
fn begins(alloc: Global, encoding: &[u8], want: &[u8]) -> bool {
    match tiny_encoded(alloc, encoding) {
        Ok(file) => answer(alloc, Engine::List, file.as_slice()).starts_with(want),
        Err(_) => false,
    }
}

#[test]
fn encodings_are_listed(rt: HostRuntime) {
    for &(encoding, want, what) in ENCODINGS {
        assert!(rt; begins(rt.alloc(), encoding, want), "{what}");
    }
}

/// How an engine ends over a reader of a plan, as a word, how many calls of that reader failed, and how many calls of the
/// writer were made.
fn read_by(alloc: Global, engine: Engine<'_>, plan: Plan) -> (&'static str, u64, u64) {
    let mut reader = Feed::new(PFA, plan);
    let mut out = Counted::new(Sink::new(Vec::new(alloc), FINE));
    let word = word(run(alloc, engine, &mut reader, &mut out));
    (word, reader.failed(), out.calls())
}

/// Whether it ends well and writes if no call of the reader fails; otherwise as a failed read that writes nothing.
fn reads(alloc: Global, engine: Engine<'_>, fails: u64) -> bool {
    let plan = Plan {
        most: 500,
        fails,
        ..FINE
    };
    let (got, failed, writes) = read_by(alloc, engine, plan);
    if failed == 0 {
        got == "ok" && writes > 0
    } else {
        got == "read" && writes == 0
    }
}

#[test]
fn each_read_fails(rt: HostRuntime) {
    for &engine in ENGINES {
        for fails in 1..9u64 {
            assert!(rt; reads(rt.alloc(), engine, fails), "call {fails}");
        }
    }
}

/// How an engine ends over a writer of a plan, as a word, how many calls of that writer failed, and whether a prefix of the
/// text is out.
fn written_by(
    alloc: Global,
    engine: Engine<'_>,
    plan: Plan,
    whole: &[u8],
) -> (&'static str, u64, bool) {
    let mut out = Counted::new(Sink::new(Vec::new(alloc), plan));
    let word = word(run(alloc, engine, &mut Feed::new(PFA, FINE), &mut out));
    let failed = out.failed();
    let text = out.into_inner().text;
    (word, failed, whole.starts_with(text.as_slice()))
}

/// A writer that takes no byte.
const NOTHING: Plan = Plan { most: 0, ..FINE };

/// A writer whose third call is interrupted.
const INTERRUPTED: Plan = Plan {
    most: 9,
    fails: 3,
    kind: ErrorKind::Interrupted,
};

/// Whether an engine ends as a failed write over a writer of a plan, after one failed call, with a prefix of the text out.
fn stops(alloc: Global, engine: Engine<'_>, plan: Plan, whole: &[u8]) -> bool {
    let (got, failed, begins) = written_by(alloc, engine, plan, whole);
    got == "write" && failed == 1 && begins
}

/// Whether an engine ends well over a writer of a plan.
fn is_fine(alloc: Global, engine: Engine<'_>, plan: Plan, whole: &[u8]) -> bool {
    let (got, failed, begins) = written_by(alloc, engine, plan, whole);
    got == "ok" && failed == 0 && begins
}

/// Whether an engine ends as it must over a writer that takes a byte a call, of which one fails.
fn writes(alloc: Global, engine: Engine<'_>, whole: &[u8], fails: u64) -> bool {
    let plan = Plan {
        most: 1,
        fails,
        ..FINE
    };
    if fails == 0 || fails > whole.len() as u64 {
        is_fine(alloc, engine, plan, whole)
    } else {
        stops(alloc, engine, plan, whole)
    }
}

/// Whether it does so whichever call fails, and those of none and of one after the last.
fn writes_by_bytes(alloc: Global, engine: Engine<'_>, whole: &[u8]) -> bool {
    for fails in 0..(whole.len() as u64).saturating_add(2) {
        if !writes(alloc, engine, whole, fails) {
            return false;
        }
    }
    true
}

/// Whether an engine ends as it must over each of these writers.
fn writes_or_stops(alloc: Global, engine: Engine<'_>) -> bool {
    let whole = of_tiny(alloc, engine);
    writes_by_bytes(alloc, engine, whole.as_slice())
        && stops(alloc, engine, NOTHING, whole.as_slice())
        && stops(alloc, engine, INTERRUPTED, whole.as_slice())
}

#[test]
fn each_write_fails(rt: HostRuntime) {
    for &engine in ENGINES {
        assert!(rt; writes_or_stops(rt.alloc(), engine));
    }
}
