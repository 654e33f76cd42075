//! Merges whose readers or writer fail.
use std::alloc::Global;
use t1_cmd::{Counted, run_merge};
use t1_cmd_shared_tests::feeds::{FINE, Feed, Plan, Sink, word};
use t1_font::Form;
use t1_tiny::PFA;

/// How Tiny merged with itself ends, as a word, how many calls of the readers failed, how many of the writer were made,
/// and whether a prefix of Tiny is out.
type Ended = (&'static str, u64, u64, bool);

/// How many calls of readers failed.
fn failed_calls(readers: &[Counted<Feed<'_>>]) -> u64 {
    let mut failed = 0u64;
    for reader in readers {
        failed = failed.saturating_add(reader.failed());
    }
    failed
}

/// How a merger of readers ends, by a plan of the writer.
fn merged_from(alloc: Global, readers: &mut [Counted<Feed<'_>>], write: Plan) -> Ended {
    let mut out = Counted::new(Sink::new(Vec::new(alloc), write));
    let word = word(run_merge(alloc, readers, Form::Pfa, &mut out));
    let failed = failed_calls(readers);
    let calls = out.calls();
    let text = out.into_inner().text;
    (word, failed, calls, PFA.starts_with(text.as_slice()))
}

/// How Tiny merged with itself ends, by a plan of each reader and of the writer.
fn merged_by(alloc: Global, first: Plan, second: Plan, write: Plan) -> Ended {
    let mut readers = [Feed::new(PFA, first), Feed::new(PFA, second)];
    merged_from(alloc, &mut readers, write)
}

/// Whether it ends well and writes if no call of a reader fails; otherwise as a failed read that writes nothing.
fn reads(alloc: Global, first: Plan, second: Plan) -> bool {
    let (word, failed, calls, _) = merged_by(alloc, first, second, FINE);
    if failed == 0 {
        word == "ok" && calls > 0
    } else {
        word == "read" && calls == 0
    }
}

#[test]
fn each_read_fails(rt: HostRuntime) {
    for fails in 1..9u64 {
        let plan = Plan {
            most: 500,
            fails,
            ..FINE
        };
        let is_right = reads(rt.alloc(), plan, FINE) && reads(rt.alloc(), FINE, plan);
        assert!(rt; is_right, "call {fails}");
    }
}

/// Whether it ends in this way over a writer that takes a byte a call, of which one fails, with a prefix of Tiny out.
fn writes(alloc: Global, fails: u64, want: &str) -> bool {
    let plan = Plan {
        most: 1,
        fails,
        ..FINE
    };
    let (word, failed, _, begins) = merged_by(alloc, FINE, FINE, plan);
    word == want && failed == 0 && begins
}

#[test]
fn each_write_fails(rt: HostRuntime) {
    let last = PFA.len() as u64;
    for fails in 0..last.saturating_add(2) {
        let ends_well = fails == 0 || fails > last;
        let want = if ends_well { "ok" } else { "write" };
        assert!(rt; writes(rt.alloc(), fails, want), "call {fails}");
    }
}

#[test]
fn a_writer_that_takes_nothing(rt: HostRuntime) {
    let nothing = Plan { most: 0, ..FINE };
    let got = merged_by(rt.alloc(), FINE, FINE, nothing);
    assert!(rt; got == ("write", 0, 1, true));
}
