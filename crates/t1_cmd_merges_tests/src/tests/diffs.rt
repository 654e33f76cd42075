//! All conflicts of the font Tiny and of fonts that differ from it, as they are written.
use std::alloc::{AllocError, Global};
use std::io::ErrorKind;
use std::test::Fail;
use t1_cmd::{Counted, run_diff};
use t1_cmd_shared_tests::changed::tiny_encoded;
use t1_cmd_shared_tests::diffs::{OTHER, differs, other};
use t1_cmd_shared_tests::feeds::{FINE, Feed, Plan, Sink, word_of};
use t1_tiny::{PFA, PFB};

/// Whether these are the lines of Tiny and of a file in both orders.
fn tiny_differs(alloc: Global, file: &[u8], want: &[u8]) -> bool {
    let joins = Some(want.is_empty());
    differs(alloc, PFA, file, want, joins) && differs(alloc, file, PFA, want, joins)
}

/// The same of a file that is made.
fn tiny_differs_from(file: Result<Vec<u8>, AllocError>, alloc: Global, want: &[u8]) -> bool {
    match file {
        Ok(file) => tiny_differs(alloc, file.as_slice(), want),
        Err(_) => false,
    }
}

// meets run_diff Ok at 0, 1, 2 conflicts
// like run_diff: diff_files
#[test]
fn conflicts_of_tiny(rt: HostRuntime) {
    let alloc = rt.alloc();
    assert!(rt; tiny_differs(alloc, PFB, b""));
    let word = tiny_encoded(alloc, b"/Encoding StandardEncoding def");
    assert!(rt; tiny_differs_from(word, alloc, b"shells differ in encoding\n"));
    assert!(rt; tiny_differs_from(other(alloc), alloc, OTHER));
}

/// How a run of Tiny and that other font ends by plans, how many calls failed, and whether all is out.
fn run_by(alloc: Global, other: &[u8], plans: [Plan; 3]) -> (&'static str, u64, bool) {
    let [first, second, third] = plans;
    let mut left = Feed::new(PFA, first);
    let mut right = Feed::new(other, second);
    let mut out = Counted::new(Sink::new(Vec::new(alloc), third));
    let word = match run_diff(alloc, &mut left, &mut right, &mut out) {
        Ok(true) => "joins",
        Ok(false) => "differs",
        Err(fault) => word_of(fault),
    };
    let reads = left.failed().saturating_add(right.failed());
    let failed = reads.saturating_add(out.failed());
    (word, failed, out.into_inner().text.as_slice() == OTHER)
}

/// Whether a run ends well if no call failed, and otherwise as a failed read, with not all out.
fn ends_as(got: (&'static str, u64, bool), fault: &str) -> bool {
    let (word, failed, is_all) = got;
    if failed == 0 {
        word == "differs" && is_all
    } else {
        word == fault && !is_all
    }
}

/// Whether runs end as they must whichever of three calls fails: of the first reader, of the second, and of the writer.
fn ends_right(alloc: Global, other: &[u8], fails: u64) -> bool {
    let kind = ErrorKind::Other;
    let read = Plan {
        most: 300,
        fails,
        kind,
    };
    let write = Plan { most: 1, ..read };
    let slow = Plan { most: 300, ..FINE };
    ends_as(run_by(alloc, other, [read, slow, FINE]), "read")
        && ends_as(run_by(alloc, other, [slow, read, FINE]), "read")
        && ends_as(run_by(alloc, other, [slow, slow, write]), "write")
}

#[test]
fn each_call_fails(rt: HostRuntime) -> Result<(), Fail> {
    let other = other(rt.alloc())?;
    for fails in 1..40u64 {
        assert!(rt;
            ends_right(rt.alloc(), other.as_slice(), fails),
            "call {fails}"
        );
    }
    Ok(())
}
