//! Reading, the lines of faults, and listings that join; below, the engines over one font and the calls below them.

mod codes;
mod counts;
mod drawings;
mod engines;
mod growths;
mod kept;
mod large;
mod mends;
mod refusals;
mod subsets;

use std::alloc::Global;
use std::io;
use std::io::{ErrorKind, Read};
use std::test::Fail;
use t1_cmd::{
    Counted, Name, Reason, RunFault, join_listings, read_all, run_join, status, write_fault,
    write_fault_of,
};
use t1_cmd_shared_tests::feeds::{FINE, Feed, Plan, Sink, word, word_of};
use t1_cmd_shared_tests::texts::{line_of, of_files_or_line};
use t1_font::ReadFault;
use t1_join::{JoinFault, ListFault};
use t1_subset::{Conflict, ShellPart};

/// A reader that only ever interrupts.
struct Busy;

impl Drop for Busy {
    fn drop(self) {
        let Busy = self;
    }
}

impl Read for Busy {
    fn read(&mut self, _buf: &mut [u8]) -> io::Result<usize> {
        Err(io::Error::from(ErrorKind::Interrupted))
    }
}

/// How reading at most 100 bytes ends, as a word, and how many bytes were read where it is well.
fn read_100<R: Read>(alloc: Global, reader: &mut Counted<R>) -> (&'static str, usize) {
    match read_all(alloc, reader, 100) {
        Ok(bytes) => ("ok", bytes.len()),
        Err(fault) => (word_of(fault), 0),
    }
}

/// The same of these bytes by a plan, and how many calls were made.
fn read_by(alloc: Global, bytes: &[u8], plan: Plan) -> (&'static str, usize, u64) {
    let mut reader = Feed::new(bytes, plan);
    let (got, length) = read_100(alloc, &mut reader);
    (got, length, reader.calls())
}

/// Whether the same ends in this way, by 101 calls.
fn reads(alloc: Global, bytes: &[u8], plan: Plan, want: &str, length: usize) -> bool {
    let (got, count, calls) = read_by(alloc, bytes, plan);
    got == want && count == length && calls == 101
}

// meets read_all Ok at 99, 100 bytes
// meets read_all TooLong at 101 bytes
#[test]
fn turns_of_read_all(rt: HostRuntime) {
    const BYTES: &[u8] = &[7; 101];
    const ONE: Plan = Plan { most: 1, ..FINE };
    const STOPS: Plan = Plan {
        fails: 50,
        kind: ErrorKind::Interrupted,
        ..ONE
    };
    const ROWS: &[(usize, Plan, &str, usize)] = &[
        (100, ONE, "ok", 100),
        (99, STOPS, "ok", 99),
        (101, ONE, "refused", 0),
        (100, STOPS, "read", 0),
    ];
    for &(count, plan, want, length) in ROWS {
        assert!(rt; reads(rt.alloc(), &BYTES[..count.min(101)], plan, want, length));
    }
}

#[test]
fn a_reader_that_only_interrupts(rt: HostRuntime) {
    let mut busy = Counted::new(Busy);
    let (got, _) = read_100(rt.alloc(), &mut busy);
    assert!(rt; got == "read");
    assert!(rt; (busy.calls(), busy.failed()) == (101, 101));
}

// `tools/sweep_growths.py` refuses all growths: what takes no memory gives the right answer.
#[test]
fn no_growth(rt: HostRuntime) {
    let mut busy = Counted::new(Busy);
    let mut room = [0u8; 4];
    assert!(rt; busy.read(&mut room).is_err());
    assert!(rt; busy.calls() == 1 && busy.failed() == 1);
    assert!(rt; status(&RunFault::Write) == 3);
}

const LEFT: &[u8] = b"S 5 ef060b\nG X 8b0e\n";

const RIGHT: &[u8] = b"G Y 0E\nS 5 ef060b\n";

const BOTH: &[u8] = b"S 5 ef060b\nG X 8b0e\nG Y 0e\n";

/// The text of the join of two texts, or else the line of its refusal.
fn joined_or_line(alloc: Global, left: &[u8], right: &[u8]) -> Vec<u8> {
    of_files_or_line(alloc, join_listings(alloc, left, right))
}

/// Whether of two texts in memory this is written, and this is the line of the refusal; and the call over texts answers
/// the same.
fn joins(alloc: Global, left: &[u8], right: &[u8], text: &[u8], line: &[u8]) -> bool {
    let made = joined_or_line(alloc, left, right);
    let is_made = made.as_slice() == if line.is_empty() { text } else { line };
    is_made && is_joined(alloc, left, right, text, line)
}

/// Whether of two texts in memory this is written, and this is the line of the refusal.
fn is_joined(alloc: Global, left: &[u8], right: &[u8], text: &[u8], line: &[u8]) -> bool {
    let mut out = Vec::new(alloc);
    let ended = run_join(
        alloc,
        &mut Counted::new(left),
        &mut Counted::new(right),
        &mut Counted::new(&mut out),
    );
    match ended {
        Ok(()) => line.is_empty() && out.as_slice() == text,
        Err(fault) => {
            out.is_empty() && text.is_empty() && line_of(alloc, fault).as_slice() == line
        }
    }
}

/// Two listings, and what is written of them or the line of their refusal.
const JOINS: &[(&[u8], &[u8], &[u8], &[u8])] = &[
    (LEFT, RIGHT, BOTH, b""),
    (RIGHT, LEFT, BOTH, b""),
    (b"", b"", b"", b""),
    (LEFT, b"S 5 0b\n", b"", b"refused: subr 5 differs\n"),
    (b"S 00005 0b\n", b"", b"S 5 0b\n", b""),
    (b"S 65535 0b\n", b"", b"", b"refused: bad line 1\n"),
    (b"G X 0\n", b"", b"", b"refused: bad line 1\n"),
    (b"", b"S 5 0b", b"", b"refused: bad line 1\n"),
    (
        b"S 5 0b\nS 05 0b\n",
        b"S",
        b"",
        b"refused: repeated in line 2\n",
    ),
    (b"S 7 \n", b"S 7 0b\n", b"", b"refused: subr 7 differs\n"),
    (
        b"S 10 0b\nS 9 0b\nG A 0e\n",
        b"S 10 0c\nS 9 0c\nG A 0d\n",
        b"",
        b"refused: subr 9 differs\n",
    ),
    (
        b"G A\\\xff 0e\n",
        b"G A\\\xff 0d\n",
        b"",
        b"refused: glyph A\\x5c\\xff differs\n",
    ),
    (b"S 1 0b\n", b"S 2 0c\n\n", b"", b"refused: bad line 2\n"),
];

// meets run_join Ok at 0, 1, 2 lines
// meets run_join BadLine at 1, 2 lines
// meets run_join Repeated at 2 lines
// meets run_join Subr at 1, 2 lines
// meets run_join Glyph at 1 lines
// like run_join: join_listings
#[test]
fn joins_listings(rt: HostRuntime) {
    for &(left, right, text, line) in JOINS {
        assert!(rt; joins(rt.alloc(), left, right, text, line));
    }
}

/// Two texts, and the place of the one that is refused for itself.
const PLACES: &[(&[u8], &[u8], Option<usize>)] = &[
    (b"S 5", b"S 5 0b\n", Some(0)),
    (b"S 5 0b\n", b"S 5", Some(1)),
    (b"S 5", b"S 5", Some(0)),
    (b"S 5 0b\n", b"S 5 0b\nS 5 0b\n", Some(1)),
    (b"S 5 0b\n", b"S 5 0c\n", None),
];

/// The place of the text for which a join is refused, if it is refused.
fn refused_place(alloc: Global, left: &[u8], right: &[u8]) -> Option<Option<usize>> {
    match join_listings(alloc, left, right) {
        Ok(_) => None,
        Err(refusal) => Some(refusal.place),
    }
}

#[test]
fn places_of_refused_listings(rt: HostRuntime) {
    for &(left, right, place) in PLACES {
        assert!(rt; refused_place(rt.alloc(), left, right) == Some(place));
    }
}

/// How a join ends, how many calls of its readers failed, how many of the second one and of the writer were made, and
/// whether all is out.
#[derive(Clone, Copy)]
struct Joined {
    word: &'static str,
    failed: u64,
    right_calls: u64,
    writes: u64,
    is_both: bool,
}

/// Joins LEFT and RIGHT by plans.
fn joined_from(alloc: Global, first: Plan, second: Plan) -> Joined {
    let mut left = Feed::new(LEFT, first);
    let mut right = Feed::new(RIGHT, second);
    let mut out = Counted::new(Sink::new(Vec::new(alloc), FINE));
    let word = word(run_join(alloc, &mut left, &mut right, &mut out));
    let writes = out.calls();
    Joined {
        word,
        failed: left.failed().saturating_add(right.failed()),
        right_calls: right.calls(),
        writes,
        is_both: out.into_inner().text.as_slice() == BOTH,
    }
}

/// Whether it ends well if no read failed; otherwise as a failed read, with nothing written and the right listing read only
/// after the left one.
fn ends_right(got: Joined, is_left: bool) -> bool {
    if got.failed == 0 {
        got.word == "ok" && got.is_both
    } else {
        got.word == "read" && got.writes == 0 && (got.right_calls == 0) == is_left
    }
}

#[test]
fn each_read_fails(rt: HostRuntime) {
    let fine = Plan { most: 3, ..FINE };
    for fails in 1..100u64 {
        let plan = Plan { fails, ..fine };
        let left = ends_right(joined_from(rt.alloc(), plan, fine), true);
        let right = ends_right(joined_from(rt.alloc(), fine, plan), false);
        assert!(rt; left && right, "call {fails}");
    }
}

/// Joins LEFT and RIGHT into a writer of a plan: how it ends, how many calls failed, whether all is out, and whether a
/// prefix of it is.
fn joined_into(alloc: Global, plan: Plan) -> (&'static str, u64, bool, bool) {
    let mut out = Counted::new(Sink::new(Vec::new(alloc), plan));
    let ended = run_join(
        alloc,
        &mut Feed::new(LEFT, FINE),
        &mut Feed::new(RIGHT, FINE),
        &mut out,
    );
    let word = word(ended);
    let failed = out.failed();
    let text = out.into_inner().text;
    (
        word,
        failed,
        text.as_slice() == BOTH,
        BOTH.starts_with(text.as_slice()),
    )
}

/// Whether that ends well if no call failed; otherwise as a failed write, of which the first failed call is the last.
fn joins_into(alloc: Global, plan: Plan) -> bool {
    let (got, failed, is_both, begins) = joined_into(alloc, plan);
    if failed == 0 {
        got == "ok" && is_both
    } else {
        got == "write" && failed == 1 && begins
    }
}

/// The most bytes that a writer takes, and how it fails.
const WRITERS: &[(usize, ErrorKind)] = &[
    (1, ErrorKind::Other),
    (2, ErrorKind::Other),
    (0, ErrorKind::Other),
    (1, ErrorKind::Interrupted),
    (2, ErrorKind::Interrupted),
    (0, ErrorKind::Interrupted),
];

#[test]
fn each_write_fails(rt: HostRuntime) {
    for &(most, kind) in WRITERS {
        for fails in 1..100u64 {
            let plan = Plan { most, fails, kind };
            assert!(rt; joins_into(rt.alloc(), plan), "call {fails}");
        }
    }
}

/// Whether a fault is told by this line and has this status.
fn is_told(alloc: Global, fault: &RunFault, want: &str, code: u8) -> bool {
    let mut line = Vec::new(alloc);
    let word = word(write_fault(alloc, fault, &mut Counted::new(&mut line)));
    word == "ok" && line.as_slice() == want.as_bytes() && status(fault) == code
}

/// Whether a fault is told by this line behind a path, or else to a writer that takes nothing by one call.
fn is_told_of(alloc: Global, path: &[u8], fault: &RunFault, want: &[u8]) -> bool {
    let mut line = Vec::new(alloc);
    let mut full = Counted::new(Sink::new(Vec::new(alloc), Plan { most: 0, ..FINE }));
    let fine = word(write_fault_of(alloc, path, fault, &mut Counted::new(&mut line)));
    let in_vain = word(write_fault_of(alloc, path, fault, &mut full));
    fine == "ok" && line.as_slice() == want && in_vain == "write" && full.calls() == 1
}

// meets write_fault_of Ok
#[test]
fn lines_of_faults_behind_paths(rt: HostRuntime) {
    let refused = RunFault::Refused(Reason::NoCode { code: 65 });
    assert!(rt;
        is_told_of(
            rt.alloc(),
            b"/a b\xff",
            &refused,
            b"/a b\xff: refused: no code 65\n"
        )
    );
    assert!(rt; is_told_of(rt.alloc(), b"", &RunFault::Read, b": failed: read\n"));
    drop(refused);
}

/// The same of a refusal, whose status is 1.
fn is_refused(alloc: Global, reason: Reason, want: &str) -> bool {
    let fault = RunFault::Refused(reason);
    let told = is_told(alloc, &fault, want, 1);
    drop(fault);
    told
}

/// How a fault is told to a writer that takes nothing, and by how many calls.
fn told_in_vain(alloc: Global) -> (&'static str, u64) {
    let plan = Plan { most: 0, ..FINE };
    let mut full = Counted::new(Sink::new(Vec::new(alloc), plan));
    let word = word(write_fault(alloc, &RunFault::Read, &mut full));
    (word, full.calls())
}

/// Which fault is told wrongly, if one is.
fn what_is_told_wrongly(alloc: Global) -> &'static str {
    if !is_told(alloc, &RunFault::Read, "failed: read\n", 3) {
        "a failed read"
    } else if !is_told(alloc, &RunFault::Write, "failed: write\n", 3) {
        "a failed write"
    } else if !is_refused(alloc, Reason::TooLong, "refused: file too long\n") {
        "a file that is too long"
    } else if !is_refused(alloc, Reason::Memory, "refused: out of memory\n") {
        "want of memory"
    } else if told_in_vain(alloc) != ("write", 1) {
        "a writer that takes nothing"
    } else {
        ""
    }
}

// meets write_fault Ok
#[test]
fn lines_of_faults(rt: HostRuntime) {
    let wrong = what_is_told_wrongly(rt.alloc());
    assert!(rt; wrong.is_empty(), "{wrong}");
}

#[test]
fn lines_of_places(rt: HostRuntime) {
    let alloc = rt.alloc();
    let line = Reason::List(ListFault::BadLine { line: 12 });
    assert!(rt; is_refused(alloc, line, "refused: bad line 12\n"));
    let repeated = Reason::List(ListFault::Repeated { line: 2 });
    assert!(rt; is_refused(alloc, repeated, "refused: repeated in line 2\n"));
    let index = Reason::Join(JoinFault::Subr { index: 65534 });
    assert!(rt; is_refused(alloc, index, "refused: subr 65534 differs\n"));
}

/// Faults of font files, and what is printed of each.
const FONTS: &[(ReadFault, &str)] = &[
    (ReadFault::TooLong, "refused: file too long\n"),
    (
        ReadFault::BadSegment { at: 319 },
        "refused: bad segment at 319\n",
    ),
    (ReadFault::NoEexec, "refused: no eexec\n"),
    (ReadFault::ShortCipher, "refused: cipher too short\n"),
    (ReadFault::NoEncoding, "refused: no Encoding\n"),
    (
        ReadFault::BadEncoding { at: 195 },
        "refused: bad Encoding at 195\n",
    ),
    (ReadFault::NoCharStrings, "refused: no CharStrings\n"),
    (ReadFault::BadLenIV, "refused: bad lenIV\n"),
    (
        ReadFault::BadSubrs { at: 269 },
        "refused: bad Subrs at 269\n",
    ),
    (
        ReadFault::BadGlyphs { at: 905 },
        "refused: bad CharStrings at 905\n",
    ),
    (ReadFault::Hybrid, "refused: hybrid font\n"),
    (ReadFault::NoClosefile, "refused: no closefile\n"),
    (ReadFault::NoNotdef, "refused: no .notdef\n"),
    (ReadFault::Limit, "refused: over a limit\n"),
];

#[test]
fn lines_of_fonts(rt: HostRuntime) {
    for &(fault, want) in FONTS {
        assert!(rt;
            is_refused(rt.alloc(), Reason::Font(fault), want),
            "{fault:?}"
        );
    }
}

/// Parts of shells, and what is printed if fonts differ in one.
const SHELLS: &[(ShellPart, &str)] = &[
    (ShellPart::Head, "refused: shells differ in head\n"),
    (ShellPart::Encoding, "refused: shells differ in encoding\n"),
    (
        ShellPart::ClearTail,
        "refused: shells differ in clear tail\n",
    ),
    (ShellPart::Private, "refused: shells differ in private\n"),
    (
        ShellPart::SubrsTable,
        "refused: shells differ in Subrs table\n",
    ),
    (
        ShellPart::SubrsWords,
        "refused: shells differ in Subrs words\n",
    ),
    (ShellPart::Middle, "refused: shells differ in middle\n"),
    (
        ShellPart::GlyphsWords,
        "refused: shells differ in CharStrings words\n",
    ),
    (ShellPart::Tail, "refused: shells differ in tail\n"),
];

#[test]
fn lines_of_shells(rt: HostRuntime) {
    for &(part, want) in SHELLS {
        let reason = Reason::Merge(Conflict::Shell { part });
        assert!(rt; is_refused(rt.alloc(), reason, want), "{part:?}");
    }
}

// meets Name::new Ok at 2, 127 bytes
#[test]
fn lines_of_names(rt: HostRuntime) -> Result<(), Fail> {
    let alloc = rt.alloc();
    let name = b"A b\\\xff".to_vec(alloc)?;
    let glyph = Reason::Join(JoinFault::Glyph { name });
    assert!(rt; is_refused(alloc, glyph, "refused: glyph A\\x20b\\x5c\\xff differs\n"));
    let name = Name::new(alloc, b"A\x7f")?;
    assert!(rt;
        is_refused(
            alloc,
            Reason::NoGlyph { name },
            "refused: no glyph A\\x7f\n"
        )
    );
    let long = Name::new(alloc, &[b'g'; 127])?;
    assert!(rt; long.as_bytes() == [b'g'; 127].as_slice());
    Ok(())
}
