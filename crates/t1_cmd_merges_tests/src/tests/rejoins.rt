//! Fonts that were cut as other programs cut them, and rejoined.
use std::alloc::{AllocError, Global};
use std::test::Fail;
use t1_cmd::{Counted, run_rejoin};
use t1_cmd_shared_tests::changed::{cut_short, tagged, tiny_changed, with_all};
use t1_cmd_shared_tests::engines::{Engine, answer, subset};
use t1_cmd_shared_tests::feeds::{FINE, Feed, Plan, Sink, word};
use t1_cmd_shared_tests::texts::text_or_line;
use t1_font::Form;
use t1_tiny::PFA;

/// The PFA file that two files rejoin to, or the line of their refusal.
fn rejoined<'a>(alloc: Global, left: &'a [u8], right: &'a [u8]) -> Vec<u8> {
    let mut readers = [Counted::new(left), Counted::new(right)];
    let mut out = Vec::new(alloc);
    let ended = run_rejoin(alloc, &mut readers, Form::Pfa, &mut Counted::new(&mut out));
    text_or_line(alloc, out, ended)
}

/// Whether two files rejoin to this, or it is the line of their refusal.
fn rejoin(alloc: Global, left: &[u8], right: &[u8], want: &[u8]) -> bool {
    rejoined(alloc, left, right).as_slice() == want
}

/// Whether two files rejoin to this in either order, and the first of them and Tiny to Tiny.
fn become_one(alloc: Global, left: &[u8], right: &[u8], want: &[u8]) -> bool {
    rejoin(alloc, left, right, want)
        && rejoin(alloc, right, left, want)
        && rejoin(alloc, left, PFA, PFA)
}

/// A subset of Tiny with a tag and as many Subrs as this table has, which ends before this entry.
fn tagged_cut(
    alloc: Global,
    glyph: &[u8],
    table: &[u8],
    entry: &[u8],
    name: &[u8],
) -> Result<Vec<u8>, AllocError> {
    let cut = subset(alloc, PFA, &[glyph]);
    let short = cut_short(alloc, cut.as_slice(), table, entry)?;
    tagged(alloc, short.as_slice(), name)
}

/// The subset of X, with a tag and Subrs 0 to 5.
fn left(alloc: Global) -> Result<Vec<u8>, AllocError> {
    tagged_cut(
        alloc,
        b"X",
        b"/Subrs 6 array",
        b"dup 6 ",
        b"/FontName /ABCDEF+Tiny",
    )
}

/// The subset of Y, with another tag and Subrs 0 to 6.
fn right(alloc: Global) -> Result<Vec<u8>, AllocError> {
    tagged_cut(
        alloc,
        b"Y",
        b"/Subrs 7 array",
        b"dup 7 ",
        b"/FontName /GHIJKL+Tiny",
    )
}

/// The subset of both, with Subrs 0 to 6.
fn both(alloc: Global) -> Result<Vec<u8>, AllocError> {
    let cut = subset(alloc, PFA, &[b"X", b"Y"]);
    let short = cut_short(alloc, cut.as_slice(), b"/Subrs 7 array", b"dup 7 ")?;
    Ok(answer(alloc, Engine::Convert(Form::Pfa), short.as_slice()))
}

#[test]
fn cut_fonts_become_one(rt: HostRuntime) -> Result<(), Fail> {
    let (left, right) = (left(rt.alloc())?, right(rt.alloc())?);
    let want = both(rt.alloc())?;
    let one = become_one(
        rt.alloc(),
        left.as_slice(),
        right.as_slice(),
        want.as_slice(),
    );
    assert!(rt; one, "left and right, in either order, and left and Tiny");
    Ok(())
}

/// The subset of Y as another program writes it: with other white space, a number, and its tag in a comment, too.
fn other(alloc: Global) -> Result<Vec<u8>, AllocError> {
    const NAME: &[u8] = b" /UniqueID  5000793 def \r\n\r\n/FontName \t/GHIJKL+Tiny";
    tagged_cut(alloc, b"Y", b"/Subrs 7 array", b"dup 7 ", NAME)
}

#[test]
fn cuts_of_different_programs(rt: HostRuntime) -> Result<(), Fail> {
    let (left, other) = (left(rt.alloc())?, other(rt.alloc())?);
    let want = both(rt.alloc())?;
    let one = become_one(
        rt.alloc(),
        other.as_slice(),
        left.as_slice(),
        want.as_slice(),
    );
    assert!(rt; one, "left and other, in either order, and other and Tiny");
    Ok(())
}

#[test]
fn cuts_with_boxes_of_their_own(rt: HostRuntime) -> Result<(), Fail> {
    const TINY: &[u8] = b"{0 0 500 700}";
    let (left, right, both) = (left(rt.alloc())?, right(rt.alloc())?, both(rt.alloc())?);
    let left = with_all(rt.alloc(), left.as_slice(), TINY, b"{0 -10 400.0 700}")?;
    let right = with_all(rt.alloc(), right.as_slice(), TINY, b"{+0 0 500 650}")?;
    let want = with_all(rt.alloc(), both.as_slice(), TINY, b"{0 -10 500 700}")?;
    let (left, right, want) = (left.as_slice(), right.as_slice(), want.as_slice());
    assert!(rt; rejoin(rt.alloc(), left, right, want), "left and right");
    assert!(rt; rejoin(rt.alloc(), right, left, want), "right and left");
    Ok(())
}

#[test]
fn conflicts_of_normal_fonts(rt: HostRuntime) -> Result<(), Fail> {
    let left = left(rt.alloc())?;
    let changed = tiny_changed(rt.alloc(), b"5839", b"5840")?;
    const WANT: &[u8] = b"refused: shells differ in private\n";
    assert!(rt; rejoin(rt.alloc(), left.as_slice(), changed.as_slice(), WANT));
    Ok(())
}

/// The subset of a glyph with another tag and Subrs 0 to 4, though its glyph executes Subr 5.
fn lacking(alloc: Global, glyph: &[u8]) -> Result<Vec<u8>, AllocError> {
    tagged_cut(
        alloc,
        glyph,
        b"/Subrs 5 array",
        b"dup 5 ",
        b"/FontName /GHIJKL+Tiny",
    )
}

/// The subset of X with Subrs 0 to 4, without a tag.
fn alone(alloc: Global) -> Result<Vec<u8>, AllocError> {
    let cut = subset(alloc, PFA, &[b"X"]);
    let short = cut_short(alloc, cut.as_slice(), b"/Subrs 5 array", b"dup 5 ")?;
    Ok(answer(alloc, Engine::Convert(Form::Pfa), short.as_slice()))
}

// meets run_rejoin Lacks at 1, 2 glyphs
// like run_rejoin: rejoin_files
#[test]
fn a_subr_that_a_cut_lacks(rt: HostRuntime) -> Result<(), Fail> {
    const X: &[u8] = b"refused: glyph X lacks subr 5\n";
    const Y: &[u8] = b"refused: glyph Y lacks subr 5\n";
    let (x, y) = (lacking(rt.alloc(), b"X")?, lacking(rt.alloc(), b"Y")?);
    let changed = tiny_changed(rt.alloc(), b"5839", b"5840")?;
    let alone = alone(rt.alloc())?;
    let x = x.as_slice();
    let rows: &[(&[u8], &[u8], &[u8], &str)] = &[
        (x, PFA, X, "before Tiny"),
        (PFA, x, X, "behind Tiny"),
        (
            changed.as_slice(),
            y.as_slice(),
            Y,
            "before a conflict of shells",
        ),
        (x, x, alone.as_slice(), "no font has it"),
    ];
    for &(left, right, want, what) in rows {
        assert!(rt; rejoin(rt.alloc(), left, right, want), "{what}");
    }
    Ok(())
}

/// How Tiny rejoined with itself ends, as a word, and how many calls of the writer were made.
fn ended_by(alloc: Global, read: Plan, write: Plan) -> (&'static str, u64) {
    let mut readers = [Feed::new(PFA, FINE), Feed::new(PFA, read)];
    let mut out = Counted::new(Sink::new(Vec::new(alloc), write));
    let word = word(run_rejoin(alloc, &mut readers, Form::Pfa, &mut out));
    (word, out.calls())
}

#[test]
fn failing_calls(rt: HostRuntime) {
    let fails = Plan { fails: 1, ..FINE };
    assert!(rt; ended_by(rt.alloc(), fails, FINE) == ("read", 0));
    assert!(rt; ended_by(rt.alloc(), FINE, fails) == ("write", 1));
}
