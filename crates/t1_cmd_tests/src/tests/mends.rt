//! Fonts that other programs spell: what they are mended to, and that they rejoin with what is spelled as this program does.
use std::alloc::{AllocError, Global};
use std::test::Fail;
use t1_cmd::{Counted, list_mends, run_mend};
use t1_cmd_shared_tests::changed::{tiny_encoded, with_all};
use t1_cmd_shared_tests::engines::{Engine, answer, answers};
use t1_cmd_shared_tests::lists::{List, lists};
use t1_cmd_shared_tests::texts::is;
use t1_font::Form;
use t1_tiny::{PFA, PFB};

/// How Tiny begins.
const BEGINS: &[u8] = b"%!";

/// The test whether a font was loaded before, before that.
const TESTED: &[u8] =
    b"FontDirectory/Tiny known{/Tiny findfont dup/UniqueID known{dup/UniqueID get 7 eq exch
/FontType get 1 eq and}{pop false}ifelse{save true}{false}ifelse}{false}ifelse%!";

/// Tiny with a comment in its Encoding.
fn commented(alloc: Global) -> Result<Vec<u8>, AllocError> {
    const TEXT: &[u8] = b"/Encoding 256 array
0 1 255 {1 index exch /.notdef put} for
dup 65 /X put
dup 66 /Y put % endarray
dup 194 /H put
readonly def";
    tiny_encoded(alloc, TEXT)
}

/// Tiny with a code that gets its name by a copy.
fn copied(alloc: Global) -> Result<Vec<u8>, AllocError> {
    const TEXT: &[u8] = b"/Encoding 256 array
0 1 255 {1 index exch /.notdef put} for
dup 66 /X put
dup dup 65 exch 66 get put
dup 66 /Y put
dup 194 /H put
readonly def";
    tiny_encoded(alloc, TEXT)
}

/// Whether a file is refused as it is, and mended to Tiny in both forms.
fn is_mended(alloc: Global, file: &[u8]) -> bool {
    answer(alloc, Engine::Check, file).starts_with(b"refused: bad Encoding at ")
        && answers(alloc, Engine::Mend(Form::Pfa), file, PFA)
        && answers(alloc, Engine::Mend(Form::Pfb), file, PFB)
}

/// Whether the engine and the call tell these lines of a file's mending.
fn tells(alloc: Global, file: &[u8], want: &[u8]) -> bool {
    let mut out = Vec::new(alloc);
    let mut reader = Counted::new(file);
    let ran = run_mend(alloc, &mut reader, Form::Pfa, &mut Counted::new(&mut out));
    is(ran, want) && is(list_mends(alloc, file), want)
}

/// Tiny with a comment in its Encoding, and the test.
fn tested(alloc: Global) -> Result<Vec<u8>, AllocError> {
    let commented = commented(alloc)?;
    with_all(alloc, commented.as_slice(), BEGINS, TESTED)
}

/// What is told wrongly of Tiny, or of it with a comment, with a copy, or with a comment and the test, if anything.
fn what_is_told_wrongly(
    alloc: Global,
    commented: &[u8],
    copied: &[u8],
    tested: &[u8],
) -> &'static str {
    const BOTH: &[u8] = b"comment in Encoding at 387\ntest of FontDirectory taken out at 0\n";
    if !tells(alloc, PFA, b"") {
        "Tiny"
    } else if !tells(alloc, PFB, b"") {
        "the PFB"
    } else if !tells(alloc, commented, b"comment in Encoding at 223\n") {
        "a comment"
    } else if !tells(alloc, copied, b"code copied at 209\n") {
        "a copy"
    } else if !tells(alloc, tested, BOTH) {
        "a comment, and the test"
    } else {
        ""
    }
}

#[test]
fn mending_is_told(rt: HostRuntime) -> Result<(), Fail> {
    let commented = commented(rt.alloc())?;
    let copied = copied(rt.alloc())?;
    let tested = tested(rt.alloc())?;
    let (commented, copied) = (commented.as_slice(), copied.as_slice());
    let wrong = what_is_told_wrongly(rt.alloc(), commented, copied, tested.as_slice());
    assert!(rt; wrong.is_empty(), "{wrong}");
    Ok(())
}

// meets run_mend Ok at 11 glyphs
// like run_mend: mend_file, list_mends
#[test]
fn tiny_is_mended(rt: HostRuntime) -> Result<(), Fail> {
    let commented = commented(rt.alloc())?;
    let copied = copied(rt.alloc())?;
    assert!(rt; is_mended(rt.alloc(), commented.as_slice()));
    assert!(rt; is_mended(rt.alloc(), copied.as_slice()));
    assert!(rt; answers(rt.alloc(), Engine::Mend(Form::Pfa), PFB, PFA));
    assert!(rt; answers(rt.alloc(), Engine::Mend(Form::Pfb), PFA, PFB));
    Ok(())
}

/// What Tiny is mended to when the test stands before its first bytes: Tiny with an empty text there.
#[test]
fn tests_are_taken_out(rt: HostRuntime) -> Result<(), Fail> {
    let tested = with_all(rt.alloc(), PFA, BEGINS, TESTED)?;
    let file = tested.as_slice();
    assert!(rt;
        answers(rt.alloc(), Engine::Convert(Form::Pfa), file, file),
        "pfa leaves it"
    );
    assert!(rt;
        answers(rt.alloc(), Engine::Mend(Form::Pfa), file, PFA),
        "mend takes it out"
    );
    Ok(())
}

#[test]
fn mended_fonts_rejoin(rt: HostRuntime) -> Result<(), Fail> {
    let tested = with_all(rt.alloc(), PFA, BEGINS, TESTED)?;
    let commented = commented(rt.alloc())?;
    let files = [tested.as_slice(), commented.as_slice(), PFB];
    assert!(rt; lists(rt.alloc(), List::Rejoin(Form::Pfa), &files, PFA));
    Ok(())
}
