//! Answers that only come in odd cases, or are long, with ample memory: many codes and conflicts, and long paths.
use std::alloc::{AllocError, Global};
use std::test::Fail;
use t1_bytes::texts::find_from;
use t1_cmd_shared_tests::changed::{tiny_and, tiny_encoded};
use t1_cmd_shared_tests::diffs::differs;
use t1_cmd_shared_tests::engines::{Engine, answer, answers};
use t1_cmd_shared_tests::texts::joined;
use t1_font::Form;
use t1_tiny::{PFA, PFB};

// meets run_subset_with_codes Ok at 20 codes
// like run_subset_with_codes: subset_file_with_codes
#[test]
fn twenty_codes(rt: HostRuntime) {
    let both: &[&[u8]] = &[b"X", b"Y"];
    let want = answer(rt.alloc(), Engine::Subset(both, Form::Pfa), PFB);
    let codes = Engine::Codes(&[], b"ABABABABABABABABABAB", Form::Pfa);
    assert!(rt; answers(rt.alloc(), codes, PFA, want.as_slice()));
}

/// Lines of the codes from 10 to 89: what stands before the digits of each, and what after them.
fn lines_of_codes(alloc: Global, before: &[u8], after: &[u8]) -> Result<Vec<u8>, AllocError> {
    let mut lines = Vec::new(alloc);
    for code in 10..90u32 {
        let code = code.to_string(alloc)?;
        let line = joined(alloc, &[before, code.as_bytes(), after])?;
        lines.extend_from_slice(line.as_slice())?;
    }
    Ok(lines)
}

/// Tiny whose codes from 10 to 89 have this name.
fn named(alloc: Global, name: &[u8]) -> Result<Vec<u8>, AllocError> {
    let codes = lines_of_codes(alloc, b"dup ", name)?;
    let encoding = joined(alloc, &[b"/Encoding 256 array\n", codes.as_slice(), b"def"])?;
    tiny_encoded(alloc, encoding.as_slice())
}

// meets run_diff Ok at 80 conflicts
// like run_diff: diff_files
#[test]
fn eighty_conflicts(rt: HostRuntime) -> Result<(), Fail> {
    let alloc = rt.alloc();
    let x = named(alloc, b" /X put\n")?;
    let y = named(alloc, b" /Y put\n")?;
    let want = lines_of_codes(alloc, b"code ", b" differs\n")?;
    assert!(rt;
        differs(
            alloc,
            x.as_slice(),
            y.as_slice(),
            want.as_slice(),
            Some(false)
        )
    );
    Ok(())
}

// meets run_check_of Ok at 1000 bytes
#[test]
fn a_long_path(rt: HostRuntime) -> Result<(), Fail> {
    let mut path = Vec::new(rt.alloc());
    path.resize(1_000, b'p')?;
    let line = b": ok 11 glyphs, 10 subrs, weight 4936\n";
    let want = joined(rt.alloc(), &[path.as_slice(), line])?;
    assert!(rt;
        answers(
            rt.alloc(),
            Engine::CheckOf(path.as_slice()),
            PFB,
            want.as_slice()
        )
    );
    Ok(())
}

// meets run_list_full Ok at 11 glyphs
#[test]
fn a_width_to_the_left(rt: HostRuntime) -> Result<(), Fail> {
    let file = tiny_and(rt.alloc(), b"X", b"\x8b\x27\x0d\x0e")?;
    let text = answer(rt.alloc(), Engine::ListFull, file.as_slice());
    assert!(rt; find_from(text.as_slice(), b"\nwidth X -100 0\n", 0).is_some());
    Ok(())
}
