//! Each engine over a font of as many glyphs as there can be, and over a listing of as many lines.
use super::joins;
use std::alloc::{AllocError, Global};
use std::test::Fail;
use t1_cmd_shared_tests::changed::file_of;
use t1_cmd_shared_tests::diffs::differs;
use t1_cmd_shared_tests::engines::{Engine, answer, answers};
use t1_cmd_shared_tests::lists::{LISTS, form_of, lists};
use t1_cmd_shared_tests::texts::joined;
use t1_font::Form;

/// A line of each of so many numbers: what stands before its digits, and what after them.
fn numbered(
    alloc: Global,
    from: u32,
    to: u32,
    before: &[u8],
    after: &[u8],
) -> Result<Vec<u8>, AllocError> {
    let mut lines = Vec::new(alloc);
    for number in from..to {
        let number = number.to_string(alloc)?;
        lines.extend_from_slice(before)?;
        lines.extend_from_slice(number.as_bytes())?;
        lines.extend_from_slice(after)?;
    }
    Ok(lines)
}

/// A font of 65,535 glyphs without bytes: `.notdef` and those of the numbers below 65,534.
fn many(alloc: Global) -> Result<Vec<u8>, AllocError> {
    const START: &[u8] = b"/lenIV 0 def /CharStrings 1 dict dup begin\n/.notdef 0 RD  ND\n";
    let glyphs = numbered(alloc, 0, 65_534, b"/g", b" 0 RD  ND\n")?;
    let private = joined(alloc, &[START, glyphs.as_slice(), b"end closefile"])?;
    file_of(alloc, 0, private.as_slice())
}

/// Whether a font is told to have this many glyphs, also behind a path.
fn has_glyphs(alloc: Global, file: &[u8], line: &[u8]) -> bool {
    let told = answer(alloc, Engine::CheckOf(b""), file);
    told.starts_with(b": ")
        && told.as_slice()[2..].starts_with(line)
        && answer(alloc, Engine::Check, file).starts_with(line)
}

/// Whether a font's full listing has this many lines, of which this is the last, behind those of its listing.
fn is_listed_in_full(alloc: Global, file: &[u8], lines: usize, last: &[u8]) -> bool {
    let text = answer(alloc, Engine::ListFull, file);
    let listed = answer(alloc, Engine::List, file);
    has_lines(text.as_slice(), lines, last) && text.starts_with(listed.as_slice())
}

/// Whether a text has this many lines, of which this is the last.
fn has_lines(text: &[u8], lines: usize, last: &[u8]) -> bool {
    text.iter().filter(|byte| **byte == b'\n').count() == lines && text.ends_with(last)
}

/// Whether a font's listing has a line for the Encoding and for each glyph, of which this is the last.
fn is_listed(alloc: Global, file: &[u8], lines: usize, last: &[u8]) -> bool {
    has_lines(answer(alloc, Engine::List, file).as_slice(), lines, last)
}

/// Whether each engine over lists writes of a font and itself what it is converted to in this form.
fn lists_with_itself(alloc: Global, file: &[u8], form: Form, want: &[u8]) -> bool {
    for &list in LISTS {
        if form_of(list) == form && !lists(alloc, list, &[file, file], want) {
            return false;
        }
    }
    true
}

/// Whether a font is written in a form, mended so, and written so by each engine over lists where it stands beside itself.
fn is_rewritten(alloc: Global, file: &[u8], form: Form) -> bool {
    const LINE: &[u8] = b"ok 65535 glyphs, 0 subrs, weight ";
    let text = answer(alloc, Engine::Convert(form), file);
    let text = text.as_slice();
    has_glyphs(alloc, text, LINE)
        && answers(alloc, Engine::Mend(form), file, text)
        && lists_with_itself(alloc, file, form, text)
}

/// Whether the last glyph of a font is shown and cut, in both forms.
fn has_the_last(alloc: Global, file: &[u8]) -> bool {
    let pfa = answer(alloc, Engine::Subset(&[b"g65533"], Form::Pfa), file);
    let pfb = answer(alloc, Engine::Subset(&[b"g65533"], Form::Pfb), file);
    const LINE: &[u8] = b"ok 2 glyphs, 0 subrs, weight ";
    answers(alloc, Engine::Show(b"g65533"), file, b"fault Unended\n")
        && has_glyphs(alloc, pfa.as_slice(), LINE)
        && has_glyphs(alloc, pfb.as_slice(), LINE)
}

/// Whether a name that the font lacks is refused.
fn lacks_the_next(alloc: Global, file: &[u8]) -> bool {
    const LINE: &[u8] = b"refused: no glyph g65534\n";
    const NAMES: &[&[u8]] = &[b"g1", b"g65534"];
    answers(alloc, Engine::Codes(NAMES, b"", Form::Pfa), file, LINE)
        && answers(alloc, Engine::Show(b"g65534"), file, LINE)
        && answers(alloc, Engine::Subset(NAMES, Form::Pfa), file, LINE)
}

/// What of that font is wrong, if anything.
fn what_is_wrong(alloc: Global, file: &[u8]) -> &'static str {
    const LINE: &[u8] = b"ok 65535 glyphs, 0 subrs, weight ";
    const LAST: &[u8] = b"\nwidth g9999 fault Unended\n";
    if !has_glyphs(alloc, file, LINE) {
        "its line"
    } else if !is_listed(alloc, file, 65_536, b"\nglyph g9999 0\n") {
        "its listing"
    } else if !is_listed_in_full(alloc, file, 131_071, LAST) {
        "its full listing"
    } else if !is_rewritten(alloc, file, Form::Pfa) {
        "its PFA"
    } else if !is_rewritten(alloc, file, Form::Pfb) {
        "its PFB"
    } else if !has_the_last(alloc, file) {
        "its last glyph"
    } else if !lacks_the_next(alloc, file) {
        "a name that it lacks"
    } else if !differs(alloc, file, file, b"", Some(true)) {
        "that it joins with itself"
    } else {
        ""
    }
}

// meets run_check Ok at 65535 glyphs
// meets run_show NoGlyph at 65535 glyphs
// meets run_subset NoGlyph at 65535 glyphs
// like run_check: run_check_of, run_list, run_list_full, run_convert, run_mend, run_merge, run_rejoin
// like run_check: check_file, list_file, list_file_full, convert_file, mend_file, list_mends, merge_files, rejoin_files
// like run_check: run_diff, diff_files
// like run_show: show_file
// like run_subset: subset_file, run_subset_with_codes, subset_file_with_codes
#[test]
fn as_many_glyphs_as_a_font_can_have(rt: HostRuntime) -> Result<(), Fail> {
    let file = many(rt.alloc())?;
    let wrong = what_is_wrong(rt.alloc(), file.as_slice());
    assert!(rt; wrong.is_empty(), "{wrong}");
    Ok(())
}

/// Whether listings of which the first has all lines of the second join, and are refused where the last line of one repeats a line,
/// breaks off, or differs.
fn all_join(alloc: Global, left: &[u8], right: &[u8], repeated: &[u8], broken: &[u8]) -> bool {
    joins(alloc, left, right, left, b"")
        && joins(
            alloc,
            right,
            repeated,
            b"",
            b"refused: repeated in line 65536\n",
        )
        && joins(alloc, right, broken, b"", b"refused: bad line 65536\n")
        && joins(
            alloc,
            left,
            b"S 65534 0b\n",
            b"",
            b"refused: subr 65534 differs\n",
        )
}

/// The same of listings of so many Subrs.
fn listings_join(alloc: Global, count: u32) -> Result<bool, AllocError> {
    let left = numbered(alloc, 0, count, b"S ", b" \n")?;
    let right = numbered(alloc, count / 2, count, b"S ", b" \n")?;
    let repeated = joined(alloc, &[left.as_slice(), b"S 0 \n"])?;
    let broken = joined(alloc, &[left.as_slice(), b"S"])?;
    let (left, right) = (left.as_slice(), right.as_slice());
    Ok(all_join(alloc, left, right, repeated.as_slice(), broken.as_slice()))
}

// meets run_join Ok at 65535 lines
// meets run_join Repeated at 65536 lines
// meets run_join BadLine at 65536 lines
// meets run_join Subr at 65535 lines
// like run_join: join_listings
#[test]
fn as_many_subrs_as_a_listing_can_have(rt: HostRuntime) {
    assert!(rt; listings_join(rt.alloc(), 65_535) == Ok(true));
}
