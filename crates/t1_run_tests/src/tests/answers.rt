// Each fault of the calls that run a glyph, at once and after about as many tokens as a run may execute.

use crate::tests::budget::{WIDTH, charstring};
use crate::tests::fonts::{GlyphFont, fault};
use std::alloc::Global;
use std::test::Fail;
use t1_run::{Direct, DrawFault, Drawing, Fault, direct, direct3, draw, draw3, lay_out};

// Each fault, and what meets it after a width and makes no mark.
const FAULTS: &[(Fault, &[u8])] = &[
    (Fault::Overflow, &[0x8B; 25]),
    (Fault::Underflow, b"\x06"),
    (Fault::Nesting, b"\x94\x0a"),
    (Fault::NoSubr, b"\xef\x0a"),
    (Fault::OtherProc, b"\x8b\x8f\x0c\x10"),
    (Fault::BadFlex, b"\x8b\x8d\x0c\x10"),
    (Fault::Unended, b"\x0b"),
    (Fault::BadToken, b"\x0f"),
    (Fault::NoWidth, b"\x8b\x8b\x0d"),
    (Fault::ZeroDivisor, b"\x8c\x8b\x0c\x0c"),
    (Fault::Range, b"\xff\x7f\xff\xff\xff\x8b\x0c\x21\x8d\x16"),
    (Fault::NotWhole, b"\x8c\x8e\x0c\x0c\x0a"),
    (Fault::TooLong, b"\xb3\x0a"),
    (Fault::EmptyPop, b"\x0c\x11"),
];

// Why a glyph isn't drawn, and how its charstring ends.
const UNDRAWN: &[(DrawFault, &[u8])] = &[
    (DrawFault::Run(Fault::BadToken), b"\x0f"),
    (
        DrawFault::NoPart,
        b"\xbd\xf7\x0c\xf7\x5c\x8b\xf7\x56\x0c\x06",
    ),
    (
        DrawFault::MissingPart,
        b"\xbd\xf7\x0c\xf7\x5c\xce\xf7\x56\x0c\x06",
    ),
    (
        DrawFault::NestedSeac,
        b"\xbd\xf7\x0c\xf7\x5c\xcd\xf7\x56\x0c\x06",
    ),
    (
        DrawFault::PartFault,
        b"\xbd\xf7\x0c\xf7\x5c\xd7\xf7\x56\x0c\x06",
    ),
];

// `50 120 200 65 194 seac`: of A and acute.
const SEAC: &[u8] = b"\xbd\xf7\x0c\xf7\x5c\xcc\xf7\x56\x0c\x06";

// Whether a charstring answers this fault, where hints are replaced and where they are kept.
fn fails(
    alloc: Global,
    font: &GlyphFont<'_>,
    charstring: &[u8],
    want: Fault,
) -> Result<bool, Fail> {
    let replaced = direct(alloc, font, charstring)?;
    let kept = direct3(alloc, font, charstring)?;
    Ok(fault(&replaced) == Some(want) && kept == replaced)
}

// Whether all calls answer this fault of a name.
fn is_undrawn(
    alloc: Global,
    font: &GlyphFont<'_>,
    name: &[u8],
    want: DrawFault,
) -> Result<bool, Fail> {
    let replaced = draw(alloc, font, name)?;
    let kept = draw3(alloc, font, name)?;
    let layout = lay_out(alloc, font, name)?;
    let is_failed = replaced == Drawing::Failed(want) && kept == replaced;
    Ok(is_failed && layout == Drawing::Failed(want))
}

// The first fault that is answered otherwise.
fn first_other_run(alloc: Global) -> Result<Option<Fault>, Fail> {
    for &(want, end) in FAULTS {
        let glyph = charstring(alloc, &WIDTH, 0, end)?;
        let font = GlyphFont::new(alloc, &[], &[(b"M", &glyph)], None)?;
        if !fails(alloc, &font, &glyph, want)?
            || !is_undrawn(alloc, &font, b"M", DrawFault::Run(want))?
        {
            return Ok(Some(want));
        }
    }
    Ok(None)
}

// The first fault that is answered otherwise after so many dotsections.
fn first_other_late_run(alloc: Global, dotsections: u32) -> Result<Option<Fault>, Fail> {
    let font = GlyphFont::new(alloc, &[], &[], None)?;
    for &(want, end) in FAULTS {
        let glyph = charstring(alloc, &WIDTH, dotsections, end)?;
        if !fails(alloc, &font, &glyph, want)? {
            return Ok(Some(want));
        }
    }
    Ok(None)
}

// meets direct Overflow at 0, 99900 marks
// meets direct Underflow at 0, 99900 marks
// meets direct Nesting at 0, 99900 marks
// meets direct NoSubr at 0, 99900 marks
// meets direct OtherProc at 0, 99900 marks
// meets direct BadFlex at 0, 99900 marks
// meets direct Unended at 0, 99900 marks
// meets direct BadToken at 0, 99900 marks
// meets direct NoWidth at 0, 99900 marks
// meets direct ZeroDivisor at 0, 99900 marks
// meets direct Range at 0, 99900 marks
// meets direct NotWhole at 0, 99900 marks
// meets direct TooLong at 0, 99900 marks
// meets direct EmptyPop at 0, 99900 marks
// meets direct3 Overflow at 0, 99900 marks
// meets direct3 Underflow at 0, 99900 marks
// meets direct3 Nesting at 0, 99900 marks
// meets direct3 NoSubr at 0, 99900 marks
// meets direct3 OtherProc at 0, 99900 marks
// meets direct3 BadFlex at 0, 99900 marks
// meets direct3 Unended at 0, 99900 marks
// meets direct3 BadToken at 0, 99900 marks
// meets direct3 NoWidth at 0, 99900 marks
// meets direct3 ZeroDivisor at 0, 99900 marks
// meets direct3 Range at 0, 99900 marks
// meets direct3 NotWhole at 0, 99900 marks
// meets direct3 TooLong at 0, 99900 marks
// meets direct3 EmptyPop at 0, 99900 marks
#[test]
fn fails_at_once_and_late(rt: HostRuntime) -> Result<(), Fail> {
    assert_eq!(rt; first_other_run(rt.alloc())?, None);
    assert_eq!(rt; first_other_late_run(rt.alloc(), 99_900)?, None);
    Ok(())
}

// The first fault that is answered otherwise of a glyph's drawing, after so many dotsections.
fn first_other_drawing(alloc: Global, dotsections: u32) -> Result<Option<DrawFault>, Fail> {
    for &(want, end) in UNDRAWN {
        let glyph = charstring(alloc, &WIDTH, dotsections, end)?;
        let font = GlyphFont::new(alloc, &[], &[(b"M", &glyph)], None)?;
        if !is_undrawn(alloc, &font, b"M", want)? {
            return Ok(Some(want));
        }
    }
    Ok(None)
}

// Whether an accented glyph isn't drawn for this fault of its base, which ends so after so many dotsections.
fn has_bad_base(
    alloc: Global,
    dotsections: u32,
    end: &[u8],
    want: DrawFault,
) -> Result<bool, Fail> {
    let base = charstring(alloc, &WIDTH, dotsections, end)?;
    let font = GlyphFont::new(alloc, &[], &[(b"A", &base)], None)?;
    is_undrawn(alloc, &font, b"Aacute", want)
}

// Whether a name of so many bytes has no glyph.
fn lacks_name(alloc: Global, length: u32) -> Result<bool, Fail> {
    let mut name = Vec::new(alloc);
    for _ in 0..length {
        name.push(b'x')?;
    }
    let font = GlyphFont::new(alloc, &[], &[], None)?;
    is_undrawn(alloc, &font, &name, DrawFault::NoGlyph)
}

// meets draw Run at 0, 99991 marks
// meets draw NoPart at 0, 99991 marks
// meets draw MissingPart at 0, 99991 marks
// meets draw NestedSeac at 0, 99991 marks
// meets draw PartFault at 0, 99991, 99997 marks
// meets draw NoGlyph at 0, 1, 65535 bytes
// meets draw3 Run at 0, 99991 marks
// meets draw3 NoPart at 0, 99991 marks
// meets draw3 MissingPart at 0, 99991 marks
// meets draw3 NestedSeac at 0, 99991 marks
// meets draw3 PartFault at 0, 99991, 99997 marks
// meets draw3 NoGlyph at 0, 1, 65535 bytes
// meets lay_out Run at 0, 99991 marks
// meets lay_out NoPart at 0, 99991 marks
// meets lay_out MissingPart at 0, 99991 marks
// meets lay_out NestedSeac at 0, 99991 marks
// meets lay_out PartFault at 0, 99991, 99997 marks
// meets lay_out NoGlyph at 0, 1, 65535 bytes
#[test]
fn is_undrawn_at_once_and_late(rt: HostRuntime) -> Result<(), Fail> {
    let alloc = rt.alloc();
    for dotsections in [0, 99_991] {
        assert_eq!(rt;
            first_other_drawing(alloc, dotsections)?,
            None,
            "{dotsections}"
        );
        let is_nested = has_bad_base(alloc, dotsections, SEAC, DrawFault::NestedSeac)?;
        assert!(rt; is_nested, "an accented base of {dotsections}");
    }
    let is_faulty = has_bad_base(alloc, 99_997, b"\x0e", DrawFault::PartFault)?;
    assert!(rt; is_faulty, "a base of one token too many");
    for length in [0, 1, 65_535] {
        assert!(rt; lacks_name(alloc, length)?, "a name of {length} bytes");
    }
    Ok(())
}
