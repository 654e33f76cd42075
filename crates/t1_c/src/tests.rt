//! A call of each function, small and large, with what it gives, and a refusal of each kind. What the program writes for
//! many more inputs is compared with the library's bytes in C.
mod documents;

use crate::{
    Answer, t1subset_check, t1subset_convert, t1subset_diff, t1subset_join, t1subset_list,
    t1subset_list_full, t1subset_mend, t1subset_mends, t1subset_merge, t1subset_rejoin,
    t1subset_show, t1subset_subset, t1subset_subset_codes,
};
use std::alloc::Global;
use std::test::Fail;
use t1_tiny::{PFA, PFB};

/// An answer of another call.
fn used() -> Answer {
    Answer {
        detail: 7,
        input: 7,
        bytes: b"old",
    }
}

/// Whether a call gave this number, this detail, this place and these bytes.
fn gave(code: u32, answer: &Answer, want: (u32, u64, i64, &[u8])) -> bool {
    let (number, detail, input, bytes) = want;
    code == number && answer.detail == detail && answer.input == input && answer.bytes == bytes
}

/// Whether a call was answered by a text that begins so.
fn begins(code: u32, answer: &Answer, start: &[u8]) -> bool {
    code == 0 && answer.detail == 0 && answer.input == -1 && answer.bytes.starts_with(start)
}

#[test]
fn texts(rt: HostRuntime) -> Result<(), Fail> {
    let mut a = used();
    let code = t1subset_check(rt.alloc(), PFB, &mut a);
    assert!(rt;
        gave(
            code,
            &a,
            (0, 0, -1, b"ok 11 glyphs, 10 subrs, weight 4936\n")
        )
    );
    let mut a = used();
    let code = t1subset_list(rt.alloc(), PFB, &mut a);
    assert!(rt; begins(code, &a, b"code 65 X\n"));
    let mut a = used();
    let code = t1subset_list_full(rt.alloc(), PFB, &mut a);
    assert!(rt; begins(code, &a, b"code 65 X\n") && a.bytes.ends_with(b"\nwidth acute 300 0\n"));
    let mut a = used();
    let code = t1subset_show(rt.alloc(), PFB, b"X", &mut a);
    assert!(rt; begins(code, &a, b"width 300 0\n"));
    let mut a = used();
    let code = t1subset_diff(rt.alloc(), PFB, PFA, &mut a);
    assert!(rt; gave(code, &a, (0, 0, -1, b"")));
    let mut a = used();
    let code = t1subset_join(rt.alloc(), b"S 5 0b\n", b"G A 0e\nS 5 0B\n", &mut a);
    assert!(rt; gave(code, &a, (0, 0, -1, b"S 5 0b\nG A 0e\n")));
    Ok(())
}

/// Tiny with a comment before the first entry of its Encoding.
fn commented(alloc: Global) -> Result<Vec<u8>, Fail> {
    let whole: &[u8] = PFA;
    let mut font = Vec::from_slice(alloc, &whole[..195])?;
    font.extend_from_slice(b"% a comment\n")?;
    font.extend_from_slice(&whole[195..])?;
    Ok(font)
}

#[test]
fn mends(rt: HostRuntime) -> Result<(), Fail> {
    let mut a = used();
    let code = t1subset_mends(rt.alloc(), PFB, &mut a);
    assert!(rt; gave(code, &a, (0, 0, -1, b"")));
    let font = commented(rt.alloc())?;
    let mut a = used();
    let code = t1subset_mends(rt.alloc(), font.as_slice(), &mut a);
    assert!(rt; gave(code, &a, (0, 0, -1, b"comment in Encoding at 195\n")));
    Ok(())
}

/// So many fonts, a PFA and a PFB in turn.
fn fonts(alloc: Global, count: usize) -> Result<Vec<&'static [u8]>, Fail> {
    let mut fonts: Vec<&'static [u8]> = Vec::with_capacity(alloc, count)?;
    for at in 0..count {
        fonts.push(if at % 2 == 0 { PFA } else { PFB })?;
    }
    Ok(fonts)
}

#[test]
fn files(rt: HostRuntime) -> Result<(), Fail> {
    let mut a = used();
    let code = t1subset_convert(rt.alloc(), PFB, 0, &mut a);
    assert!(rt; gave(code, &a, (0, 0, -1, PFA)));
    let mut a = used();
    let code = t1subset_convert(rt.alloc(), PFA, 1, &mut a);
    assert!(rt; gave(code, &a, (0, 0, -1, PFB)));
    let mut a = used();
    let code = t1subset_mend(rt.alloc(), PFB, 0, &mut a);
    assert!(rt; gave(code, &a, (0, 0, -1, PFA)));
    let mut one = used();
    let code = t1subset_subset(rt.alloc(), PFB, &[b"X", b"X"], 0, &mut one);
    assert!(rt; begins(code, &one, b"%!FontType1-1.0: Tiny"));
    assert_eq!(rt; one.bytes.len(), 2224);
    let mut a = used();
    let code = t1subset_merge(rt.alloc(), &[PFB, one.bytes], 1, &mut a);
    assert!(rt; gave(code, &a, (0, 0, -1, PFB)));
    let mut a = used();
    let code = t1subset_rejoin(rt.alloc(), &[one.bytes, PFB], 1, &mut a);
    assert!(rt; gave(code, &a, (0, 0, -1, PFB)));
    Ok(())
}

/// Tiny's Encoding has X at code 65, Y at 66 and H at 194.
#[test]
fn codes(rt: HostRuntime) -> Result<(), Fail> {
    let mut named = used();
    let code = t1subset_subset(rt.alloc(), PFB, &[b"X"], 0, &mut named);
    assert!(rt; begins(code, &named, b"%!FontType1-1.0: Tiny"));
    let rows: [(&[&[u8]], &[u8]); 4] = [
        (&[], b"A"),
        (&[b"X"], b""),
        (&[b"X"], b"A"),
        (&[b"X", b"X"], b"AAA"),
    ];
    for (names, codes) in rows {
        let mut a = used();
        let code = t1subset_subset_codes(rt.alloc(), PFB, names, codes, 0, &mut a);
        assert!(rt; gave(code, &a, (0, 0, -1, named.bytes)));
    }
    let mut named = used();
    let code = t1subset_subset(rt.alloc(), PFA, &[b"H", b"X", b"Y"], 1, &mut named);
    assert!(rt; begins(code, &named, b"\x80\x01"));
    let mut many = Vec::new(rt.alloc());
    for _ in 0..1000 {
        many.extend_from_slice(b"B\xc2")?;
    }
    let mut a = used();
    let code = t1subset_subset_codes(rt.alloc(), PFA, &[b"X"], many.as_slice(), 1, &mut a);
    assert!(rt; gave(code, &a, (0, 0, -1, named.bytes)));
    Ok(())
}

#[test]
fn refusals_of_codes(rt: HostRuntime) -> Result<(), Fail> {
    let rows: [(&[u8], &[&[u8]], &[u8], (u32, u64, i64, &[u8])); 5] = [
        (PFA, &[b"Q"], b"AC", (5, 67, -1, b"no code 67")),
        (PFA, &[], b"\x00", (5, 0, -1, b"no code 0")),
        (PFB, &[b"X"], b"B\xffC", (5, 255, -1, b"no code 255")),
        (PFA, &[b"Q"], b"AB", (4, 0, -1, b"no glyph Q")),
        (b"%!", &[b"Q"], b"C", (11, 0, 0, b"no eexec")),
    ];
    for (font, names, codes, want) in rows {
        let mut a = used();
        let code = t1subset_subset_codes(rt.alloc(), font, names, codes, 0, &mut a);
        assert!(rt; gave(code, &a, want));
    }
    Ok(())
}

#[test]
fn lists_of_fonts(rt: HostRuntime) -> Result<(), Fail> {
    for count in [1, 2, 3, 5, 100] {
        let fonts = fonts(rt.alloc(), count)?;
        let mut a = used();
        let code = t1subset_merge(rt.alloc(), fonts.as_slice(), 0, &mut a);
        assert!(rt; gave(code, &a, (0, 0, -1, PFA)));
        let mut a = used();
        let code = t1subset_rejoin(rt.alloc(), fonts.as_slice(), 0, &mut a);
        assert!(rt; gave(code, &a, (0, 0, -1, PFA)));
    }
    Ok(())
}

#[test]
fn refusals_of_a_font(rt: HostRuntime) -> Result<(), Fail> {
    let mut a = used();
    let code = t1subset_check(rt.alloc(), b"%!", &mut a);
    assert!(rt; gave(code, &a, (11, 0, 0, b"no eexec")));
    let mut a = used();
    let code = t1subset_list(rt.alloc(), b"\x80\x01\x02\x00\x00\x00%!\x80\x07", &mut a);
    assert!(rt; gave(code, &a, (10, 8, 0, b"bad segment at 8")));
    let mut a = used();
    let code = t1subset_list_full(rt.alloc(), b"\x80\x01\x02\x00\x00\x00%!\x80\x07", &mut a);
    assert!(rt; gave(code, &a, (10, 8, 0, b"bad segment at 8")));
    let mut a = used();
    let code = t1subset_show(rt.alloc(), PFA, b"Q", &mut a);
    assert!(rt; gave(code, &a, (4, 0, -1, b"no glyph Q")));
    let mut a = used();
    let code = t1subset_subset(rt.alloc(), PFA, &[b"X", b"Q"], 1, &mut a);
    assert!(rt; gave(code, &a, (4, 0, -1, b"no glyph Q")));
    let mut a = used();
    let code = t1subset_convert(rt.alloc(), b"currentfile eexec ", 1, &mut a);
    assert!(rt; gave(code, &a, (12, 0, 0, b"cipher too short")));
    let mut a = used();
    let code = t1subset_mend(rt.alloc(), b"currentfile eexec ", 1, &mut a);
    assert!(rt; gave(code, &a, (12, 0, 0, b"cipher too short")));
    let mut a = used();
    let code = t1subset_mends(rt.alloc(), b"currentfile eexec ", &mut a);
    assert!(rt; gave(code, &a, (12, 0, 0, b"cipher too short")));
    Ok(())
}

#[test]
fn refusals_of_several(rt: HostRuntime) -> Result<(), Fail> {
    let mut a = used();
    let code = t1subset_merge(rt.alloc(), &[], 0, &mut a);
    assert!(rt; gave(code, &a, (36, 0, -1, b"nothing to merge")));
    let mut a = used();
    let code = t1subset_merge(rt.alloc(), &[PFA, b"%!", PFB, b"\x80"], 0, &mut a);
    assert!(rt; gave(code, &a, (11, 0, 1, b"no eexec")));
    let mut a = used();
    let code = t1subset_rejoin(rt.alloc(), &[PFA, PFB, b"\x80"], 0, &mut a);
    assert!(rt; gave(code, &a, (10, 0, 2, b"bad segment at 0")));
    let mut a = used();
    let code = t1subset_join(rt.alloc(), b"S 7 0b\n", b"S 6 \nS", &mut a);
    assert!(rt; gave(code, &a, (40, 2, 1, b"bad line 2")));
    let mut a = used();
    let code = t1subset_join(rt.alloc(), b"S 7 0b\n\nS 7 0b\n", b"", &mut a);
    assert!(rt; gave(code, &a, (40, 2, 0, b"bad line 2")));
    let mut a = used();
    let code = t1subset_join(rt.alloc(), b"S 7 0b\nS 7 0b\n", b"", &mut a);
    assert!(rt; gave(code, &a, (41, 2, 0, b"repeated in line 2")));
    let mut a = used();
    let code = t1subset_join(rt.alloc(), b"S 7 0b\n", b"S 7 0c\n", &mut a);
    assert!(rt; gave(code, &a, (42, 7, -1, b"subr 7 differs")));
    let mut a = used();
    let code = t1subset_join(rt.alloc(), b"G Q 0b\n", b"G Q 0c\n", &mut a);
    assert!(rt; gave(code, &a, (43, 0, -1, b"glyph Q differs")));
    Ok(())
}

#[test]
fn calls_without_a_form(rt: HostRuntime) -> Result<(), Fail> {
    for form in [2, 3, 256, 4_294_967_295] {
        let mut a = used();
        let code = t1subset_convert(rt.alloc(), PFA, form, &mut a);
        assert!(rt; gave(code, &a, (2, 0, -1, b"")));
        let mut a = used();
        let code = t1subset_mend(rt.alloc(), PFA, form, &mut a);
        assert!(rt; gave(code, &a, (2, 0, -1, b"")));
        let mut a = used();
        let code = t1subset_subset(rt.alloc(), b"", &[b"Q"], form, &mut a);
        assert!(rt; gave(code, &a, (2, 0, -1, b"")));
        let mut a = used();
        let code = t1subset_subset_codes(rt.alloc(), b"", &[b"Q"], b"C", form, &mut a);
        assert!(rt; gave(code, &a, (2, 0, -1, b"")));
        let mut a = used();
        let code = t1subset_merge(rt.alloc(), &[], form, &mut a);
        assert!(rt; gave(code, &a, (2, 0, -1, b"")));
        let mut a = used();
        let code = t1subset_rejoin(rt.alloc(), &[PFA], form, &mut a);
        assert!(rt; gave(code, &a, (2, 0, -1, b"")));
    }
    Ok(())
}
