//! Each prefix of the files of the font Tiny.

use std::alloc::Global;
use t1_font::ReadFault;
use t1_font_shared_tests::of_file;
use t1_tiny::{PFA, PFB};

/// The weight of a file's font.
fn weight(alloc: Global, file: &[u8]) -> Result<u32, ReadFault> {
    of_file(alloc, file, |font| Ok(font.weight()))
}

#[test]
fn prefixes_of_the_pfa(rt: HostRuntime) {
    for n in 0..=PFA.len() {
        let got = weight(rt.alloc(), &PFA[..n]);
        let is_right = match n {
            0..=312 => got == Err(ReadFault::NoEexec),
            313..=320 => got == Err(ReadFault::ShortCipher),
            321..=1429 => got == Err(ReadFault::NoCharStrings),
            1430 => got == Err(ReadFault::BadGlyphs { at: 546 }),
            1431..=2163 => matches!(got, Err(ReadFault::BadGlyphs { .. })),
            2164 => got == Err(ReadFault::BadGlyphs { at: 905 }),
            2165..=2357 => got == Err(ReadFault::NoClosefile),
            _ => got == Ok(4936),
        };
        assert!(rt; is_right, "{n} bytes");
    }
}

#[test]
fn prefixes_of_the_pfb(rt: HostRuntime) {
    for n in 0..=PFB.len() {
        let want = match n {
            0 => Err(ReadFault::NoEexec),
            1..=318 => Err(ReadFault::BadSegment { at: 0 }),
            319 => Err(ReadFault::ShortCipher),
            320..=1332 => Err(ReadFault::BadSegment { at: 319 }),
            1334..=1870 => Err(ReadFault::BadSegment { at: 1333 }),
            1872 => Err(ReadFault::BadSegment { at: 1871 }),
            _ => Ok(4936),
        };
        assert!(rt; weight(rt.alloc(), &PFB[..n]) == want, "{n} bytes");
    }
}
