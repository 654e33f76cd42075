//! Large files: many segments, long lines of digits, and what is written of them.

use super::{joined, refusal, splits, with_digits};
use std::alloc::{AllocError, Global};
use std::test::Fail;
use t1_bytes::{
    BytesFault, EEXEC_KEY, EEXEC_LEAD, Form, file_around, find_cipher, flatten, flatten_vec,
    hex_lines, seal, segments, trailer,
};

/// The refusal of a file in a vector of its own, if it has no flat text or no cipher.
fn own_refusal(alloc: Global, file: Vec<u8>) -> Option<BytesFault> {
    match flatten_vec(file) {
        Ok(flat) => find_cipher(alloc, flat.as_slice()).err(),
        Err(fault) => Some(fault),
    }
}

/// A text, so many times.
fn repeated(alloc: Global, text: &[u8], times: usize) -> Result<Vec<u8>, AllocError> {
    let mut all = Vec::new(alloc);
    for _ in 0..times {
        all.extend_from_slice(text)?;
    }
    Ok(all)
}

/// Files of a piece so many times, a text, and another piece so many times; and the refusal of each.
const LARGE: &[(&[u8], &[u8], &[u8], usize, Option<BytesFault>, &str)] = &[
    (
        b"% currentfile\n",
        b"currentfile eexec\n",
        b"d9",
        1_000_000,
        None,
        "one long line of digits",
    ),
    (
        b"% currentfile\n",
        b"currentfile eexec\n",
        b"\x81",
        3,
        Some(BytesFault::ShortCipher),
        "three bytes",
    ),
    (
        b"% currentfile\n",
        b"",
        b"",
        0,
        Some(BytesFault::NoEexec),
        "a clear text alone",
    ),
    (
        b"\x80\x01\x0e\0\0\0% currentfile\n",
        b"\x80\x03",
        b"",
        0,
        Some(BytesFault::NoEexec),
        "many segments",
    ),
    (
        b"\x80\x01\x0e\0\0\0% currentfile\n",
        b"\x80\x04",
        b"",
        0,
        Some(BytesFault::BadSegment { at: 200_000 }),
        "type 4 after many segments",
    ),
];

/// 10,000 times a piece, a text, and another piece so many times.
fn large(
    alloc: Global,
    piece: &[u8],
    text: &[u8],
    last: &[u8],
    times: usize,
) -> Result<Vec<u8>, AllocError> {
    let mut file = repeated(alloc, piece, 10_000)?;
    file.extend_from_slice(text)?;
    let rest = repeated(alloc, last, times)?;
    file.extend_from_slice(rest.as_slice())?;
    Ok(file)
}

// meets flatten Ok at 140000 bytes
// meets flatten BadSegment at 200000 bytes
// meets flatten_vec Ok at 140000 bytes
// meets flatten_vec BadSegment at 200000 bytes
// meets split_eexec NoEexec at 140000 bytes
// meets split_eexec ShortCipher at 140000 bytes
// meets find_cipher NoEexec at 140000 bytes
// meets find_cipher ShortCipher at 140000 bytes
#[test]
fn takes_large_files(rt: HostRuntime) -> Result<(), Fail> {
    for &(piece, text, last, times, want, name) in LARGE {
        let file = large(rt.alloc(), piece, text, last, times)?;
        assert!(rt; file.len() >= 140_000, "{name}");
        assert!(rt; refusal(rt.alloc(), file.as_slice()) == want, "{name}");
        assert!(rt; own_refusal(rt.alloc(), file) == want, "{name}");
    }
    Ok(())
}

/// The bytes of a cipher, and then those that the trailer spells: 256 that are zero, and the `c` that is left out.
fn with_zeros(alloc: Global, cipher: &[u8]) -> Result<Vec<u8>, AllocError> {
    let mut all = cipher.to_vec(alloc)?;
    all.resize(cipher.len() + 256, 0)?;
    Ok(all)
}

/// Whether a clear text and a cipher are taken apart again, as segments and as lines of digits.
fn is_read_again(alloc: Global, clear: &[u8], cipher: &[u8]) -> Result<bool, BytesFault> {
    if clear.is_empty() || clear.len() > 200_000 || cipher.len() > 2_000_000 {
        return Ok(false);
    }
    let at = clear.len() - 1;
    let pfb = flatten_vec(segments(alloc, clear, cipher, trailer())?)?;
    let pfa = flatten_vec(with_digits(alloc, clear, cipher)?)?;
    let binary = joined(alloc, cipher, trailer())?;
    let spelled = with_zeros(alloc, cipher)?;
    Ok(
        splits(alloc, pfb.as_slice(), Ok((at, binary.as_slice())))
            && splits(alloc, pfa.as_slice(), Ok((at, spelled.as_slice()))),
    )
}

/// Whether the file around a cipher is the one that is written of both, in both forms.
fn is_around(alloc: Global, clear: &[u8], cipher: Vec<u8>) -> Result<bool, BytesFault> {
    if clear.len() > 20_000_000 || cipher.len() > 2_000_000 {
        return Ok(false);
    }
    let pfb = segments(alloc, clear, cipher.as_slice(), trailer())?;
    let pfa = with_digits(alloc, clear, cipher.as_slice())?;
    let copy = Vec::from_slice(alloc, cipher.as_slice())?;
    Ok(
        is_made(alloc, copy, clear, Form::Pfa, pfa.as_slice())?
            && is_made(alloc, cipher, clear, Form::Pfb, pfb.as_slice())?,
    )
}

/// Whether this file is made around a cipher.
pub fn is_made(
    alloc: Global,
    cipher: Vec<u8>,
    clear: &[u8],
    form: Form,
    want: &[u8],
) -> Result<bool, BytesFault> {
    match file_around(alloc, cipher, clear, form)? {
        Some(file) => Ok(file.as_slice() == want),
        None => Ok(false),
    }
}

// meets seal Ok at 1400000 bytes
// meets segments Ok at 1400000 bytes
// meets hex_lines Ok at 1400000 bytes
// meets file_around Some at 1400000 bytes
// meets split_eexec Ok at 1400000 bytes
// meets find_cipher Ok at 1400000 bytes
#[test]
fn takes_large_files_that_were_written(rt: HostRuntime) -> Result<(), Fail> {
    let clear = large(
        rt.alloc(),
        b"% currentfile\n",
        b"currentfile eexec\n",
        b"",
        0,
    )?;
    let private = repeated(rt.alloc(), b"dup 5 {", 200_000)?;
    assert!(rt; private.len() == 1_400_000);
    let cipher = seal(rt.alloc(), private.as_slice(), EEXEC_KEY, EEXEC_LEAD)?;
    assert!(rt; is_read_again(rt.alloc(), clear.as_slice(), cipher.as_slice())?);
    assert!(rt; is_around(rt.alloc(), clear.as_slice(), cipher)?);
    Ok(())
}

/// A segment of ten million bytes, and bytes behind it.
fn long_segment(alloc: Global, behind: &[u8]) -> Result<Vec<u8>, AllocError> {
    let mut file = Vec::from_slice(alloc, b"\x80\x01\x80\x96\x98\0")?;
    file.resize(10_000_006, b'x')?;
    file.extend_from_slice(behind)?;
    Ok(file)
}

// meets flatten Ok at 10000008 bytes
// meets flatten BadSegment at 10000008 bytes
// like flatten: flatten_vec
#[test]
fn flattens_ten_million_bytes(rt: HostRuntime) -> Result<(), Fail> {
    const BAD: BytesFault = BytesFault::BadSegment { at: 10_000_006 };
    let file = long_segment(rt.alloc(), b"\x80\x03")?;
    assert!(rt; file.len() == 10_000_008);
    let flat = flatten(rt.alloc(), file.as_slice())?;
    assert!(rt; flat.as_slice() == &file[6..10_000_006]);
    let own = flatten_vec(file)?;
    assert!(rt; own.as_slice() == flat.as_slice());
    let bad = long_segment(rt.alloc(), b"\x80\x04")?;
    assert!(rt; flatten(rt.alloc(), bad.as_slice()).err() == Some(BAD));
    assert!(rt; flatten_vec(bad).err() == Some(BAD), "in its own vector");
    Ok(())
}

// meets split_eexec Ok at 10000018 bytes
// meets find_cipher Ok at 10000018 bytes
#[test]
fn splits_ten_million_bytes(rt: HostRuntime) -> Result<(), Fail> {
    let mut flat = Vec::from_slice(rt.alloc(), b"currentfile eexec\n")?;
    flat.resize(10_000_018, b'x')?;
    assert!(rt; splits(rt.alloc(), flat.as_slice(), Ok((17, &flat[18..]))));
    Ok(())
}

// meets file_around Some at 10000000 bytes
#[test]
fn puts_ten_million_bytes_around(rt: HostRuntime) -> Result<(), Fail> {
    let mut clear = Vec::new(rt.alloc());
    clear.resize(10_000_000, b'x')?;
    let cipher = Vec::from_slice(rt.alloc(), b"\xd9\xd6\x6f\x63")?;
    assert!(rt; is_around(rt.alloc(), clear.as_slice(), cipher)?);
    Ok(())
}

// meets file_around None at 268435457 bytes
#[test]
fn puts_nothing_around_too_much(rt: HostRuntime) -> Result<(), Fail> {
    let mut much = Vec::new(rt.alloc());
    much.resize(268_435_457, b'x')?;
    let none = Vec::new(rt.alloc());
    let around = file_around(rt.alloc(), none, much.as_slice(), Form::Pfb)?;
    assert!(rt; around.is_none(), "a clear part");
    let around = file_around(rt.alloc(), much, b"", Form::Pfa)?;
    assert!(rt; around.is_none(), "a cipher");
    Ok(())
}
