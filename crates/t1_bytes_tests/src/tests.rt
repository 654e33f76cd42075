//! Worked bytes, malformed input, and the two files of the font Tiny.

mod blocks;
mod growths;
mod large;

use large::is_made;
use std::alloc::{AllocError, Global};
use std::test::Fail;
use t1_bytes::{
    BytesFault, CHARSTRING_KEY, Cipher, EEXEC_KEY, EEXEC_LEAD, Form, decrypt, encrypt, find_cipher,
    flatten, flatten_vec, hex_lines, open, seal, segments, split_eexec, trailer,
};
use t1_tiny::{PFA, PFB};

/// Whether the flat text of a file is this one, or the fault is.
fn is_flat(flat: Result<Vec<u8>, BytesFault>, want: Result<&[u8], BytesFault>) -> bool {
    match (flat, want) {
        (Ok(flat), Ok(text)) => flat.as_slice() == text,
        (Err(fault), Err(other)) => fault == other,
        _ => false,
    }
}

/// Whether both calls give a file this flat text, or this fault.
fn flattens(
    alloc: Global,
    file: &[u8],
    want: Result<&[u8], BytesFault>,
) -> Result<bool, AllocError> {
    let own = flatten_vec(Vec::from_slice(alloc, file)?);
    Ok(is_flat(flatten(alloc, file), want) && is_flat(own, want))
}

/// Whether a flat text is split into this offset and cipher, or the fault is this one.
fn splits(alloc: Global, flat: &[u8], want: Result<(usize, &[u8]), BytesFault>) -> bool {
    let split = match (split_eexec(alloc, flat), want) {
        (Ok((at, cipher)), Ok((place, bytes))) => at == place && cipher.as_slice() == bytes,
        (Err(fault), Err(other)) => fault == other,
        _ => false,
    };
    split && finds(alloc, flat, want)
}

/// Whether the cipher of a flat text is found so: the last bytes, if it is binary.
fn finds(alloc: Global, flat: &[u8], want: Result<(usize, &[u8]), BytesFault>) -> bool {
    match (find_cipher(alloc, flat), want) {
        (Ok((at, Cipher::Last(len))), Ok((place, bytes))) => {
            at == place && len == bytes.len() && flat.ends_with(bytes)
        }
        (Ok((at, Cipher::Spelled(cipher))), Ok((place, bytes))) => {
            at == place && cipher.as_slice() == bytes
        }
        (Err(fault), Err(other)) => fault == other,
        _ => false,
    }
}

/// Whether a plain text behind its lead bytes is sealed as this cipher, and comes back by each call.
fn is_enciphered(
    alloc: Global,
    key: u16,
    lead: u8,
    plain: &[u8],
    cipher: &[u8],
) -> Result<bool, BytesFault> {
    let Some(text) = plain.get(lead as usize..) else {
        return Ok(false);
    };
    let mut bytes = seal(alloc, text, key, lead)?;
    let sealed = bytes.as_slice() == cipher;
    decrypt(bytes.as_mut_slice(), key);
    let decrypted = bytes.as_slice() == plain;
    encrypt(bytes.as_mut_slice(), key);
    let encrypted = bytes.as_slice() == cipher;
    Ok(sealed && decrypted && encrypted && open(bytes, key, lead).as_slice() == text)
}

// meets seal Ok at 0, 1 bytes
#[test]
fn enciphers_worked_bytes(rt: HostRuntime) -> Result<(), Fail> {
    const ROWS: &[(u16, u8, &[u8], &[u8], &str)] = &[
        (
            EEXEC_KEY,
            EEXEC_LEAD,
            b"\x00\x00\x00\x00\x64",
            b"\xd9\xd6\x6f\x63\x3b",
            "the beginning of a private text",
        ),
        (
            EEXEC_KEY,
            EEXEC_LEAD,
            b"\x00\x00\x00\x00",
            b"\xd9\xd6\x6f\x63",
            "no private text",
        ),
        (CHARSTRING_KEY, 0, b"", b"", "nothing"),
        (
            CHARSTRING_KEY,
            0,
            b"\x0b",
            b"\x1b",
            "return without lead bytes",
        ),
        (
            CHARSTRING_KEY,
            4,
            b"\x00\x00\x00\x00\x0b",
            b"\x10\xbf\x31\x70\xf9",
            "return",
        ),
        (
            CHARSTRING_KEY,
            4,
            b"\x00\x00\x00\x00\x8b\xf7\x8e\x0d\x0e",
            b"\x10\xbf\x31\x70\x79\xc7\x57\xbf\x91",
            "0 250 hsbw endchar",
        ),
        (
            CHARSTRING_KEY,
            0,
            b"\x00\x00\x00\x00\x8b\xf7\x8e\x0d\x0e",
            b"\x10\xbf\x31\x70\x79\xc7\x57\xbf\x91",
            "lead bytes that belong to the text",
        ),
    ];
    for &(key, lead, plain, cipher, name) in ROWS {
        assert!(rt;
            is_enciphered(rt.alloc(), key, lead, plain, cipher)?,
            "{name}"
        );
    }
    Ok(())
}

// meets flatten Ok at 0 bytes
// meets flatten BadSegment at 1 bytes
// meets flatten_vec Ok at 0 bytes
// meets flatten_vec BadSegment at 1 bytes
#[test]
fn flattens_segments(rt: HostRuntime) -> Result<(), Fail> {
    const ROWS: &[(&[u8], Result<&[u8], BytesFault>, &str)] = &[
        (b"", Ok(b""), "no bytes"),
        (b"AB\x80\x03", Ok(b"AB\x80\x03"), "no segments"),
        (b"\x80\x03AB", Ok(b""), "an end, and more bytes"),
        (
            b"\x80\x01\x01\0\0\0A",
            Ok(b"A"),
            "the end of input for an end",
        ),
        (b"\x80\x02\x01\0\0\0A\x80\x03", Ok(b"A"), "a binary segment"),
        (b"\x80\x01\0\0\0\0\x80\x03", Ok(b""), "an empty segment"),
        (
            b"\x80\x01\x01\0\0\0A\x80\x02\x02\0\0\0\x80\x03\x80\x01\x01\0\0\0B\x80\x03",
            Ok(b"A\x80\x03B"),
            "three segments, an end in the data of one",
        ),
        (
            b"\x80\x01\x01\0\0\0A\x80\x04",
            Err(BytesFault::BadSegment { at: 7 }),
            "type 4 after a segment",
        ),
        (
            b"\x80\x01\x01\0\0\0A\x80\x00",
            Err(BytesFault::BadSegment { at: 7 }),
            "type 0 after a segment",
        ),
        (
            b"\x80\x01\x01\0\0\0A\x80\xff",
            Err(BytesFault::BadSegment { at: 7 }),
            "type 255 after a segment",
        ),
        (
            b"\x80\x01\x01\0\0\0AB",
            Err(BytesFault::BadSegment { at: 7 }),
            "another first byte",
        ),
        (
            b"\x80\x01\x01\0\0\0A\x80",
            Err(BytesFault::BadSegment { at: 7 }),
            "a header of one byte after a segment",
        ),
        (b"\x80", Err(BytesFault::BadSegment { at: 0 }), "128 alone"),
        (b"\x80\x00", Err(BytesFault::BadSegment { at: 0 }), "type 0"),
        (b"\x80\x04", Err(BytesFault::BadSegment { at: 0 }), "type 4"),
        (
            b"\x80\xff",
            Err(BytesFault::BadSegment { at: 0 }),
            "type 255",
        ),
        (
            b"\x80\x01",
            Err(BytesFault::BadSegment { at: 0 }),
            "no length",
        ),
        (
            b"\x80\x01\x01",
            Err(BytesFault::BadSegment { at: 0 }),
            "one byte of the length",
        ),
        (
            b"\x80\x01\x01\0",
            Err(BytesFault::BadSegment { at: 0 }),
            "two bytes of the length",
        ),
        (
            b"\x80\x01\x01\0\0",
            Err(BytesFault::BadSegment { at: 0 }),
            "three bytes of the length",
        ),
        (
            b"\x80\x01\x01\0\0\0",
            Err(BytesFault::BadSegment { at: 0 }),
            "no data",
        ),
        (
            b"\x80\x01\0\0\0\x01A",
            Err(BytesFault::BadSegment { at: 0 }),
            "a length that would fit most significant byte first",
        ),
        (
            b"\x80\x02\xff\xff\xff\xffA",
            Err(BytesFault::BadSegment { at: 0 }),
            "a length near 2^32",
        ),
    ];
    for &(file, want, name) in ROWS {
        assert!(rt; flattens(rt.alloc(), file, want)?, "{name}");
    }
    Ok(())
}

/// The bytes from 0 to 39.
const BYTES: &[u8] =
    b"\x00\x01\x02\x03\x04\x05\x06\x07\x08\x09\x0a\x0b\x0c\x0d\x0e\x0f\x10\x11\x12\x13\
    \x14\x15\x16\x17\x18\x19\x1a\x1b\x1c\x1d\x1e\x1f\x20\x21\x22\x23\x24\x25\x26\x27";

/// The bytes from 0 to 31: a line of digits.
const LINE: &[u8] = b"\x00\x01\x02\x03\x04\x05\x06\x07\x08\x09\x0a\x0b\x0c\x0d\x0e\x0f\
    \x10\x11\x12\x13\x14\x15\x16\x17\x18\x19\x1a\x1b\x1c\x1d\x1e\x1f";

/// The bytes from 0 to 30: a line that breaks off before its last byte.
const SHORT_LINE: &[u8] = b"\x00\x01\x02\x03\x04\x05\x06\x07\x08\x09\x0a\x0b\x0c\x0d\x0e\x0f\
    \x10\x11\x12\x13\x14\x15\x16\x17\x18\x19\x1a\x1b\x1c\x1d\x1e";

// meets split_eexec Ok at 22 bytes
// meets split_eexec NoEexec at 0 bytes
// meets split_eexec ShortCipher at 18 bytes
// meets find_cipher Ok at 22 bytes
// meets find_cipher NoEexec at 0 bytes
// meets find_cipher ShortCipher at 18 bytes
#[test]
fn splits_flat_texts(rt: HostRuntime) {
    const ROWS: &[(&[u8], Result<(usize, &[u8]), BytesFault>, &str)] = &[
        (b"", Err(BytesFault::NoEexec), "no bytes"),
        (
            b"currentfile eexec",
            Err(BytesFault::NoEexec),
            "no byte after eexec",
        ),
        (
            b"currentfile eexecx1234",
            Err(BytesFault::NoEexec),
            "a letter after eexec",
        ),
        (
            b"currentfile eexec\0\x81\x82\x83\x84",
            Err(BytesFault::NoEexec),
            "a null after eexec",
        ),
        (
            b"currentfile eexec\x0c\x81\x82\x83\x84",
            Err(BytesFault::NoEexec),
            "a form feed after eexec",
        ),
        (
            b"currentfileeexec \x81\x82\x83\x84",
            Err(BytesFault::NoEexec),
            "no white space before eexec",
        ),
        (
            b"% eexec \x81\x82\x83\x84",
            Err(BytesFault::NoEexec),
            "eexec in a comment, without currentfile",
        ),
        (
            b"% currentfile eexec \x81\x82\x83\x84",
            Ok((19, b"\x81\x82\x83\x84")),
            "a marker in a comment",
        ),
        (
            b"currentfile % eexec \x81\x82\x83\x84",
            Err(BytesFault::NoEexec),
            "a comment between",
        ),
        (
            b"currentfile eexec ",
            Err(BytesFault::ShortCipher),
            "no cipher",
        ),
        (
            b"currentfile eexec \x81\x82\x83",
            Err(BytesFault::ShortCipher),
            "three bytes",
        ),
        (
            b"currentfile eexec d9d66f6",
            Err(BytesFault::ShortCipher),
            "seven digits",
        ),
        (
            b"currentfile eexec \x81\x82\x83\x84",
            Ok((17, b"\x81\x82\x83\x84")),
            "four bytes",
        ),
        (
            b"xcurrentfile eexec \x81\x82\x83\x84",
            Ok((18, b"\x81\x82\x83\x84")),
            "a letter before currentfile",
        ),
        (
            b"currentfile \0\t\n\x0c\r eexec\r\n\t \x81\x82\x83\x84",
            Ok((23, b"\x81\x82\x83\x84")),
            "all white space before eexec, all blanks after it",
        ),
        (
            b"currentfile eexecx currentfile eexec \x81\x82\x83\x84",
            Ok((36, b"\x81\x82\x83\x84")),
            "the second is the first with a blank",
        ),
        (
            b"currentfile eexec currentfile eexec \x81\x82\x83\x84",
            Ok((17, b"currentfile eexec \x81\x82\x83\x84")),
            "the first of two",
        ),
        (
            b"currentfile eexec \0\x81\x82\x83\x84",
            Ok((17, b"\0\x81\x82\x83\x84")),
            "a null is no blank",
        ),
        (
            b"currentfile eexec \x81\x82\x83\x84 \n",
            Ok((17, b"\x81\x82\x83\x84 \n")),
            "binary to the end",
        ),
    ];
    for &(flat, want, name) in ROWS {
        assert!(rt; splits(rt.alloc(), flat, want), "{name}");
    }
}

#[test]
fn splits_digits(rt: HostRuntime) {
    const ROWS: &[(&[u8], Result<(usize, &[u8]), BytesFault>, &str)] = &[
        (
            b"currentfile eexec D9d66F63",
            Ok((17, b"\xd9\xd6\x6f\x63")),
            "digits of either case",
        ),
        (
            b"currentfile eexec d9d6\n6f\t6\r3\0 \x0c3b",
            Ok((17, b"\xd9\xd6\x6f\x63\x3b")),
            "white space among digits, a null and a form feed too",
        ),
        (
            b"currentfile eexec d9d66f633",
            Ok((17, b"\xd9\xd6\x6f\x63")),
            "an odd digit",
        ),
        (
            b"currentfile eexec d9d66f63g3b3b",
            Ok((17, b"\xd9\xd6\x6f\x63")),
            "a letter ends the digits",
        ),
        (
            b"currentfile eexec d9d6g",
            Err(BytesFault::ShortCipher),
            "four digits are hexadecimal, however few bytes they spell",
        ),
        (
            b"currentfile eexec d9dg6f63",
            Ok((17, b"d9dg6f63")),
            "three digits are binary",
        ),
        (
            b"currentfile eexec d9d 6f63",
            Ok((17, b"d9d 6f63")),
            "three digits and a blank are binary",
        ),
        (
            b"currentfile eexec d9d",
            Err(BytesFault::ShortCipher),
            "three digits alone are three bytes",
        ),
        (
            b"currentfile eexec 000102030405060708090A0B0C0D0E0F101112131415161718191a1b1c1d1e1f\n2021222324252627\n",
            Ok((17, BYTES)),
            "a line of 64 digits",
        ),
        (
            b"currentfile eexec 000102030405060708090A0B0C0D0E0F101112131415161718191a1b1c1d1e1f20212223\r\n24252627\r\n",
            Ok((17, BYTES)),
            "a line of 72 digits, and CR and LF",
        ),
        (
            b"currentfile eexec 000102030405060708090A0B0C0D0E0F101112131415161718191a1b1c1d1e1f2\n021222324252627",
            Ok((17, BYTES)),
            "a line of 65 digits: a byte on two lines",
        ),
        (
            b"currentfile eexec 000102030405060708090A0B0C0D0E \t0F101112131415161718191a1b1c1d1e1f2021222324252627",
            Ok((17, BYTES)),
            "white space in a line",
        ),
        (
            b"currentfile eexec 000102030405060708090A0B0C0D0E0F101112131415161718191a1b1c1d1e1g2021222324252627",
            Ok((17, SHORT_LINE)),
            "a letter for the last digit of a line",
        ),
        (
            b"currentfile eexec 000102030405060708090A0B0C0D0E0F101112131415161718191a1b1c1d1e1fg2021222324252627",
            Ok((17, LINE)),
            "a letter after a line",
        ),
    ];
    for &(flat, want, name) in ROWS {
        assert!(rt; splits(rt.alloc(), flat, want), "{name}");
    }
}

// meets hex_lines Ok at 0, 32, 40 bytes
// meets file_around Some at 0, 32, 40 bytes
#[test]
fn writes_lines_of_digits(rt: HostRuntime) -> Result<(), Fail> {
    const ROWS: &[(&[u8], &[u8])] = &[
        (b"", b""),
        (b"\xab", b"ab\n"),
        (
            LINE,
            b"000102030405060708090a0b0c0d0e0f101112131415161718191a1b1c1d1e1f\n",
        ),
        (
            BYTES,
            b"000102030405060708090a0b0c0d0e0f101112131415161718191a1b1c1d1e1f\n2021222324252627\n",
        ),
        (b"\x00\x09\x10\x7f\xf0\xff", b"0009107ff0ff\n"),
    ];
    for &(bytes, text) in ROWS {
        let lines = hex_lines(rt.alloc(), bytes)?;
        assert!(rt; lines.as_slice() == text, "{text:?}");
        let cipher = Vec::from_slice(rt.alloc(), bytes)?;
        let want = joined(rt.alloc(), b"eexec\n", text)?;
        let want = joined(rt.alloc(), want.as_slice(), trailer())?;
        let made = is_made(rt.alloc(), cipher, b"eexec\n", Form::Pfa, want.as_slice())?;
        assert!(rt; made, "{text:?}");
    }
    assert!(rt; trailer().len() == 532);
    Ok(())
}

#[test]
fn prints_refusals(rt: HostRuntime) -> Result<(), Fail> {
    const ROWS: &[(BytesFault, &str)] = &[
        (BytesFault::BadSegment { at: 319 }, "bad segment at 319"),
        (BytesFault::NoEexec, "no eexec"),
        (BytesFault::ShortCipher, "cipher too short"),
        (BytesFault::Memory, "out of memory"),
    ];
    for &(fault, text) in ROWS {
        let printed = fault.to_string(rt.alloc())?;
        assert!(rt; printed.as_str() == text);
    }
    Ok(())
}

/// How many bytes the clear part of Tiny has, its last LF among them.
const CLEAR: usize = 313;

/// How many bytes the private text of Tiny has.
const PRIVATE: usize = 1004;

/// Where the private text of Tiny begins in a file of it, and the text.
fn private_text(alloc: Global, file: &[u8]) -> Result<(usize, Vec<u8>), BytesFault> {
    let flat = flatten(alloc, file)?;
    let (at, mut cipher) = split_eexec(alloc, flat.as_slice())?;
    cipher.truncate(4 + PRIVATE);
    Ok((at, open(cipher, EEXEC_KEY, EEXEC_LEAD)))
}

/// A clear part and a cipher as a PFA: the cipher in lines of digits.
fn with_digits(alloc: Global, clear: &[u8], cipher: &[u8]) -> Result<Vec<u8>, BytesFault> {
    let lines = hex_lines(alloc, cipher)?;
    let digits = joined(alloc, clear, lines.as_slice())?;
    Ok(joined(alloc, digits.as_slice(), trailer())?)
}

/// Whether a file of Tiny is taken apart at its place, from the private text's first words to its last.
fn is_taken_apart(alloc: Global, file: &[u8]) -> Result<bool, BytesFault> {
    let (at, text) = private_text(alloc, file)?;
    let text = text.as_slice();
    Ok(
        at == CLEAR - 1
            && text.starts_with(b"dup /Private 9 dict dup begin\n/RD {string")
            && text.ends_with(b"definefont pop\nmark currentfile closefile\n"),
    )
}

/// Whether the file around the cipher of Tiny is its file, in both forms.
fn is_around(alloc: Global, cipher: &[u8]) -> Result<bool, BytesFault> {
    let clear = &PFA[..CLEAR];
    let copy = Vec::from_slice(alloc, cipher)?;
    let other = Vec::from_slice(alloc, cipher)?;
    Ok(
        is_made(alloc, copy, clear, Form::Pfb, PFB)?
            && is_made(alloc, other, clear, Form::Pfa, PFA)?,
    )
}

/// Whether a file of Tiny is taken apart and put together again in both forms.
fn is_put_together(alloc: Global, file: &[u8]) -> Result<bool, BytesFault> {
    let (_, text) = private_text(alloc, file)?;
    let cipher = seal(alloc, text.as_slice(), EEXEC_KEY, EEXEC_LEAD)?;
    if cipher.len() > 2893 {
        return Ok(false);
    }
    let pfb = segments(alloc, &PFA[..CLEAR], cipher.as_slice(), trailer())?;
    let pfa = with_digits(alloc, &PFA[..CLEAR], cipher.as_slice())?;
    Ok(
        pfb.as_slice() == PFB.as_slice()
            && pfa.as_slice() == PFA.as_slice()
            && is_around(alloc, cipher.as_slice())?,
    )
}

// meets segments Ok at 0 bytes
#[test]
fn takes_tiny_apart_and_together(rt: HostRuntime) -> Result<(), Fail> {
    const EMPTY: &[u8] = b"\x80\x01\0\0\0\0\x80\x02\0\0\0\0\x80\x01\0\0\0\0\x80\x03";
    let empty = segments(rt.alloc(), b"", b"", b"")?;
    assert!(rt; empty.as_slice() == EMPTY);
    const FILES: &[(&[u8], &str)] = &[(PFA, "PFA"), (PFB, "PFB")];
    for &(file, form) in FILES {
        assert!(rt; is_taken_apart(rt.alloc(), file)?, "{form}, apart");
        assert!(rt; is_put_together(rt.alloc(), file)?, "{form}, together");
    }
    Ok(())
}

/// The refusal of a file, if it has no flat text or no cipher.
fn refusal(alloc: Global, file: &[u8]) -> Option<BytesFault> {
    match flatten(alloc, file) {
        Ok(flat) => split_eexec(alloc, flat.as_slice()).err(),
        Err(fault) => Some(fault),
    }
}

#[test]
fn refuses_prefixes_of_tiny(rt: HostRuntime) {
    for n in 0..=PFA.len() {
        let want = match n {
            0..=312 => Some(BytesFault::NoEexec),
            313..=320 => Some(BytesFault::ShortCipher),
            _ => None,
        };
        assert!(rt;
            refusal(rt.alloc(), &PFA[..n]) == want,
            "{n} bytes of the PFA"
        );
    }
    for n in 0..=PFB.len() {
        let want = match n {
            0 => Some(BytesFault::NoEexec),
            1..=318 => Some(BytesFault::BadSegment { at: 0 }),
            319 => Some(BytesFault::ShortCipher),
            320..=1332 => Some(BytesFault::BadSegment { at: 319 }),
            1334..=1870 => Some(BytesFault::BadSegment { at: 1333 }),
            1872 => Some(BytesFault::BadSegment { at: 1871 }),
            _ => None,
        };
        assert!(rt;
            refusal(rt.alloc(), &PFB[..n]) == want,
            "{n} bytes of the PFB"
        );
    }
}

/// One text after another.
fn joined(alloc: Global, front: &[u8], back: &[u8]) -> Result<Vec<u8>, AllocError> {
    let mut text = front.to_vec(alloc)?;
    text.extend_from_slice(back)?;
    Ok(text)
}
