//! Plain bytes and ciphers of as many bytes as some blocks have, and of a few more or less. They were made by a program that
//! goes from each key to the next. And two ciphers at once.

use super::is_enciphered;
use std::test::Fail;
use t1_bytes::{CHARSTRING_KEY, EEXEC_KEY, decrypt, encrypt, encrypt_both};

/// Plain bytes and their cipher under the key of charstrings.
const ROWS: &[(&[u8], &[u8], &str)] = &[
    (b"", b"", "no bytes"),
    (b"\x01", b"\x11", "one byte"),
    (
        b"\x07\x2c\x51\x76\x9b\xc0\xe5",
        b"\x17\x48\x27\x34\x51\x08\x32",
        "a byte less than a block",
    ),
    (
        b"\x08\x2d\x52\x77\x9c\xc1\xe6\x0b",
        b"\x18\x1f\x53\x49\x95\xe4\xbf\x82",
        "a block",
    ),
    (
        b"\x09\x2e\x53\x78\x9d\xc2\xe7\x0c\x31",
        b"\x19\x2f\xd1\xc3\x2e\x8a\x1c\xde\x52",
        "a byte more than a block",
    ),
    (
        b"\x0f\x34\x59\x7e\xa3\xc8\xed\x12\x37\x5c\x81\xa6\xcb\xf0\x15",
        b"\x1f\xe3\x1c\xb8\xf1\xc8\x12\x38\xfc\xb3\xb2\x86\xeb\xc8\xab",
        "a byte less than two blocks",
    ),
    (
        b"\x10\x35\x5a\x7f\xa4\xc9\xee\x13\x38\x5d\x82\xa7\xcc\xf1\x16\x3b",
        b"\x00\xed\xf8\xa5\x0a\xe1\x41\xf6\xad\xb7\x12\x69\x77\xc4\x6b\x80",
        "two blocks",
    ),
    (
        b"\x11\x36\x5b\x80\xa5\xca\xef\x14\x39\x5e\x83\xa8\xcd\xf2\x17\x3c\x61",
        b"\x01\x90\x64\x28\xaa\x84\x5c\x87\x77\x02\x38\x44\xef\xb9\x83\xad\xc0",
        "a byte more than two blocks",
    ),
];

// meets decrypt Ok at 0, 1, 7, 8, 9, 15, 16, 17 bytes
#[test]
fn enciphers_blocks(rt: HostRuntime) -> Result<(), Fail> {
    for &(plain, cipher, name) in ROWS {
        assert!(rt;
            is_enciphered(rt.alloc(), CHARSTRING_KEY, 0, plain, cipher)?,
            "{name}"
        );
    }
    Ok(())
}

/// A number that each byte and its place change.
fn mixed(bytes: &[u8]) -> u64 {
    let mut mix: u64 = 0;
    for byte in bytes {
        mix = mix.wrapping_mul(31).wrapping_add(*byte as u64);
    }
    mix
}

// meets decrypt Ok at 100009 bytes
#[test]
fn enciphers_many_blocks(rt: HostRuntime) -> Result<(), Fail> {
    let mut bytes = Vec::with_capacity(rt.alloc(), 100_009)?;
    for _ in 0..14_287 {
        bytes.extend_from_slice(b"dup 5 {")?;
    }
    assert!(rt; mixed(bytes.as_slice()) == 5_173_626_962_928_290_255);
    decrypt(bytes.as_mut_slice(), EEXEC_KEY);
    assert!(rt; mixed(bytes.as_slice()) == 13_730_149_045_740_096_820);
    encrypt(bytes.as_mut_slice(), EEXEC_KEY);
    encrypt(bytes.as_mut_slice(), EEXEC_KEY);
    assert!(rt; mixed(bytes.as_slice()) == 15_293_045_882_376_853_227);
    Ok(())
}

#[test]
fn enciphers_two_at_once(rt: HostRuntime) {
    const ROWS: &[(&[u8], &[u8], &[u8], &[u8])] = &[
        (
            b"\x00\x00\x00\x00\x64",
            b"\xd9\xd6\x6f\x63\x3b",
            b"\x00\x00\x00\x00\x0b",
            b"\x10\xbf\x31\x70\xf9",
        ),
        (
            b"\x00\x00\x00\x00\x64",
            b"\xd9\xd6\x6f\x63\x3b",
            b"\x0b",
            b"\x1b",
        ),
        (
            b"\x00\x00",
            b"\xd9\xd6",
            b"\x00\x00\x00\x00\x0b",
            b"\x10\xbf\x31\x70\xf9",
        ),
        (b"", b"", b"", b""),
    ];
    for &(plain, cipher, other, other_cipher) in ROWS {
        let mut first = [0u8; 5];
        let (first, _) = first.split_at_mut(plain.len().min(5));
        first.copy_from_slice(plain);
        let mut second = [0u8; 5];
        let (second, _) = second.split_at_mut(other.len().min(5));
        second.copy_from_slice(other);
        encrypt_both(first, EEXEC_KEY, second, CHARSTRING_KEY);
        assert!(rt; *first == *cipher && *second == *other_cipher, "{plain:?}");
    }
}
