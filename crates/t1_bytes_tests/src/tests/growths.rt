//! Each call that grows, over the two files of Tiny, and those that take no memory. `tools/sweep_growths.py` refuses one
//! growth of the first test after the other: a call that then answers want of memory gives the right answer when it is
//! made again. In the second it refuses all.

use super::{CLEAR, PRIVATE, is_put_together};
use std::alloc::Global;
use std::test::Fail;
use t1_bytes::{
    BytesFault, CHARSTRING_KEY, Cipher, decrypt, encrypt, find_cipher, flatten_vec, hex_lines,
    open, trailer,
};
use t1_tiny::{PFA, PFB};

/// Whether the cipher of Tiny is found in the digits of its PFA, and written as lines of digits again.
fn is_spelled(alloc: Global) -> Result<bool, BytesFault> {
    let (at, cipher) = find_cipher(alloc, PFA)?;
    let Cipher::Spelled(mut bytes) = cipher else {
        return Ok(false);
    };
    bytes.truncate(4 + PRIVATE);
    let lines = hex_lines(alloc, bytes.as_slice())?;
    let (_, digits) = PFA.split_at(CLEAR);
    Ok(at == CLEAR - 1 && digits.starts_with(lines.as_slice()))
}

/// Whether all of these calls answer right.
fn answers_right(alloc: Global) -> Result<bool, BytesFault> {
    Ok(is_put_together(alloc, PFA)? && is_put_together(alloc, PFB)? && is_spelled(alloc)?)
}

#[test]
fn growths(rt: HostRuntime) -> Result<(), Fail> {
    let right = match answers_right(rt.alloc()) {
        Err(BytesFault::Memory) => answers_right(rt.alloc())?,
        answer => answer?,
    };
    assert!(rt; right);
    Ok(())
}

#[test]
fn no_growth(rt: HostRuntime) -> Result<(), Fail> {
    let mut bytes = *b"\x10\xbf\x31\x70\xf9";
    decrypt(bytes.as_mut_slice(), CHARSTRING_KEY);
    encrypt(bytes.as_mut_slice(), CHARSTRING_KEY);
    decrypt(bytes.as_mut_slice(), CHARSTRING_KEY);
    assert!(rt; bytes.as_slice() == b"\x00\x00\x00\x00\x0b".as_slice());
    let file = flatten_vec(Vec::new(rt.alloc()))?;
    let text = open(file, CHARSTRING_KEY, 4);
    assert!(rt; text.is_empty() && trailer().len() == 532);
    Ok(())
}
