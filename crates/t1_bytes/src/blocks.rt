//! Eight bytes of a cipher at a time. Each of their keys is made of the first key and of the bytes
//! before it, times weights, so that none waits for the one before it.

ghost use Rattle.std.specs.Prelude.{◌≡◌, ◌≤◌, ◌++◌, length, take, drop};
ghost use Rattle.t1_bytes.specs.{Cipher.{decrypted}, Keys.{keys_of, key_behind, sums_from}};

use std::simd::prelude::*;

/// How many bytes a block has.
pub(crate) const BLOCK: usize = 8;

// What each byte of a block is multiplied by: 1, and 27493 times the weight before it.
const WEIGHTS: [u16; 8] = [1, 27493, 38361, 53661, 20977, 3861, 47689, 461];

// The powers of the cipher's factor, and what its summands come to, at each place of a block.
const POWERS: [u16; 8] = [1, 52845, 39529, 15541, 32529, 51261, 22521, 54021];

const SUMMANDS: [u16; 8] = [0, 22719, 54290, 8297, 41844, 18723, 42662, 57709];

// The same behind a block.
const POWER_BEHIND: u64 = 57121;

const SUMMAND_BEHIND: u64 = 2600;

// The sums of the lanes up to each of them.
#[inline(always)]
fn sums_of(lanes: u16x8) -> u16x8
    ensures { result ≡ sums_from 0 lanes }
{
    let zero = u16x8::splat(0);
    let twos = lanes + lanes.shuffle(zero, [8, 0, 1, 2, 3, 4, 5, 6]);
    let fours = twos + twos.shuffle(zero, [8, 8, 0, 1, 2, 3, 4, 5]);
    fours + fours.shuffle(zero, [8, 8, 8, 8, 0, 1, 2, 3])
}

// The keys of a block whose first key is this one, and the key behind it.
#[inline(always)]
fn keys_of(key: u16, block: u8x8) -> (u16x8, u16)
    ensures keys { result.0 ≡ keys_of key block }
    ensures behind { result.1 ≡ key_behind key block }
{
    let zero = u16x8::splat(0);
    let sums = sums_of(block.cast::<u16>() * u16x8::from_array(WEIGHTS));
    let before = sums.shuffle(zero, [8, 0, 1, 2, 3, 4, 5, 6]);
    let powered = (u16x8::splat(key) + before) * u16x8::from_array(POWERS);
    let behind = (key as u64 + sums[7] as u64) * POWER_BEHIND + SUMMAND_BEHIND;
    (
        powered + u16x8::from_array(SUMMANDS),
        (behind % 65536) as u16,
    )
}

// The plain bytes of a block, and the key behind it.
#[inline(always)]
fn decrypt_block(key: u16, block: u8x8) -> (u8x8, u16)
    ensures plain { result.0 ≡ decrypted key block }
    ensures behind { result.1 ≡ key_behind key block }
{
    let (keys, behind) = keys_of(key, block);
    (block ^ (keys >> 8).cast::<u8>(), behind)
}

/// Decrypts the blocks of a cipher in place, and says where the bytes begin that are less than a
/// block, and their key.
#[inline(always)]
pub(crate) fn decrypt_blocks(bytes: &mut [u8], key: u16) -> (usize, u16)
    ensures place { result.0 ≤ length bytes.new }
    ensures value { take result.0 bytes.new ++ decrypted result.1 (drop result.0 bytes.new) ≡ decrypted key bytes.old }
{
    let mut now = key;
    let mut at = 0;
    'eights: while bytes.len() - at >= BLOCK {
        let (plain, behind) = decrypt_block(now, u8x8::from_slice(&bytes[at..]));
        plain.copy_to_slice(&mut bytes[at..]);
        now = behind;
        at += BLOCK;
    }
    (at, now)
}
