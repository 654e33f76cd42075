//! Two ciphers at once.

ghost use Rattle.std.specs.Prelude.{◌≡◌, ◌+◌, ◌*◌, ◌%◌};
ghost use Rattle.t1_bytes.specs.{Cipher.{encrypted}, Keys.{key_behind}};

use crate::cipher::{FACTOR, SUMMAND, ahead_of, encrypt_from, key_from};

/// As `ahead_of`, in wider numbers: so the two chains of [`encrypt_both`] stay two for a compiler.
#[inline(always)]
fn wide_ahead_of(now: u64) -> u64
    ensures { result % 65536 ≡ (now * 52845 + 22719) % 65536 }
{
    now.wrapping_mul(FACTOR).wrapping_add(SUMMAND)
}

/// As `key_from`, in wider numbers.
#[inline(always)]
fn wide_key_from(ahead: u64, cipher: u8) -> u64
    ensures { result % 65536 ≡ (cipher * 52845 + ahead) % 65536 }
{
    (cipher as u64).wrapping_mul(FACTOR).wrapping_add(ahead)
}

/// Encrypts two slices in place, each under a cipher of its own, and answers the key behind the first. Each key of a cipher waits
/// for the byte before it, so two ciphers in turn take the time of one.
pub fn encrypt_both(first: &mut [u8], key: u16, second: &mut [u8], other: u16) -> u16
    ensures first { first.new ≡ encrypted key first.old }
    ensures second { second.new ≡ encrypted other second.old }
    ensures key { result ≡ key_behind key first.new }
{
    let mut now = key as u32;
    let mut ahead = ahead_of(now);
    let mut then = other as u64;
    let mut beyond = wide_ahead_of(then);
    let mut at = 0;
    'both: while at < first.len() && at < second.len() {
        let one = first[at] ^ (now / 256 % 256) as u8;
        let two = second[at] ^ (then / 256 % 256) as u8;
        first[at] = one;
        second[at] = two;
        now = key_from(ahead, one);
        ahead = ahead_of(now);
        then = wide_key_from(beyond, two);
        beyond = wide_ahead_of(then);
        at += 1;
    }
    encrypt_from(second, at, (then % 65536) as u16);
    encrypt_from(first, at, (now % 65536) as u16)
}
