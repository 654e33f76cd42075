//! The cipher of eexec and of charstrings (Adobe Type 1 Font Format 1.1, chapter 7).

ghost use Rattle.std.specs.Prelude.{◌≡◌, ◌+◌, ◌*◌, ◌%◌, ◌++◌, take, drop, IfOk, IfErr};
ghost use Rattle.t1_bytes.specs.{declared.fault.BytesFault.TheVariants.{Memory}, Cipher.{next_key, Enciphers, encrypted, decrypted, sealed, opened}};
ghost use Rattle.t1_bytes.specs.Keys.{key_behind};

use crate::blocks::decrypt_blocks;
use crate::fault::BytesFault;
use std::alloc::Global;

/// The key that the cipher of the private text starts with.
pub const EEXEC_KEY: u16 = 55665;

/// How many lead bytes the private text has.
pub const EEXEC_LEAD: u8 = 4;

/// The key that the cipher of each charstring starts with. Its lead bytes are as many as lenIV says.
pub const CHARSTRING_KEY: u16 = 4330;

// What each key is made with, from the key before it and the cipher byte.
pub(crate) const FACTOR: u64 = 52845;

pub(crate) const SUMMAND: u64 = 22719;

/// The key after a cipher byte.
fn key_after(key: u16, cipher: u8) -> u16
    ensures { result ≡ next_key key cipher }
{
    (((cipher as u64 + key as u64) * FACTOR + SUMMAND) % 65536) as u16
}

/// The key after two cipher bytes, computed without the key between them.
fn key_after_both(key: u16, first: u8, second: u8) -> u16
    ensures { result ≡ next_key (next_key key first) second }
{
    let of_first = (first as u64 + key as u64) * (FACTOR * FACTOR);
    let of_second = (second as u64 + SUMMAND) * FACTOR + SUMMAND;
    ((of_first + of_second) % 65536) as u16
}

// What the next key has of this one, before the cipher byte is known. A key is the remainder by
// 65536 of such a number.
#[inline(always)]
pub(crate) fn ahead_of(now: u32) -> u32
    ensures { result % 65536 ≡ (now * 52845 + 22719) % 65536 }
{
    now.wrapping_mul(FACTOR as u32).wrapping_add(SUMMAND as u32)
}

// The next key, of that and of the cipher byte.
#[inline(always)]
pub(crate) fn key_from(ahead: u32, cipher: u8) -> u32
    ensures { result % 65536 ≡ (cipher * 52845 + ahead) % 65536 }
{
    (cipher as u32)
        .wrapping_mul(FACTOR as u32)
        .wrapping_add(ahead)
}

/// Encrypts the bytes from a place on, under a cipher whose key is `key` there, and answers the key behind them.
pub(crate) fn encrypt_from(bytes: &mut [u8], from: usize, key: u16) -> u16
    ensures value { bytes.new ≡ take from bytes.old ++ encrypted key (drop from bytes.old) }
    ensures key { result ≡ key_behind key (drop from bytes.new) }
{
    let mut now = key as u32;
    let mut ahead = ahead_of(now);
    let mut at = from;
    'bytes: while at < bytes.len() {
        let cipher = bytes[at] ^ (now / 256 % 256) as u8;
        bytes[at] = cipher;
        now = key_from(ahead, cipher);
        ahead = ahead_of(now);
        at += 1;
    }
    (now % 65536) as u16
}

/// Encrypts bytes in place, under a cipher whose key starts as `key`. Lead bytes are encrypted like
/// the others.
pub fn encrypt(bytes: &mut [u8], key: u16)
    ensures value { bytes.new ≡ encrypted key bytes.old }
    ensures cipher { Enciphers key bytes.old bytes.new }
{
    encrypt_from(bytes, 0, key);
}

// Decrypts a few bytes in place, two at a time.
fn decrypt_pairs(bytes: &mut [u8], key: u16)
    ensures { bytes.new ≡ decrypted key bytes.old }
{
    let mut now = key;
    let mut at = 0;
    'pairs: while at + 1 < bytes.len() {
        let first = bytes[at];
        let second = bytes[at + 1];
        bytes[at] = first ^ (now / 256) as u8;
        bytes[at + 1] = second ^ (key_after(now, first) / 256) as u8;
        now = key_after_both(now, first, second);
        at += 2;
    }
    if at < bytes.len() {
        bytes[at] ^= (now / 256) as u8;
    }
}

/// Decrypts bytes in place, under a cipher whose key starts as `key`. Lead bytes stay, decrypted
/// like the others.
pub fn decrypt(bytes: &mut [u8], key: u16)
    ensures value { bytes.new ≡ decrypted key bytes.old }
    ensures cipher { Enciphers key bytes.new bytes.old }
{
    let (at, now) = decrypt_blocks(bytes, key);
    decrypt_pairs(&mut bytes[at..], now);
}

/// The text of a cipher, which stands after `lead` lead bytes, in the cipher's own vector. A cipher
/// that is no longer than these has an empty text. It takes no memory.
pub fn open(cipher: Vec<u8>, key: u16, lead: u8) -> Vec<u8>
    ensures { result.items ≡ opened key lead cipher.items }
{
    let mut text = cipher;
    decrypt(text.as_mut_slice(), key);
    let lead = text.len().min(lead as usize);
    text.copy_within(lead.., 0);
    text.truncate(text.len() - lead);
    text
}

/// The cipher of a text after `lead` lead bytes, which are zero.
///
/// # Errors
///
/// Only want of memory.
pub fn seal(alloc: Global, text: &[u8], key: u16, lead: u8) -> Result<Vec<u8>, BytesFault>
    ensures text { IfOk result (λ v. v.items ≡ sealed key lead text.now) }
    ensures memory { IfErr result (λ fault. fault ≡ Memory) }
{
    let lead = lead as usize;
    let mut cipher = Vec::with_capacity(alloc, text.len().saturating_add(lead))?;
    cipher.resize(lead, 0)?;
    cipher.extend_from_slice(text)?;
    encrypt(cipher.as_mut_slice(), key);
    Ok(cipher)
}
