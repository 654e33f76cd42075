//! A private text while it is written, and its cipher.

ghost use Rattle.std.specs.{Prelude.{◌≡◌, ◌++◌, ◌≤◌, [], length, take, drop, OnOk, IfOk}, Fmt.{decimal}};
ghost use Rattle.t1_bytes.specs.{Cipher.{encrypted}, Keys.{key_behind}};
ghost use Rattle.t1_font.specs.Canon.{sealed_body};

use itoa::Buffer;
use std::alloc::{AllocError, Global};
use std::marker::Model;
use t1_bytes::{CHARSTRING_KEY, EEXEC_KEY, encrypt, encrypt_both};

/// A private text while it is written: its value is the text, with its lead bytes. A charstring is encrypted as soon as it is there,
/// and with it what stands before it under the cipher of the whole text, since two ciphers at once take the time of one.
#[derive(Drop)]
pub(crate) struct Sealing {
    /// The cipher of the first bytes of the text, and its other bytes.
    bytes: Vec<u8>,
    /// How many bytes are encrypted.
    done: usize,
    /// The key behind them.
    key: u16,
}

/// Encrypts the charstring that begins at a place, and with it what stands before it from another place on, and answers the key behind
/// that.
fn seal_end(bytes: &mut Vec<u8>, from: usize, key: u16, start: usize) -> u16
    requires order { from ≤ start }
    requires within { start ≤ length bytes.old.items }
    ensures text { bytes.new.items
        ≡ take from bytes.old.items
        ++ (encrypted key (drop from (take start bytes.old.items))
        ++ encrypted 4330 (drop start bytes.old.items)) }
    ensures key { result ≡ key_behind key (encrypted key (drop from (take start bytes.old.items))) }
{
    let (before, body) = bytes.as_mut_slice().split_at_mut(start);
    let (_, left) = before.split_at_mut(from);
    encrypt_both(left, key, body, CHARSTRING_KEY)
}

/// Encrypts what stands from a place on.
fn encrypt_rest(bytes: &mut Vec<u8>, from: usize, key: u16)
    requires { from ≤ length bytes.old.items }
    ensures { bytes.new.items ≡ take from bytes.old.items ++ encrypted key (drop from bytes.old.items) }
{
    let (_, rest) = bytes.as_mut_slice().split_at_mut(from);
    encrypt(rest, key);
}

impl Model for Sealing {
    ghost use Rattle.std.specs.Prelude.{ℕ, List};
    ghost use Rattle.t1_font.specs.{Codes.{bytes_code}, Sealing.{IsSealing, sealing_text}};

    ghost Value = { List ℕ };

    ghost coded = { bytes_code };

    ghost view = { sealing_text };

    ghost invariant = { IsSealing };
}

impl Sealing {
    /// A text without bytes, with room for this many.
    pub(crate) fn with_capacity(alloc: Global, room: usize) -> Result<Sealing, AllocError>
        ensures { IfOk result (λ s. s ≡ []) }
    {
        Ok(Sealing {
            bytes: Vec::with_capacity(alloc, room)?,
            done: 0,
            key: EEXEC_KEY,
        })
    }

    /// Adds bytes.
    pub(crate) fn put(&mut self, bytes: &[u8]) -> Result<(), AllocError>
        ensures { OnOk result (self.new ≡ self.old ++ bytes.now) }
    {
        self.bytes.extend_from_slice(bytes)
    }

    /// Adds a number in decimal digits.
    pub(crate) fn put_number(&mut self, number: usize) -> Result<(), AllocError>
        ensures { OnOk result (self.new ≡ self.old ++ decimal number) }
    {
        let mut digits = Buffer::new();
        self.put(digits.format(number).as_bytes())
    }

    /// Adds a charstring as it stands in a file: encrypted, after lenIV zero bytes.
    pub(crate) fn put_charstring(&mut self, plain: &[u8], len_iv: u8) -> Result<(), AllocError>
        ensures { OnOk result (self.new ≡ self.old ++ sealed_body len_iv plain.now) }
    {
        let start = self.bytes.len();
        self.bytes.resize(start.saturating_add(len_iv as usize), 0)?;
        self.bytes.extend_from_slice(plain)?;
        self.key = seal_end(&mut self.bytes, self.done, self.key, start);
        self.done = start;
        Ok(())
    }

    /// The cipher of the text.
    pub(crate) fn into_cipher(self) -> Vec<u8>
        ensures { result.items ≡ encrypted 55665 self }
    {
        let mut cipher = self.bytes;
        encrypt_rest(&mut cipher, self.done, self.key);
        cipher
    }
}
