//! The bytes of Type 1 font files, below their grammar: PFB segments, the ciphers of eexec and of
//! charstrings, the split of a flat text into clear text and cipher, and lines of hexadecimal
//! digits.
//!
//! A file is read by [`flatten`], [`split_eexec`] and [`open`], and written by [`seal`] and then
//! [`segments`] or [`hex_lines`], with [`trailer`] at the end.
//!
//! ```text
//! let flat = flatten(alloc, file)?;
//! let (offset, cipher) = split_eexec(alloc, flat.as_slice())?;
//! let private = open(cipher, EEXEC_KEY, EEXEC_LEAD);
//! ```
//!
//! The specifications speak of texts by the grammars of `t1_grammar`: values that say which bytes
//! spell what and how that is read, and carry the law that the two agree.
#![tactic(auto)]

mod around;
mod blocks;
mod cipher;
mod digits;
mod eexec;
mod fault;
mod form;
mod hexadecimal;
pub mod laws;
mod limits;
mod lockstep;
mod pfb;
pub mod texts;

pub use around::{file_around, room_around};
pub use cipher::{CHARSTRING_KEY, EEXEC_KEY, EEXEC_LEAD, decrypt, encrypt, open, seal};
pub use eexec::{Cipher, after_eexec, find_cipher, hex_text_at, split_eexec};
pub use fault::BytesFault;
pub use form::Form;
pub use hexadecimal::{LINE, hex_lines, trailer};
pub use limits::FILE_LIMIT;
pub use lockstep::encrypt_both;
pub use pfb::{flatten, flatten_vec, segments};
