//! The names of an Encoding's codes, while its table is read.

ghost use Rattle.std.specs.{Prelude.{◌≡◌, ◌≤◌, ◌+◌, length, map, filter, IfOk}};
ghost use Rattle.t1_font.specs.{Gathering.{kept_by}, Sources.{kept_name}, CodeNames.{Marked}};
ghost use Rattle.t1_text.specs.{Encoding.{Copy}, Entries.{has_name}};
ghost use Rattle.std.specs.FinMap as fin;

use crate::glyphs::is_notdef;
use std::alloc::{AllocError, Global};
use std::marker::Model;

/// How many codes there are.
pub(crate) const CODES: usize = 256;

/// The last name of each code that was given one, `.notdef` among them, each at the place of its code. A code without a name
/// has `.notdef` there, too, so that names are copied without a look at each.
#[derive(Drop)]
pub(crate) struct CodeNames<'a> {
    names: [&'a [u8]; CODES],
    named: [bool; CODES],
}

impl<'a> Model for CodeNames<'a> {
    ghost use Rattle.std.specs.FinMap.{from_sorted};
    ghost use Rattle.t1_font.specs.{FontValue.{SparseArray}, Codes.{numbered_code}, CodeNames.{codes_named, AreNames}};

    ghost Value = { SparseArray };

    ghost coded = { numbered_code };

    ghost view = { λ t. from_sorted (codes_named 0 t.names t.named) };

    ghost invariant = { λ t. AreNames t.names t.named };
}

/// Marks the codes from one up to another.
fn mark(named: &mut [bool], from: usize, to: usize)
    requires ordered { from ≤ to }
    requires within { to ≤ length named.old }
    ensures { Marked named.old named.new from to }
{
    'codes: for code in from..to {
        named[code] = true;
    }
}

impl<'a> CodeNames<'a> {
    /// No code has a name.
    pub(crate) fn none() -> Self
        ensures { result ≡ fin.empty }
    {
        CodeNames {
            names: [b".notdef".as_slice(); CODES],
            named: [false; CODES],
        }
    }

    /// Puts a name at a code.
    pub(crate) fn put(&mut self, code: u8, name: &'a [u8])
        ensures { self.new ≡ fin.insert self.old code name.now }
    {
        self.names[code as usize] = name;
        self.named[code as usize] = true;
    }

    /// Puts the names of so many codes from one on at the codes from another one on.
    pub(crate) fn copy(&mut self, from: u16, count: u16, to: u16)
        requires from { from + count ≤ 256 }
        requires to { to + count ≤ 256 }
        ensures { self.new ≡ kept_by self.old (Copy from count to) }
    {
        let (from, count, to) = (from as usize, count as usize, to as usize);
        self.names
            .as_mut_slice()
            .copy_within(from..from + count, to);
        mark(self.named.as_mut_slice(), to, to + count);
    }

    /// The names, in a vector of their own; `.notdef` counts as no name.
    pub(crate) fn kept(&self, alloc: Global) -> Result<Vec<(u16, Vec<u8>)>, AllocError>
        ensures { IfOk result (λ v. map kept_name v.items ≡ filter has_name (fin.entries self.now)) }
    {
        let mut kept = Vec::new(alloc);
        'codes: for code in 0..CODES {
            if self.named[code] {
                let name = self.names[code];
                if !is_notdef(name) {
                    kept.push((code as u16, Vec::from_slice(alloc, name)?))?;
                }
            }
        }
        Ok(kept)
    }
}
