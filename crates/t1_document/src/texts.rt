//! New texts by the names of fonts.

ghost use Rattle.std.specs.{Prelude.{◌≡◌, ℕ, List, Some, None, OnOk, OnErr, if◌then◌else◌}, Option.{option_map}, Str.{bytes_eq}};
ghost use Rattle.t1_document.specs.Texts.{text_in};

use std::alloc::{AllocError, Global};
use std::collections::BTreeMap;

/// A text for each of some names of fonts. Names and texts are borrowed.
#[derive(Drop)]
pub struct Texts<'a> {
    texts: BTreeMap<&'a [u8], &'a [u8]>,
}

impl<'a> Texts<'a> {
    /// No texts.
    pub fn new(alloc: Global) -> Texts<'a>
        ensures { (name : List ℕ) → text_in result name ≡ None }
    {
        Texts {
            texts: BTreeMap::new(alloc),
        }
    }

    /// The text of a name.
    pub fn get(&self, name: &[u8]) -> Option<&'a [u8]>
        ensures { option_map (λ t. t.now) result ≡ text_in self.now name.now }
    {
        match self.texts.get(name) {
            Some(text) => Some(*text),
            None => None,
        }
    }

    /// Gives a name this text, in place of the one that it had.
    ///
    /// # Errors
    ///
    /// A growth was refused; then each name has the text that it had.
    pub fn put(&mut self, name: &'a [u8], text: &'a [u8]) -> Result<(), AllocError>
        ensures put { OnOk result ((other : List ℕ) → text_in self.new other
            ≡ (if bytes_eq name.now other then Some text.now else text_in self.old other)) }
        ensures same { OnErr result ((other : List ℕ) → text_in self.new other ≡ text_in self.old other) }
    {
        self.texts.insert(name, text)?;
        Ok(())
    }
}
