//! Families of names: those that are equal without their tags.

ghost use Rattle.std.specs.Prelude.{◌≡◌};
ghost use Rattle.t1_document.specs.Families.{family};

use t1_font::untagged;

/// A name without the tags that it begins with, or the name itself where nothing would be left.
pub(crate) fn family(name: &[u8]) -> &[u8]
    ensures { result.now ≡ family name.now }
{
    let bare = untagged(name);
    if !bare.is_empty() { bare } else { name }
}
