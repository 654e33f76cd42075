//! Lists that grow.

ghost use Rattle.std.specs.Prelude.{◌≡◌, ◌++◌, ◌∷◌, [], OnOk, OnErr};

use std::alloc::AllocError;

/// Adds an item behind the others. If a growth is refused, the item is dropped, and the others are as they were.
pub fn push_item<T: Drop>(items: &mut Vec<T>, item: T) -> Result<(), AllocError>
    ensures added { OnOk result (items.new.items ≡ items.old.items ++ item ∷ []) }
    ensures unchanged { OnErr result (items.new.items ≡ items.old.items) }
{
    match items.push(item) {
        Ok(_) => Ok(()),
        Err(_) => Err(AllocError),
    }
}
