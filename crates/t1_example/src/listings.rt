//! A caller of `t1_join`.

ghost use Rattle.std.specs.Prelude.{◌≡◌, Ok, IfOk, IfErr};
ghost use Rattle.t1_join.specs.{ListingJoin.{joined_listing, IsJoinFault}, ListingText.{listing_of}};

use std::alloc::Global;
use t1_join::{JoinFault, Listing, join, laws, listing};

/// The text of the entries of two listings, which reads as their join.
pub fn joined_text(
    alloc: Global,
    first: &Listing<'_>,
    second: &Listing<'_>,
) -> Result<Vec<u8>, JoinFault>
    ensures reads { IfOk result (λ v. listing_of v.items ≡ Ok (joined_listing first.now second.now)) }
    ensures refused { IfErr result (IsJoinFault first.now second.now) }
{
    let joined = join(alloc, first, second)?;
    laws::reads_what_is_written(&joined);
    Ok(listing::write(alloc, &joined)?)
}
