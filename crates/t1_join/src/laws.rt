//! The laws of each partial join, and of listings, over what their values mean.
ghost use Rattle.std.specs.Prelude.{◌≡◌};
ghost use Rattle.t1_join.specs.{declared.listing.JoinFault.{JoinFault}, declared.listing.JoinFault.TheVariants.{Memory}, Meaning.{Meaning}};
ghost use Rattle.t1_join.specs.{TableMeaning.{TableMeaning, IsFirstConflict}, ListingMeaning.{ListingMeaning}, ListingText.{listing_of, text_of}};
ghost use Rattle.t1_join.specs.ListingJoin.{IsJoined, IsJoinFault};

use crate::listing::Listing;
use crate::partial::Join;

/// Two values have the same join in either order.
pub fn commutative<J: Join>()
    ensures { (x y z : J.Meaning) → J.Joins x y z → J.Joins y x z }
{}

/// Three values join in one grouping if they join in the other, and to the same value.
pub fn associative<J: Join>()
    ensures from_left { (x y z a b : J.Meaning)
        → J.Joins x y a
        → J.Joins a z b
        → (c : J.Meaning) × J.Joins y z c × J.Joins x c b }
    ensures from_right { (x y z c b : J.Meaning)
        → J.Joins y z c
        → J.Joins x c b
        → (a : J.Meaning) × J.Joins x y a × J.Joins a z b }
{}

/// A value joined with itself is itself.
pub fn idempotent<J: Join>()
    ensures joins { (x : J.Meaning) → J.Joins x x x }
    ensures agrees { (x : J.Meaning) → J.Agrees x x }
{}

/// Two values join to one value.
pub fn one_answer<J: Join>()
    ensures { (x y z w : J.Meaning) → J.Joins x y z → J.Joins x y w → z ≡ w }
{}

/// Two tables have at most one first conflict, and the same in either order.
pub fn one_conflict()
    ensures one { (m n : TableMeaning) (p q : Meaning)
        → IsFirstConflict m n p
        → IsFirstConflict m n q
        → p ≡ q }
    ensures either_order { (m n : TableMeaning) (q : Meaning)
        → IsFirstConflict m n q
        → IsFirstConflict n m q }
{}

/// Two listings join, or are refused, alike in either order; if they join, only want of memory is refused.
pub fn listings_join_alike()
    ensures joined { (left right both : ListingMeaning)
        → IsJoined left right both
        → IsJoined right left both }
    ensures refused { (left right : ListingMeaning) (fault : JoinFault)
        → IsJoinFault left right fault
        → IsJoinFault right left fault }
    ensures one_of { (left right both : ListingMeaning) (fault : JoinFault)
        → IsJoined left right both
        → IsJoinFault left right fault
        → fault ≡ Memory }
{}

/// The text that a listing is written as reads as that listing.
pub fn reads_what_is_written(listing: &Listing<'_>)
    ensures { listing_of (text_of listing.now) ≡ Ok listing.now }
{
    listing.proof_holds_what_lines_spell();
}
