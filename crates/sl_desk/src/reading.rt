// The reads of a settling.
ghost use Rattle.std.specs.Prelude.{◌≡◌, ◌∷◌, ◌<◌, All, length, replicate};
ghost use Rattle.sl_core.specs.declared.kinds.Phase.TheVariants.{Working};
ghost use Rattle.sl_core.specs.State.{no_limits, no_pools};
ghost use Rattle.sl_core.specs.Machine.{phase_found};
ghost use Rattle.sl_contend.specs.Contention.{feeding, numbers_of_pools};
ghost use Rattle.sl_floor.specs.Floor.{IsOf};
ghost use Rattle.sl_desk.specs.Seats.{FitsMarket};
ghost use Rattle.sl_desk.specs.Reading.{OnlyAt, HasReadAll};

use sl_floor::{Floor, Seat};
use sl_types::PoolId;

// A seat of a floor has an item for each pool in its lists.
#[tactic(auto, using(crate::proofs::Gaining::fits_market))]
pub fn fit(floor: &Floor, seat: &Seat)
    requires { IsOf floor.now seat.now }
    ensures { FitsMarket floor.now.market seat.now.view }
{
    let _full = seat.is_full();
}

// Reads the word of the pool at work, and then those of the pools that feed it, in rising order.
pub fn read_asked(floor: &Floor, seat: &mut Seat, reads: &mut [u32], feeds: &[PoolId], pool: PoolId)
    requires of { IsOf floor.now seat.old }
    requires sized { FitsMarket floor.now.market seat.old.view }
    requires within { pool.0 < length floor.now.market.pools }
    requires feeds { numbers_of_pools feeds.now ≡ feeding floor.now.market pool.0 }
    requires phase { seat.old.view.actor.phase ≡ Working pool }
    requires made { seat.old.view.actor.made ≡ no_pools floor.now.market }
    requires none { seat.old.view.actor.reads ≡ no_limits floor.now.market }
    requires reads { reads.old ≡ no_limits floor.now.market }
    ensures read { HasReadAll floor.now.market pool seat.old seat.new reads.new }
    ensures found { seat.new.view.actor.phase ≡ phase_found floor.now.market pool reads.new }
{
    let own = floor.read(seat, pool);
    reads[pool.0 as usize] = own;
    for at in 0..feeds.len() {
        let from = feeds[at];
        let word = floor.read(seat, from);
        reads[from.0 as usize] = word;
    }
}

// Sets back to 0 what a settling has read.
pub fn forget(reads: &mut [u32], feeds: &[PoolId], pool: PoolId)
    requires within { pool.0 < length reads.old }
    requires feeds { All (λ p. p.0 < length reads.old) feeds.now }
    requires only { OnlyAt reads.old (pool.0 ∷ numbers_of_pools feeds.now) }
    ensures { reads.new ≡ replicate (length reads.old) 0 }
{
    reads[pool.0 as usize] = 0;
    for place in 0..feeds.len() {
        reads[feeds[place].0 as usize] = 0;
    }
}
