// Counters put back to 0.
ghost use Rattle.std.specs.Prelude.{◌≡◌, ◌<◌, All, length};
ghost use Rattle.sl_contend.specs.Counters.{HasRoomFor};
ghost use Rattle.sl_contend.specs.Offers.{IsChoice};
ghost use Rattle.sl_nested.specs.Counting.{IsClearRound, IsClearBut, StaysClear};

use crate::admitting::choice;
use sl_contend::{Offer, Scratch};
use sl_types::{Instance, PoolId};

// Sets the counters of a pool and of the pools round it to 0.
fn clear_outward(instance: &Instance, scratch: &mut Scratch, from: PoolId)
    requires size { length scratch.old ≡ length instance.now.pools }
    requires within { from.0 < length instance.now.pools }
    ensures size { length scratch.new ≡ length scratch.old }
    ensures cleared { IsClearRound instance.now from.0 scratch.new }
    ensures zeros { StaysClear scratch.old scratch.new }
{
    for here in instance.outward(from) {
        scratch.set_count(here, 0);
    }
}

// Sets the counters of the pools that these offers are in to 0, where no other counter is above it.
pub fn clear(instance: &Instance, scratch: &mut Scratch, offers: &[Offer])
    requires size { length scratch.old ≡ length instance.now.pools }
    requires offers { All (IsChoice instance.now) offers.now }
    requires touched { IsClearBut instance.now offers.now scratch.old }
    ensures { HasRoomFor instance.now scratch.new }
{
    for offer in offers {
        let choice = choice(instance, *offer);
        clear_outward(instance, scratch, instance.pool_of(choice.prog));
    }
}
