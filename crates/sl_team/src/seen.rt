// What the looks of a reader saw.
ghost use Rattle.std.specs.Prelude.{◌≡◌, ◌<◌, All, length, set, IfOk};
ghost use Rattle.sl_floor.specs.Floor.{IsOf, IsIdle};
ghost use Rattle.sl_team.specs.Watching.{HasLooked, AreLong};

use sl_floor::{Floor, Seat};
use sl_watch::look;
use std::alloc::{AllocError, Global};
use std::marker::Model;

// A number for each pool, in points, for each look. Contracts see a list for each look.
#[derive(Drop)]
pub struct Seen {
    pub looks: Vec<Vec<u32>>,
}

impl Model for Seen {
    ghost use Rattle.std.specs.Prelude.{List, ℕ, map};

    ghost Value = { List (List ℕ) };

    ghost view = { λ s. map (λ look. look.items) s.looks.items };
}

// A look of a seat, into a vector.
fn look_into(floor: &Floor, seat: &mut Seat, numbers: &mut Vec<u32>)
    requires seat { IsOf floor.now seat.old }
    requires idle { IsIdle seat.old }
    requires long { length numbers.old.items ≡ length floor.now.market.pools }
    ensures looked { HasLooked floor.now seat.old seat.new }
    ensures numbers { numbers.new.items ≡ seat.new.view.actor.known }
{
    look(floor, seat, numbers.as_mut_slice());
}

impl Seen {
    // Memory for so many looks at so many pools.
    pub fn new(alloc: Global, pools: usize, looks: usize) -> Result<Seen, AllocError>
        ensures count { IfOk result (λ s. length s ≡ looks) }
        ensures long { IfOk result (All (λ look. length look ≡ pools)) }
    {
        let mut seen = Vec::with_capacity(alloc, looks)?;
        for _ in 0..looks {
            seen.push(vec![in alloc; 0; pools]?).unwrap();
        }
        Ok(Seen { looks: seen })
    }

    // How many looks there are.
    pub fn count(&self) -> usize
        ensures { result ≡ length self.now }
    {
        self.looks.len()
    }

    // The look of a number, made by a seat.
    pub fn look_at(&mut self, at: usize, floor: &Floor, seat: &mut Seat)
        requires within { at < length self.old }
        requires long { AreLong floor.now.market self.old }
        requires seat { IsOf floor.now seat.old }
        requires idle { IsIdle seat.old }
        ensures looked { HasLooked floor.now seat.old seat.new }
        ensures seen { self.new ≡ set self.old at seat.new.view.actor.known }
    {
        look_into(floor, seat, &mut self.looks[at]);
    }
}
