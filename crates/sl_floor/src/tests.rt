ghost use Rattle.std.specs.Prelude.{◌≡◌, length};
ghost use Rattle.sl_floor.specs.Floor.{IsOf, IsIdle};

use super::*;
use sl_contend::Contenders;
use sl_types::{Entry, Instance, Pool, PoolId, ProgId, Raise, Rule};
use std::alloc::Global;
use std::process::Abort;
use std::test::Fail;

mod looking;
mod parting;
mod settling;
mod stepping;
mod threads;

const A: PoolId = PoolId(0);

const B: PoolId = PoolId(1);

fn choice(place: u32, prog: u32, score: u32) -> Entry {
    Entry {
        place,
        prog: ProgId(prog),
        score,
    }
}

fn pool() -> Pool {
    Pool {
        quota: 1,
        parent: None,
        rule: Rule::H,
    }
}

// One pool of one place; x and y are tied at 10, and z has 5.
fn crossing_tie(alloc: Global) -> Result<Instance, Fail> {
    let x = vec![in alloc; choice(1, 0, 10)]?;
    let y = vec![in alloc; choice(1, 0, 10)]?;
    let z = vec![in alloc; choice(1, 0, 5)]?;
    Ok(Instance::new(
        alloc,
        vec![in alloc; pool()]?,
        vec![in alloc; A]?,
        vec![in alloc; x, y, z]?,
    )?)
}

// Two pools of one place each; x prefers a, y and z prefer b.
fn displaced_twice(alloc: Global) -> Result<Instance, Fail> {
    let x = vec![in alloc; choice(1, 0, 10), choice(2, 1, 10)]?;
    let y = vec![in alloc; choice(1, 1, 9), choice(2, 0, 12)]?;
    let z = vec![in alloc; choice(1, 1, 11)]?;
    Ok(Instance::new(
        alloc,
        vec![in alloc; pool(); 2]?,
        vec![in alloc; A, B]?,
        vec![in alloc; x, y, z]?,
    )?)
}

// The words of a floor of two pools that is closed with no pool left to scan.
fn close(rt: &impl Abort, floor: Floor, seat: Seat) -> [u32; 2]
    requires seat { IsOf floor seat }
    requires idle { IsIdle seat }
    requires few { length floor.market.pools ≡ 2 }
{
    assert!(rt; !seat.any_left());
    assert!(rt; seat.share() == WHOLE_SHARE);
    let mut words = [0, 0];
    let _receipt = floor.close(seat, &mut words);
    words
}
