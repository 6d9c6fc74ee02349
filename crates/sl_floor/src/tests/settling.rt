// A seat that settles one pool of two, whose other pool feeds it and is fed.
ghost use Rattle.std.specs.Prelude.{◌≡◌, ◌≢◌, ◌+◌, ◌<◌, ◌≤◌, true, length, set, slice_index, nat_lt, IfSome, IfNone};
ghost use Rattle.sl_core.specs.declared.kinds.Phase.TheVariants as phase;
ghost use Rattle.sl_core.specs.State.{no_pools, no_limits};
ghost use Rattle.sl_core.specs.Machine.{phase_found, phase_after_raise, fed_pools};
ghost use Rattle.sl_laws.specs.Limits.{effective_limit};
ghost use Rattle.sl_laws.specs.Stable.{feeds, IsJustified};
ghost use Rattle.sl_floor.specs.Floor.{IsOf, IsIdle};

use super::*;
use sl_laws::{plain_eff, plain_feeds, plain_justified, plain_settled};

// What a settling read of the pool and of the other, and the raise that it made, with its ticket and the word
// that it found.
#[derive(Clone, Copy)]
pub struct Settled {
    pub own: u32,
    pub other: u32,
    pub raise: Option<(u32, u64, u32)>,
}

// Two pools are two, and one feeds the other.
fn differ(rt: &impl Abort, one: PoolId, other: PoolId)
    ensures { one.0 ≢ other.0 }
{
    assert!(rt; one.0 != other.0);
}

fn feed(rt: &impl Abort, instance: &Instance, from: PoolId, to: PoolId)
    ensures { feeds instance.now from.0 to.0 ≡ true }
{
    assert!(rt; plain_feeds(instance, from, to));
}

// It reads the pool's own word, and then that of the one pool that feeds it.
fn read_own(
    rt: &impl Abort,
    instance: &Instance,
    floor: &Floor,
    seat: &mut Seat,
    pools: (PoolId, PoolId),
) -> u32
    requires seat { IsOf floor.now seat.old }
    requires instance { instance.now ≡ floor.now.market }
    requires within { (pools.0.0 < length instance.now.pools)
        × (pools.1.0 < length instance.now.pools) }
    requires phase { seat.old.view.actor.phase ≡ phase.Working pools.0 }
    requires made { seat.old.view.actor.made ≡ no_pools instance.now }
    ensures seat { IsOf floor.now seat.new }
    ensures phase { seat.new.view.actor.phase ≡ phase.Working pools.0 }
    ensures made { seat.new.view.actor.made ≡ set (no_pools instance.now) pools.0.0 true }
    ensures reads { seat.new.view.actor.reads ≡ set seat.old.view.actor.reads pools.0.0 result }
{
    let (at, from) = pools;
    differ(rt, from, at);
    feed(rt, instance, from, at);
    floor.read(seat, at)
}

fn read_other(
    rt: &impl Abort,
    instance: &Instance,
    floor: &Floor,
    seat: &mut Seat,
    pools: (PoolId, PoolId),
) -> u32
    requires seat { IsOf floor.now seat.old }
    requires instance { instance.now ≡ floor.now.market }
    requires within { (pools.0.0 < length instance.now.pools)
        × (pools.1.0 < length instance.now.pools) }
    requires phase { seat.old.view.actor.phase ≡ phase.Working pools.0 }
    requires made { seat.old.view.actor.made ≡ set (no_pools instance.now) pools.0.0 true }
    requires few { length instance.now.pools ≡ 2 }
    ensures seat { IsOf floor.now seat.new }
    ensures phase { seat.new.view.actor.phase
        ≡ phase_found instance.now pools.0 (set seat.old.view.actor.reads pools.1.0 result) }
{
    let (at, from) = pools;
    assert!(rt; from.0 != at.0);
    assert!(rt; plain_feeds(instance, from, at));
    floor.read(seat, from)
}

// The greatest justified raise at these reads, up to 20 points.
fn greatest(instance: &Instance, reads: &[u32], at: PoolId) -> u32
    requires sizes { length reads.now ≡ length instance.now.pools }
    requires within { at.0 < length instance.now.pools }
{
    let mut best = 0;
    for x in 1..20u32 {
        if plain_justified(instance, reads, at, x) {
            best = x;
        }
    }
    best
}

pub fn justify(rt: &impl Abort, instance: &Instance, reads: &[u32], at: PoolId, x: u32)
    requires sizes { length reads.now ≡ length instance.now.pools }
    requires within { at.0 < length instance.now.pools }
    ensures some { 1 ≤ x }
    ensures justified { IsJustified instance.now (slice_index reads.now) at.0 x }
{
    assert!(rt; x > 0);
    assert!(rt; plain_justified(instance, reads, at, x));
}

fn justify_no_more(rt: &impl Abort, instance: &Instance, reads: &[u32], at: PoolId, x: u32)
    requires sizes { length reads.now ≡ length instance.now.pools }
    requires within { at.0 < length instance.now.pools }
    ensures no_more { IsJustified instance.now (slice_index reads.now) at.0 (x + 1) → ⊥ }
    ensures above { effective_limit instance.now (slice_index reads.now) at.0 < x }
{
    assert!(rt; x < u32::MAX);
    assert!(rt; !plain_justified(instance, reads, at, x + 1));
    assert!(rt; plain_eff(instance, reads, at) < x);
}

fn finds(rt: &impl Abort, instance: &Instance, reads: &[u32], at: PoolId, x: u32)
    requires sizes { length reads.now ≡ length instance.now.pools }
    requires within { at.0 < length instance.now.pools }
    ensures { phase_found instance.now at reads.now ≡ phase.Ready at x }
{
    let _pools = instance.pools();
    justify(rt, instance, reads, at, x);
    justify_no_more(rt, instance, reads, at, x);
}

// The raise that these reads ask for, where they do.
fn best(rt: &impl Abort, instance: &Instance, reads: &[u32], at: PoolId) -> Option<u32>
    requires sizes { length reads.now ≡ length instance.now.pools }
    requires within { at.0 < length instance.now.pools }
    ensures some { IfSome result (λ x. phase_found instance.now at reads.now ≡ phase.Ready at x) }
    ensures none { IfNone result (phase_found instance.now at reads.now ≡ phase.Idle) }
{
    let _pools = instance.pools();
    if plain_settled(instance, reads, at) {
        return None;
    }
    let x = greatest(instance, reads, at);
    finds(rt, instance, reads, at, x);
    Some(x)
}

// It draws, and raises the word.
fn raise(rt: &impl Abort, floor: &Floor, seat: &mut Seat, at: PoolId, x: u32) -> (u64, u32)
    requires seat { IsOf floor.now seat.old }
    requires phase { seat.old.view.actor.phase ≡ phase.Ready at x }
    ensures seat { IsOf floor.now seat.new }
    ensures phase { seat.new.view.actor.phase
        ≡ phase_after_raise floor.now.market at (nat_lt result.1 x) }
    ensures owed { seat.new.view.actor.owed ≡ fed_pools floor.now.market at.0 }
{
    assert!(rt; seat.log().len() < seat.room());
    assert!(rt; seat.allowance() > 0);
    let ticket = floor.draw(seat, x);
    (ticket, floor.raise(seat))
}

// It marks the one pool that is fed.
fn mark(
    rt: &impl Abort,
    instance: &Instance,
    floor: &Floor,
    seat: &mut Seat,
    pools: (PoolId, PoolId),
)
    requires seat { IsOf floor.now seat.old }
    requires instance { instance.now ≡ floor.now.market }
    requires few { length instance.now.pools ≡ 2 }
    requires within { (pools.0.0 < length instance.now.pools)
        × (pools.1.0 < length instance.now.pools) }
    requires phase { seat.old.view.actor.phase ≡ phase_after_raise instance.now pools.0 true }
    requires owed { seat.old.view.actor.owed ≡ fed_pools instance.now pools.0.0 }
    ensures seat { IsOf floor.now seat.new }
    ensures idle { IsIdle seat.new }
{
    let (at, to) = pools;
    assert!(rt; to.0 != at.0);
    assert!(rt; plain_feeds(instance, at, to));
    floor.mark(seat, to);
}

// It settles the pool, where the pool is left to scan and its flag is up.
pub fn settle(
    rt: &impl Abort,
    instance: &Instance,
    floor: &Floor,
    seat: &mut Seat,
    pools: (PoolId, PoolId),
) -> Option<Settled>
    requires seat { IsOf floor.now seat.old }
    requires instance { instance.now ≡ floor.now.market }
    requires few { length instance.now.pools ≡ 2 }
    requires idle { IsIdle seat.old }
    requires within { (pools.0.0 < 2) × (pools.1.0 < 2) }
    ensures seat { IsOf floor.now seat.new }
    ensures idle { IsIdle seat.new }
{
    let (at, from) = pools;
    if !seat.is_left(at) {
        return None;
    }
    if !floor.claim(seat, at) {
        return None;
    }
    let own = read_own(rt, instance, floor, seat, pools);
    let other = read_other(rt, instance, floor, seat, pools);
    let mut reads = [0, 0];
    reads[at.0 as usize] = own;
    reads[from.0 as usize] = other;
    let raise = match best(rt, instance, &reads, at) {
        None => None,
        Some(x) => {
            let (ticket, found) = raise(rt, floor, seat, at, x);
            if found < x {
                mark(rt, instance, floor, seat, pools);
            }
            Some((x, ticket, found))
        }
    };
    Some(Settled { own, other, raise })
}
