// A whole clearing.
ghost use Rattle.std.specs.Prelude.{◌≡◌, ◌≤◌, ◌<◌, ◌++◌, [], All, length, slice_index, IfOk};
ghost use Rattle.sl_types.specs.declared.kinds.TheConstants.{MAX_POOLS};
ghost use Rattle.sl_laws.specs.Stable.{IsLeastStable};
ghost use Rattle.sl_laws.specs.Raises.{Replays, Proves};
ghost use Rattle.sl_nesting.specs.Published.{ArePublished};
ghost use Rattle.sl_contend.specs.Contention.{contention_of};
ghost use Rattle.sl_core.specs.State.{logged_from};
ghost use Rattle.sl_core.specs.Parts.{BeginsWith};
ghost use Rattle.sl_floor.specs.declared.shares.TheConstants.{WHOLE_SHARE, FIRST_ALLOWANCE};
ghost use Rattle.sl_floor.specs.Floor.{IsOf, IsIdle, HasNoneLeft};
ghost use Rattle.sl_floor.specs.Ending.{IsWholeLog};
ghost use Rattle.sl_team.specs.Crew.{total_of};
ghost use Rattle.sl_team.specs.Rounds.{IsBetween};
ghost use Rattle.sl_team.specs.Clearing.{IsReceiptOf, AreLoggedRaises, IsAtMost, AreRising};
ghost use Rattle.sl_team.specs.Watching.{AreSeen};

use crate::closing::{Cleared, finish};
use crate::crew::{Job, Place, Spare};
use crate::first_round::watch_first;
use crate::opening::{crew_of, spares_for};
use crate::rounds::all_rounds;
use crate::seen::Seen;
use sl_contend::Contenders;
use sl_desk::{Desk, Gate};
use sl_floor::{Floor, Seat};
use sl_types::{Instance, Logged, OutOfMemory, Raise};
use std::alloc::Global;
use std::thread::Threads;

// All rounds: the one seat that is left, what was logged, and what the looks of the first round saw.
fn run_rounds<R: Threads + Sync, G: Gate>(
    rt: &R,
    alloc: Global,
    floor: &Floor,
    crew: Vec<Place>,
    spares: Vec<Spare>,
    room: usize,
    looks: u32,
    job: &Job<G>,
) -> Result<(Seat, Vec<Logged>, Seen), OutOfMemory>
    requires state { IsBetween floor.now room [] crew.items spares.items }
    requires undrawn { total_of crew.items ≡ FIRST_ALLOWANCE }
    requires few { length spares.items < 64 }
    requires room { (1 ≤ room) × (room ≤ 65536) }
    requires job { job.now ≡ floor.now.market }
    requires pools { length floor.now.market.pools ≤ MAX_POOLS }
    ensures seat { IfOk result (λ t. IsOf floor.now t.0 × IsIdle t.0) }
    ensures whole { IfOk result (λ t. t.0.view.share ≡ WHOLE_SHARE) }
    ensures quiet { IfOk result (λ t. HasNoneLeft t.0) }
    ensures log { IfOk result (λ t. t.0.view.actor.log
        ≡ logged_from 0 floor.now.kept ++ t.1.items) }
    ensures seen { IfOk result (λ t. AreSeen floor.now.market t.2) }
    ensures count { IfOk result (λ t. length t.2 ≡ looks) }
{
    let mut crew = crew;
    let mut spares = spares;
    let mut gathered = Vec::new(alloc);
    let seen = watch_first(
        rt,
        alloc,
        floor,
        &mut crew,
        &mut spares,
        &mut gathered,
        room,
        looks,
        job,
    )?;
    all_rounds(rt, floor, &mut crew, &mut spares, &mut gathered, room, job)?;
    let Place { seat, desk: _ } = crew.remove(0);
    Ok((seat, gathered, seen))
}

/// Clears an instance with 1 to 64 workers, on a floor of its own that opens with raises that replay. In each
/// round the workers go through the pools, each at a seat of its own with a log of this room, 1 to 65,536
/// entries; rounds go on until no pool is left to scan. A reader makes up to 100 looks beside the workers of
/// the first round; before its look `k`, counted from 0, it passes the gate as `at(workers, k)`. The contenders
/// were made for the instance. The limits are the least stable ones, in points, and the raises begin with the
/// kept ones and prove the limits. Each look saw a number for each pool, none below the look before, and none
/// above the limits. It waits for nobody, always returns, and refuses for want of memory alone.
pub fn clear<G: Gate>(
    rt: &(impl Threads + Sync),
    alloc: Global,
    instance: &Instance,
    contenders: &Contenders,
    kept: &[Raise],
    workers: u32,
    room: usize,
    looks: u32,
    gate: &G,
) -> Result<Cleared, OutOfMemory>
    requires contenders { contenders.now ≡ contention_of instance.now }
    requires kept { Replays instance.now kept.now }
    requires workers { (1 ≤ workers) × (workers ≤ 64) }
    requires room { (1 ≤ room) × (room ≤ 65536) }
    requires looks { looks ≤ 100 }
    ensures least { IfOk result (λ c. IsLeastStable instance.now (slice_index c.limits)) }
    ensures proves { IfOk result (λ c. Proves instance.now c.raises (slice_index c.limits)) }
    ensures begins { IfOk result (λ c. BeginsWith kept.now c.raises) }
    ensures each { IfOk result (λ c. length c.limits ≡ length instance.now.pools) }
    ensures receipt { IfOk result (λ c. IsReceiptOf instance.now kept.now c.receipt) }
    ensures whole { IfOk result (λ c. IsWholeLog c.receipt) }
    ensures published { IfOk result
        (λ c. ArePublished instance.now (slice_index c.receipt.words) c.limits) }
    ensures logged { IfOk result (AreLoggedRaises instance.now) }
    ensures looks { IfOk result (λ c. length c.seen ≡ looks) }
    ensures rising { IfOk result (λ c. AreRising c.seen) }
    ensures seen { IfOk result (λ c. All (IsAtMost c.limits) c.seen) }
{
    let _pools = instance.pools();
    let job = Job {
        instance,
        contenders,
        gate,
    };
    let spares = spares_for(alloc, instance, contenders, workers, room)?;
    let desk = Desk::new(alloc, instance, contenders, 0, workers)?;
    let (floor, seat) = Floor::new(alloc, instance, contenders, kept, room)?;
    let crew = crew_of(alloc, seat, desk)?;
    let (seat, gathered, seen) = run_rounds(rt, alloc, &floor, crew, spares, room, looks, &job)?;
    finish(alloc, instance, kept, floor, seat, gathered, seen)
}
