ghost use Rattle.std.specs.Prelude.{◌≡◌, ◌≤◌, ◌<◌, length, IfOk};
ghost use Rattle.sl_contend.specs.Contention.{contention_of};
ghost use Rattle.sl_desk.specs.Desks.{IsFor, StartsAt};

use sl_contend::{Contenders, Scratch};
use sl_types::{Instance, OutOfMemory};
use std::alloc::Global;
use std::marker::Model;

/// What a worker keeps beside its seat: the room in which its rule counts; a number for each pool to read
/// into, in points, 0 between two settlings; and its cursor, the pool at which it goes on. Contracts see these
/// three.
#[derive(Drop)]
pub struct Desk {
    pub(crate) scratch: Scratch,
    pub(crate) reads: Vec<u32>,
    pub(crate) cursor: u32,
    pub(crate) worker: u32,
}

impl Model for Desk {
    ghost use Rattle.sl_desk.specs.Desks.{DeskValue};

    ghost Value = { DeskValue };

    ghost view = { λ s. record { scratch = s.scratch; reads = s.reads.items; cursor = s.cursor } };
}

impl Desk {
    /// The desk of a worker of an instance, of so many workers, up to 64, that are counted from 0. Its cursor
    /// stands at the worker's part of the pools: at pool `worker * pools / workers`, rounded down. It takes all
    /// memory that the worker needs, and refuses for want of memory alone.
    #[tactic(auto, using(crate::proofs::Parts::part_low))]
    pub fn new(
        alloc: Global,
        instance: &Instance,
        contenders: &Contenders,
        worker: u32,
        workers: u32,
    ) -> Result<Desk, OutOfMemory>
        requires contenders { contenders.now ≡ contention_of instance.now }
        requires workers { (worker < workers) × (workers ≤ 64) }
        ensures desk { IfOk result (λ desk. IsFor instance.now desk) }
        ensures cursor { IfOk result (StartsAt worker workers instance.now) }
    {
        let pools = instance.pools();
        let scratch = Scratch::new(alloc, instance, contenders)?;
        let Ok(reads) = vec![in alloc; 0; pools] else {
            return Err(OutOfMemory);
        };
        let cursor = worker * pools as u32 / workers;
        Ok(Desk {
            scratch,
            reads,
            cursor,
            worker,
        })
    }
}
