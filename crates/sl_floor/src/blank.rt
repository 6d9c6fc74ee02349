ghost use Rattle.std.specs.Prelude.{◌≡◌, ◌≤◌, length, IfOk};

use crate::pool_set::PoolSet;
use sl_types::{Instance, Logged, OutOfMemory};
use std::alloc::Global;
use std::marker::Model;

/// The memory of one further seat. Contracts see for how many pools, and how many entries its log may have.
#[derive(Drop)]
pub struct Blank {
    pub(crate) known: Vec<u32>,
    pub(crate) left: PoolSet,
    pub(crate) log: Vec<Logged>,
    pub(crate) room: usize,
}

impl Model for Blank {
    ghost use Rattle.std.specs.Prelude.{◌≡◌, ◌≤◌, [], length, vec_capacity};
    ghost use Rattle.sl_floor.specs.Floor.{BlankValue};

    ghost Value = { BlankValue };

    ghost view = { λ s. record { pools = length s.known.items; room = s.room } };

    ghost invariant = { λ s. (length s.left ≡ length s.known.items) × (s.log.items ≡ [])
        × (s.room ≤ vec_capacity s.log) };
}

impl Blank {
    /// The memory of a further seat for an instance, whose log in memory may have so many entries, up to
    /// 65,536. It refuses for want of memory alone.
    pub fn new(alloc: Global, instance: &Instance, room: usize) -> Result<Blank, OutOfMemory>
        requires { (1 ≤ room) × (room ≤ 65536) }
        ensures pools { IfOk result (λ b. b.pools ≡ length instance.now.pools) }
        ensures room { IfOk result (λ b. b.room ≡ room) }
    {
        let pools = instance.pools();
        let known = vec![in alloc; 0; pools]?;
        let left = PoolSet::none(alloc, pools)?;
        let log = Vec::with_capacity(alloc, room)?;
        Ok(Blank {
            known,
            left,
            log,
            room,
        })
    }
}
