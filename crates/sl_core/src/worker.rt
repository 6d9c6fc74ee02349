ghost use Rattle.std.specs.Prelude.{◌≡◌, ◌<◌, true, length, replicate, IfOk, OnErr};
ghost use Rattle.sl_core.specs.declared.kinds.Phase.TheVariants as at;
ghost use Rattle.sl_core.specs.State.{unread_actor};
ghost use Rattle.sl_core.specs.Machine.{may_claim, actor_after_claim, may_read, actor_after_read, may_draw, actor_after_draw, actor_after_raise, still_owes, actor_after_mark, is_quiet};
ghost use Rattle.sl_core.specs.Parts.{HasSizes};

use crate::lists::{clear_flags, clear_numbers, flag_fed, has_any, has_pool};
use crate::{Phase, search};
use sl_types::{Instance, Logged, PoolId};
use std::alloc::{AllocError, Global};
use std::marker::Model;

// An actor of the machine, with a number or a flag for each pool in each of its lists but the log.
#[derive(Drop)]
pub struct Worker {
    pub phase: Phase,
    pub known: Vec<u32>,
    pub reads: Vec<u32>,
    pub made: Vec<bool>,
    pub left: Vec<bool>,
    pub owed: Vec<bool>,
    pub log: Vec<Logged>,
}

impl Model for Worker {
    ghost use Rattle.sl_core.specs.State.{Actor};

    ghost Value = { Actor };

    ghost view = { λ s. record {
      phase = s.phase;
      known = s.known.items;
      reads = s.reads.items;
      made = s.made.items;
      left = s.left.items;
      owed = s.owed.items;
      log = s.log.items;
    } };
}

impl Worker {
    /// An idle actor that knows every word as 0, with every pool left to scan.
    pub fn idle(alloc: Global, pools: usize) -> Result<Worker, AllocError>
        ensures { IfOk result (λ w. w ≡ unread_actor pools) }
    {
        Ok(Worker {
            phase: Phase::Idle,
            known: vec![in alloc; 0; pools]?,
            reads: vec![in alloc; 0; pools]?,
            made: vec![in alloc; false; pools]?,
            left: vec![in alloc; true; pools]?,
            owed: vec![in alloc; false; pools]?,
            log: Vec::new(alloc),
        })
    }

    pub fn phase(&self) -> Phase
        ensures { result ≡ self.now.phase }
    {
        self.phase
    }

    /// Whether it is idle, with no pool left to scan.
    pub fn is_quiet(&self) -> bool
        ensures { result ≡ is_quiet self.now }
    {
        match self.phase {
            Phase::Idle => !has_any(&self.left),
            _ => false,
        }
    }

    pub fn may_claim(&self, pool: PoolId) -> bool
        ensures { result ≡ may_claim self.now pool.0 }
    {
        match self.phase {
            Phase::Idle => has_pool(&self.left, pool),
            _ => false,
        }
    }

    /// Claims a pool whose flag was up or down.
    pub fn claim(&mut self, instance: &Instance, pool: PoolId, was_up: bool)
        requires sizes { HasSizes instance.now self.old }
        requires may { may_claim self.old pool.0 ≡ true }
        ensures { self.new ≡ actor_after_claim instance.now was_up self.old pool }
    {
        self.left[pool.0 as usize] = false;
        if was_up {
            clear_numbers(&mut self.reads);
            clear_flags(&mut self.made);
            self.phase = Phase::Working(pool);
        }
    }

    pub fn may_read(&self, instance: &Instance, pool: PoolId) -> bool
        ensures { result ≡ may_read instance.now self.now.phase self.now pool.0 }
    {
        let within = (pool.0 as usize) < instance.pools();
        match self.phase {
            Phase::Idle => within,
            Phase::Working(at) => {
                within && search::is_asked(instance, at, pool) && !has_pool(&self.made, pool)
            }
            _ => false,
        }
    }

    /// Reads the word of a pool.
    pub fn read(&mut self, instance: &Instance, pool: PoolId, word: u32)
        requires sizes { HasSizes instance.now self.old }
        requires may { may_read instance.now self.old.phase self.old pool.0 ≡ true }
        requires working { (P : PoolId) → self.old.phase ≡ at.Working P
            → P.0 < length instance.now.pools }
        ensures { self.new ≡ actor_after_read instance.now self.old.phase self.old pool.0 word }
    {
        let place = pool.0 as usize;
        self.known[place] = word;
        if let Phase::Working(at) = self.phase {
            self.reads[place] = word;
            self.made[place] = true;
            self.phase = search::phase_after_read(instance, at, &self.reads, &self.made);
        }
    }

    pub fn may_draw(&self, x: u32) -> bool
        ensures { result ≡ may_draw self.now.phase x }
    {
        match self.phase {
            Phase::Ready(_, limit) => limit == x,
            _ => false,
        }
    }

    /// Puts the raise that is ready into the log, with its ticket.
    pub fn draw(&mut self, ticket: u64) -> Result<(), AllocError>
        ensures drawn { IfOk result
            (λ _. self.new ≡ actor_after_draw self.old.phase self.old ticket) }
        ensures refused { OnErr result (self.new ≡ self.old) }
    {
        if let Phase::Ready(pool, limit) = self.phase {
            self.log.push(Logged {
                ticket,
                pool,
                limit,
            })?;
            self.phase = Phase::Drawn(pool, limit);
        }
        Ok(())
    }

    /// Owes marks for a raise of a pool to x, where its word rose.
    pub fn raise(&mut self, instance: &Instance, pool: PoolId, x: u32, word: u32)
        requires sizes { HasSizes instance.now self.old }
        requires within { pool.0 < length instance.now.pools }
        ensures { self.new ≡ actor_after_raise instance.now pool x self.old word }
    {
        self.known[pool.0 as usize] = word.max(x);
        flag_fed(instance, pool, &mut self.owed);
        self.phase = if word < x && has_any(&self.owed) {
            Phase::Owing(pool)
        } else {
            Phase::Idle
        };
    }

    pub fn may_mark(&self, pool: PoolId) -> bool
        ensures { result ≡ still_owes self.now.phase self.now.owed pool.0 }
    {
        match self.phase {
            Phase::Owing(_) => has_pool(&self.owed, pool),
            _ => false,
        }
    }

    /// Has marked a pool.
    pub fn mark(&mut self, instance: &Instance, pool: PoolId)
        requires sizes { HasSizes instance.now self.old }
        requires may { still_owes self.old.phase self.old.owed pool.0 ≡ true }
        ensures { self.new ≡ actor_after_mark self.old pool.0 }
    {
        let place = pool.0 as usize;
        self.owed[place] = false;
        self.left[place] = true;
        if !has_any(&self.owed) {
            self.phase = Phase::Idle;
        }
    }
}

// So many idle actors, which know every word as 0 and have every pool left to scan.
#[tactic(auto, using(crate::proofs::Opening::replicate_more))]
pub fn idle_workers(alloc: Global, pools: usize, actors: u32) -> Result<Vec<Worker>, AllocError>
    ensures { IfOk result (λ v. v.items ≡ replicate actors (unread_actor pools)) }
{
    let mut workers = Vec::with_capacity(alloc, actors as usize)?;
    for _ in 0..actors {
        workers.push(Worker::idle(alloc, pools)?)?;
    }
    Ok(workers)
}
