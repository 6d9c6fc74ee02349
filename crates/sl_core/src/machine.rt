ghost use Rattle.std.specs.Prelude.{◌≡◌, ◌<◌, ◌≤◌, ◌-◌, [], true, false, Err, length, IsTrue, IfOk, OnOk, OnErr, IsErrOf};
ghost use Rattle.std.specs.List.{list_all};
ghost use Rattle.sl_laws.specs.Limits.{Limits};
ghost use Rattle.sl_laws.specs.Stable.{IsStable, IsLeastStable};
ghost use Rattle.sl_core.specs.State.{Run, actor_at, start};
ghost use Rattle.sl_core.specs.Machine.{may_claim, after_claim, may_read, after_read, may_draw, after_draw, may_raise, after_raising, still_owes, after_mark, may_do, after_kind, may_come, Steps, is_quiet};
ghost use Rattle.sl_core.specs.Parts.{HasParts};
ghost use Rattle.sl_core.specs.Laws.{WordsAreAtMost, AreAtMost, EntriesProve, word_limits};

use crate::lists::has_pool;
use crate::worker::{Worker, idle_workers};
use crate::{Event, EventKind, Phase, StepError};
use sl_types::{Instance, OutOfMemory, PoolId};
use std::alloc::Global;
use std::marker::Model;

#[cfg(test)]
mod walk;

/// The clearing machine of an instance: actors that settle pools step by step, in whatever order their steps come.
/// Contracts see the instance and the state. Every machine has all parts of the rule that holds between two steps,
/// so whatever steps were made, no limit passes a stable one. The machine and its rule are this project's own.
#[derive(Drop)]
pub struct Machine<'a> {
    instance: &'a Instance,
    limits: Vec<u32>,
    flags: Vec<bool>,
    ticket: u64,
    workers: Vec<Worker>,
}

impl<'a> Model for Machine<'a> {
    ghost use Rattle.std.specs.Prelude.{[]};
    ghost use Rattle.sl_core.specs.State.{Run};
    ghost use Rattle.sl_core.specs.Parts.{HasParts};

    ghost Value = { Run };

    ghost view = { λ s. record {
      market = s.instance.now;
      state = record {
        limits = s.limits.items;
        flags = s.flags.items;
        ticket = s.ticket;
        actors = s.workers.items;
      };
    } };

    ghost invariant = { λ s. HasParts s.instance.now [] (record {
      limits = s.limits.items;
      flags = s.flags.items;
      ticket = s.ticket;
      actors = s.workers.items;
    }) };
}

impl<'a> Machine<'a> {
    /// The machine at its start, with 1 to 64 actors: each limit is 0, each flag up, the next ticket is 0, and each
    /// actor is idle with every pool left to scan.
    pub fn new(
        alloc: Global,
        instance: &'a Instance,
        actors: u32,
    ) -> Result<Machine<'a>, OutOfMemory>
        requires { (1 ≤ actors) × (actors ≤ 64) }
        ensures market { IfOk result (λ machine. machine.market ≡ instance.now) }
        ensures start { IfOk result
            (λ machine. machine.state ≡ start instance.now [] (actors - 1)) }
        ensures parts { IfOk result (λ machine. HasParts machine.market [] machine.state) }
    {
        let pools = instance.pools();
        Ok(Machine {
            instance,
            limits: vec![in alloc; 0; pools]?,
            flags: vec![in alloc; true; pools]?,
            ticket: 0,
            workers: idle_workers(alloc, pools, actors)?,
        })
    }

    // Whether the machine has a step of this kind for an actor.
    fn may_do(&self, at: usize, kind: EventKind) -> bool
        requires { at < length self.now.state.actors }
        ensures { result ≡ may_do self.now.market (actor_at self.now.state at) kind }
    {
        let worker = &self.workers[at];
        match kind {
            EventKind::Claim(pool) => worker.may_claim(pool),
            EventKind::Read(pool) => worker.may_read(self.instance, pool),
            EventKind::Draw(x) => worker.may_draw(x),
            EventKind::Raise => matches!(worker.phase(), Phase::Drawn(_, _)),
            EventKind::Mark(pool) => worker.may_mark(pool),
        }
    }

    fn claim(&mut self, at: usize, pool: PoolId)
        requires within { at < length self.old.state.actors }
        requires may { may_claim (actor_at self.old.state at) pool.0 ≡ true }
        ensures { self.new
            ≡ record self.old { state = after_claim self.old.market self.old.state at pool } }
    {
        let was_up = has_pool(&self.flags, pool);
        self.flags[pool.0 as usize] = false;
        self.workers[at].claim(self.instance, pool, was_up);
    }

    fn read(&mut self, at: usize, pool: PoolId)
        requires within { at < length self.old.state.actors }
        requires may { let a = actor_at self.old.state at in
            may_read self.old.market a.phase a pool.0 ≡ true }
        ensures { self.new
            ≡ record self.old { state = after_read self.old.market self.old.state at pool } }
    {
        // An instance is valid.
        let _pools = self.instance.pools();
        let word = self.limits[pool.0 as usize];
        self.workers[at].read(self.instance, pool, word);
    }

    fn mark(&mut self, at: usize, pool: PoolId)
        requires within { at < length self.old.state.actors }
        requires may { let a = actor_at self.old.state at in
            still_owes a.phase a.owed pool.0 ≡ true }
        ensures { self.new ≡ record self.old { state = after_mark self.old.state at pool } }
    {
        self.flags[pool.0 as usize] = true;
        self.workers[at].mark(self.instance, pool);
    }

    fn raise(&mut self, at: usize)
        requires within { at < length self.old.state.actors }
        requires may { may_raise (actor_at self.old.state at).phase ≡ true }
        ensures { self.new
            ≡ record self.old { state = after_raising self.old.market self.old.state at } }
    {
        // An instance is valid.
        let _pools = self.instance.pools();
        if let Phase::Drawn(pool, x) = self.workers[at].phase() {
            let word = self.limits[pool.0 as usize];
            self.limits[pool.0 as usize] = word.max(x);
            self.workers[at].raise(self.instance, pool, x, word);
        }
    }

    fn draw(&mut self, at: usize, x: u32) -> Result<(), OutOfMemory>
        requires within { at < length self.old.state.actors }
        requires may { may_draw (actor_at self.old.state at).phase x ≡ true }
        ensures drawn { OnOk result (self.new
            ≡ record self.old { state = after_draw self.old.state at }) }
        ensures unchanged { OnErr result (self.new ≡ self.old) }
    {
        // An instance is valid.
        let _pools = self.instance.pools();
        // So many tickets would need more memory than there is.
        let Some(next) = self.ticket.checked_add(1) else {
            return Err(OutOfMemory);
        };
        self.workers[at].draw(self.ticket)?;
        self.ticket = next;
        Ok(())
    }

    // Does a step of a kind that the machine has for an actor. Where memory runs out nothing changes.
    fn act(&mut self, at: usize, kind: EventKind) -> Result<(), OutOfMemory>
        requires within { at < length self.old.state.actors }
        requires may { may_do self.old.market (actor_at self.old.state at) kind ≡ true }
        ensures acted { OnOk result (self.new
            ≡ record self.old { state = after_kind self.old.market self.old.state at kind }) }
        ensures unchanged { OnErr result (self.new ≡ self.old) }
    {
        match kind {
            EventKind::Claim(pool) => self.claim(at, pool),
            EventKind::Read(pool) => self.read(at, pool),
            EventKind::Draw(x) => return self.draw(at, x),
            EventKind::Raise => self.raise(at),
            EventKind::Mark(pool) => self.mark(at, pool),
        }
        Ok(())
    }

    // Whether the machine has a step.
    fn may_come(&self, event: Event) -> bool
        ensures { result ≡ may_come self.now.market self.now.state event }
    {
        let at = event.actor as usize;
        at < self.workers.len() && self.may_do(at, event.kind)
    }

    /// Does one step. `NotNow` comes exactly where the machine has no such step from this state, as for a number
    /// that is no actor's; want of memory is free. After both the machine is unchanged.
    pub fn step(&mut self, event: Event) -> Result<(), StepError>
        ensures steps { OnOk result (Steps self.old.market self.old.state event self.new.state) }
        ensures market { self.new.market ≡ self.old.market }
        ensures rise { OnOk result (WordsAreAtMost self.old.state self.new.state) }
        ensures not_now { IsErrOf result StepError.NotNow
            → may_come self.old.market self.old.state event ≡ false }
        ensures has_none { may_come self.old.market self.old.state event ≡ false
            → result ≡ Err StepError.NotNow }
        ensures unchanged { OnErr result (self.new ≡ self.old) }
        ensures parts { HasParts self.new.market [] self.new.state }
    {
        // An instance is valid.
        let _pools = self.instance.pools();
        if !self.may_come(event) {
            return Err(StepError::NotNow);
        }
        self.act(event.actor as usize, event.kind)?;
        Ok(())
    }

    fn is_quiet(&self) -> bool
        ensures { result ≡ list_all is_quiet self.now.state.actors }
    {
        self.workers.iter().all(|worker| worker.is_quiet())
    }

    /// Whether every actor is idle and none has a pool left to scan. Then the effective limits of the words are
    /// the least stable ones, and the log entries in order of ticket, without the void ones, prove them.
    pub fn quiet(&self) -> bool
        ensures quiet { result ≡ list_all is_quiet self.now.state.actors }
        ensures proves { IsTrue result → EntriesProve self.now.market self.now.state }
        ensures least { IsTrue result
            → IsLeastStable self.now.market (word_limits self.now.market self.now.state) }
        ensures parts { HasParts self.now.market [] self.now.state }
    {
        // An instance is valid.
        let _pools = self.instance.pools();
        self.is_quiet()
    }

    /// The limit words, in points, one for each pool. No word, known number or read is above a stable limit.
    pub fn limits(&self) -> &[u32]
        ensures limits { result.now ≡ self.now.state.limits }
        ensures low { (l : Limits) → IsStable self.now.market l → AreAtMost self.now.state l }
        ensures parts { HasParts self.now.market [] self.now.state }
    {
        // An instance is valid.
        let _pools = self.instance.pools();
        &self.limits
    }
}
