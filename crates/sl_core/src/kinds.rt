ghost use Rattle.std.specs.Prelude.{◌≡◌};
ghost use Rattle.sl_core.specs.declared.kinds.StepError.TheVariants as step_error;

use sl_types::{OutOfMemory, PoolId};

/// What an actor of the clearing machine has in hand. Limits are in points. The machine is this project's own.
#[derive(Clone, Copy, Debug, PartialEq, Eq, Hash)]
pub enum Phase {
    /// Nothing. It may claim a pool that it has left to scan, and read any word.
    Idle,
    /// It has claimed the pool, with some reads made: of the pool and of the pools that feed it, each once.
    Working(PoolId),
    /// All reads are made. The limit is the greatest justified raise of the pool at the reads, and it is above the
    /// pool's effective limit at the reads.
    Ready(PoolId, u32),
    /// It holds a ticket, and the raise of the pool to the limit is in its log.
    Drawn(PoolId, u32),
    /// The pool's word rose, and some pools that it feeds aren't marked yet.
    Owing(PoolId),
}

/// What an actor does in one step.
#[derive(Clone, Copy, Debug, PartialEq, Eq, Hash)]
pub enum EventKind {
    /// Takes the pool out of those that the actor has left to scan and puts its flag down. Where the flag was up, the
    /// actor works on the pool.
    Claim(PoolId),
    /// Reads the word of the pool.
    Read(PoolId),
    /// Puts the raise that is ready, to this limit in points, into the actor's log with the next ticket.
    Draw(u32),
    /// Makes the word of the pool in hand the greater of itself and the raise that was drawn.
    Raise,
    /// Puts up the flag of the pool, which is owed a mark, and adds it to those that the actor has left to scan.
    Mark(PoolId),
}

/// One step of one actor.
#[derive(Clone, Copy, Debug, PartialEq, Eq, Hash)]
pub struct Event {
    /// The number of the actor, counted from 0.
    pub actor: u32,
    pub kind: EventKind,
}

/// Why a step was refused. After both the machine is unchanged.
#[derive(Clone, Copy, Debug, PartialEq, Eq, Hash)]
pub enum StepError {
    /// The machine has no such step from this state.
    NotNow,
    /// Memory ran out.
    OutOfMemory,
}

impl From<OutOfMemory> for StepError {
    ghost from_gives = { λ _ e. e ≡ step_error.OutOfMemory };

    fn from(_refusal: OutOfMemory) -> StepError {
        StepError::OutOfMemory
    }
}
