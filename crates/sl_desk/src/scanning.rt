// Which pool comes next.
ghost use Rattle.std.specs.Prelude.{◌≡◌, ◌+◌, ◌<◌, ◌≤◌, length};
ghost use Rattle.std.specs.Option.{IfNone, IfSome};
ghost use Rattle.sl_floor.specs.Floor.{HasNoneLeft};
ghost use Rattle.sl_desk.specs.Settling.{IsLeft};
ghost use Rattle.sl_desk.specs.Scanning.{IsNext, number_after};

use sl_floor::Seat;
use sl_types::PoolId;

// The next pool left to scan from a cursor on, and past the last pool from the first one on.
#[tactic(auto, using(crate::proofs::Scans::none_from_first, crate::proofs::Scans::next_round))]
pub fn next_left(seat: &Seat, cursor: u32) -> Option<PoolId>
    ensures none { IfNone result (HasNoneLeft seat.now) }
    ensures left { IfSome result (λ P. IsLeft seat.now P.0) }
    ensures within { IfSome result (λ P. P.0 < length seat.now.view.market.pools) }
    ensures next { IfSome result (λ P. IsNext seat.now cursor P.0) }
{
    match seat.next_left(PoolId(cursor)) {
        Some(pool) => Some(pool),
        None => seat.next_left(PoolId(0)),
    }
}

// The pool after one, and after the last the first.
pub fn number_after(pools: u32, pool: PoolId) -> u32
    requires { pool.0 < pools }
    ensures value { result ≡ number_after pools pool.0 }
    ensures within { result ≤ pools }
{
    if pool.0 + 1 < pools { pool.0 + 1 } else { 0 }
}
