// Seats that are split and joined.
ghost use Rattle.std.specs.Prelude.{◌≡◌, ◌<◌, ◌≤◌, [], length};
ghost use Rattle.atomic_table.specs.Table.{Splits};
ghost use Rattle.sl_floor.specs.Rule.{IsFloored};
ghost use Rattle.sl_floor.specs.Floor.{stay_view, go_view, both_view, IsOf, IsIdle, KnowsMore};

use crate::blank::Blank;
use crate::floor::Floor;
use crate::merging::{copy_of, greater_of};
use crate::rule::{BareHalves, Cleared, Halves, Together};
use crate::seat::Seat;
use crate::shares::{FIRST_ALLOWANCE, WHOLE_SHARE};
use crate::view::{About, View};
use atomic_table::Table;
use sl_types::PoolId;
use std::alloc::Global;
use std::mem::swap;

// Splits the token of a seat.
fn split_token(
    table: &Table<(), View, About, Cleared, Global>,
    token: &mut atomic_table::Seat<(), View>,
    bare: bool,
) -> atomic_table::Seat<(), View>
    requires table { token.old.table_id ≡ table.now.shared.table_id }
    requires words { 0 < table.now.shared.table_id.words }
    requires splits { Splits (IsFloored table.now.shared.key.instance.value
        table.now.shared.key.kept.value.items) token.old.id token.old.me.0
        (stay_view token.old.me.0) (go_view bare token.old.me.0) }
    ensures table { token.new.table_id ≡ token.old.table_id }
    ensures other_table { result.table_id ≡ token.old.table_id }
    ensures id { token.new.id ≡ token.old.id }
    ensures stays { token.new.me.0 ≡ stay_view token.old.me.0 }
    ensures slots { token.new.me.1 ≡ token.old.me.1 }
    ensures goes { (result.me.0 ≡ go_view bare token.old.me.0) × (result.me.1 ≡ []) }
{
    if bare {
        table.shared.split_seat::<BareHalves>(token)
    } else {
        table.shared.split_seat::<Halves>(token)
    }
}

impl Floor {
    /// Splits an idle seat: the new one takes half of its share and of its allowance, rounded down, knows what
    /// it knows, and has the same pools left to scan, or none where it is bare. Its log is empty. One load.
    pub fn split(&self, seat: &mut Seat, blank: Blank, bare: bool) -> Seat
        requires seat { IsOf self.now seat.old }
        requires idle { IsIdle seat.old }
        requires share { 2 ≤ seat.old.view.share }
        requires blank { blank.pools ≡ length self.now.market.pools }
        ensures seat { seat.new ≡ record seat.old { view = stay_view seat.old.view } }
        ensures table { result.table ≡ seat.old.table }
        ensures view { result.view ≡ go_view bare seat.old.view }
        ensures log { (result.log ≡ []) × (result.room ≡ blank.room) }
    {
        let Blank {
            known,
            mut left,
            log,
            room,
        } = blank;
        let known = copy_of(known, &seat.known);
        left.copy_from(&seat.left, bare);
        let token = split_token(&self.table, &mut seat.token, bare);
        let share = seat.share / 2;
        let allowance = seat.allowance / 2;
        seat.share -= share;
        seat.allowance -= allowance;
        Seat {
            token,
            known,
            left,
            log,
            room,
            share,
            allowance,
            pool: PoolId(0),
            limit: 0,
        }
    }

    /// Joins another idle seat into one: it takes the shares, the allowances, the pools left to scan and, for
    /// contracts, the whole logs of both, and knows the greater of what each knew. The log in memory of the
    /// other is empty. The answer is the other's memory. One load.
    pub fn join(&self, into: &mut Seat, other: Seat) -> Blank
        requires into { IsOf self.now into.old }
        requires other { IsOf self.now other }
        requires idle { IsIdle into.old }
        requires other_idle { IsIdle other }
        requires log { other.log ≡ [] }
        ensures into { into.new ≡ record into.old { view = both_view into.old.view other.view } }
        ensures rises { KnowsMore into.old into.new }
        ensures gathers { KnowsMore other into.new }
        ensures blank { (result.pools ≡ length self.now.market.pools) × (result.room ≡ other.room) }
    {
        let Seat {
            token,
            mut known,
            mut left,
            log,
            room,
            share,
            allowance,
            pool: _,
            limit: _,
        } = other;
        greater_of(&mut known, &into.known);
        left.unite(&into.left);
        let shared = &self.table.shared;
        shared.join_seat::<Together>(&mut into.token, token);
        let shares: u32 = into.share + share;
        let allowances: u64 = into.allowance + allowance;
        into.share = shares.min(WHOLE_SHARE);
        into.allowance = allowances.min(FIRST_ALLOWANCE);
        swap(&mut into.known, &mut known);
        swap(&mut into.left, &mut left);
        Blank {
            known,
            left,
            log,
            room,
        }
    }
}
