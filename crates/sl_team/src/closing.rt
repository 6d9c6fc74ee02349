// The end of a clearing: the floor is closed, and what was logged is merged.
ghost use Rattle.std.specs.Prelude.{◌≡◌, ◌++◌, All, length, slice_index, IfOk};
ghost use Rattle.sl_laws.specs.Stable.{IsLeastStable};
ghost use Rattle.sl_laws.specs.Raises.{Replays, Proves};
ghost use Rattle.sl_nesting.specs.Published.{ArePublished};
ghost use Rattle.sl_core.specs.State.{logged_from};
ghost use Rattle.sl_core.specs.Parts.{BeginsWith};
ghost use Rattle.sl_floor.specs.declared.shares.TheConstants.{WHOLE_SHARE};
ghost use Rattle.sl_floor.specs.Floor.{IsOf, IsIdle, HasNoneLeft};
ghost use Rattle.sl_floor.specs.Ending.{IsWholeLog, IsProved};
ghost use Rattle.sl_team.specs.Clearing.{IsReceiptOf, AreLoggedRaises, IsAtMost};
ghost use Rattle.sl_team.specs.Watching.{AreSeen};

use crate::seen::Seen;
use sl_floor::{Floor, Receipt, Seat};
use sl_nesting::published;
use sl_proof::merge;
use sl_types::{Instance, Logged, OutOfMemory, Raise};
use std::alloc::{AllocError, Global};
use std::marker::Model;

/// What a team found: the limit of each pool, in points; the raises that prove the limits, in order; what each
/// look of a reader saw; and the receipt of the floor.
#[derive(Drop)]
pub struct Cleared {
    pub limits: Vec<u32>,
    pub raises: Vec<Raise>,
    pub seen: Vec<Vec<u32>>,
    pub receipt: Receipt,
}

impl Model for Cleared {
    ghost use Rattle.std.specs.Prelude.{map};
    ghost use Rattle.sl_team.specs.Clearing.{ClearedValue};

    ghost Value = { ClearedValue };

    ghost view = { λ s. record {
      limits = s.limits.items;
      raises = s.raises.items;
      seen = map (λ look. look.items) s.seen.items;
      receipt = s.receipt;
    } };
}

// Closes a floor with its one seat: the last limit words, and the receipt.
fn close(
    alloc: Global,
    floor: Floor,
    seat: Seat,
    pools: usize,
) -> Result<(Vec<u32>, Receipt), AllocError>
    requires seat { IsOf floor seat }
    requires idle { IsIdle seat }
    requires whole { seat.view.share ≡ WHOLE_SHARE }
    requires pools { pools ≡ length floor.market.pools }
    ensures words { IfOk result (λ t. t.0.items ≡ t.1.words) }
    ensures each { IfOk result (λ t. length t.0.items ≡ pools) }
    ensures receipt { IfOk result (λ t. IsReceiptOf floor.market floor.kept t.1) }
    ensures log { IfOk result (λ t. t.1.log ≡ seat.view.actor.log) }
    ensures ordered { IfOk result (λ t. IsWholeLog t.1) }
    ensures proves { HasNoneLeft seat → IfOk result (λ t. IsProved t.1) }
{
    let mut words: Vec<u32> = vec![in alloc; 0; pools]?;
    let receipt = floor.close(seat, words.as_mut_slice());
    Ok((words, receipt))
}

// The effective limits of words.
fn published_limits(
    alloc: Global,
    instance: &Instance,
    words: &[u32],
) -> Result<Vec<u32>, AllocError>
    requires { length words.now ≡ length instance.now.pools }
    ensures each { IfOk result (λ v. length v.items ≡ length instance.now.pools) }
    ensures published { IfOk result
        (λ v. ArePublished instance.now (slice_index words.now) v.items) }
{
    let mut limits: Vec<u32> = vec![in alloc; 0; instance.pools()]?;
    published(instance, words, limits.as_mut_slice());
    Ok(limits)
}

// What a floor that has no pool left answers: it is closed, and what was logged is merged.
pub fn finish(
    alloc: Global,
    instance: &Instance,
    kept: &[Raise],
    floor: Floor,
    seat: Seat,
    gathered: Vec<Logged>,
    seen: Seen,
) -> Result<Cleared, OutOfMemory>
    requires floor { (floor.market ≡ instance.now) × (floor.kept ≡ kept.now) }
    requires kept { Replays instance.now kept.now }
    requires seat { IsOf floor seat }
    requires idle { IsIdle seat }
    requires whole { seat.view.share ≡ WHOLE_SHARE }
    requires quiet { HasNoneLeft seat }
    requires log { seat.view.actor.log ≡ logged_from 0 kept.now ++ gathered.items }
    requires seen { AreSeen instance.now seen }
    ensures least { IfOk result (λ c. IsLeastStable instance.now (slice_index c.limits)) }
    ensures proves { IfOk result (λ c. Proves instance.now c.raises (slice_index c.limits)) }
    ensures begins { IfOk result (λ c. BeginsWith kept.now c.raises) }
    ensures each { IfOk result (λ c. length c.limits ≡ length instance.now.pools) }
    ensures receipt { IfOk result (λ c. IsReceiptOf instance.now kept.now c.receipt) }
    ensures whole { IfOk result (λ c. IsWholeLog c.receipt) }
    ensures published { IfOk result
        (λ c. ArePublished instance.now (slice_index c.receipt.words) c.limits) }
    ensures logged { IfOk result (AreLoggedRaises instance.now) }
    ensures seen { IfOk result (λ c. c.seen ≡ seen) }
    ensures low { IfOk result (λ c. All (IsAtMost c.limits) c.seen) }
{
    let (words, receipt) = close(alloc, floor, seat, instance.pools())?;
    let limits = published_limits(alloc, instance, &words)?;
    let raises = merge(alloc, instance, kept, gathered)?;
    Ok(Cleared {
        limits,
        raises,
        seen: seen.looks,
        receipt,
    })
}
