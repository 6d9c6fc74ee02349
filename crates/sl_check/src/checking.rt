ghost use Rattle.std.specs.Prelude.{◌≡◌, ◌<◌, ◌^◌, [], length, slice_index, All, MatchOption, IfOk, Ok};
ghost use Rattle.sl_laws.specs.Stable.{IsLeastStable};
ghost use Rattle.sl_contend.specs.Contention.{contention_of};
ghost use Rattle.sl_contend.specs.Rule.{CoversAll};
ghost use Rattle.sl_proof.specs.Progress.{HasReplayed};
ghost use Rattle.sl_check.specs.Verdict.{IsFirstUnjust, IsVerdict};
ghost use Rattle.sl_check.specs.declared.verdict.Verdict.TheVariants.{Yes};

use crate::{Verdict, lowest};
use sl_contend::{Contenders, RaiseRule};
use sl_proof::Replay;
use sl_types::{Instance, OutOfMemory, Raise};
use std::alloc::Global;

// Adds each raise. Tells the number, counted from 1, of the first that doesn't replay.
fn first_unjust<R: RaiseRule>(rule: &R, replay: &mut Replay, raises: &[Raise]) -> Option<u32>
    requires begun { HasReplayed replay.old [] }
    requires covered { CoversAll R.covers rule.now replay.old.instance }
    requires within { All (λ r. r.pool.0 < length replay.old.instance.pools) raises.now }
    requires few { length raises.now < 2 ^ 32 }
    ensures first { MatchOption result (HasReplayed replay.new raises.now)
        (IsFirstUnjust replay.old.instance raises.now) }
    ensures instance { replay.new.instance ≡ replay.old.instance }
{
    for (index, raise) in raises.iter().enumerate() {
        if replay.add(rule, *raise).is_err() {
            return Some(index as u32 + 1);
        }
    }
    None
}

/// The verdict on a published outcome: its first fault, or Yes. `raises` are the raises in order, from zeros
/// on; `limits` has each pool's limit, in points; `admitted` has for each applicant the index of the admitted
/// choice, or the length of their list; `counts` has how many each pool admits. The rule covers every pool,
/// and the contenders were made for the instance. That a list of raises is a certificate of limits is this
/// project's own.
pub fn check<R: RaiseRule>(
    alloc: Global,
    rule: &R,
    instance: &Instance,
    contenders: &Contenders,
    raises: &[Raise],
    limits: &[u32],
    admitted: &[u32],
    counts: &[u32],
) -> Result<Verdict, OutOfMemory>
    requires covered { CoversAll R.covers rule.now instance.now }
    requires contenders { contenders.now ≡ contention_of instance.now }
    requires within { All (λ r. r.pool.0 < length instance.now.pools) raises.now }
    requires few { length raises.now < 2 ^ 32 }
    requires each_limit { length limits.now ≡ length instance.now.pools }
    requires each_admission { length admitted.now ≡ length instance.now.lists }
    requires each_count { length counts.now ≡ length instance.now.pools }
    ensures verdict { IfOk result
        (IsVerdict instance.now raises.now limits.now admitted.now counts.now) }
    ensures least { result ≡ Ok Yes → IsLeastStable instance.now (slice_index limits.now) }
{
    let _pools = instance.pools();
    let mut replay = Replay::new(alloc, instance, contenders)?;
    if let Some(number) = first_unjust(rule, &mut replay, raises) {
        return Ok(Verdict::RaiseUnjust(number));
    }
    if let Some(pool) = lowest::unsettled(rule, instance, &mut replay) {
        return Ok(Verdict::Unsettled(pool));
    }
    if let Some(pool) = lowest::wrong_limit(instance, replay.limits(), limits) {
        return Ok(Verdict::LimitWrong(pool));
    }
    if let Some(app) = lowest::wrong_admission(instance, limits, admitted) {
        return Ok(Verdict::AdmissionWrong(app));
    }
    let miscounted = lowest::wrong_count(alloc, instance, admitted, counts)?;
    if let Some(pool) = miscounted {
        return Ok(Verdict::CountWrong(pool));
    }
    Ok(Verdict::Yes)
}
