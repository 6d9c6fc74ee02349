// The lowest pool or applicant of each kind of fault.
ghost use Rattle.std.specs.Prelude.{◌≡◌, length, slice_index, IfOk};
ghost use Rattle.sl_laws.specs.Stable.{IsSettled};
ghost use Rattle.sl_contend.specs.Rule.{CoversAll};
ghost use Rattle.sl_check.specs.Verdict.{IsLowestPool, IsLowestApplicant, IsLowestMiscount, IsLimit, IsAdmission};

use sl_contend::RaiseRule;
use sl_laws::{plain_admit, plain_eff};
use sl_proof::Replay;
use sl_types::{AppId, Instance, OutOfMemory, PoolId};
use std::alloc::Global;

/// The lowest pool that isn't settled at what a replay reaches.
pub fn unsettled<R: RaiseRule>(rule: &R, instance: &Instance, replay: &mut Replay) -> Option<PoolId>
    requires instance { replay.old.instance ≡ instance.now }
    requires covered { CoversAll R.covers rule.now instance.now }
    ensures lowest { let settled = IsSettled instance.now (slice_index replay.old.limits) in
        IsLowestPool instance.now settled result }
    ensures same { replay.new ≡ replay.old }
{
    for number in 0..instance.pools() {
        let pool = PoolId(number as u32);
        if !replay.settled(rule, pool) {
            return Some(pool);
        }
    }
    None
}

/// The lowest pool whose limit isn't its effective limit at `reached`.
pub fn wrong_limit(instance: &Instance, reached: &[u32], limits: &[u32]) -> Option<PoolId>
    requires sizes { length reached.now ≡ length instance.now.pools }
    requires each { length limits.now ≡ length instance.now.pools }
    ensures { let is_right = IsLimit instance.now (slice_index reached.now) limits.now in
        IsLowestPool instance.now is_right result }
{
    for number in 0..instance.pools() {
        let pool = PoolId(number as u32);
        if limits[number] != plain_eff(instance, reached, pool) {
            return Some(pool);
        }
    }
    None
}

/// The lowest applicant whose index isn't that of the admitted choice.
#[tactic(auto, using(crate::proofs::Whole::admitted_index_at))]
pub fn wrong_admission(instance: &Instance, limits: &[u32], admitted: &[u32]) -> Option<AppId>
    requires sizes { length limits.now ≡ length instance.now.pools }
    requires each { length admitted.now ≡ length instance.now.lists }
    ensures { let is_right = IsAdmission instance.now (slice_index limits.now) admitted.now in
        IsLowestApplicant instance.now is_right result }
{
    for number in 0..instance.applicants() {
        let app = AppId(number as u32);
        if admitted[number] as usize != plain_admit(instance, limits, app) {
            return Some(app);
        }
    }
    None
}

/// The lowest pool whose count isn't that of the admissions.
pub fn wrong_count(
    alloc: Global,
    instance: &Instance,
    admitted: &[u32],
    counts: &[u32],
) -> Result<Option<PoolId>, OutOfMemory>
    requires admissions { length admitted.now ≡ length instance.now.lists }
    requires each { length counts.now ≡ length instance.now.pools }
    ensures { IfOk result (IsLowestMiscount instance.now admitted.now counts.now) }
{
    let made = sl_admit::counts(alloc, instance, admitted)?;
    for number in 0..instance.pools() {
        if counts[number] != made[number] {
            return Ok(Some(PoolId(number as u32)));
        }
    }
    Ok(None)
}
