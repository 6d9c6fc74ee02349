ghost use Rattle.std.specs.Prelude.{◌≡◌, ◌<◌, ◌≤◌, ◌↔◌, IsTrue, All, length, position, slice_get, slice_index};
ghost use Rattle.std.specs.List.{list_any};
ghost use Rattle.sl_types.specs.Market.{list_of};
ghost use Rattle.sl_laws.specs.Limits.{effective_limit, is_eligible, admitted_choice, demand, capped_demand};
ghost use Rattle.sl_laws.specs.Outcome.{admitted_place};
ghost use Rattle.sl_laws.specs.Stable.{IsJustified, IsSettled, is_choice_in, leads, feeds};

use crate::replaced;
use sl_types::{AppId, Entry, Instance, PoolId, Rule};

/// The effective limit of a pool, in points: the greatest number of `limits` over the pool and the pools
/// round it. `limits` has a number for each pool, in points.
#[tactic(auto, using(crate::proofs::Slices::own_number))]
pub fn plain_eff(instance: &Instance, limits: &[u32], pool: PoolId) -> u32
    requires sizes { length limits.now ≡ length instance.now.pools }
    requires within { pool.0 < length instance.now.pools }
    ensures { result ≡ effective_limit instance.now (slice_index limits.now) pool.0 }
{
    let own = limits[pool.0 as usize];
    replaced::effective_at(instance, limits, pool, own, pool)
}

fn is_eligible(instance: &Instance, limits: &[u32], choice: Entry) -> bool
    requires sizes { length limits.now ≡ length instance.now.pools }
    requires within { choice.prog.0 < length instance.now.progs }
    ensures { result ≡ is_eligible instance.now (slice_index limits.now) choice }
{
    plain_eff(instance, limits, instance.pool_of(choice.prog)) <= choice.score
}

fn first_eligible(instance: &Instance, limits: &[u32], choices: &[Entry]) -> Option<usize>
    requires sizes { length limits.now ≡ length instance.now.pools }
    requires within { All (λ e. e.prog.0 < length instance.now.progs) choices.now }
    ensures { result ≡ position (is_eligible instance.now (slice_index limits.now)) choices.now }
{
    choices
        .iter()
        .position(|choice| is_eligible(instance, limits, *choice))
}

/// The admitted choice of an applicant: the index in their list of the first choice whose score is at
/// least the effective limit of its pool, or the list's length where there is none.
#[tactic(auto, using(crate::proofs::Choices::admit_steps))]
pub fn plain_admit(instance: &Instance, limits: &[u32], app: AppId) -> usize
    requires sizes { length limits.now ≡ length instance.now.pools }
    requires within { app.0 < length instance.now.lists }
    ensures index { result ≡ admitted_place instance.now (slice_index limits.now) app.0 }
    ensures choice { let choices = list_of instance.now app.0 in
        slice_get choices result ≡ admitted_choice instance.now (slice_index limits.now) choices }
{
    let choices = instance.list(app);
    first_eligible(instance, limits, choices).unwrap_or(choices.len())
}

/// The demand for a score pool at the limit `y`, in applicants: how many would be admitted in it with its
/// own number `y`, in points.
pub fn plain_count(instance: &Instance, limits: &[u32], pool: PoolId, y: u32) -> u32
    requires sizes { length limits.now ≡ length instance.now.pools }
    ensures { result ≡ demand instance.now (slice_index limits.now) pool.0 y }
{
    replaced::demand(instance, limits, pool, y)
}

/// The capped demand for a merit pool at the limit `x`, in applicants: those of merit at least `x`, in
/// points, who are admitted in it, where each pool directly inside counts for its quota at most. The
/// common quotas of nested pools are those of Biró and others (2010).
#[tactic(auto, using(crate::proofs::Slices::own_number))]
pub fn plain_weight(instance: &Instance, limits: &[u32], pool: PoolId, x: u32) -> u32
    requires sizes { length limits.now ≡ length instance.now.pools }
    requires within { pool.0 < length instance.now.pools }
    ensures { result ≡ capped_demand instance.now (slice_index limits.now) pool.0 x }
{
    let own = limits[pool.0 as usize];
    replaced::capped_demand(instance, limits, pool, own, x)
}

/// Whether a raise of a pool to `x`, in points, is justified. By H the demand one point below `x` is above
/// the quota; by L it is also at least the quota at `x` (score limits after Biró and Kiselgof); by `Merit`
/// the capped demand at `x` is at least the quota, where the pool's own number counts as 0.
#[tactic(auto, using(crate::proofs::Best::justified_tests))]
pub fn plain_justified(instance: &Instance, limits: &[u32], pool: PoolId, x: u32) -> bool
    requires sizes { length limits.now ≡ length instance.now.pools }
    requires within { pool.0 < length instance.now.pools }
    requires some { 1 ≤ x }
    ensures { IsTrue result ↔ IsJustified instance.now (slice_index limits.now) pool.0 x }
{
    let quota = instance.pool(pool).quota;
    match instance.pool(pool).rule {
        Rule::H => replaced::demand(instance, limits, pool, x - 1) > quota,
        Rule::L => {
            replaced::demand(instance, limits, pool, x - 1) > quota
                && replaced::demand(instance, limits, pool, x) >= quota
        }
        Rule::Merit => replaced::capped_demand(instance, limits, pool, 0, x) >= quota,
    }
}

/// Whether a pool is settled: a raise to one point above its effective limit isn't justified.
#[tactic(auto, using(crate::proofs::Top::settled_high))]
pub fn plain_settled(instance: &Instance, limits: &[u32], pool: PoolId) -> bool
    requires sizes { length limits.now ≡ length instance.now.pools }
    requires within { pool.0 < length instance.now.pools }
    ensures { IsTrue result ↔ IsSettled instance.now (slice_index limits.now) pool.0 }
{
    let _pools = instance.pools();
    match plain_eff(instance, limits, pool).checked_add(1) {
        Some(above) => !plain_justified(instance, limits, pool, above),
        // No raise is justified above one point more than the greatest score.
        None => true,
    }
}

fn is_choice_in(instance: &Instance, choice: Entry, pool: PoolId) -> bool
    requires { choice.prog.0 < length instance.now.progs }
    ensures { result ≡ is_choice_in instance.now pool.0 choice }
{
    replaced::lies_inside(instance, instance.pool_of(choice.prog), pool)
}

fn has_choice_in(instance: &Instance, choices: &[Entry], pool: PoolId) -> bool
    requires { All (λ e. e.prog.0 < length instance.now.progs) choices.now }
    ensures { result ≡ list_any (is_choice_in instance.now pool.0) choices.now }
{
    choices
        .iter()
        .any(|choice| is_choice_in(instance, *choice, pool))
}

// Whether a list has a choice in `from`, and that or a later one in `to`.
fn leads(instance: &Instance, choices: &[Entry], from: PoolId, to: PoolId) -> bool
    requires { All (λ e. e.prog.0 < length instance.now.progs) choices.now }
    ensures { result ≡ leads instance.now from.0 to.0 choices.now }
{
    let mut rest = choices;
    while let [first, after @ ..] = rest {
        if is_choice_in(instance, *first, from) && has_choice_in(instance, rest, to) {
            return true;
        }
        rest = after;
    }
    false
}

/// Whether a pool feeds another: they are two, and some applicant has a choice in the first, and that
/// choice or a later one in the second. A choice is in its programme's pool and in each pool round it.
pub fn plain_feeds(instance: &Instance, from: PoolId, to: PoolId) -> bool
    ensures { result ≡ feeds instance.now from.0 to.0 }
{
    if from.0 == to.0 {
        return false;
    }
    for app in 0..instance.applicants() {
        if leads(instance, instance.list(AppId(app as u32)), from, to) {
            return true;
        }
    }
    false
}
