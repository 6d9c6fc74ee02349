// What the numbers of a slice do once the number of one pool, `pool`, is replaced by `limit`. The slice
// isn't copied.
ghost use Rattle.std.specs.Prelude.{◌≡◌, ◌<◌, ◌≤◌, length, slice_index, IfSome};
ghost use Rattle.sl_types.specs.Market.{lies_in, list_of, pool_of, is_parent, parent_of};
ghost use Rattle.sl_laws.specs.Limits.{limits_with, effective_limit, is_eligible, is_admitted_in, is_admitted_directly, admitted_directly, admitted_choice, demand, demand_within, capped_demand};

use sl_types::{AppId, Entry, Instance, MAX_DEPTH, PoolId};

fn limit_at(limits: &[u32], pool: PoolId, limit: u32, here: PoolId) -> u32
    requires { here.0 < length limits.now }
    ensures { result ≡ limits_with limits.now pool.0 limit here.0 }
{
    if here.0 == pool.0 {
        limit
    } else {
        limits[here.0 as usize]
    }
}

/// The effective limit of the pool `at`, in points, once the number of `pool` is replaced by `limit`.
/// `limits` has a number for each pool, in points.
pub fn effective_at(
    instance: &Instance,
    limits: &[u32],
    pool: PoolId,
    limit: u32,
    at: PoolId,
) -> u32
    requires sizes { length limits.now ≡ length instance.now.pools }
    requires within { at.0 < length instance.now.pools }
    ensures { result ≡ effective_limit instance.now (limits_with limits.now pool.0 limit) at.0 }
{
    let mut greatest = 0;
    for here in instance.outward(at) {
        let number = limit_at(limits, pool, limit, here);
        greatest = greatest.max(number);
    }
    greatest
}

// Whether a pool is another, or lies inside it.
pub fn lies_inside(instance: &Instance, inner: PoolId, outer: PoolId) -> bool
    requires { inner.0 < length instance.now.pools }
    ensures { result ≡ lies_in instance.now inner.0 outer.0 }
{
    instance.outward(inner).any(|here| here.0 == outer.0)
}

fn is_eligible(instance: &Instance, limits: &[u32], pool: PoolId, limit: u32, choice: Entry) -> bool
    requires sizes { length limits.now ≡ length instance.now.pools }
    requires within { choice.prog.0 < length instance.now.progs }
    ensures { result ≡ is_eligible instance.now (limits_with limits.now pool.0 limit) choice }
{
    let smallest = instance.pool_of(choice.prog);
    effective_at(instance, limits, pool, limit, smallest) <= choice.score
}

// The first eligible choice of an applicant.
#[tactic(auto, using(crate::proofs::Steps::found_in))]
fn admitted_choice(
    instance: &Instance,
    limits: &[u32],
    pool: PoolId,
    limit: u32,
    app: AppId,
) -> Option<Entry>
    requires sizes { length limits.now ≡ length instance.now.pools }
    requires within { app.0 < length instance.now.lists }
    ensures choice { let t = limits_with limits.now pool.0 limit in
        result ≡ admitted_choice instance.now t (list_of instance.now app.0) }
    ensures inside { IfSome result (λ e. e.prog.0 < length instance.now.progs) }
{
    instance.list(app).iter().copied().find(|choice| is_eligible(
        instance, limits, pool, limit, *choice,
    ))
}

// Whether an applicant is admitted in `outer` or inside it.
fn is_admitted_in(
    instance: &Instance,
    limits: &[u32],
    pool: PoolId,
    limit: u32,
    app: AppId,
    outer: PoolId,
) -> bool
    requires sizes { length limits.now ≡ length instance.now.pools }
    requires within { app.0 < length instance.now.lists }
    ensures { let t = limits_with limits.now pool.0 limit in
        result ≡ is_admitted_in instance.now t outer.0 (list_of instance.now app.0) }
{
    match admitted_choice(instance, limits, pool, limit, app) {
        Some(choice) => lies_inside(instance, instance.pool_of(choice.prog), outer),
        None => false,
    }
}

// The demand for a score pool.
#[tactic(auto, using(crate::proofs::Steps::count_steps))]
pub fn demand(instance: &Instance, limits: &[u32], pool: PoolId, limit: u32) -> u32
    requires sizes { length limits.now ≡ length instance.now.pools }
    ensures { result ≡ demand instance.now (slice_index limits.now) pool.0 limit }
{
    let mut count = 0;
    for app in 0..instance.applicants() {
        if is_admitted_in(instance, limits, pool, limit, AppId(app as u32), pool) {
            count += 1;
        }
    }
    count
}

// Whether an applicant is admitted directly in `at` with a merit of at least `x`.
fn is_admitted_directly(
    instance: &Instance,
    limits: &[u32],
    pool: PoolId,
    limit: u32,
    x: u32,
    app: AppId,
    at: PoolId,
) -> bool
    requires sizes { length limits.now ≡ length instance.now.pools }
    requires within { app.0 < length instance.now.lists }
    ensures { let t = limits_with limits.now pool.0 limit in
        result ≡ is_admitted_directly instance.now t at.0 x (list_of instance.now app.0) }
{
    match admitted_choice(instance, limits, pool, limit, app) {
        Some(choice) => instance.pool_of(choice.prog).0 == at.0 && x <= choice.score,
        None => false,
    }
}

#[tactic(auto, using(crate::proofs::Steps::count_steps))]
fn count_directly(
    instance: &Instance,
    limits: &[u32],
    pool: PoolId,
    limit: u32,
    x: u32,
    at: PoolId,
) -> usize
    requires sizes { length limits.now ≡ length instance.now.pools }
    ensures count { let t = limits_with limits.now pool.0 limit in
        result ≡ length (admitted_directly instance.now t at.0 x) }
    ensures few { result ≤ length instance.now.lists }
{
    let mut count = 0;
    for app in 0..instance.applicants() {
        if is_admitted_directly(instance, limits, pool, limit, x, AppId(app as u32), at) {
            count += 1;
        }
    }
    count
}

// Whether a pool lies directly inside another.
fn is_directly_inside(instance: &Instance, inner: PoolId, outer: PoolId) -> bool
    requires { inner.0 < length instance.now.pools }
    ensures { result ≡ is_parent outer.0 (parent_of instance.now inner.0) }
{
    match instance.pool(inner).parent {
        Some(parent) => parent.0 == outer.0,
        None => false,
    }
}

// The capped demand for `at`, counted over some levels of pools.
#[tactic(auto, using(crate::proofs::Steps::level_steps))]
fn demand_within(
    instance: &Instance,
    limits: &[u32],
    pool: PoolId,
    limit: u32,
    x: u32,
    levels: usize,
    at: PoolId,
) -> usize
    requires sizes { length limits.now ≡ length instance.now.pools }
    ensures { let t = limits_with limits.now pool.0 limit in
        result ≡ demand_within instance.now t x levels at.0 }
{
    let _applicants = instance.applicants();
    if levels == 0 {
        return 0;
    }
    let mut sum = count_directly(instance, limits, pool, limit, x, at);
    for number in 0..instance.pools() {
        let inner = PoolId(number as u32);
        if is_directly_inside(instance, inner, at) {
            let asked = demand_within(instance, limits, pool, limit, x, levels - 1, inner);
            sum += asked.min(instance.pool(inner).quota as usize);
        }
    }
    sum
}

// The capped demand for `pool`, whose own number is replaced.
#[tactic(auto, using(crate::proofs::Few::capped_steps))]
pub fn capped_demand(instance: &Instance, limits: &[u32], pool: PoolId, limit: u32, x: u32) -> u32
    requires sizes { length limits.now ≡ length instance.now.pools }
    ensures { result ≡ capped_demand instance.now (limits_with limits.now pool.0 limit) pool.0 x }
{
    let _applicants = instance.applicants();
    let _pools = instance.pools();
    demand_within(instance, limits, pool, limit, x, MAX_DEPTH, pool) as u32
}
