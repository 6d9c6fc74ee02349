// The lists of who contends for each pool, and of which pools feed which.
ghost use Rattle.std.specs.Prelude.{◌≡◌, ◌<◌, ◌≤◌, All, length, nat_eq, OnOk, IfOk, vec_len};
ghost use Rattle.std.specs.List.{list_any};
ghost use Rattle.sl_types.specs.Market.{list_of, lies_in};
ghost use Rattle.sl_laws.specs.Stable.{is_choice_in, leads, feeds};
ghost use Rattle.sl_contend.specs.Contention.{contenders_of, is_lead, feeding, fed_by, number_of_app, number_of_pool, HoldEach};
ghost use Rattle.sl_contend.specs.Entering.{EntersPool, up_to_last};
ghost use Rattle.sl_contend.specs.Pieces.{HoldContenders, HoldFed, HoldFeeding};

use crate::entering;
use crate::filling::Filling;
use crate::rows::{Rows, row};
use sl_types::{AppId, Entry, Instance, MAX_LIST, PoolId};
use std::alloc::{AllocError, Global};

// The applicants of a range, each in every pool that they have a choice in.
pub fn contenders_among(
    alloc: Global,
    instance: &Instance,
    first: usize,
    end: usize,
) -> Result<Rows<AppId>, AllocError>
    requires order { first ≤ end }
    requires within { end ≤ length instance.now.lists }
    ensures { IfOk result (HoldContenders instance.now first end) }
{
    let _applicants = instance.applicants();
    let mut rows = entering::empty_rows(alloc, instance.pools())?;
    for number in first..end {
        let app = AppId(number as u32);
        entering::enter_choices(instance, &mut rows, instance.list(app), app)?;
    }
    entering::finish(alloc, &rows)
}

// For each pool the applicants who have a choice in it.
pub fn contenders(alloc: Global, instance: &Instance) -> Result<Rows<AppId>, AllocError>
    ensures { IfOk result (HoldEach number_of_app instance.now (contenders_of instance.now)) }
{
    contenders_among(alloc, instance, 0, instance.applicants())
}

// Whether a choice is in a pool.
fn is_choice_in(instance: &Instance, choice: Entry, pool: PoolId) -> bool
    requires { choice.prog.0 < length instance.now.progs }
    ensures { result ≡ is_choice_in instance.now pool.0 choice }
{
    instance
        .outward(instance.pool_of(choice.prog))
        .any(|here| here.0 == pool.0)
}

// The choices up to the last in a pool.
fn up_to_last<'a>(instance: &Instance, choices: &'a [Entry], pool: PoolId) -> &'a [Entry]
    requires within { All (λ e. e.prog.0 < length instance.now.progs) choices.now }
    requires few { length choices.now ≤ MAX_LIST }
    ensures choices { result.now ≡ up_to_last (is_choice_in instance.now pool.0) choices.now }
    ensures within { All (λ e. e.prog.0 < length instance.now.progs) result.now }
{
    let mut front = choices;
    while let [before @ .., last] = front {
        if is_choice_in(instance, *last, pool) {
            return front;
        }
        front = before;
    }
    front
}

// Enters a pool into each other pool that leads to it in some list.
fn enter_feeders(
    instance: &Instance,
    rows: &mut Filling<PoolId>,
    apps: &[AppId],
    pool: PoolId,
) -> Result<(), AllocError>
    requires sizes { vec_len rows.old.last ≡ length instance.now.pools }
    requires within { All (λ a. a.0 < length instance.now.lists) apps.now }
    ensures rows { OnOk result
        (EntersPool pool (λ Q. list_any (is_lead instance.now pool.0 Q) apps.now) rows.old rows.new) }
    ensures each { OnOk result (vec_len rows.new.last ≡ vec_len rows.old.last) }
{
    for app in apps {
        let leading = up_to_last(instance, instance.list(*app), pool);
        entering::enter_choices(instance, rows, leading, pool)?;
    }
    Ok(())
}

// The pools of a range, each in every other pool that feeds it.
pub fn fed_among(
    alloc: Global,
    instance: &Instance,
    of: &Rows<AppId>,
    first: usize,
    end: usize,
) -> Result<Rows<PoolId>, AllocError>
    requires of { HoldEach number_of_app instance.now (contenders_of instance.now) of.now }
    requires order { first ≤ end }
    requires within { end ≤ length instance.now.pools }
    ensures { IfOk result (HoldFed instance.now first end) }
{
    let count = instance.pools();
    let mut rows = entering::empty_rows(alloc, count)?;
    for number in first..end {
        let pool = PoolId(number as u32);
        enter_feeders(instance, &mut rows, row(of, count, pool), pool)?;
    }
    entering::finish(alloc, &rows)
}

// For each pool the pools that it feeds.
pub fn fed(alloc: Global, instance: &Instance, of: &Rows<AppId>) -> Result<Rows<PoolId>, AllocError>
    requires { HoldEach number_of_app instance.now (contenders_of instance.now) of.now }
    ensures { IfOk result (HoldEach number_of_pool instance.now (fed_by instance.now)) }
{
    fed_among(alloc, instance, of, 0, instance.pools())
}

// Enters a pool into each row of a list of pools.
fn enter_each(rows: &mut Filling<PoolId>, pools: &[PoolId], pool: PoolId) -> Result<(), AllocError>
    requires within { All (λ p. p.0 < vec_len rows.old.last) pools.now }
    ensures rows { OnOk result
        (EntersPool pool (λ Q. list_any (λ p. nat_eq p.0 Q) pools.now) rows.old rows.new) }
    ensures each { OnOk result (vec_len rows.new.last ≡ vec_len rows.old.last) }
{
    for at in pools {
        entering::enter(rows, *at, pool)?;
    }
    Ok(())
}

// The pools of a range, each in every other pool that it feeds.
pub fn feeds_among(
    alloc: Global,
    instance: &Instance,
    fed: &Rows<PoolId>,
    first: usize,
    end: usize,
) -> Result<Rows<PoolId>, AllocError>
    requires fed { HoldEach number_of_pool instance.now (fed_by instance.now) fed.now }
    requires order { first ≤ end }
    requires within { end ≤ length instance.now.pools }
    ensures { IfOk result (HoldFeeding instance.now first end) }
{
    let count = instance.pools();
    let mut rows = entering::empty_rows(alloc, count)?;
    for number in first..end {
        let pool = PoolId(number as u32);
        enter_each(&mut rows, row(fed, count, pool), pool)?;
    }
    entering::finish(alloc, &rows)
}

// For each pool the pools that feed it.
pub fn feeds(
    alloc: Global,
    instance: &Instance,
    fed: &Rows<PoolId>,
) -> Result<Rows<PoolId>, AllocError>
    requires { HoldEach number_of_pool instance.now (fed_by instance.now) fed.now }
    ensures { IfOk result (HoldEach number_of_pool instance.now (feeding instance.now)) }
{
    feeds_among(alloc, instance, fed, 0, instance.pools())
}
