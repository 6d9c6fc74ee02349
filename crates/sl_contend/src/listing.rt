// Who contends for each pool and which pools feed which, found by pieces of the applicants and of the pools.
ghost use Rattle.std.specs.Prelude.{◌≡◌, ◌≤◌, length, IfOk};
ghost use Rattle.sl_contend.specs.Contention.{contenders_of, feeding, fed_by, number_of_app, number_of_pool, HoldEach, AreListed};
ghost use Rattle.sl_contend.specs.Pieces.{HoldContenders, HoldFed, HoldFeeding};

use crate::contention::{contenders_among, fed_among, feeds_among};
use crate::joining::join_rows;
use crate::rows::Rows;
use sl_pieces::make_by_pieces;
use sl_types::{AppId, Instance, PoolId};
use std::alloc::{AllocError, Global};
use std::thread::Threads;

// For each pool the applicants who have a choice in it.
fn contenders(
    rt: &(impl Threads + Sync),
    alloc: Global,
    instance: &Instance,
) -> Result<Rows<AppId>, AllocError>
    ensures { IfOk result (HoldEach number_of_app instance.now (contenders_of instance.now)) }
{
    let pieces = make_by_pieces(
        rt,
        alloc,
        instance.applicants(),
        |first: usize, end: usize| -> Result<Rows<AppId>, AllocError>
            requires { (first ≤ end) × (end ≤ length instance.now.lists) }
            ensures { IfOk result (HoldContenders instance.entry.now first end) }
        { contenders_among(alloc, instance, first, end) },
    )?;
    join_rows(alloc, instance.pools(), pieces.as_slice())
}

// For each pool the pools that it feeds.
fn fed(
    rt: &(impl Threads + Sync),
    alloc: Global,
    instance: &Instance,
    of: &Rows<AppId>,
) -> Result<Rows<PoolId>, AllocError>
    requires { HoldEach number_of_app instance.now (contenders_of instance.now) of.now }
    ensures { IfOk result (HoldEach number_of_pool instance.now (fed_by instance.now)) }
{
    let pieces = make_by_pieces(
        rt,
        alloc,
        instance.pools(),
        |first: usize, end: usize| -> Result<Rows<PoolId>, AllocError>
            requires { (first ≤ end) × (end ≤ length instance.now.pools)
                × HoldEach number_of_app instance.now (contenders_of instance.now) of.now }
            ensures { IfOk result (HoldFed instance.entry.now first end) }
        { fed_among(alloc, instance, of, first, end) },
    )?;
    join_rows(alloc, instance.pools(), pieces.as_slice())
}

// For each pool the pools that feed it.
fn feeds(
    rt: &(impl Threads + Sync),
    alloc: Global,
    instance: &Instance,
    fed: &Rows<PoolId>,
) -> Result<Rows<PoolId>, AllocError>
    requires { HoldEach number_of_pool instance.now (fed_by instance.now) fed.now }
    ensures { IfOk result (HoldEach number_of_pool instance.now (feeding instance.now)) }
{
    let pieces = make_by_pieces(
        rt,
        alloc,
        instance.pools(),
        |first: usize, end: usize| -> Result<Rows<PoolId>, AllocError>
            requires { (first ≤ end) × (end ≤ length instance.now.pools)
                × HoldEach number_of_pool instance.now (fed_by instance.now) fed.now }
            ensures { IfOk result (HoldFeeding instance.entry.now first end) }
        { feeds_among(alloc, instance, fed, first, end) },
    )?;
    join_rows(alloc, instance.pools(), pieces.as_slice())
}

// Who contends for each pool, which pools feed it, and which it feeds.
pub type Lists = (Rows<AppId>, Rows<PoolId>, Rows<PoolId>);

// The three kinds of lists.
pub fn lists(
    rt: &(impl Threads + Sync),
    alloc: Global,
    instance: &Instance,
) -> Result<Lists, AllocError>
    ensures { IfOk result (AreListed instance.now) }
{
    let of = contenders(rt, alloc, instance)?;
    let fed = fed(rt, alloc, instance, &of)?;
    let feeds = feeds(rt, alloc, instance, &fed)?;
    Ok((of, feeds, fed))
}
