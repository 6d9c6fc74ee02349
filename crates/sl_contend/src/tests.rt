ghost use Rattle.std.specs.Prelude.{◌≡◌};
ghost use Rattle.sl_contend.specs.Contention.{contention_of};

use super::*;
use sl_types::{AppId, Entry, Instance, Pool, PoolId, ProgId, Rule};
use std::alloc::Global;
use std::process::Abort;
use std::test::Fail;

const A: PoolId = PoolId(0);

const B: PoolId = PoolId(1);

const C: PoolId = PoolId(2);

fn choice(place: u32, prog: u32, score: u32) -> Entry {
    Entry {
        place,
        prog: ProgId(prog),
        score,
    }
}

// An instance with pools of one place, and these programmes and lists.
fn instance(
    alloc: Global,
    pools: usize,
    progs: Vec<PoolId>,
    lists: Vec<Vec<Entry>>,
) -> Result<Instance, Fail> {
    let pool = Pool {
        quota: 1,
        parent: None,
        rule: Rule::H,
    };
    Ok(Instance::new(alloc, vec![in alloc; pool; pools]?, progs, lists)?)
}

// Who contends for a pool, which pools feed it, and which it feeds.
fn contends(
    rt: &impl Abort,
    instance: &Instance,
    contenders: &Contenders,
    pool: PoolId,
    of: &[AppId],
    feeds: &[PoolId],
    fed: &[PoolId],
)
    requires { contenders.now ≡ contention_of instance.now }
{
    assert!(rt; (pool.0 as usize) < instance.pools());
    assert_eq!(rt; contenders.of(pool), of);
    assert_eq!(rt; contenders.feeds(pool), feeds);
    assert_eq!(rt; contenders.fed(pool), fed);
}

#[test]
fn displaced_twice(rt: HostRuntime) -> Result<(), Fail> {
    let alloc = rt.alloc();
    let x = vec![in alloc; choice(1, 0, 10), choice(2, 1, 10)]?;
    let y = vec![in alloc; choice(1, 1, 9), choice(2, 0, 12)]?;
    let z = vec![in alloc; choice(1, 1, 11)]?;
    let instance = instance(alloc, 2, vec![in alloc; A, B]?, vec![in alloc; x, y, z]?)?;
    let contenders = Contenders::new(alloc, &instance)?;
    let (x, y, z) = (AppId(0), AppId(1), AppId(2));
    contends(&rt, &instance, &contenders, A, &[x, y], &[B], &[B]);
    contends(&rt, &instance, &contenders, B, &[x, y, z], &[A], &[A]);
    Ok(())
}

#[test]
fn both_prefer_the_first(rt: HostRuntime) -> Result<(), Fail> {
    let alloc = rt.alloc();
    let x = vec![in alloc; choice(1, 0, 10), choice(2, 1, 10)]?;
    let y = vec![in alloc; choice(1, 0, 8), choice(2, 1, 8)]?;
    let z = vec![in alloc; choice(1, 1, 9)]?;
    let instance = instance(alloc, 2, vec![in alloc; A, B]?, vec![in alloc; x, y, z]?)?;
    let contenders = Contenders::new(alloc, &instance)?;
    let (x, y, z) = (AppId(0), AppId(1), AppId(2));
    contends(&rt, &instance, &contenders, A, &[x, y], &[], &[B]);
    contends(&rt, &instance, &contenders, B, &[x, y, z], &[A], &[]);
    Ok(())
}

// x goes from A through C back to A, y from C through B to A; nobody applies to the last pool.
#[test]
fn led_back_to_the_first_pool(rt: HostRuntime) -> Result<(), Fail> {
    let alloc = rt.alloc();
    let x = vec![in alloc; choice(1, 0, 5), choice(2, 3, 5), choice(3, 1, 5)]?;
    let y = vec![in alloc; choice(1, 3, 5), choice(2, 2, 5), choice(3, 1, 5)]?;
    let instance = instance(alloc, 4, vec![in alloc; A, A, B, C]?, vec![in alloc; x, y]?)?;
    let contenders = Contenders::new(alloc, &instance)?;
    let (x, y) = (AppId(0), AppId(1));
    contends(&rt, &instance, &contenders, A, &[x, y], &[B, C], &[C]);
    contends(&rt, &instance, &contenders, B, &[y], &[C], &[A]);
    contends(&rt, &instance, &contenders, C, &[x, y], &[A], &[A, B]);
    contends(&rt, &instance, &contenders, PoolId(3), &[], &[], &[]);
    Ok(())
}

// The choices in a pool, from the greatest score down.
fn offered(
    rt: &impl Abort,
    instance: &Instance,
    contenders: &Contenders,
    pool: PoolId,
    offers: &[Offer],
)
    requires { contenders.now ≡ contention_of instance.now }
{
    assert!(rt; (pool.0 as usize) < instance.pools());
    assert_eq!(rt; contenders.offers(pool), offers);
}

fn offer(score: u32, app: u32, index: u32) -> Offer {
    Offer {
        score,
        app: AppId(app),
        index,
    }
}

// x has two choices in A, of which the second is the better, and y one; nobody applies to B.
#[test]
fn two_programmes_in_one_pool(rt: HostRuntime) -> Result<(), Fail> {
    let alloc = rt.alloc();
    let x = vec![in alloc; choice(1, 0, 10), choice(2, 1, 14)]?;
    let y = vec![in alloc; choice(1, 0, 12)]?;
    let instance = instance(alloc, 2, vec![in alloc; A, A]?, vec![in alloc; x, y]?)?;
    let contenders = Contenders::new(alloc, &instance)?;
    offered(
        &rt,
        &instance,
        &contenders,
        A,
        &[offer(14, 0, 1), offer(12, 1, 0), offer(10, 0, 0)],
    );
    offered(&rt, &instance, &contenders, B, &[]);
    Ok(())
}

// x, y and z with equal scores in A and in B.
fn tied(alloc: Global) -> Result<Instance, Fail> {
    let x = vec![in alloc; choice(1, 2, 7), choice(2, 0, 5), choice(3, 1, 5)]?;
    let y = vec![in alloc; choice(1, 1, 5), choice(2, 0, 6), choice(3, 2, 7)]?;
    let z = vec![in alloc; choice(1, 0, 5)]?;
    instance(alloc, 2, vec![in alloc; A, A, B]?, vec![in alloc; x, y, z]?)
}

// Equal scores stand by applicant, and those of one applicant by place on the list; each pool has its own.
#[test]
fn tied_choices(rt: HostRuntime) -> Result<(), Fail> {
    let alloc = rt.alloc();
    let instance = tied(alloc)?;
    let contenders = Contenders::new(alloc, &instance)?;
    offered(
        &rt,
        &instance,
        &contenders,
        A,
        &[
            offer(6, 1, 1),
            offer(5, 0, 1),
            offer(5, 0, 2),
            offer(5, 1, 0),
            offer(5, 2, 0),
        ],
    );
    offered(
        &rt,
        &instance,
        &contenders,
        B,
        &[offer(7, 0, 0), offer(7, 1, 2)],
    );
    Ok(())
}

// Two makings have the same lists for a pool.
fn alike(
    rt: &impl Abort,
    instance: &Instance,
    first: &Contenders,
    second: &Contenders,
    pool: PoolId,
)
    requires first { first.now ≡ contention_of instance.now }
    requires second { second.now ≡ contention_of instance.now }
{
    assert!(rt; (pool.0 as usize) < instance.pools());
    assert_eq!(rt; first.offers(pool), second.offers(pool));
    assert_eq!(rt; first.of(pool), second.of(pool));
    assert_eq!(rt; first.feeds(pool), second.feeds(pool));
    assert_eq!(rt; first.fed(pool), second.fed(pool));
}

#[test]
fn made_in_parallel(rt: HostRuntime) -> Result<(), Fail> {
    let alloc = rt.alloc();
    let instance = tied(alloc)?;
    let contenders = Contenders::new(alloc, &instance)?;
    let parallel = Contenders::new_in_parallel(&rt, alloc, &instance)?;
    offered(
        &rt,
        &instance,
        &parallel,
        B,
        &[offer(7, 0, 0), offer(7, 1, 2)],
    );
    alike(&rt, &instance, &contenders, &parallel, A);
    alike(&rt, &instance, &contenders, &parallel, B);
    Ok(())
}

fn shared<T: Sync>(_value: &T) {}

// Threads may share an instance and its contenders.
#[test]
fn shared_by_threads(rt: HostRuntime) -> Result<(), Fail> {
    let alloc = rt.alloc();
    let x = vec![in alloc; choice(1, 0, 10)]?;
    let instance = instance(alloc, 1, vec![in alloc; A]?, vec![in alloc; x]?)?;
    let contenders = Contenders::new(alloc, &instance)?;
    shared(&instance);
    shared(&contenders);
    Ok(())
}
