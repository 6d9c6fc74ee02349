ghost use Rattle.std.specs.Prelude.{◌<◌, All, length, IsTrue};

use sl_check::{Verdict, check};
use sl_contend::Contenders;
use sl_nested::Mixed;
use sl_types::{AppId, Entry, Instance, Pool, PoolId, ProgId, Raise, Rule};
use std::alloc::Global;
use std::process::Abort;
use std::test::Fail;

const A: PoolId = PoolId(0);

const B: PoolId = PoolId(1);

fn choice(place: u32, prog: u32, score: u32) -> Entry {
    Entry {
        place,
        prog: ProgId(prog),
        score,
    }
}

const fn raise(pool: PoolId, limit: u32) -> Raise {
    Raise { pool, limit }
}

// Two pools of one place each, with one programme each.
fn instance(alloc: Global, lists: Vec<Vec<Entry>>) -> Result<Instance, Fail> {
    let pool = Pool {
        quota: 1,
        parent: None,
        rule: Rule::H,
    };
    Ok(Instance::new(
        alloc,
        vec![in alloc; pool; 2]?,
        vec![in alloc; A, B]?,
        lists,
    )?)
}

// x prefers a; y and z prefer b.
fn displaced_twice(alloc: Global) -> Result<Instance, Fail> {
    let x = vec![in alloc; choice(1, 0, 10), choice(2, 1, 10)]?;
    let y = vec![in alloc; choice(1, 1, 9), choice(2, 0, 12)]?;
    let z = vec![in alloc; choice(1, 1, 11)]?;
    instance(alloc, vec![in alloc; x, y, z]?)
}

// What is published of an instance of two pools.
#[derive(Clone, Copy)]
struct Outcome<'a> {
    raises: &'a [Raise],
    limits: [u32; 2],
    admitted: &'a [u32],
    counts: [u32; 2],
}

// Whether each raise is of a pool of the instance.
fn are_within(instance: &Instance, raises: &[Raise]) -> bool
    ensures { IsTrue result → All (λ r. r.pool.0 < length instance.now.pools) raises.now }
{
    let pools = instance.pools();
    raises.iter().all(|raise| (raise.pool.0 as usize) < pools)
}

// Checks an outcome of two pools.
fn checks(
    rt: &(impl Abort + AllocGlobal),
    instance: &Instance,
    outcome: Outcome,
    verdict: Verdict,
) -> Result<(), Fail> {
    assert_eq!(rt; instance.pools(), 2);
    assert!(rt; are_within(instance, outcome.raises));
    assert!(rt; outcome.raises.len() < 10);
    assert_eq!(rt; outcome.admitted.len(), instance.applicants());
    let contenders = Contenders::new(rt.alloc(), instance)?;
    let found = check(
        rt.alloc(),
        &Mixed,
        instance,
        &contenders,
        outcome.raises,
        &outcome.limits,
        outcome.admitted,
        &outcome.counts,
    )?;
    assert_eq!(rt; found, verdict);
    Ok(())
}

#[test]
fn outcomes_of_displaced_twice(rt: HostRuntime) -> Result<(), Fail> {
    let instance = displaced_twice(rt.alloc())?;
    let raises = [raise(B, 10), raise(A, 11), raise(B, 11)];
    let swapped = [raise(B, 11), raise(A, 11)];
    for (raises, limits, admitted, counts, verdict) in [
        (&raises[..], [11, 11], [2, 1, 0], [1, 1], Verdict::Yes),
        (
            &swapped[..],
            [11, 11],
            [2, 1, 0],
            [1, 1],
            Verdict::RaiseUnjust(1),
        ),
        (&[], [0, 0], [0, 0, 0], [1, 2], Verdict::Unsettled(B)),
        (
            &raises[..],
            [11, 11],
            [0, 1, 0],
            [1, 1],
            Verdict::AdmissionWrong(AppId(0)),
        ),
        (
            &raises[..],
            [11, 11],
            [2, 1, 0],
            [2, 1],
            Verdict::CountWrong(A),
        ),
    ] {
        let outcome = Outcome {
            raises,
            limits,
            admitted: &admitted,
            counts,
        };
        checks(&rt, &instance, outcome, verdict)?;
    }
    Ok(())
}

#[test]
fn swapped_admissions(rt: HostRuntime) -> Result<(), Fail> {
    let alloc = rt.alloc();
    let x = vec![in alloc; choice(1, 0, 5), choice(2, 1, 6)]?;
    let y = vec![in alloc; choice(1, 1, 5), choice(2, 0, 6)]?;
    let instance = instance(alloc, vec![in alloc; x, y]?)?;
    let outcome = Outcome {
        raises: &[],
        limits: [6, 6],
        admitted: &[1, 1],
        counts: [1, 1],
    };
    checks(&rt, &instance, outcome, Verdict::LimitWrong(A))
}
