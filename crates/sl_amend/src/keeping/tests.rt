ghost use Rattle.std.specs.Prelude.{◌≡◌, ◌∷◌, [], None, IfOk, OnOk};
ghost use Rattle.sl_laws.specs.Raises.{Replays};
ghost use Rattle.sl_contend.specs.Contention.{contention_of};
ghost use Rattle.sl_amend.specs.Amended.{IsAmended, AreOrigins};

use super::kept;
use sl_contend::Contenders;
use sl_nested::Mixed;
use sl_proof::Replay;
use sl_types::{AppId, Entry, Instance, Pool, PoolId, ProgId, Raise, Rule};
use std::alloc::{AllocError, Global};
use std::process::Abort;
use std::test::Fail;

const A: PoolId = PoolId(0);

const B: PoolId = PoolId(1);

const C: PoolId = PoolId(2);

// The raises of `displaced_twice`.
const DISPLACING: [Raise; 3] = [
    Raise { pool: B, limit: 10 },
    Raise { pool: A, limit: 11 },
    Raise { pool: B, limit: 11 },
];

fn raise(pool: PoolId, limit: u32) -> Raise {
    Raise { pool, limit }
}

fn choice(place: u32, prog: u32, score: u32) -> Entry {
    Entry {
        place,
        prog: ProgId(prog),
        score,
    }
}

// The quotas of the pools A, B and C.
#[derive(Clone, Copy)]
struct Quotas(u32, u32, u32);

// The pools A, B and C of one rule; B lies in `outer`, where there is one.
fn pools(
    alloc: Global,
    rule: Rule,
    outer: Option<PoolId>,
    quotas: Quotas,
) -> Result<Vec<Pool>, AllocError>
    ensures { IfOk result (λ v. v.items ≡ record { quota = quotas.0; parent = None; rule = rule }
        ∷ record { quota = quotas.1; parent = outer; rule = rule }
        ∷ record { quota = quotas.2; parent = None; rule = rule } ∷ []) }
{
    let a = Pool {
        quota: quotas.0,
        parent: None,
        rule,
    };
    let b = Pool {
        quota: quotas.1,
        parent: outer,
        rule,
    };
    let c = Pool {
        quota: quotas.2,
        parent: None,
        rule,
    };
    Ok(vec![in alloc; a, b, c]?)
}

// A round, and the same with other quotas and lists: score pools where `outer` is none, else merit
// pools.
fn rounds(
    alloc: Global,
    outer: Option<PoolId>,
    quotas: [Quotas; 2],
    old_lists: Vec<Vec<Entry>>,
    new_lists: Vec<Vec<Entry>>,
) -> Result<(Instance, Instance), Fail>
    ensures { IfOk result (λ r. IsAmended r.0 r.1) }
{
    let rule = if outer.is_some() {
        Rule::Merit
    } else {
        Rule::H
    };
    let old_pools = pools(alloc, rule, outer, quotas[0])?;
    let new_pools = pools(alloc, rule, outer, quotas[1])?;
    let old = Instance::new(alloc, old_pools, vec![in alloc; A, B, C]?, old_lists)?;
    let new = Instance::new(alloc, new_pools, vec![in alloc; A, B, C]?, new_lists)?;
    Ok((old, new))
}

// The raises replay.
fn replays(
    rt: &impl Abort,
    alloc: Global,
    instance: &Instance,
    contenders: &Contenders,
    raises: &[Raise],
) -> Result<(), Fail>
    requires { contenders.now ≡ contention_of instance.now }
    ensures { OnOk result (Replays instance.now raises.now) }
{
    let mut replay = Replay::new(alloc, instance, contenders)?;
    for raise in raises {
        assert!(rt; (raise.pool.0 as usize) < instance.pools());
        let Ok(()) = replay.add(&Mixed, *raise) else {
            panic!(rt; "a raise is unjust");
        };
    }
    Ok(())
}

// Each origin is an applicant of the instance.
fn are_origins(rt: &impl Abort, old: &Instance, origins: &[Option<AppId>])
    ensures { AreOrigins old.now origins.now }
{
    for origin in origins {
        if let Some(app) = origin {
            assert!(rt; (app.0 as usize) < old.applicants());
        }
    }
}

// Of raises that replay on the old instance, these are kept, and they replay on the amended one.
fn keeps(
    rt: &impl Abort,
    alloc: Global,
    old: &Instance,
    new: &Instance,
    origins: &[Option<AppId>],
    raises: &[Raise],
    wanted: &[Raise],
) -> Result<(), Fail>
    requires { IsAmended old.now new.now }
{
    are_origins(rt, old, origins);
    assert!(rt; origins.len() == new.applicants());
    let old_contenders = Contenders::new(alloc, old)?;
    let new_contenders = Contenders::new(alloc, new)?;
    replays(rt, alloc, old, &old_contenders, raises)?;
    let kept = kept(
        alloc,
        old,
        new,
        &old_contenders,
        &new_contenders,
        origins,
        raises,
    )?;
    assert_eq!(rt; kept.as_slice(), wanted);
    replays(rt, alloc, new, &new_contenders, &kept)
}

// The lists of `displaced_twice`, in the order x, y, z.
fn displaced_twice(alloc: Global) -> Result<Vec<Vec<Entry>>, AllocError> {
    let x = vec![in alloc; choice(1, 0, 10), choice(2, 1, 10)]?;
    let y = vec![in alloc; choice(1, 1, 9), choice(2, 0, 12)]?;
    let z = vec![in alloc; choice(1, 1, 11)]?;
    Ok(vec![in alloc; x, y, z]?)
}

// A new applicant touches no pool.
#[test]
fn late_applicant(rt: HostRuntime) -> Result<(), Fail> {
    let alloc = rt.alloc();
    let mut later = displaced_twice(alloc)?;
    later.push(vec![in alloc; choice(1, 1, 20)]?)?;
    let quotas = Quotas(1, 1, 1);
    let (old, new) = rounds(
        alloc,
        None,
        [quotas, quotas],
        displaced_twice(alloc)?,
        later,
    )?;
    let origins = [Some(AppId(0)), Some(AppId(1)), Some(AppId(2)), None];
    keeps(&rt, alloc, &old, &new, &origins, &DISPLACING, &DISPLACING)
}

// z, who is gone, had a choice in B, and B feeds A.
#[test]
fn withdrawal(rt: HostRuntime) -> Result<(), Fail> {
    let alloc = rt.alloc();
    let mut later = displaced_twice(alloc)?;
    let _z = later.pop();
    let quotas = Quotas(1, 1, 1);
    let (old, new) = rounds(
        alloc,
        None,
        [quotas, quotas],
        displaced_twice(alloc)?,
        later,
    )?;
    let origins = [Some(AppId(0)), Some(AppId(1))];
    keeps(&rt, alloc, &old, &new, &origins, &DISPLACING, &[])
}

// Nobody is changed by other places with the same order, or by another number in the list.
#[test]
fn who_is_changed(rt: HostRuntime) -> Result<(), Fail> {
    let alloc = rt.alloc();
    let z = vec![in alloc; choice(5, 1, 11)]?;
    let x = vec![in alloc; choice(1, 0, 10), choice(7, 1, 10)]?;
    let y = vec![in alloc; choice(2, 1, 9), choice(3, 0, 12)]?;
    let later = vec![in alloc; z, x, y]?;
    let quotas = Quotas(1, 1, 1);
    let (old, new) = rounds(
        alloc,
        None,
        [quotas, quotas],
        displaced_twice(alloc)?,
        later,
    )?;
    let origins = [Some(AppId(2)), Some(AppId(0)), Some(AppId(1))];
    keeps(&rt, alloc, &old, &new, &origins, &DISPLACING, &DISPLACING)
}

// The lists of `both_prefer_the_first`, in the order x, y, z.
fn both_prefer_the_first(alloc: Global) -> Result<Vec<Vec<Entry>>, AllocError> {
    let x = vec![in alloc; choice(1, 0, 10), choice(2, 1, 10)]?;
    let y = vec![in alloc; choice(1, 0, 8), choice(2, 1, 8)]?;
    let z = vec![in alloc; choice(1, 1, 9)]?;
    Ok(vec![in alloc; x, y, z]?)
}

// So many quotas before and after, with the same lists.
fn keeps_by_quotas(
    rt: &impl Abort,
    alloc: Global,
    quotas: [Quotas; 2],
    raises: &[Raise],
    wanted: &[Raise],
) -> Result<(), Fail> {
    let lists = both_prefer_the_first(alloc)?;
    let later = both_prefer_the_first(alloc)?;
    let (old, new) = rounds(alloc, None, quotas, lists, later)?;
    let origins = [Some(AppId(0)), Some(AppId(1)), Some(AppId(2))];
    keeps(rt, alloc, &old, &new, &origins, raises, wanted)
}

// A raised quota of A touches A, which feeds B; one of B touches B alone. A cut quota touches none.
#[test]
fn raised_and_cut_quotas(rt: HostRuntime) -> Result<(), Fail> {
    let alloc = rt.alloc();
    let raises = [raise(A, 9), raise(B, 9)];
    let first = [raise(A, 9)];
    keeps_by_quotas(&rt, alloc, [Quotas(1, 1, 1), Quotas(2, 1, 1)], &raises, &[])?;
    keeps_by_quotas(
        &rt,
        alloc,
        [Quotas(1, 1, 1), Quotas(1, 2, 1)],
        &raises,
        &first,
    )?;
    keeps_by_quotas(
        &rt,
        alloc,
        [Quotas(1, 2, 1), Quotas(1, 1, 1)],
        &first,
        &first,
    )
}

// Merit pools: four applicants in A and in B, which lies in A, and two in C, whose tree is its own.
fn two_trees(alloc: Global) -> Result<Vec<Vec<Entry>>, AllocError> {
    let mut lists = Vec::new(alloc);
    for (prog, score) in [(1, 9), (1, 8), (0, 7), (0, 6), (2, 5), (2, 4)] {
        lists.push(vec![in alloc; choice(1, prog, score)]?)?;
    }
    Ok(lists)
}

// Another quota in a tree of merit pools touches each pool of the tree, be it greater or less.
#[test]
fn another_quota_in_a_tree(rt: HostRuntime) -> Result<(), Fail> {
    let alloc = rt.alloc();
    let raises = [raise(A, 7), raise(B, 9), raise(C, 5)];
    let origins = [
        Some(AppId(0)),
        Some(AppId(1)),
        Some(AppId(2)),
        Some(AppId(3)),
        Some(AppId(4)),
        Some(AppId(5)),
    ];
    for (later, wanted) in [
        (Quotas(2, 2, 1), [raise(C, 5)].as_slice()),
        (Quotas(1, 1, 1), [raise(C, 5)].as_slice()),
        (Quotas(2, 1, 2), [raise(A, 7), raise(B, 9)].as_slice()),
        (Quotas(2, 1, 1), raises.as_slice()),
    ] {
        let quotas = [Quotas(2, 1, 1), later];
        let (old, new) = rounds(alloc, Some(A), quotas, two_trees(alloc)?, two_trees(alloc)?)?;
        keeps(&rt, alloc, &old, &new, &origins, &raises, wanted)?;
    }
    Ok(())
}
