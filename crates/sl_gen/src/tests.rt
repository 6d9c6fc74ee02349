use super::*;
use sl_types::{AppId, Entry, Pool, PoolId, ProgId, Rule};
use std::test::Fail;

fn alone(quota: u32, rule: Rule) -> Pool {
    Pool {
        quota,
        parent: None,
        rule,
    }
}

fn merit_pool_in(parent: u32, quota: u32) -> Pool {
    Pool {
        quota,
        parent: Some(PoolId(parent)),
        rule: Rule::Merit,
    }
}

fn choice(place: u32, prog: u32, score: u32) -> Entry {
    Entry {
        place,
        prog: ProgId(prog),
        score,
    }
}

#[test]
fn smallest_round(rt: HostRuntime) -> Result<(), Fail> {
    let round = generate(rt.alloc(), 1)?;
    assert_eq!(rt;
        (round.pools(), round.progs(), round.applicants()),
        (8, 16, 1)
    );
    assert_eq!(rt; *round.pool(PoolId(0)), alone(1, Rule::H));
    assert_eq!(rt; *round.pool(PoolId(7)), merit_pool_in(5, 24));
    assert_eq!(rt; round.pool_of(ProgId(0)), PoolId(0));
    assert_eq!(rt; round.pool_of(ProgId(15)), PoolId(7));
    assert_eq!(rt; round.list(AppId(0)), [choice(1, 0, 0)].as_slice());
    Ok(())
}

#[test]
fn pools_of_a_thousand(rt: HostRuntime) -> Result<(), Fail> {
    let round = generate(rt.alloc(), 1_000)?;
    assert_eq!(rt;
        (round.pools(), round.progs(), round.applicants()),
        (24, 48, 1_000)
    );
    for (number, pool) in [
        (1, alone(30, Rule::H)),
        (2, alone(59, Rule::L)),
        (3, alone(28, Rule::L)),
        (12, alone(49, Rule::Merit)),
        (13, merit_pool_in(12, 18)),
        (14, merit_pool_in(12, 47)),
        (15, merit_pool_in(13, 16)),
        (23, merit_pool_in(21, 8)),
    ] {
        assert_eq!(rt; *round.pool(PoolId(number)), pool, "pool {number}");
    }
    Ok(())
}

#[test]
fn lists_of_a_thousand(rt: HostRuntime) -> Result<(), Fail> {
    let round = generate(rt.alloc(), 1_000)?;
    assert_eq!(rt; (round.progs(), round.applicants()), (48, 1_000));
    assert_eq!(rt; round.pool_of(ProgId(23)), PoolId(11));
    assert_eq!(rt; round.pool_of(ProgId(47)), PoolId(23));
    // The first programme's pool has rule L, the others' are merit pools.
    let merit = 310_022;
    let eleventh = [
        choice(1, 23, 33),
        choice(2, 40, merit),
        choice(3, 9, merit),
        choice(4, 26, merit),
        choice(5, 43, merit),
        choice(6, 12, merit),
    ];
    assert_eq!(rt; round.list(AppId(11)), eleventh.as_slice());
    let later = [choice(1, 39, 374), choice(2, 8, 503_270)];
    assert_eq!(rt; round.list(AppId(811)), later.as_slice());
    Ok(())
}

#[test]
fn made_in_parallel(rt: HostRuntime) -> Result<(), Fail> {
    let round = generate_in_parallel(&rt, rt.alloc(), 1_000)?;
    assert_eq!(rt; (round.progs(), round.applicants()), (48, 1_000));
    assert_eq!(rt; round.pool_of(ProgId(47)), PoolId(23));
    let later = [choice(1, 39, 374), choice(2, 8, 503_270)];
    assert_eq!(rt; round.list(AppId(811)), later.as_slice());
    Ok(())
}
