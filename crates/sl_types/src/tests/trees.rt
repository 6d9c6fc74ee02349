use super::{Tables, choice, inside, refusal, tree};
use crate::{AppId, Entry, Instance, InstanceError, Pool, PoolId, Rule, Unfit};
use std::alloc::{AllocError, Global};
use std::test::Fail;

// So many pools, each inside the next, and the last inside the pool of a number, or in none.
fn chain(alloc: Global, pools: u32, last: Option<PoolId>) -> Result<Tables, AllocError> {
    let mut chain = Vec::new(alloc);
    for pool in 0..pools.min(20_000) {
        let parent = if pool + 1 < pools {
            Some(PoolId(pool + 1))
        } else {
            last
        };
        chain.push(Pool {
            quota: 1,
            parent,
            rule: Rule::Merit,
        })?;
    }
    Ok(Tables {
        pools: chain,
        progs: Vec::new(alloc),
        lists: Vec::new(alloc),
    })
}

#[test]
fn chains(rt: HostRuntime) -> Result<(), Fail> {
    let first = PoolId(0);
    for (pools, last, wanted) in [
        (1, None, None),
        (16, None, None),
        (17, None, Some(Unfit::TooDeep(first))),
        (2, Some(first), Some(Unfit::ParentRing(first))),
        (1, Some(first), Some(Unfit::ParentRing(first))),
        (20_000, None, Some(Unfit::TooDeep(first))),
        (
            20_000,
            Some(PoolId(19_998)),
            Some(Unfit::ParentRing(PoolId(19_998))),
        ),
        (20_000, Some(first), Some(Unfit::ParentRing(first))),
    ] {
        let tables = chain(rt.alloc(), pools, last)?;
        assert_eq!(rt;
            refusal(rt.alloc(), tables),
            wanted.map(|fault| InstanceError::Unfit(fault))
        );
    }
    Ok(())
}

// A tree of two pools with a programme each, a tree of one with a programme, and two applicants.
fn trees(alloc: Global, first: [Entry; 2], second: [Entry; 2]) -> Result<Tables, AllocError> {
    let first = first.to_vec(alloc)?;
    let second = second.to_vec(alloc)?;
    Ok(Tables {
        pools: vec![in alloc; inside(Rule::Merit, 1), tree(2), tree(1)]?,
        progs: vec![in alloc; PoolId(0), PoolId(1), PoolId(2)]?,
        lists: vec![in alloc; Vec::new(alloc), first, second]?,
    })
}

#[test]
fn merits_in_trees(rt: HostRuntime) -> Result<(), Fail> {
    for (first, second, wanted) in [
        (
            [choice(1, 0, 5), choice(2, 1, 5)],
            [choice(1, 0, 6), choice(2, 2, 5)],
            None,
        ),
        (
            [choice(1, 0, 5), choice(2, 2, 6)],
            [choice(1, 1, 6), choice(2, 2, 5)],
            None,
        ),
        (
            [choice(1, 0, 5), choice(2, 1, 6)],
            [choice(1, 0, 6), choice(2, 1, 5)],
            Some(Unfit::MeritDiffers(AppId(1))),
        ),
        (
            [choice(1, 0, 5), choice(2, 2, 6)],
            [choice(1, 1, 5), choice(2, 2, 7)],
            Some(Unfit::MeritTied(AppId(2))),
        ),
    ] {
        let tables = trees(rt.alloc(), first, second)?;
        assert_eq!(rt;
            refusal(rt.alloc(), tables),
            wanted.map(|fault| InstanceError::Unfit(fault))
        );
    }
    Ok(())
}

#[test]
fn walks_outward(rt: HostRuntime) -> Result<(), Fail> {
    // Pool 0 is inside 2, 2 inside 1; a parent stands later in the list than its child, and pool 3 alone.
    let pools = vec![in rt.alloc();
        inside(Rule::Merit, 2),
        tree(3),
        inside(Rule::Merit, 1),
        tree(1),
    ]?;
    let instance = Instance::new(
        rt.alloc(),
        pools,
        Vec::new(rt.alloc()),
        Vec::new(rt.alloc()),
    )?;
    for (pool, way) in [
        (0, [0, 2, 1].as_slice()),
        (2, [2, 1].as_slice()),
        (3, [3].as_slice()),
    ] {
        if pool < instance.pools() as u32 {
            let met: Vec<u32> = instance
                .outward(PoolId(pool))
                .map(|here| here.0)
                .collect(rt.alloc())?;
            assert_eq!(rt; met.as_slice(), way);
        }
    }
    Ok(())
}
