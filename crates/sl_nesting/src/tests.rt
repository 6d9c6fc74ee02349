use super::*;
use sl_types::{Instance, Pool, PoolId, Rule};
use std::alloc::Global;
use std::test::Fail;

// A merit pool with the number of its parent, if it has one.
fn pool(parent: Option<u32>) -> Pool {
    Pool {
        quota: 1,
        parent: parent.map(|number| PoolId(number)),
        rule: Rule::Merit,
    }
}

// Pool 3 holds 0 and 2, of which 2 holds 1 and 5. Pool 4 is a tree by itself.
fn trees(alloc: Global) -> Result<Instance, Fail> {
    let pools = vec![in alloc;
        pool(Some(3)),
        pool(Some(2)),
        pool(Some(3)),
        pool(None),
        pool(None),
        pool(Some(2)),
    ]?;
    let instance = Instance::new(alloc, pools, Vec::new(alloc), Vec::new(alloc))?;
    Ok(instance)
}

#[test]
fn pools_directly_inside(rt: HostRuntime) -> Result<(), Fail> {
    let instance = trees(rt.alloc())?;
    for (pool, inside) in [
        (3, [0, 2].as_slice()),
        (2, [1, 5].as_slice()),
        (4, [].as_slice()),
        (1, [].as_slice()),
    ] {
        let found: Vec<u32> = children(&instance, PoolId(pool))
            .map(|child| child.0)
            .collect(rt.alloc())?;
        assert_eq!(rt; found.as_slice(), inside);
    }
    Ok(())
}

#[test]
fn published_limits(rt: HostRuntime) -> Result<(), Fail> {
    let instance = trees(rt.alloc())?;
    let words = [7, 2, 5, 4, 9, 6];
    let mut out = [0; 6];
    if instance.pools() == out.len() {
        published(&instance, &words, &mut out);
    }
    assert_eq!(rt; out, [7, 5, 5, 4, 9, 6]);
    Ok(())
}
