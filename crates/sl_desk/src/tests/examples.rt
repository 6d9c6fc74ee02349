// The worked examples.
use super::*;

const H: Pool = Pool {
    quota: 1,
    parent: None,
    rule: Rule::H,
};

fn choice(place: u32, prog: u32, score: u32) -> Entry {
    Entry {
        place,
        prog: ProgId(prog),
        score,
    }
}

// Two pools of one place each; x and y prefer a, z has b alone.
pub fn both_prefer_the_first(alloc: Global) -> Result<Instance, Fail> {
    let x = vec![in alloc; choice(1, 0, 10), choice(2, 1, 10)]?;
    let y = vec![in alloc; choice(1, 0, 8), choice(2, 1, 8)]?;
    let z = vec![in alloc; choice(1, 1, 9)]?;
    Ok(Instance::new(
        alloc,
        vec![in alloc; H, H]?,
        vec![in alloc; A, B]?,
        vec![in alloc; x, y, z]?,
    )?)
}

// One pool of one place; x and y are tied at the top, and z is below.
pub fn tie(alloc: Global, rule: Rule, top: u32) -> Result<Instance, Fail> {
    let x = vec![in alloc; choice(1, 0, top)]?;
    let y = vec![in alloc; choice(1, 0, top)]?;
    let z = vec![in alloc; choice(1, 0, 5)]?;
    Ok(Instance::new(
        alloc,
        vec![in alloc;
            Pool {
                quota: 1,
                parent: None,
                rule
            },
        ]?,
        vec![in alloc; A]?,
        vec![in alloc; x, y, z]?,
    )?)
}

// One pool of one place with two programmes.
pub fn two_programmes_in_one_pool(alloc: Global) -> Result<Instance, Fail> {
    let x = vec![in alloc; choice(1, 0, 10), choice(2, 1, 14)]?;
    let y = vec![in alloc; choice(1, 0, 12)]?;
    Ok(Instance::new(
        alloc,
        vec![in alloc; H]?,
        vec![in alloc; A, A]?,
        vec![in alloc; x, y]?,
    )?)
}

// Two pools of one place each; x prefers a, y and z prefer b.
pub fn displaced_twice(alloc: Global) -> Result<Instance, Fail> {
    let x = vec![in alloc; choice(1, 0, 10), choice(2, 1, 10)]?;
    let y = vec![in alloc; choice(1, 1, 9), choice(2, 0, 12)]?;
    let z = vec![in alloc; choice(1, 1, 11)]?;
    Ok(Instance::new(
        alloc,
        vec![in alloc; H, H]?,
        vec![in alloc; A, B]?,
        vec![in alloc; x, y, z]?,
    )?)
}

// Two pools of one place each, and two tied applicants in each.
pub fn two_ties(alloc: Global) -> Result<Instance, Fail> {
    let w = vec![in alloc; choice(1, 0, 10)]?;
    let x = vec![in alloc; choice(1, 0, 10)]?;
    let y = vec![in alloc; choice(1, 1, 7)]?;
    let z = vec![in alloc; choice(1, 1, 7)]?;
    Ok(Instance::new(
        alloc,
        vec![in alloc; H, H]?,
        vec![in alloc; A, B]?,
        vec![in alloc; w, x, y, z]?,
    )?)
}

fn merit(quota: u32, parent: Option<PoolId>) -> Pool {
    Pool {
        quota,
        parent,
        rule: Rule::Merit,
    }
}

// A tree of three merit pools: two places in all, of which at most one in the first inner pool.
pub fn nested_pools(alloc: Global) -> Result<Instance, Fail> {
    let first = vec![in alloc; choice(1, 0, 9)]?;
    let second = vec![in alloc; choice(1, 0, 8)]?;
    let third = vec![in alloc; choice(1, 1, 7)]?;
    let fourth = vec![in alloc; choice(1, 1, 6)]?;
    Ok(Instance::new(
        alloc,
        vec![in alloc; merit(2, None), merit(1, Some(A)), merit(2, Some(A))]?,
        vec![in alloc; B, PoolId(2)]?,
        vec![in alloc; first, second, third, fourth]?,
    )?)
}
