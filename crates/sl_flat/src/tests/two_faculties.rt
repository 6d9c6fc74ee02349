use super::*;

// The scores of the usual file: two programmes in a pool of two places, one in a pool of one place.
fn two_faculties(alloc: Global, rule: Rule) -> Result<Instance, Fail> {
    let first = vec![in alloc; choice(1, 2, 447), choice(2, 0, 452)]?;
    let second = vec![in alloc; choice(1, 2, 461), choice(2, 1, 430)]?;
    let third = vec![in alloc; choice(1, 0, 452)]?;
    let fourth = vec![in alloc; choice(1, 1, 455), choice(2, 2, 470)]?;
    Ok(Instance::new(
        alloc,
        vec![in alloc; pool(2, rule), pool(1, rule)]?,
        vec![in alloc; A, A, B]?,
        vec![in alloc; first, second, third, fourth]?,
    )?)
}

#[test]
fn two_faculties_raised(rt: HostRuntime) -> Result<(), Fail> {
    let alloc = rt.alloc();
    for (rule, faculty) in [(Rule::H, 453), (Rule::L, 452)] {
        let instance = two_faculties(alloc, rule)?;
        for (reads, pool, best) in [
            ([0, 0], A, 0),
            ([0, 0], B, 448),
            ([0, 448], A, faculty),
            ([faculty, 448], B, 448),
        ] {
            raises_to(&rt, alloc, &instance, pool, &reads, best)?;
        }
    }
    Ok(())
}
