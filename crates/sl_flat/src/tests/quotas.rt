use super::*;

// Five apply to one pool, two of them with two choices there, and the second also elsewhere between these. By
// quota, the best raises by H and by L, with the other pool closed and open to the second.
#[test]
fn quotas(rt: HostRuntime) -> Result<(), Fail> {
    let alloc = rt.alloc();
    for (quota, other, by_h, by_l) in [
        (1, 9, 10, 9),
        (2, 9, 10, 9),
        (3, 9, 8, 8),
        (4, 9, 8, 7),
        (5, 9, 0, 0),
        (6, 9, 0, 0),
        (1, 8, 10, 9),
        (2, 8, 8, 8),
        (3, 8, 8, 7),
        (4, 8, 5, 5),
        (5, 8, 0, 0),
    ] {
        for (rule, best) in [(Rule::H, by_h), (Rule::L, by_l)] {
            let first = vec![in alloc; choice(1, 0, 9), choice(2, 1, 7)]?;
            let second = vec![in alloc; choice(1, 0, 4), choice(2, 2, 8), choice(3, 1, 9)]?;
            let third = vec![in alloc; choice(1, 1, 7)]?;
            let fourth = vec![in alloc; choice(1, 1, 9)]?;
            let fifth = vec![in alloc; choice(1, 0, 7)]?;
            let instance = Instance::new(
                alloc,
                vec![in alloc; pool(quota, rule), pool(1, Rule::H)]?,
                vec![in alloc; A, A, B]?,
                vec![in alloc; first, second, third, fourth, fifth]?,
            )?;
            raises_to(&rt, alloc, &instance, A, &[0, other], best)?;
        }
    }
    Ok(())
}
