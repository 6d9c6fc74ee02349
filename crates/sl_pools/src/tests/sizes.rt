use super::*;

// Rows of so many pools of a kind, each with the one before as its parent where that is wanted.
fn many(alloc: Global, rows: u32, kind: &str, nested: bool) -> Result<String, Fail> {
    let mut text = String::new(alloc);
    for row in 0..rows {
        if nested && row > 0 {
            write!(text, "p{row},1,p{},{kind}\n", row - 1)?;
        } else {
            write!(text, "p{row},1,,{kind}\n")?;
        }
    }
    Ok(text)
}

#[test]
fn deep_pools(rt: HostRuntime) -> Result<(), Fail> {
    for (rows, kind, wanted) in [
        (16, "merit", None),
        (16, "score", fault(Table::Pools, 3, Cause::KindDiffers)),
        (17, "merit", fault(Table::Pools, 18, Cause::TooDeep)),
        (17, "score", fault(Table::Pools, 18, Cause::TooDeep)),
    ] {
        let text = many(rt.alloc(), rows, kind, true)?;
        let found = pools_refusal(rt.alloc(), POOLS, text.as_bytes())?;
        assert_eq!(rt; found, wanted, "{rows} of kind {kind}");
    }
    let mut round = many(rt.alloc(), 17, "merit", true)?;
    round.push_str("r,1,r,merit\n")?;
    let found = pools_refusal(rt.alloc(), POOLS, round.as_bytes())?;
    assert_eq!(rt; found, fault(Table::Pools, 19, Cause::ParentCycle));
    let longest = many(rt.alloc(), 20_000, "merit", true)?;
    let found = pools_refusal(rt.alloc(), POOLS, longest.as_bytes())?;
    assert_eq!(rt; found, fault(Table::Pools, 18, Cause::TooDeep));
    Ok(())
}

#[test]
fn many_pools(rt: HostRuntime) -> Result<(), Fail> {
    let mut text = many(rt.alloc(), 20_000, "score", false)?;
    let found = pools_refusal(rt.alloc(), POOLS, text.as_bytes())?;
    assert_eq!(rt; found, None);
    text.push_str("more,1,,score\n")?;
    let found = pools_refusal(rt.alloc(), POOLS, text.as_bytes())?;
    assert_eq!(rt; found, fault(Table::Pools, 20_002, Cause::TooMany));
    Ok(())
}

#[test]
fn one_record_too_many(rt: HostRuntime) -> Result<(), Fail> {
    for (last, cause) in [
        (",0,\t,best\n", Cause::TooMany),
        (",0,\t\n", Cause::FieldCount),
    ] {
        let mut text = many(rt.alloc(), 20_000, "score", false)?;
        text.push_str(last)?;
        let found = pools_refusal(rt.alloc(), POOLS, text.as_bytes())?;
        assert_eq!(rt; found, fault(Table::Pools, 20_002, cause));
    }
    Ok(())
}
