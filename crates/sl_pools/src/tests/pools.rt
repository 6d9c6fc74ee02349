use super::*;

#[test]
fn wrong_pools(rt: HostRuntime) -> Result<(), Fail> {
    for (rows, at, cause) in [
        // Each cause of a record alone.
        ("A,1,\n", 2, Cause::FieldCount),
        ("A,1,,score,\n", 2, Cause::FieldCount),
        ("A,1,,score\n\"\"\n", 3, Cause::FieldCount),
        ("  \n", 2, Cause::FieldCount),
        (",1,,score\n", 2, Cause::BadCode),
        ("\"\",1,,score\n", 2, Cause::BadCode),
        ("A\u{1F},1,,score\n", 2, Cause::BadCode),
        ("A\u{7F},1,,score\n", 2, Cause::BadCode),
        ("\"A\nB\",1,,score\n", 2, Cause::BadCode),
        ("A,1,,score\nB,1,\t,score\n", 3, Cause::BadCode),
        (
            "A,1,,score\nB,1,,score\nA,2,,score\n",
            4,
            Cause::RepeatedPool,
        ),
        ("A,1,,score\n\"A\",1,,score\n", 3, Cause::RepeatedPool),
        ("A,+1,,score\n", 2, Cause::BadNumber),
        ("A,-1,,score\n", 2, Cause::BadNumber),
        ("A,,,score\n", 2, Cause::BadNumber),
        ("A, 1,,score\n", 2, Cause::BadNumber),
        ("A,1.0,,score\n", 2, Cause::BadNumber),
        ("A,0000000001,,score\n", 2, Cause::BadNumber),
        ("A,\u{0661},,score\n", 2, Cause::BadNumber),
        ("A,0,,score\n", 2, Cause::BadQuota),
        ("A,000000000,,score\n", 2, Cause::BadQuota),
        ("A,1000001,,score\n", 2, Cause::BadQuota),
        ("A,999999999,,score\n", 2, Cause::BadQuota),
        ("A,1,,best\n", 2, Cause::BadKind),
        ("A,1,,\n", 2, Cause::BadKind),
        ("A,1,,score \n", 2, Cause::BadKind),
        // Before another of the same record.
        (",x\n", 2, Cause::FieldCount),
        (",x,\t,best\n", 2, Cause::BadCode),
        ("A,1,,score\nA,x,\t,best\n", 3, Cause::RepeatedPool),
        ("A,x,\t,best\n", 2, Cause::BadNumber),
        ("A,0,\t,best\n", 2, Cause::BadQuota),
        ("A,1,\t,best\n", 2, Cause::BadCode),
        ("A,1,Z,best\n", 2, Cause::BadKind),
        // Before one of a later record, and of the whole file.
        ("A,1,,best\nB,1\n", 2, Cause::BadKind),
        ("A,1,Z,score\nB,1,B,score\nC,0,,score\n", 4, Cause::BadQuota),
        // The passes, alone and one before another.
        ("A,1,,score\nB,1,Z,score\n", 3, Cause::UnknownParent),
        ("A,1,A,score\nB,1,Z,score\n", 3, Cause::UnknownParent),
        ("A,1,A,score\n", 2, Cause::ParentCycle),
        (
            "S,1,P,score\nP,1,Q,score\nQ,1,P,score\n",
            3,
            Cause::ParentCycle,
        ),
        (
            "B,1,A,score\nA,1,,score\nC,1,C,score\n",
            4,
            Cause::ParentCycle,
        ),
        ("A,1,,score\nB,1,A,score\n", 3, Cause::KindDiffers),
        ("B,1,A,score\nA,1,,score\n", 2, Cause::KindDiffers),
        ("B,1,\"A\",score\r\nA,1,\"\",score", 2, Cause::KindDiffers),
        ("A,1,,merit\nB,1,A,score\n", 3, Cause::KindDiffers),
        ("A,1,,score\nB,1,A,merit\n", 3, Cause::KindDiffers),
        ("A,1,,merit\nB,1,Z,merit\n", 3, Cause::UnknownParent),
    ] {
        let found = pools_refusal(rt.alloc(), POOLS, rows.as_bytes())?;
        assert_eq!(rt; found, fault(Table::Pools, at, cause), "{rows}");
    }
    Ok(())
}

// Whether a table of these bytes has just the pools 0A, of quota 1, and "B", of the greatest quota.
fn has_both(alloc: Global, text: &str) -> Result<bool, ReadError> {
    let table = read_pools(alloc, text.as_bytes(), Rule::L)?;
    let pool = Pool {
        quota: 1,
        parent: None,
        rule: Rule::L,
    };
    let largest = Pool {
        quota: 1_000_000,
        parent: None,
        rule: Rule::L,
    };
    Ok(
        table.pools() == [pool, largest].as_slice()
            && table.codes().find("0A") == Some(0)
            && table.codes().find("B, \"É\"") == Some(1),
    )
}

#[test]
fn forms_of_one_table(rt: HostRuntime) -> Result<(), Fail> {
    for text in [
        "pool,quota,parent,kind\n0A,1,,score\n\"B, \"\"É\"\"\",1000000,,score\n",
        "\u{FEFF}pool,quota,parent,kind\n0A,1,,score\n\"B, \"\"É\"\"\",1000000,,score\n",
        "pool,quota,parent,kind\r\n0A,1,,score\r\n\"B, \"\"É\"\"\",1000000,,score\r\n",
        "pool,quota,parent,kind\r0A,1,,score\r\"B, \"\"É\"\"\",1000000,,score",
        "\n\n\"pool\",quota,\"parent\",kind\n\r\n\n0A,1,,score\n\n\"B, \"\"É\"\"\",1000000,,score\n\n",
        "pool,quota,parent,kind\n\"0A\",\"1\",\"\",\"score\"\n\"B, \"\"É\"\"\",1000000,,score\n",
        "pool,quota,parent,kind\n0A,000000001,,score\n\"B, \"\"É\"\"\",001000000,,\"score",
        "pool,quota,parent,kind\n0A,1,,score\n\"B, \"\"É\"\"\",1000000,,\"sco\"re\n",
    ] {
        assert_eq!(rt; has_both(rt.alloc(), text)?, true, "{text}");
    }
    Ok(())
}

// A tree of two levels, and a pool of the command's rule beside it.
#[test]
fn kinds_of_pools(rt: HostRuntime) -> Result<(), Fail> {
    let text = "pool,quota,parent,kind\nC,1,R,merit\nR,2,,merit\nA,3,,score\n";
    let table = read_pools(rt.alloc(), text.as_bytes(), Rule::L)?;
    let pool = |quota, parent, rule| Pool {
        quota,
        parent,
        rule,
    };
    let wanted = [
        pool(1, Some(PoolId(1)), Rule::Merit),
        pool(2, None, Rule::Merit),
        pool(3, None, Rule::L),
    ];
    assert_eq!(rt; table.pools(), wanted.as_slice());
    Ok(())
}
