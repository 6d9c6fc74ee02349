use super::*;

const LONG_CODE: &str = "AAAAAAAAAAAAAAAAAAAAAAAAAAAAAAAAAAAAAAAAAAAAAAAAAAAAAAAAAAAAAAAAA";

#[test]
fn refused_pools(rt: HostRuntime) -> Result<(), Fail> {
    for (pools, line) in [
        (
            "pool;quota;parent;kind\nA;1;;score\n",
            "pools:1: BadHeader\n",
        ),
        ("", "pools:1: BadHeader\n"),
        (
            "\u{feff}\u{feff}pool,quota,parent,kind\n",
            "pools:1: BadHeader\n",
        ),
        (
            "pool,quota,parent,kind\nA,1,\nB,1,,score\n",
            "pools:2: FieldCount\n",
        ),
        ("pool,quota,parent,kind\n,1,,score\n", "pools:2: BadCode\n"),
        (
            "pool,quota,parent,kind\nA\tB,1,,score\n",
            "pools:2: BadCode\n",
        ),
        (
            "pool,quota,parent,kind\nA,+1,,score\n",
            "pools:2: BadNumber\n",
        ),
        (
            "pool,quota,parent,kind\nA,0000000001,,score\n",
            "pools:2: BadNumber\n",
        ),
        (
            "pool,quota,parent,kind\nA,0,,score\n",
            "pools:2: BadQuota\n",
        ),
        (
            "pool,quota,parent,kind\nA,1000001,,score\n",
            "pools:2: BadQuota\n",
        ),
        ("pool,quota,parent,kind\nA,1,,best\n", "pools:2: BadKind\n"),
        (
            "pool,quota,parent,kind\nA,1,,score\nA,1,,score\n",
            "pools:3: RepeatedPool\n",
        ),
        (
            "pool,quota,parent,kind\nA,1,,score\nB,1,Z,score\n",
            "pools:3: UnknownParent\n",
        ),
        (
            "pool,quota,parent,kind\nA,1,,score\nB,1,A,score\n",
            "pools:3: KindDiffers\n",
        ),
        (
            "pool,quota,parent,kind\nA,1,A,score\n",
            "pools:2: ParentCycle\n",
        ),
    ] {
        let inputs = Inputs {
            pools: pools.as_bytes(),
            ..displaced()
        };
        expect(&rt, pools, &CLEAR, inputs, refused(line))?;
    }
    Ok(())
}

#[test]
fn bytes_that_are_no_text(rt: HostRuntime) -> Result<(), Fail> {
    let mut pools = Vec::from_slice(rt.alloc(), POOL_HEADER.as_bytes())?;
    pools.push(0xFF)?;
    pools.extend_from_slice(",1,,score\n".as_bytes())?;
    let inputs = Inputs {
        pools: &pools,
        ..displaced()
    };
    expect(
        &rt,
        "a code of no text",
        &CLEAR,
        inputs,
        refused("pools:2: NotText\n"),
    )
}

#[test]
fn refused_programmes(rt: HostRuntime) -> Result<(), Fail> {
    for (programmes, line) in [
        ("programme\na\n", "programmes:1: BadHeader\n"),
        ("programme,pool\na\n", "programmes:2: FieldCount\n"),
        ("programme,pool\n,A\n", "programmes:2: BadCode\n"),
        (
            "programme,pool\na,A\na,A\n",
            "programmes:3: RepeatedProgramme\n",
        ),
        ("programme,pool\na,Z\n", "programmes:2: UnknownPool\n"),
    ] {
        let inputs = Inputs {
            programmes: programmes.as_bytes(),
            ..displaced()
        };
        expect(&rt, programmes, &CLEAR, inputs, refused(line))?;
    }
    Ok(())
}

#[test]
fn refused_applications(rt: HostRuntime) -> Result<(), Fail> {
    for (rows, line) in [
        ("x,1,a\n", "applications:2: FieldCount\n"),
        (",1,a,10\n", "applications:2: BadCode\n"),
        ("x,0,a,10\n", "applications:2: BadNumber\n"),
        ("x,1000001,a,10\n", "applications:2: BadNumber\n"),
        ("x,1,a,1000001\n", "applications:2: BadNumber\n"),
        ("x,1,a,\n", "applications:2: BadNumber\n"),
        ("x,1,q,10\n", "applications:2: UnknownProgramme\n"),
        ("x,1,a,10\nx,2,a,9\n", "applications:3: RepeatedChoice\n"),
        ("x,1,a,10\nx,1,b,9\n", "applications:3: RepeatedPlace\n"),
        (
            "x,1,a,10\ny,1,a,10\nx,01,b,9\n",
            "applications:4: RepeatedPlace\n",
        ),
    ] {
        let applications = format!(in rt.alloc(); "{NOBODY}{rows}")?;
        let inputs = Inputs {
            applications: applications.as_bytes(),
            ..displaced()
        };
        expect(&rt, rows, &CLEAR, inputs, refused(line))?;
    }
    let applications = format!(in rt.alloc(); "{NOBODY}{LONG_CODE},1,a,10\n")?;
    let inputs = Inputs {
        applications: applications.as_bytes(),
        ..displaced()
    };
    expect(
        &rt,
        "a code of 65 bytes",
        &CLEAR,
        inputs,
        refused("applications:2: BadCode\n"),
    )
}

// The first file that isn't accepted is the one in the line.
#[test]
fn first_refused_file(rt: HostRuntime) -> Result<(), Fail> {
    let both = Inputs {
        programmes: "programme,pool\na,Z\n".as_bytes(),
        applications: "applicant\n".as_bytes(),
        ..displaced()
    };
    expect(
        &rt,
        "two files",
        &CLEAR,
        both,
        refused("programmes:2: UnknownPool\n"),
    )?;
    let failing = Inputs {
        fails: &[2],
        ..both
    };
    let unread = Ending {
        room: 1000,
        status: 4,
        out: "",
        err: "programmes: cannot be read\n",
    };
    expect(&rt, "a failing file", &CLEAR, failing, unread)
}

// The tables of 65 programmes of the pool A, and of one applicant who chose so many of them.
fn list_of(alloc: Global, choices: u32) -> Result<(String, String), AllocError> {
    let mut programmes = String::from_str(alloc, "programme,pool\n")?;
    for number in 1..=65 {
        programmes.push_str(&format!(in alloc; "p{number},A\n")?)?;
    }
    let mut applications = String::from_str(alloc, NOBODY)?;
    for place in 1..=choices {
        applications.push_str(&format!(in alloc; "x,{place},p{place},10\n")?)?;
    }
    Ok((programmes, applications))
}

#[test]
fn longest_list(rt: HostRuntime) -> Result<(), Fail> {
    let longest = done("result,1,,\nrule,H,,\nlimit,A,0,1\nadmit,x,1,p1\nend,4,,\n");
    for (choices, ending) in [
        (64, longest),
        (65, refused("applications:66: ListTooLong\n")),
    ] {
        let (programmes, applications) = list_of(rt.alloc(), choices)?;
        let inputs = Inputs {
            pools: ONE_POOL.as_bytes(),
            programmes: programmes.as_bytes(),
            applications: applications.as_bytes(),
            ..displaced()
        };
        expect(&rt, "longest list", &CLEAR, inputs, ending)?;
    }
    Ok(())
}

#[test]
fn too_many_pools(rt: HostRuntime) -> Result<(), Fail> {
    let mut pools = String::from_str(rt.alloc(), POOL_HEADER)?;
    for number in 0..20_001 {
        pools.push_str(&format!(in rt.alloc(); "{number},1,,score\n")?)?;
    }
    let inputs = Inputs {
        pools: pools.as_bytes(),
        ..displaced()
    };
    expect(
        &rt,
        "20,001 pools",
        &CLEAR,
        inputs,
        refused("pools:20002: TooMany\n"),
    )
}
