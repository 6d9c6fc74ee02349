use super::nesting::{FIELDS, NESTED, NESTED_TEXT, TREE};
use super::*;

const PREFERRED: &str =
    "applicant,place,programme,score\nx,1,a,10\nx,2,b,10\ny,1,a,8\ny,2,b,8\nz,1,b,9\n";

const PREFERRED_TEXT: &str =
    "result,1,,\nrule,H,,\nlimit,A,9,1\nlimit,B,9,1\nadmit,x,1,a\nadmit,y,0,\nadmit,z,1,b\n\
        raise,A,9,\nraise,B,9,\nend,9,,\n";

const LATE_TEXT: &str =
    "result,1,,\nrule,H,,\nlimit,A,11,1\nlimit,B,12,1\nadmit,x,0,\nadmit,y,2,a\nadmit,z,0,\n\
        admit,w,1,b\nraise,B,10,\nraise,A,11,\nraise,B,11,\nraise,B,12,\nend,12,,\n";

// A published round, and the rows that amend it.
#[derive(Clone, Copy)]
struct Amended<'a> {
    inputs: Inputs<'a>,
    rows: &'a str,
}

impl<'a> Amended<'a> {
    // "Displaced twice", amended.
    fn displaced(rows: &'a str) -> Amended<'a> {
        Amended {
            inputs: displaced(),
            rows,
        }
    }
}

// Amends a round.
fn expect_amended<R: Abort + AllocGlobal + Threads + Sync>(
    rt: &R,
    words: &[&str],
    amended: Amended<'_>,
    ending: Ending<'_>,
) -> Result<(), Fail> {
    let text = format!(in rt.alloc(); "{AMENDMENT_HEADER}{}", amended.rows)?;
    let inputs = Inputs {
        amendments: text.as_bytes(),
        ..amended.inputs
    };
    expect(rt, amended.rows, words, inputs, ending)
}

#[test]
fn late_applicant(rt: HostRuntime) -> Result<(), Fail> {
    for workers in ["1", "4", "64"] {
        let mut words = AMEND;
        words[2] = workers;
        let late = Amended::displaced("new,w,1,b,20\n");
        expect_amended(&rt, &words, late, done(LATE_TEXT))?;
    }
    Ok(())
}

#[test]
fn amended_rounds(rt: HostRuntime) -> Result<(), Fail> {
    let preferred = Inputs {
        applications: PREFERRED.as_bytes(),
        document: PREFERRED_TEXT.as_bytes(),
        ..displaced()
    };
    let nested = Inputs {
        pools: TREE.as_bytes(),
        programmes: FIELDS.as_bytes(),
        applications: NESTED.as_bytes(),
        document: NESTED_TEXT.as_bytes(),
        ..displaced()
    };
    for (inputs, rows, text) in [
        // Nothing is amended.
        (displaced(), "", DISPLACED_TEXT),
        // "Withdrawal".
        (
            displaced(),
            "withdraw,z,,,\n",
            "result,1,,\nrule,H,,\nlimit,A,0,1\nlimit,B,0,1\nadmit,x,1,a\nadmit,y,1,b\nend,6,,\n",
        ),
        // "Raised quota".
        (
            preferred,
            "quota,A,,,2\n",
            "result,1,,\nrule,H,,\nlimit,A,0,2\nlimit,B,0,1\nadmit,x,1,a\nadmit,y,1,a\n\
                admit,z,1,b\nend,7,,\n",
        ),
        // In a tree.
        (
            nested,
            "withdraw,m9,,,\n",
            "result,1,,\nrule,H,,\nlimit,R,7,2\nlimit,C,8,1\nlimit,D,7,1\nadmit,m8,1,c\n\
                admit,m7,1,d\nadmit,m6,0,\nraise,R,7,\nraise,C,8,\nend,10,,\n",
        ),
    ] {
        expect_amended(&rt, &AMEND, Amended { inputs, rows }, done(text))?;
    }
    Ok(())
}

// A round that was amended is a round as any other.
#[test]
fn amended_again(rt: HostRuntime) -> Result<(), Fail> {
    let late = Inputs {
        applications: LATE_TABLE.as_bytes(),
        document: LATE_TEXT.as_bytes(),
        ..displaced()
    };
    let amended = Amended {
        inputs: late,
        rows: "withdraw,w,,,\n",
    };
    expect_amended(&rt, &AMEND, amended, done(DISPLACED_TEXT))
}

#[test]
fn unproved_old_document(rt: HostRuntime) -> Result<(), Fail> {
    let inputs = Inputs {
        document: "result,1,,\nrule,H,,\nlimit,A,0,1\nlimit,B,0,2\nadmit,x,1,a\nadmit,y,1,b\n\
            admit,z,1,b\nend,7,,\n"
            .as_bytes(),
        ..displaced()
    };
    let unproved = Ending {
        room: 1000,
        status: 1,
        out: "",
        err: "result: verdict,Unsettled,B,\n",
    };
    expect_amended(&rt, &AMEND, Amended { inputs, rows: "" }, unproved)?;
    // All files are read first.
    let broken = Amended {
        inputs,
        rows: "move,x,,,\n",
    };
    expect_amended(&rt, &AMEND, broken, refused("amendments:2: BadKind\n"))
}

#[test]
fn refused_amendments(rt: HostRuntime) -> Result<(), Fail> {
    for (rows, line) in [
        ("move,x,,,\n", "amendments:2: BadKind\n"),
        ("quota,A,1,,2\n", "amendments:2: NotEmpty\n"),
        ("quota,Z,,,2\n", "amendments:2: UnknownPool\n"),
        ("quota,A,,,0\n", "amendments:2: BadQuota\n"),
        ("add,w,1,a,5\n", "amendments:2: UnknownApplicant\n"),
        ("new,x,3,a,5\n", "amendments:2: KnownApplicant\n"),
        ("drop,z,,a,\n", "amendments:2: UnknownChoice\n"),
        ("drop,z,,b,\n", "amendments:2: LastChoice\n"),
        ("add,z,1,a,5\n", "amendments:2: RepeatedPlace\n"),
        (
            "withdraw,z,,,\nnew,z,1,a,5\n",
            "amendments:3: KnownApplicant\n",
        ),
    ] {
        expect_amended(&rt, &AMEND, Amended::displaced(rows), refused(line))?;
        expect_amended(&rt, &TABLE, Amended::displaced(rows), refused(line))?;
    }
    Ok(())
}

const LATE_TABLE: &str = "applicant,place,programme,score\nx,1,a,10\nx,2,b,10\ny,1,b,9\ny,2,a,12\n\
        z,1,b,11\nw,1,b,20\n";

#[test]
fn amended_tables(rt: HostRuntime) -> Result<(), Fail> {
    let late = Amended::displaced("new,w,1,b,20\n");
    expect_amended(&rt, &TABLE, late, done(LATE_TABLE))?;
    let mut words = TABLE;
    words[1] = "pools";
    let raised = Amended::displaced("quota,A,,,2\n");
    let pools = "pool,quota,parent,kind\nA,2,,score\nB,1,,score\n";
    expect_amended(&rt, &words, raised, done(pools))?;
    let narrow = Ending {
        room: 25,
        status: 5,
        out: "pool,quota,parent,kind\nA,",
        err: "output: cannot be written\n",
    };
    expect_amended(&rt, &words, raised, narrow)?;
    words[1] = "programmes";
    let other = Ending {
        room: 1000,
        status: 2,
        out: "",
        err: "scorelimits: the words are not a command form\n",
    };
    expect_amended(&rt, &words, raised, other)
}

// Each file in turn can't be read.
#[test]
fn failing_fetches(rt: HostRuntime) -> Result<(), Fail> {
    for (fails, line) in [
        ([1], "pools: cannot be read\n"),
        ([2], "programmes: cannot be read\n"),
        ([3], "applications: cannot be read\n"),
        ([4], "result: cannot be read\n"),
        ([5], "amendments: cannot be read\n"),
    ] {
        let inputs = Inputs {
            fails: &fails,
            ..displaced()
        };
        let amended = Amended {
            inputs,
            rows: "new,w,1,b,20\n",
        };
        let unread = Ending {
            room: 1000,
            status: 4,
            out: "",
            err: line,
        };
        expect_amended(&rt, &AMEND, amended, unread)?;
    }
    Ok(())
}
