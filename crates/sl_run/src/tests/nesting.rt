use super::clearing::{Case, expect_cleared};
use super::*;

pub const TREE: &str = "pool,quota,parent,kind\nR,2,,merit\nC,1,R,merit\nD,2,R,merit\n";

pub const FIELDS: &str = "programme,pool\nc,C\nd,D\n";

pub const NESTED: &str =
    "applicant,place,programme,score\nm9,1,c,9\nm8,1,c,8\nm7,1,d,7\nm6,1,d,6\n";

pub const NESTED_TEXT: &str =
    "result,1,,\nrule,H,,\nlimit,R,7,2\nlimit,C,9,1\nlimit,D,7,1\nadmit,m9,1,c\nadmit,m8,0,\n\
        admit,m7,1,d\nadmit,m6,0,\nraise,R,7,\nraise,C,9,\nend,11,,\n";

#[test]
fn nested_examples(rt: HostRuntime) -> Result<(), Fail> {
    for case in [
        Case {
            name: "nested pools",
            letter: "H",
            pools: TREE,
            programmes: FIELDS,
            applications: NESTED,
            text: NESTED_TEXT,
        },
        Case {
            name: "a tree beside a pool of rule H",
            letter: "H",
            pools: "pool,quota,parent,kind\nA,1,,score\nR,1,,merit\nC,1,R,merit\n",
            programmes: "programme,pool\na,A\nc,C\n",
            applications: "applicant,place,programme,score\nx,1,a,10\nx,2,c,9\ny,1,a,8\ny,2,c,8\nz,1,c,7\n",
            text: "result,1,,\nrule,H,,\nlimit,A,9,1\nlimit,R,8,1\nlimit,C,8,1\nadmit,x,1,a\n\
                admit,y,2,c\nadmit,z,0,\nraise,A,9,\nraise,R,8,\nend,10,,\n",
        },
        Case {
            name: "two merit pools, each a tree by itself",
            letter: "L",
            pools: "pool,quota,parent,kind\nA,1,,merit\nB,1,,merit\n",
            programmes: TWO_PROGRAMMES,
            applications: DISPLACED,
            text: "result,1,,\nrule,L,,\nlimit,A,12,1\nlimit,B,11,1\nadmit,x,0,\nadmit,y,2,a\n\
                admit,z,1,b\nraise,A,10,\nraise,B,11,\nraise,A,12,\nend,10,,\n",
        },
    ] {
        expect_cleared(&rt, case)?;
    }
    Ok(())
}

// Other lists of raises prove the same limits.
#[test]
fn other_proofs_of_the_nested_pools(rt: HostRuntime) -> Result<(), Fail> {
    for raises in [
        "raise,C,9,\nraise,D,6,\nraise,R,7,\nend,12,,\n",
        "raise,C,9,\nraise,R,7,\nend,11,,\n",
    ] {
        let document = format!(in rt.alloc();
            "result,1,,\nrule,H,,\nlimit,R,7,2\nlimit,C,9,1\nlimit,D,7,1\n\
            admit,m9,1,c\nadmit,m8,0,\nadmit,m7,1,d\nadmit,m6,0,\n{raises}"
        )?;
        let inputs = Inputs {
            pools: TREE.as_bytes(),
            programmes: FIELDS.as_bytes(),
            applications: NESTED.as_bytes(),
            document: document.as_bytes(),
            amendments: &[],
            fails: &[],
        };
        expect(&rt, raises, &CHECK, inputs, done("verdict,Yes,,\n"))?;
    }
    Ok(())
}

#[test]
fn refused_nesting(rt: HostRuntime) -> Result<(), Fail> {
    for (rows, line) in [
        ("A,1,,merit\nB,1,Z,merit\n", "pools:3: UnknownParent\n"),
        ("A,1,,merit\nB,1,A,score\n", "pools:3: KindDiffers\n"),
        ("A,1,,score\nB,1,A,merit\n", "pools:3: KindDiffers\n"),
        (
            "S,1,P,merit\nP,1,Q,merit\nQ,1,P,merit\n",
            "pools:3: ParentCycle\n",
        ),
    ] {
        let pools = format!(in rt.alloc(); "{POOL_HEADER}{rows}")?;
        let inputs = Inputs {
            pools: pools.as_bytes(),
            ..displaced()
        };
        expect(&rt, rows, &CLEAR, inputs, refused(line))?;
    }
    Ok(())
}

#[test]
fn merits_in_conflict(rt: HostRuntime) -> Result<(), Fail> {
    for (pools, programmes, rows, line) in [
        (
            "A,1,,merit\nB,1,,merit\n",
            "programme,pool\na,A\na2,A\nb,B\n",
            "x,1,a,10\nx,2,a2,9\n",
            "applications:3: MeritDiffers\n",
        ),
        (
            "R,2,,merit\nC,1,R,merit\nD,1,R,merit\n",
            FIELDS,
            "u,1,c,5\nv,1,d,5\n",
            "applications:3: MeritTied\n",
        ),
    ] {
        let pools = format!(in rt.alloc(); "{POOL_HEADER}{pools}")?;
        let applications = format!(in rt.alloc(); "{NOBODY}{rows}")?;
        let inputs = Inputs {
            pools: pools.as_bytes(),
            programmes: programmes.as_bytes(),
            applications: applications.as_bytes(),
            document: &[],
            amendments: &[],
            fails: &[],
        };
        expect(&rt, rows, &CLEAR, inputs, refused(line))?;
    }
    Ok(())
}

// A chain of so many merit pools of one place, of which the innermost holds a programme.
fn chain(alloc: Global, depth: u32) -> Result<(String, String), AllocError> {
    let mut pools = String::from_str(alloc, POOL_HEADER)?;
    pools.push_str("p1,1,,merit\n")?;
    for number in 2..=depth {
        pools.push_str(&format!(in alloc; "p{number},1,p{},merit\n", number - 1)?)?;
    }
    let programmes = format!(in alloc; "programme,pool\na,p{depth}\n")?;
    Ok((pools, programmes))
}

// The outermost pool is raised, and each pool inside it has its limit.
#[test]
fn deepest_tree(rt: HostRuntime) -> Result<(), Fail> {
    let mut text = String::from_str(rt.alloc(), "result,1,,\nrule,H,,\n")?;
    for number in 1..=16 {
        text.push_str(&format!(in rt.alloc(); "limit,p{number},5,1\n")?)?;
    }
    text.push_str("admit,x,1,a\nadmit,y,0,\nraise,p1,5,\nend,21,,\n")?;
    for (depth, ending) in [(16, done(&text)), (17, refused("pools:18: TooDeep\n"))] {
        let (pools, programmes) = chain(rt.alloc(), depth)?;
        let inputs = Inputs {
            pools: pools.as_bytes(),
            programmes: programmes.as_bytes(),
            applications: "applicant,place,programme,score\nx,1,a,5\ny,1,a,4\n".as_bytes(),
            document: &[],
            amendments: &[],
            fails: &[],
        };
        expect(&rt, "deepest tree", &CLEAR, inputs, ending)?;
    }
    Ok(())
}
