use super::*;
use std::str;

// Tables, and the document that a letter makes of them.
#[derive(Clone, Copy)]
pub struct Case {
    pub name: &'static str,
    pub letter: &'static str,
    pub pools: &'static str,
    pub programmes: &'static str,
    pub applications: &'static str,
    pub text: &'static str,
}

impl Case {
    fn inputs(&self) -> Inputs<'static> {
        Inputs {
            pools: self.pools.as_bytes(),
            programmes: self.programmes.as_bytes(),
            applications: self.applications.as_bytes(),
            document: &[],
            amendments: &[],
            fails: &[],
        }
    }
}

const TIED: &str = "applicant,place,programme,score\nx,1,a,10\ny,1,a,10\nz,1,a,5\n";

// Three files as a spreadsheet saves them.
const FACULTIES: Case = Case {
    name: "two faculties under H",
    letter: "H",
    pools: "\u{feff}pool,quota,parent,kind\r\n\"ELTE IK, nappali\",2,,score\r\nBME-VIK,1,,score\r\n",
    programmes: "\u{feff}programme,pool\r\nELTE-PTI,\"ELTE IK, nappali\"\r\n\
        ELTE-MAT,\"ELTE IK, nappali\"\r\nBME-INF,BME-VIK\r\n",
    applications: "\u{feff}applicant,place,programme,score\r\nÁ-71001,2,ELTE-PTI,452\r\n\
        Á-71002,1,BME-INF,461\r\n\"Á-71003\",1,ELTE-PTI,452\r\nÁ-71004,2,BME-INF,470\r\n\
        Á-71002,2,ELTE-MAT,430\r\nÁ-71001,1,BME-INF,447\r\nÁ-71004,1,\"ELTE-MAT\",455\r\n",
    text: "result,1,,\nrule,H,,\nlimit,\"ELTE IK, nappali\",453,1\nlimit,BME-VIK,448,1\n\
        admit,Á-71001,0,\nadmit,Á-71002,1,BME-INF\nadmit,Á-71003,0,\nadmit,Á-71004,1,ELTE-MAT\n\
        raise,BME-VIK,448,\nraise,\"ELTE IK, nappali\",453,\nend,10,,\n",
};

// Checks a document of a case, which is right.
fn expect_right<R: Abort + AllocGlobal + Threads + Sync>(
    rt: &R,
    case: Case,
    document: &[u8],
) -> Result<(), Fail> {
    let inputs = Inputs {
        document,
        ..case.inputs()
    };
    let mut check = CHECK;
    check[1] = case.letter;
    expect(rt, case.name, &check, inputs, done("verdict,Yes,,\n"))
}

// Clears with many workers. The raises may differ from those of one worker, and the records before
// them don't.
fn expect_cleared_by_many<R: Abort + AllocGlobal + Threads + Sync>(
    rt: &R,
    case: Case,
    workers: &'static str,
) -> Result<(), Fail> {
    let mut clear = CLEAR;
    clear[1] = case.letter;
    clear[2] = workers;
    let words = words_of(rt.alloc(), &clear)?;
    let mut shelf = shelf_of(rt.alloc(), case.inputs())?;
    let mut out = MemSink::new(rt.alloc(), 1000)?;
    let mut err = MemSink::new(rt.alloc(), 1000)?;
    let ended = run(
        rt,
        rt.alloc(),
        &words,
        &mut shelf,
        &mut out,
        &mut err,
        &OpenGate,
    );
    assert_eq!(rt; ended.status, 0, "{}", case.name);
    assert!(rt; ended.receipt.is_some(), "{}", case.name);
    let found = str::from_utf8(out.bytes()).unwrap_or("");
    assert_eq!(rt;
        without_raises(found),
        without_raises(case.text),
        "{}",
        case.name
    );
    expect_right(rt, case, out.bytes())
}

// The records of a document before its raises.
fn without_raises(document: &str) -> &str {
    match document.find("\nraise,") {
        Some(at) => &document[..at],
        None => match document.find("\nend,") {
            Some(at) => &document[..at],
            None => document,
        },
    }
}

// Clears, and checks the document that comes of it.
pub fn expect_cleared<R: Abort + AllocGlobal + Threads + Sync>(
    rt: &R,
    case: Case,
) -> Result<(), Fail> {
    let mut clear = CLEAR;
    clear[1] = case.letter;
    expect(rt, case.name, &clear, case.inputs(), done(case.text))?;
    expect_right(rt, case, case.text.as_bytes())?;
    for workers in ["2", "64"] {
        expect_cleared_by_many(rt, case, workers)?;
    }
    Ok(())
}

#[test]
fn leading_zeros(rt: HostRuntime) -> Result<(), Fail> {
    let mut clear = CLEAR;
    for workers in ["01", "000000001"] {
        clear[2] = workers;
        expect(&rt, workers, &clear, displaced(), done(DISPLACED_TEXT))?;
    }
    Ok(())
}

#[test]
fn worked_examples(rt: HostRuntime) -> Result<(), Fail> {
    for case in [
        Case {
            name: "no pools",
            letter: "H",
            pools: POOL_HEADER,
            programmes: "programme,pool\n",
            applications: NOBODY,
            text: "result,1,,\nrule,H,,\nend,2,,\n",
        },
        Case {
            name: "both prefer the first",
            letter: "H",
            pools: TWO_POOLS,
            programmes: TWO_PROGRAMMES,
            applications: "applicant,place,programme,score\nx,1,a,10\nx,2,b,10\ny,1,a,8\ny,2,b,8\nz,1,b,9\n",
            text: "result,1,,\nrule,H,,\nlimit,A,9,1\nlimit,B,9,1\nadmit,x,1,a\nadmit,y,0,\n\
                admit,z,1,b\nraise,A,9,\nraise,B,9,\nend,9,,\n",
        },
        Case {
            name: "crossing tie",
            letter: "H",
            pools: ONE_POOL,
            programmes: ONE_PROGRAMME,
            applications: TIED,
            text: "result,1,,\nrule,H,,\nlimit,A,11,0\nadmit,x,0,\nadmit,y,0,\nadmit,z,0,\nraise,A,11,\nend,7,,\n",
        },
        Case {
            name: "crossing tie under L",
            letter: "L",
            pools: ONE_POOL,
            programmes: ONE_PROGRAMME,
            applications: TIED,
            text: "result,1,,\nrule,L,,\nlimit,A,10,2\nadmit,x,1,a\nadmit,y,1,a\nadmit,z,0,\nraise,A,10,\nend,7,,\n",
        },
        Case {
            name: "two programmes in one pool",
            letter: "H",
            pools: ONE_POOL,
            programmes: "programme,pool\na1,A\na2,A\n",
            applications: "applicant,place,programme,score\nx,1,a1,10\nx,2,a2,14\ny,1,a1,12\n",
            text: "result,1,,\nrule,H,,\nlimit,A,13,1\nadmit,x,2,a2\nadmit,y,0,\nraise,A,13,\nend,6,,\n",
        },
        Case {
            name: "displaced twice",
            letter: "H",
            pools: TWO_POOLS,
            programmes: TWO_PROGRAMMES,
            applications: DISPLACED,
            text: DISPLACED_TEXT,
        },
        Case {
            name: "displaced twice in another order",
            letter: "H",
            pools: TWO_POOLS,
            programmes: TWO_PROGRAMMES,
            applications: "applicant,place,programme,score\nz,1,b,11\nx,2,b,10\ny,2,a,12\ny,1,b,9\nx,1,a,10\n",
            text: "result,1,,\nrule,H,,\nlimit,A,11,1\nlimit,B,11,1\nadmit,z,1,b\nadmit,x,0,\n\
                admit,y,2,a\nraise,B,10,\nraise,A,11,\nraise,B,11,\nend,10,,\n",
        },
        Case {
            name: "swapped admissions",
            letter: "H",
            pools: TWO_POOLS,
            programmes: TWO_PROGRAMMES,
            applications: "applicant,place,programme,score\nx,1,a,5\nx,2,b,6\ny,1,b,5\ny,2,a,6\n",
            text: "result,1,,\nrule,H,,\nlimit,A,0,1\nlimit,B,0,1\nadmit,x,1,a\nadmit,y,1,b\nend,6,,\n",
        },
        Case {
            name: "tie at the top score",
            letter: "H",
            pools: ONE_POOL,
            programmes: ONE_PROGRAMME,
            applications: "applicant,place,programme,score\nx,1,a,1000000\ny,1,a,1000000\n",
            text: "result,1,,\nrule,H,,\nlimit,A,1000001,0\nadmit,x,0,\nadmit,y,0,\nraise,A,1000001,\nend,6,,\n",
        },
        FACULTIES,
        Case {
            name: "two faculties under L",
            letter: "L",
            text: "result,1,,\nrule,L,,\nlimit,\"ELTE IK, nappali\",452,3\nlimit,BME-VIK,448,1\n\
                admit,Á-71001,2,ELTE-PTI\nadmit,Á-71002,1,BME-INF\nadmit,Á-71003,1,ELTE-PTI\n\
                admit,Á-71004,1,ELTE-MAT\nraise,BME-VIK,448,\nraise,\"ELTE IK, nappali\",452,\n\
                end,10,,\n",
            ..FACULTIES
        },
        Case {
            name: "codes with double quotes",
            letter: "H",
            pools: "pool,quota,parent,kind\n\"the \"\"first\"\"\",1,,score\n",
            programmes: "programme,pool\na,\"the \"\"first\"\"\"\n",
            applications: NOBODY,
            text: "result,1,,\nrule,H,,\nlimit,\"the \"\"first\"\"\",0,0\nend,3,,\n",
        },
    ] {
        expect_cleared(&rt, case)?;
    }
    Ok(())
}
