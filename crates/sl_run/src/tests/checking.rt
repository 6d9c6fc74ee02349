use super::*;

// A check of a document over the tables of "displaced twice".
fn expect_checked<R: Abort + AllocGlobal + Threads + Sync>(
    rt: &R,
    document: &str,
    ending: Ending<'_>,
) -> Result<(), Fail> {
    let inputs = Inputs {
        document: document.as_bytes(),
        amendments: &[],
        ..displaced()
    };
    expect(rt, document, &CHECK, inputs, ending)
}

// A verdict that isn't Yes.
fn wrong(out: &str) -> Ending<'_> {
    Ending {
        room: 1000,
        status: 1,
        out,
        err: "",
    }
}

#[test]
fn verdicts(rt: HostRuntime) -> Result<(), Fail> {
    for (document, out) in [
        // Unproved second raise.
        (
            "result,1,,\nrule,H,,\nlimit,A,11,1\nlimit,B,11,1\nadmit,x,0,\nadmit,y,2,a\n\
                admit,z,1,b\nraise,B,11,\nraise,A,11,\nend,9,,\n",
            "verdict,RaiseUnjust,1,\n",
        ),
        // Nothing raised.
        (
            "result,1,,\nrule,H,,\nlimit,A,0,1\nlimit,B,0,2\nadmit,x,1,a\nadmit,y,1,b\nadmit,z,1,b\nend,7,,\n",
            "verdict,Unsettled,B,\n",
        ),
        // A limit above the one that the raises lead to.
        (
            "result,1,,\nrule,H,,\nlimit,A,11,1\nlimit,B,12,0\nadmit,x,0,\nadmit,y,2,a\nadmit,z,0,\n\
                raise,B,10,\nraise,A,11,\nraise,B,11,\nend,10,,\n",
            "verdict,LimitWrong,B,\n",
        ),
        // A wrong admission.
        (
            "result,1,,\nrule,H,,\nlimit,A,11,1\nlimit,B,11,1\nadmit,x,1,a\nadmit,y,2,a\n\
                admit,z,1,b\nraise,B,10,\nraise,A,11,\nraise,B,11,\nend,10,,\n",
            "verdict,AdmissionWrong,x,\n",
        ),
        // A wrong count.
        (
            "result,1,,\nrule,H,,\nlimit,A,11,2\nlimit,B,11,1\nadmit,x,0,\nadmit,y,2,a\n\
                admit,z,1,b\nraise,B,10,\nraise,A,11,\nraise,B,11,\nend,10,,\n",
            "verdict,CountWrong,A,\n",
        ),
    ] {
        expect_checked(&rt, document, wrong(out))?;
    }
    Ok(())
}

// Stable limits that aren't the least.
#[test]
fn swapped_admissions(rt: HostRuntime) -> Result<(), Fail> {
    let inputs = Inputs {
        applications: "applicant,place,programme,score\nx,1,a,5\nx,2,b,6\ny,1,b,5\ny,2,a,6\n".as_bytes(),
        document: "result,1,,\nrule,H,,\nlimit,A,6,1\nlimit,B,6,1\nadmit,x,2,b\nadmit,y,2,a\nend,6,,\n".as_bytes(),
        amendments: &[],
        ..displaced()
    };
    expect(
        &rt,
        "swapped admissions",
        &CHECK,
        inputs,
        wrong("verdict,LimitWrong,A,\n"),
    )
}

#[test]
fn refused_documents(rt: HostRuntime) -> Result<(), Fail> {
    for (document, line) in [
        (
            "result,2,,\nrule,H,,\nlimit,A,11,1\nlimit,B,11,1\nadmit,x,0,\nadmit,y,2,a\n\
                admit,z,1,b\nraise,B,10,\nraise,A,11,\nraise,B,11,\nend,10,,\n",
            "result:1: BadHeader\n",
        ),
        (
            "result,1,,\nrule,H,,\nlimit,B,11,1\nlimit,A,11,1\nadmit,x,0,\nadmit,y,2,a\n\
                admit,z,1,b\nraise,B,10,\nraise,A,11,\nraise,B,11,\nend,10,,\n",
            "result:3: OutOfOrder\n",
        ),
        (
            "result,1,,\nrule,H,,\nlimit,A,11,1\nlimit,B,11,1\nadmit,x,0,\nadmit,y,1,a\n\
                admit,z,1,b\nraise,B,10,\nraise,A,11,\nraise,B,11,\nend,10,,\n",
            "result:6: UnknownChoice\n",
        ),
        (
            "result,1,,\nrule,H,,\nlimit,A,11,1\nlimit,B,11,1\nadmit,x,0,\nadmit,y,2,a\n\
                admit,z,1,b\nraise,Z,10,\nraise,A,11,\nraise,B,11,\nend,10,,\n",
            "result:8: UnknownPool\n",
        ),
        (
            "result,1,,\nrule,H,,\nlimit,A,11,1\nlimit,B,11,1\nadmit,x,0,\nadmit,y,2,a\n\
                admit,z,1,b\nraise,B,0,\nraise,A,11,\nraise,B,11,\nend,10,,\n",
            "result:8: BadNumber\n",
        ),
        (
            "result,1,,\nrule,H,,\nlimit,A,11,1\nlimit,B,11,1\nadmit,x,0,\nadmit,y,2,a\n\
                admit,z,1,b\nraise,B,10,\nraise,A,11,\nraise,B,11,\nend,9,,\n",
            "result:11: BadEnd\n",
        ),
        (
            "result,1,,\nrule,H,,\nlimit,A,11,1\nlimit,B,11,1\nadmit,x,0,\nadmit,y,2,a\n\
                admit,z,1,b\nraise,B,10,\nraise,A,11,\nraise,B,11,\nend,10,,\nend,11,,\n",
            "result:12: AfterEnd\n",
        ),
        (
            "result,1,,\nrule,H,,\nlimit,A,11,1\nlimit,B,11,1\nadmit,x,0,\nadmit,y,2,a\n\
                admit,z,1,b\nraise,B,10,\nraise,A,11,\nraise,B,11,\n",
            "result:11: NoEnd\n",
        ),
    ] {
        expect_checked(&rt, document, refused(line))?;
    }
    let mut words = CHECK;
    words[1] = "L";
    expect(
        &rt,
        "another rule",
        &words,
        displaced(),
        refused("result:2: RuleDiffers\n"),
    )
}

#[test]
fn documents_in_other_words(rt: HostRuntime) -> Result<(), Fail> {
    expect_checked(
        &rt,
        "\u{feff}\"result\",\"1\",\"\",\r\n\r\n\"rule\",H,,\"\"\r\n\
            limit,\"A\",0011,01\rlimit,B,11,1\nadmit,x,0,\"\"\nadmit,y,\"2\",a\nadmit,z,1,b\n\
            raise,B,10,\nraise,A,11,\nraise,B,11,\nend,10,,",
        done("verdict,Yes,,\n"),
    )
}

// A document cut before its last record is whole is refused; without its last line feed it is read.
#[test]
fn cut_documents(rt: HostRuntime) -> Result<(), Fail> {
    let words = words_of(rt.alloc(), &CHECK)?;
    let whole = DISPLACED_TEXT.as_bytes();
    for (length, _) in whole.iter().enumerate() {
        let document = &whole[..length];
        let mut shelf = shelf_of(
            rt.alloc(),
            Inputs {
                document,
                ..displaced()
            },
        )?;
        let mut out = MemSink::new(rt.alloc(), 1000)?;
        let mut err = MemSink::new(rt.alloc(), 1000)?;
        let ended = run(
            &rt,
            rt.alloc(),
            &words,
            &mut shelf,
            &mut out,
            &mut err,
            &OpenGate,
        );
        let is_whole = length + 1 == whole.len();
        assert_eq!(rt; ended.status, if is_whole { 0 } else { 3 }, "{length}");
        assert_eq!(rt; out.bytes().is_empty(), !is_whole, "{length}");
    }
    Ok(())
}
