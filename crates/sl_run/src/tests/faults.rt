use super::*;

// "Displaced twice" into a sink with this much room, which is too little by at least a byte.
fn expect_broken_off<R: Abort + AllocGlobal + Threads + Sync>(
    rt: &R,
    room: usize,
) -> Result<(), Fail> {
    let words = words_of(rt.alloc(), &CLEAR)?;
    let mut shelf = shelf_of(rt.alloc(), displaced())?;
    let mut out = MemSink::new(rt.alloc(), room)?;
    let mut err = MemSink::new(rt.alloc(), 1000)?;
    let ended = run(
        rt,
        rt.alloc(),
        &words,
        &mut shelf,
        &mut out,
        &mut err,
        &OpenGate,
    );
    assert_eq!(rt; ended.status, 5);
    assert!(rt; ended.receipt.is_none());
    assert_eq!(rt; out.bytes().len(), room);
    assert!(rt; DISPLACED_TEXT.as_bytes().starts_with(out.bytes()));
    assert!(rt; is_text(err.bytes(), "output: cannot be written\n"));
    Ok(())
}

#[test]
fn narrow_sinks(rt: HostRuntime) -> Result<(), Fail> {
    for room in 0..126 {
        expect_broken_off(&rt, room)?;
    }
    let just = Ending {
        room: 126,
        ..done(DISPLACED_TEXT)
    };
    expect(
        &rt,
        "a sink that just holds the text",
        &CLEAR,
        displaced(),
        just,
    )?;
    let narrow = Ending {
        room: 9,
        status: 5,
        out: "verdict,Y",
        err: "output: cannot be written\n",
    };
    expect(
        &rt,
        "a narrow sink for a verdict",
        &CHECK,
        displaced(),
        narrow,
    )
}

#[test]
fn files_that_fail(rt: HostRuntime) -> Result<(), Fail> {
    for (call, err) in [
        (1, "pools: cannot be read\n"),
        (2, "programmes: cannot be read\n"),
        (3, "applications: cannot be read\n"),
        (4, "result: cannot be read\n"),
    ] {
        let unread = Ending {
            room: 1000,
            status: 4,
            out: "",
            err,
        };
        let inputs = Inputs {
            fails: &[call],
            ..displaced()
        };
        expect(&rt, err, &CHECK, inputs, unread)?;
        if call < 4 {
            expect(&rt, err, &CLEAR, inputs, unread)?;
        }
    }
    Ok(())
}

fn expect_faulty<R: Abort + AllocGlobal + Threads + Sync>(
    rt: &R,
    words: &[&str],
) -> Result<(), Fail> {
    let faulty = Ending {
        room: 1000,
        status: 2,
        out: "",
        err: "scorelimits: the words are not a command form\n",
    };
    expect(rt, "faulty words", words, displaced(), faulty)
}

#[test]
fn faulty_words(rt: HostRuntime) -> Result<(), Fail> {
    expect_faulty(&rt, &[])?;
    expect_faulty(&rt, &["clear", "H", "1", "pools", "programmes"])?;
    for (command, letter, workers) in [
        ("clear", "H", "0"),
        ("clear", "H", "65"),
        ("clear", "H", ""),
        ("clear", "H", "+1"),
        ("clear", "H", "0000000001"),
        ("clear", "h", "1"),
        ("clear", "Merit", "1"),
        ("check", "M", "pools"),
        ("verify", "H", "1"),
    ] {
        let words = [
            command,
            letter,
            workers,
            "pools",
            "programmes",
            "applications",
        ];
        expect_faulty(&rt, &words)?;
    }
    let long = [
        "clear",
        "H",
        "1",
        "pools",
        "programmes",
        "applications",
        "more",
    ];
    expect_faulty(&rt, &long)
}

#[test]
fn faulty_numbers_of_a_demo(rt: HostRuntime) -> Result<(), Fail> {
    for (applicants, workers) in [
        ("0", "1"),
        ("500001", "1"),
        ("5", "0"),
        ("5", "65"),
        ("", "1"),
        ("5", "-1"),
    ] {
        expect_faulty(&rt, &["demo", applicants, workers])?;
    }
    expect_faulty(&rt, &["demo", "5"])?;
    expect_faulty(&rt, &["demo", "5", "1", "pools"])
}
