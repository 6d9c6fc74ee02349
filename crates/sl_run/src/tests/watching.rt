use super::*;
use std::str;

const WATCH: [&str; 7] = [
    "watch",
    "3",
    "H",
    "4",
    "pools",
    "programmes",
    "applications",
];

const BOTH_FIRST: &str =
    "applicant,place,programme,score\nx,1,a,10\nx,2,b,10\ny,1,a,8\ny,2,b,8\nz,1,b,9\n";

const BOTH_FIRST_HEAD: &str =
    "result,1,,\nrule,H,,\nlimit,A,9,1\nlimit,B,9,1\nadmit,x,1,a\nadmit,y,0,\n\
    admit,z,1,b\nraise,";

// Tables with headers alone.
fn no_pools() -> Inputs<'static> {
    Inputs {
        pools: POOL_HEADER.as_bytes(),
        programmes: b"programme,pool\n",
        applications: NOBODY.as_bytes(),
        ..displaced()
    }
}

// The tables of "both prefer the first".
fn both_first() -> Inputs<'static> {
    Inputs {
        applications: BOTH_FIRST.as_bytes(),
        ..displaced()
    }
}

// Runs a command that ends with this status: what it put, where there is room for so many bytes.
fn watched<R: Abort + AllocGlobal + Threads + Sync>(
    rt: &R,
    words: &[&str],
    inputs: Inputs<'_>,
    room: usize,
    status: u8,
) -> Result<MemSink, Fail> {
    let words = words_of(rt.alloc(), words)?;
    let mut shelf = shelf_of(rt.alloc(), inputs)?;
    let mut out = MemSink::new(rt.alloc(), room)?;
    let mut err = MemSink::new(rt.alloc(), 1000)?;
    let ended = run(
        rt,
        rt.alloc(),
        &words,
        &mut shelf,
        &mut out,
        &mut err,
        &OpenGate,
    );
    assert_eq!(rt; ended.status, status);
    assert_eq!(rt; ended.receipt.is_some(), status == 0);
    Ok(out)
}

// The number that a field of a record is.
fn number_at(record: &str, place: usize) -> u32 {
    let field = record.split(',').nth(place).unwrap_or("");
    field.parse::<u32>().unwrap_or(u32::MAX)
}

// The records of the looks: their numbers rise from 1 to at most 3, and the limits of a pool rise to
// at most 9.
fn expect_rising<R: Abort + AllocGlobal>(rt: &R, looks: &str) -> Result<(), Fail> {
    let mut last = 1;
    let (mut a, mut b) = (0, 0);
    for record in looks.lines() {
        let (look, limit) = (number_at(record, 1), number_at(record, 3));
        assert!(rt; last <= look && look <= 3, "{record}");
        assert!(rt; limit <= 9, "{record}");
        last = look;
        if record.split(',').nth(2) == Some("A") {
            assert!(rt; a < limit, "{record}");
            a = limit;
        } else {
            assert!(rt; b < limit, "{record}");
            b = limit;
        }
    }
    Ok(())
}

// The records of the looks, and the document after them.
fn parts_of(text: &str) -> (&str, &str) {
    match text.find("result,") {
        Some(at) => (&text[..at], &text[at..]),
        None => (text, ""),
    }
}

#[test]
fn watched_clearing(rt: HostRuntime) -> Result<(), Fail> {
    let words = [
        "watch",
        "1",
        "H",
        "1",
        "pools",
        "programmes",
        "applications",
    ];
    expect(
        &rt,
        "no pools",
        &words,
        no_pools(),
        done("result,1,,\nrule,H,,\nend,2,,\n"),
    )?;
    let out = watched(&rt, &WATCH, both_first(), 1000, 0)?;
    let text = str::from_utf8(out.bytes()).unwrap_or("");
    let (looks, document) = parts_of(text);
    expect_rising(&rt, looks)?;
    assert!(rt; document.starts_with(BOTH_FIRST_HEAD));
    let cleared = Inputs {
        document: document.as_bytes(),
        ..both_first()
    };
    expect(&rt, "document", &CHECK, cleared, done("verdict,Yes,,\n"))
}

#[test]
fn most_looks_and_workers(rt: HostRuntime) -> Result<(), Fail> {
    let words = [
        "watch",
        "100",
        "H",
        "64",
        "pools",
        "programmes",
        "applications",
    ];
    let _out = watched(&rt, &words, displaced(), 10_000, 0)?;
    Ok(())
}

// A sink that fails inside the record of a look, or, where no look saw a limit, inside the document's
// first.
#[test]
fn narrow_sink(rt: HostRuntime) -> Result<(), Fail> {
    let out = watched(&rt, &WATCH, displaced(), 5, 5)?;
    assert!(rt; is_text(out.bytes(), "seen,") || is_text(out.bytes(), "resul"));
    Ok(())
}

// No file is fetched: the first fetch would fail.
#[test]
fn refused_look_counts(rt: HostRuntime) -> Result<(), Fail> {
    for looks in ["0", "101"] {
        let words = ["watch", looks, "H", "1", "p", "g", "a"];
        let inputs = Inputs {
            fails: &[1],
            ..displaced()
        };
        let out = watched(&rt, &words, inputs, 1000, 2)?;
        assert!(rt; is_text(out.bytes(), ""), "{looks}");
    }
    Ok(())
}
