ghost use Rattle.std.specs.Prelude.{true};

use super::*;

#[test]
fn a_document_reads_as_it_says(rt: HostRuntime) -> Result<(), Fail> {
    text_reads_back();
    let named = displaced_twice(rt.alloc())?;
    let doc = read(rt.alloc(), DISPLACED.as_bytes(), &named, Rule::H)?;
    assert_eq!(rt; doc.limits.as_slice(), [11, 11].as_slice());
    assert_eq!(rt; doc.counts.as_slice(), [1, 1].as_slice());
    assert_eq!(rt; doc.admitted.as_slice(), [2, 1, 0].as_slice());
    let raises = [
        Raise { pool: B, limit: 10 },
        Raise { pool: A, limit: 11 },
        Raise { pool: B, limit: 11 },
    ];
    assert_eq!(rt; doc.raises.as_slice(), raises.as_slice());
    Ok(())
}

const CHANGES: [(usize, &str, u32, Cause); 33] = [
    (1, "result,2,,", 1, Cause::BadHeader),
    (1, "result,01,,", 1, Cause::BadHeader),
    (1, "result,1,", 1, Cause::BadHeader),
    (2, "limit,L,1,", 2, Cause::OutOfOrder),
    (2, "rule,L,1,", 2, Cause::RuleDiffers),
    (2, "rule,H,1,", 2, Cause::NotEmpty),
    (2, "rule,H,,1", 2, Cause::NotEmpty),
    (3, "limit,B,11,1", 3, Cause::OutOfOrder),
    (3, "admit,A,11,1", 3, Cause::OutOfOrder),
    (3, "limit,A,1000002,1", 3, Cause::BadNumber),
    (3, "limit,A,11,500001", 3, Cause::BadNumber),
    (3, "limit,A,11,", 3, Cause::BadNumber),
    (6, "admit,x,2,a", 6, Cause::OutOfOrder),
    (6, "admit,y,1000001,q", 6, Cause::BadNumber),
    (6, "admit,y,1,a", 6, Cause::UnknownChoice),
    (6, "admit,y,2,c", 6, Cause::UnknownChoice),
    (6, "admit,y,2,", 6, Cause::UnknownChoice),
    (6, "admit,y,0,a", 6, Cause::UnknownChoice),
    (6, "admit,y,2,a,", 6, Cause::FieldCount),
    (7, "end,6,,", 7, Cause::OutOfOrder),
    (8, "limit,A,11,1", 8, Cause::OutOfOrder),
    (8, "raise,Z,0,1", 8, Cause::UnknownPool),
    (8, "raise,B,0,1", 8, Cause::BadNumber),
    (8, "raise,B,1000002,", 8, Cause::BadNumber),
    (8, "raise,B,10,1", 8, Cause::NotEmpty),
    (8, "end,7,,", 9, Cause::AfterEnd),
    (11, "end,,1,", 11, Cause::BadNumber),
    (11, "end,9,1,", 11, Cause::BadEnd),
    (11, "end,10,1,", 11, Cause::NotEmpty),
    (11, "end,10,,1", 11, Cause::NotEmpty),
    (11, "end,10,,\nend,11,,", 12, Cause::AfterEnd),
    (11, "end,10,,\nend", 12, Cause::FieldCount),
    (11, "", 11, Cause::NoEnd),
];

// The fault of the document of "displaced twice" with another record in one place.
fn fault_of_changed(
    alloc: Global,
    named: &Named,
    at: usize,
    record: &str,
) -> Result<Option<ReadError>, AllocError> {
    let text = changed(alloc, at, record)?;
    Ok(read(alloc, text.as_bytes(), named, Rule::H).err())
}

fn expect_faults<R: Abort + AllocGlobal>(rt: &R, named: &Named) -> Result<(), Fail> {
    for (row, record, at, cause) in &CHANGES {
        let found = fault_of_changed(rt.alloc(), named, *row, record)?;
        assert_eq!(rt; found, fault(*at, *cause), "{record}");
    }
    Ok(())
}

#[test]
fn changed_records(rt: HostRuntime) -> Result<(), Fail> {
    let named = displaced_twice(rt.alloc())?;
    expect_faults(&rt, &named)
}

#[test]
fn another_rule(rt: HostRuntime) -> Result<(), Fail> {
    let named = displaced_twice(rt.alloc())?;
    let found = read(rt.alloc(), DISPLACED.as_bytes(), &named, Rule::L).err();
    assert_eq!(rt; found, fault(2, Cause::RuleDiffers));
    Ok(())
}

// The fault of the first bytes of a text: it lacks its end, or breaks off in a record that is then wrong. The
// line end after the end may lack.
fn expect_cut<R: Abort + AllocGlobal>(
    rt: &R,
    named: &Named,
    length: usize,
    at: u32,
    is_line: bool,
) {
    let text = DISPLACED.as_bytes();
    match read(
        rt.alloc(),
        text.get(..length).unwrap_or(text),
        named,
        Rule::H,
    ) {
        Ok(_) => assert_eq!(rt; length, text.len().saturating_sub(1)),
        Err(ReadError::Bad(fault)) => {
            assert_eq!(rt; fault.at, at, "{length}");
            assert!(rt; !is_line || fault.cause == Cause::NoEnd, "{length}");
        }
        Err(ReadError::OutOfMemory) => assert!(rt; false, "{length}"),
    }
}

fn expect_cuts<R: Abort + AllocGlobal>(rt: &R, named: &Named) {
    let mut line: u32 = 1;
    for (length, next) in DISPLACED.as_bytes().iter().enumerate() {
        if *next == b'\n' {
            line = line.saturating_add(1);
            expect_cut(rt, named, length, line, true);
        } else {
            expect_cut(rt, named, length, line, false);
        }
    }
}

#[test]
fn cut_after_every_byte(rt: HostRuntime) -> Result<(), Fail> {
    let named = displaced_twice(rt.alloc())?;
    expect_cuts(&rt, &named);
    Ok(())
}
