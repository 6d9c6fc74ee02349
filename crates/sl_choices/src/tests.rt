use super::*;
use sl_codes::{Cause, ReadError, Table, TableFault};
use sl_pools::{read_pools, read_programmes};
use sl_types::{AppId, ProgId, Rule};
use std::alloc::{AllocError, Global};
use std::test::Fail;

const CHOICES: &str = "applicant,place,programme,score\n";

const AB: &str = "pool,quota,parent,kind\nA,1,,score\nB,2,,score\n";

const PROGRAMMES: &str = "programme,pool\na,A\nb,B\n\"c,1\",B\n";

fn joined(alloc: Global, header: &str, rows: &[u8]) -> Result<Vec<u8>, AllocError> {
    let mut text = Vec::from_slice(alloc, header.as_bytes())?;
    text.extend_from_slice(rows)?;
    Ok(text)
}

fn fault(at: u32, cause: Cause) -> Option<ReadError> {
    let table = Table::Applications;
    Some(ReadError::Bad(TableFault { table, at, cause }))
}

fn read(alloc: Global, programmes: &str, text: &[u8]) -> Result<ChoiceTable, ReadError> {
    let pools = read_pools(alloc, AB.as_bytes(), Rule::H)?;
    let progs = read_programmes(alloc, programmes.as_bytes(), &pools)?;
    read_choices(alloc, text, &pools, &progs)
}

// So many programmes `g0`, `g1` and on, whose numbers are those in their codes.
fn numbered(alloc: Global, programmes: u32) -> Result<String, AllocError> {
    let mut text = String::from_str(alloc, "programme,pool\n")?;
    for number in 0..programmes {
        write!(text, "g{number},B\n")?;
    }
    Ok(text)
}

fn refusal(alloc: Global, header: &str, rows: &[u8]) -> Result<Option<ReadError>, AllocError> {
    let text = joined(alloc, header, rows)?;
    Ok(read(alloc, PROGRAMMES, &text).err())
}

#[test]
fn headers(rt: HostRuntime) -> Result<(), Fail> {
    for header in [
        "",
        "applicant;place;programme;score\n",
        "applicant,place,programme\n",
        "applicant,place,programme,score,\n",
        "\u{FEFF}\u{FEFF}applicant,place,programme,score\n",
    ] {
        let found = refusal(rt.alloc(), header, b"x,1,a,10\n")?;
        assert_eq!(rt; found, fault(1, Cause::BadHeader), "{header}");
    }
    Ok(())
}

#[test]
fn wrong_choices(rt: HostRuntime) -> Result<(), Fail> {
    for (rows, at, cause) in [
        // Each cause of a record alone.
        ("x,1,a\n", 2, Cause::FieldCount),
        (",1,a,10\n", 2, Cause::BadCode),
        ("x,0,a,10\n", 2, Cause::BadNumber),
        ("x,1000001,a,10\n", 2, Cause::BadNumber),
        ("x,+1,a,10\n", 2, Cause::BadNumber),
        ("x,1,a,10\nx,1,b,9\n", 3, Cause::RepeatedPlace),
        ("x,1,a,10\nx,01,b,9\n", 3, Cause::RepeatedPlace),
        ("x,1,q,10\n", 2, Cause::UnknownProgramme),
        ("x,1,A,10\n", 2, Cause::UnknownProgramme),
        ("x,1,a,10\nx,2,a,9\n", 3, Cause::RepeatedChoice),
        ("x,1,a,1000001\n", 2, Cause::BadNumber),
        ("x,1,a,\n", 2, Cause::BadNumber),
        // Of an applicant whose rows stand apart.
        (
            "x,1,a,10\ny,1,a,10\nx,2,b,9\ny,2,b,9\nx,1,\"c,1\",8\n",
            6,
            Cause::RepeatedPlace,
        ),
        (
            "x,1,a,10\ny,1,b,10\nx,2,b,9\ny,2,a,9\r\nx,3,a,8\n",
            6,
            Cause::RepeatedChoice,
        ),
        // Before another of the same record.
        (",0,q\n", 2, Cause::FieldCount),
        (",0,q,x\n", 2, Cause::BadCode),
        ("x,0,q,x\n", 2, Cause::BadNumber),
        ("x,1,a,10\nx,1,q,x\n", 3, Cause::RepeatedPlace),
        ("x,1,q,x\n", 2, Cause::UnknownProgramme),
        ("x,1,a,10\nx,2,a,x\n", 3, Cause::RepeatedChoice),
        // Before one of a later record.
        ("x,1,a,x\nx,1\n", 2, Cause::BadNumber),
    ] {
        let found = refusal(rt.alloc(), CHOICES, rows.as_bytes())?;
        assert_eq!(rt; found, fault(at, cause), "{rows}");
    }
    Ok(())
}

#[test]
fn bytes_that_are_no_text(rt: HostRuntime) -> Result<(), Fail> {
    for (rows, cause) in [
        (b"\xFF,0,q,x\n".as_slice(), Cause::NotText),
        (b"x,\xFF,q,x\n".as_slice(), Cause::BadNumber),
        (b"x,1,\xFF,x\n".as_slice(), Cause::UnknownProgramme),
        (b"x,1,a,\xFF\n".as_slice(), Cause::BadNumber),
    ] {
        let found = refusal(rt.alloc(), CHOICES, rows)?;
        assert_eq!(rt; found, fault(2, cause));
    }
    Ok(())
}

#[test]
fn rows_apart(rt: HostRuntime) -> Result<(), Fail> {
    let rows = b"\"y,1\",7,\"c,1\",0\r\nx,01,a,000001000\r\ny,1000000,a,1000000\r\n\"y,1\",2,a,5";
    let text = joined(rt.alloc(), CHOICES, rows)?;
    let table = read(rt.alloc(), PROGRAMMES, &text)?;
    assert_eq!(rt; table.codes().find("y,1"), Some(0));
    assert_eq!(rt; table.codes().find("x"), Some(1));
    assert_eq!(rt; table.codes().find("y"), Some(2));
    let mut wanted = Vec::new(rt.alloc());
    for (app, place, prog, score) in [
        (0, 7, 2, 0),
        (1, 1, 0, 1000),
        (2, 1_000_000, 0, 1_000_000),
        (0, 2, 0, 5),
    ] {
        wanted.push(ChoiceRow {
            app: AppId(app),
            place,
            prog: ProgId(prog),
            score,
        })?;
    }
    assert_eq!(rt; table.rows(), wanted.as_slice());
    let mut own = Vec::new(rt.alloc());
    table.find_own(AppId(0), &mut own)?;
    assert_eq!(rt; own.len(), 2);
    assert_eq!(rt; own.first(), wanted.last());
    assert_eq!(rt; own.last(), wanted.first());
    assert_eq!(rt; table.into_codes().len(), 3);
    Ok(())
}

#[test]
fn no_choices(rt: HostRuntime) -> Result<(), Fail> {
    let table = read(rt.alloc(), PROGRAMMES, CHOICES.as_bytes())?;
    assert_eq!(rt; table.codes().len() + table.rows().len(), 0);
    Ok(())
}

#[test]
fn longest_list(rt: HostRuntime) -> Result<(), Fail> {
    let programmes = numbered(rt.alloc(), 65)?;
    let mut text = String::from_str(rt.alloc(), CHOICES)?;
    for row in 0..64 {
        write!(text, "x,{},g{row},1\ny{row},1,g0,1\n", row + 1)?;
    }
    let table = read(rt.alloc(), &programmes, text.as_bytes())?;
    assert_eq!(rt; table.codes().len(), 65);
    assert_eq!(rt; table.rows().len(), 128);
    text.push_str("x,0,q,x\n")?;
    let found = read(rt.alloc(), &programmes, text.as_bytes()).err();
    assert_eq!(rt; found, fault(130, Cause::ListTooLong));
    Ok(())
}

// The places 1 and 33 share a bit of an applicant's marks, and so do the programmes 0 and 32.
#[test]
fn shared_bits(rt: HostRuntime) -> Result<(), Fail> {
    let programmes = numbered(rt.alloc(), 33)?;
    for (row, wanted) in [
        ("x,65,g1,1\n", None),
        ("x,1,g1,1\n", fault(4, Cause::RepeatedPlace)),
        ("x,33,g1,1\n", fault(4, Cause::RepeatedPlace)),
        ("x,2,g0,1\n", fault(4, Cause::RepeatedChoice)),
        ("x,2,g32,1\n", fault(4, Cause::RepeatedChoice)),
    ] {
        let mut text = String::from_str(rt.alloc(), CHOICES)?;
        text.push_str("x,1,g0,1\nx,33,g32,1\n")?;
        text.push_str(row)?;
        let found = read(rt.alloc(), &programmes, text.as_bytes()).err();
        assert_eq!(rt; found, wanted, "{row}");
    }
    Ok(())
}
