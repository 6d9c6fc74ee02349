use super::{NESTED, NESTED_PROGRAMMES, displaced, file, nested, tables};
use crate::{amend, read_amendments, table_text};
use sl_codes::Table;
use sl_instance::Named;
use sl_io::{MemSink, WriteError};
use std::alloc::{AllocGlobal, Global};
use std::process::Abort;
use std::test::Fail;

// The instance with these rows, of which no raises are kept.
fn amended(alloc: Global, named: &Named, rows: &str) -> Result<Named, Fail> {
    let text = file(alloc, rows.as_bytes())?;
    let rows = read_amendments(alloc, &text, named)?;
    let (amended, _) = amend(alloc, named, &rows, &[])?;
    Ok(amended)
}

fn expect_pools<R: Abort + AllocGlobal>(rt: &R, named: &Named, text: &str) -> Result<(), Fail> {
    let mut out = MemSink::new(rt.alloc(), 1000)?;
    assert_eq!(rt;
        table_text(rt.alloc(), named, Table::Pools, &mut out),
        Ok(())
    );
    assert_eq!(rt; out.bytes(), text.as_bytes());
    Ok(())
}

fn expect_applications<R: Abort + AllocGlobal>(
    rt: &R,
    named: &Named,
    text: &str,
) -> Result<(), Fail> {
    let mut out = MemSink::new(rt.alloc(), 1000)?;
    assert_eq!(rt;
        table_text(rt.alloc(), named, Table::Applications, &mut out),
        Ok(())
    );
    assert_eq!(rt; out.bytes(), text.as_bytes());
    Ok(())
}

const LATE_APPLICANT: &str = "\
applicant,place,programme,score\n\
x,1,a,10\n\
x,2,b,10\n\
y,1,b,9\n\
y,2,a,12\n\
z,1,b,11\n\
w,1,b,20\n";

// The round with a late applicant.
#[test]
fn amended_application_table(rt: HostRuntime) -> Result<(), Fail> {
    let named = displaced(rt.alloc())?;
    let late = amended(rt.alloc(), &named, "new,w,1,b,20\n")?;
    expect_applications(&rt, &late, LATE_APPLICANT)
}

// Rows of the file in another order, and places with gaps.
#[test]
fn by_applicant_and_place(rt: HostRuntime) -> Result<(), Fail> {
    let choices = "applicant,place,programme,score\nz,90,c,7\ny,5,d,0\nz,2,d,7\n";
    let named = tables(rt.alloc(), NESTED, NESTED_PROGRAMMES, choices)?;
    let sorted = "applicant,place,programme,score\nz,2,d,7\nz,90,c,7\ny,5,d,0\n";
    expect_applications(&rt, &named, sorted)
}

#[test]
fn amended_pool_table(rt: HostRuntime) -> Result<(), Fail> {
    let named = nested(rt.alloc())?;
    expect_pools(&rt, &named, NESTED)?;
    let changed = amended(rt.alloc(), &named, "quota,D,,,1000000\n")?;
    let text = "pool,quota,parent,kind\nR,2,,merit\nC,1,R,merit\nD,1000000,R,merit\n";
    expect_pools(&rt, &changed, text)
}

const QUOTED: &str = "\
pool,quota,parent,kind\n\
BME-VIK,1,,score\n\
\"TTK, nappali\",2,\"ELTE \"\"IK\"\"\",merit\n\
\"ELTE \"\"IK\"\"\",3,,merit\n";

// A parent after its child, and codes that need quotes.
#[test]
fn codes_that_need_quotes(rt: HostRuntime) -> Result<(), Fail> {
    let progs = "programme,pool\n\"a,b\",BME-VIK\n";
    let choices = "applicant,place,programme,score\n\"\"\"q\"\"\",2,\"a,b\",452\n";
    let named = tables(rt.alloc(), QUOTED, progs, choices)?;
    expect_pools(&rt, &named, QUOTED)?;
    expect_applications(&rt, &named, choices)
}

#[test]
fn no_pools(rt: HostRuntime) -> Result<(), Fail> {
    let pools = "pool,quota,parent,kind\n";
    let choices = "applicant,place,programme,score\n";
    let named = tables(rt.alloc(), pools, "programme,pool\n", choices)?;
    expect_pools(&rt, &named, pools)?;
    expect_applications(&rt, &named, choices)
}

// A sink with too little room takes the first bytes, wherever in a record it ends.
fn expect_broken<R: Abort + AllocGlobal>(
    rt: &R,
    named: &Named,
    text: &[u8],
    room: usize,
) -> Result<(), Fail> {
    let mut out = MemSink::new(rt.alloc(), room)?;
    let found = table_text(rt.alloc(), named, Table::Applications, &mut out);
    assert_eq!(rt; found, Err(WriteError::Fault));
    assert!(rt; Some(out.bytes()) == text.get(..room));
    Ok(())
}

#[test]
fn narrow_sinks(rt: HostRuntime) -> Result<(), Fail> {
    let named = displaced(rt.alloc())?;
    let late = amended(rt.alloc(), &named, "new,w,1,b,20\n")?;
    let text = LATE_APPLICANT.as_bytes();
    for room in 0..text.len() {
        expect_broken(&rt, &late, text, room)?;
    }
    Ok(())
}
