use super::*;
use sl_codes::{Cause, ReadError, Table, TableFault};
use sl_types::{Pool, PoolId, Rule};
use std::alloc::{AllocError, Global};
use std::test::Fail;

mod pools;
mod programmes;
mod sizes;

const POOLS: &str = "pool,quota,parent,kind\n";

const PROGRAMMES: &str = "programme,pool\n";

const AB: &str = "pool,quota,parent,kind\nA,1,,score\nB,2,,score\n";

fn joined(alloc: Global, header: &str, rows: &[u8]) -> Result<Vec<u8>, AllocError> {
    let mut text = Vec::from_slice(alloc, header.as_bytes())?;
    text.extend_from_slice(rows)?;
    Ok(text)
}

fn fault(table: Table, at: u32, cause: Cause) -> Option<ReadError> {
    Some(ReadError::Bad(TableFault { table, at, cause }))
}

fn pools_refusal(
    alloc: Global,
    header: &str,
    rows: &[u8],
) -> Result<Option<ReadError>, AllocError> {
    let text = joined(alloc, header, rows)?;
    Ok(read_pools(alloc, &text, Rule::H).err())
}

fn programmes_refusal(
    alloc: Global,
    header: &str,
    rows: &[u8],
) -> Result<Option<ReadError>, ReadError> {
    let Ok(text) = joined(alloc, header, rows) else {
        return Err(ReadError::OutOfMemory);
    };
    let pools = read_pools(alloc, AB.as_bytes(), Rule::H)?;
    Ok(read_programmes(alloc, &text, &pools).err())
}

#[test]
fn headers(rt: HostRuntime) -> Result<(), Fail> {
    let bad = fault(Table::Pools, 1, Cause::BadHeader);
    for (header, rows) in [
        ("", ""),
        ("\n\r\n\r", ""),
        ("pool;quota;parent;kind\n", "A;1;;score\n"),
        ("pool,quota,parent\n", "A,1,\n"),
        ("pool,quota,parent,kind,\n", ""),
        ("pool,quota,kind,parent\n", ""),
        (" pool,quota,parent,kind\n", ""),
        ("Pool,quota,parent,kind\n", ""),
        ("\u{FEFF}\u{FEFF}pool,quota,parent,kind\n", "A,1,,score\n"),
        ("\u{FEFF}\u{FEFF}\u{FEFF}pool,quota,parent,kind\n", ""),
        ("", "A,1,,score\n"),
    ] {
        let found = pools_refusal(rt.alloc(), header, rows.as_bytes())?;
        assert_eq!(rt; found, bad, "{header}{rows}");
    }
    let bad = fault(Table::Programmes, 1, Cause::BadHeader);
    for header in ["", "programme;pool\n", "programme\n", POOLS] {
        let found = programmes_refusal(rt.alloc(), header, b"a,A\n")?;
        assert_eq!(rt; found, bad, "{header}");
    }
    Ok(())
}

#[test]
fn bytes_that_are_no_text(rt: HostRuntime) -> Result<(), Fail> {
    for (rows, cause) in [
        (b"\xFF,1,,score\n".as_slice(), Cause::NotText),
        (b"\xFF,x,\xFF,best\n".as_slice(), Cause::NotText),
        (b"A\xC3,1,,score\n".as_slice(), Cause::NotText),
        (b"A,1,\xFF,score\n".as_slice(), Cause::NotText),
        (b"A,1,\xFF,best\n".as_slice(), Cause::NotText),
        (b"A,\xFF,\xFF,score\n".as_slice(), Cause::BadNumber),
        (b"A,1,,\xFF\n".as_slice(), Cause::BadKind),
        (b"\xFF\n".as_slice(), Cause::FieldCount),
    ] {
        let found = pools_refusal(rt.alloc(), POOLS, rows)?;
        assert_eq!(rt; found, fault(Table::Pools, 2, cause));
    }
    for (rows, cause) in [
        (b"\xFF,A\n".as_slice(), Cause::NotText),
        (b"\xFF,Z\n".as_slice(), Cause::NotText),
        (b"a,\xFF\n".as_slice(), Cause::UnknownPool),
    ] {
        let found = programmes_refusal(rt.alloc(), PROGRAMMES, rows)?;
        assert_eq!(rt; found, fault(Table::Programmes, 2, cause));
    }
    Ok(())
}

#[test]
fn only_headers(rt: HostRuntime) -> Result<(), Fail> {
    let pools = read_pools(rt.alloc(), b"pool,quota,parent,kind", Rule::H)?;
    let table = read_programmes(rt.alloc(), b"\"programme\",pool\n", &pools)?;
    assert_eq!(rt; table.pools().len(), 0);
    let (codes, found) = pools.into_parts();
    assert_eq!(rt; codes.len() + found.len(), 0);
    Ok(())
}

#[test]
fn lengths_of_codes(rt: HostRuntime) -> Result<(), Fail> {
    let mut rows = Vec::new(rt.alloc());
    for _ in 0..64 {
        rows.push(b'A')?;
    }
    let mut longer = Vec::from_slice(rt.alloc(), &rows)?;
    rows.extend_from_slice(b",1,,score\n")?;
    longer.extend_from_slice(b"A,1,,score\n")?;
    assert_eq!(rt; pools_refusal(rt.alloc(), POOLS, &rows)?, None);
    let bad = fault(Table::Pools, 2, Cause::BadCode);
    assert_eq!(rt; pools_refusal(rt.alloc(), POOLS, &longer)?, bad);
    Ok(())
}
