use super::*;
use sl_choices::read_choices;
use sl_codes::{Cause, ReadError, Table, TableFault};
use sl_instance::{Named, assemble};
use sl_pools::{read_pools, read_programmes};
use sl_types::Rule;
use std::alloc::{AllocError, Global};
use std::process::Abort;
use std::test::Fail;

mod amended;
mod drafts;
mod table_texts;

const HEADER: &str = "kind,subject,place,programme,number\n";

// Displaced twice: two pools of one place each.
const POOLS: &str = "pool,quota,parent,kind\nA,1,,score\nB,1,,score\n";

const PROGRAMMES: &str = "programme,pool\na,A\nb,B\n";

const CHOICES: &str =
    "applicant,place,programme,score\nx,1,a,10\nx,2,b,10\ny,1,b,9\ny,2,a,12\nz,1,b,11\n";

// Nested pools: C and D lie in R.
const NESTED: &str = "pool,quota,parent,kind\nR,2,,merit\nC,1,R,merit\nD,2,R,merit\n";

const NESTED_PROGRAMMES: &str = "programme,pool\nc,C\nd,D\nr,R\n";

const MERITS: &str = "applicant,place,programme,score\nm9,1,c,9\nm8,1,c,8\nm7,1,d,7\nm6,1,d,6\n";

fn tables(alloc: Global, pools: &str, progs: &str, choices: &str) -> Result<Named, ReadError> {
    let pools = read_pools(alloc, pools.as_bytes(), Rule::H)?;
    let progs = read_programmes(alloc, progs.as_bytes(), &pools)?;
    let choices = read_choices(alloc, choices.as_bytes(), &pools, &progs)?;
    assemble(alloc, pools, progs, choices)
}

fn displaced(alloc: Global) -> Result<Named, ReadError> {
    tables(alloc, POOLS, PROGRAMMES, CHOICES)
}

fn nested(alloc: Global) -> Result<Named, ReadError> {
    tables(alloc, NESTED, NESTED_PROGRAMMES, MERITS)
}

fn file(alloc: Global, rows: &[u8]) -> Result<Vec<u8>, AllocError> {
    let mut text = Vec::from_slice(alloc, HEADER.as_bytes())?;
    text.extend_from_slice(rows)?;
    Ok(text)
}

fn fault(at: u32, cause: Cause) -> Option<ReadError> {
    let table = Table::Amendments;
    Some(ReadError::Bad(TableFault { table, at, cause }))
}

fn refusal(alloc: Global, named: &Named, rows: &[u8]) -> Result<Option<ReadError>, AllocError> {
    let text = file(alloc, rows)?;
    Ok(read_amendments(alloc, &text, named).err())
}

// Each file is refused at this record for this cause.
fn refuse_all(
    rt: &impl Abort,
    alloc: Global,
    named: &Named,
    cases: &[(&str, u32, Cause)],
) -> Result<(), Fail> {
    for (rows, at, cause) in cases {
        let found = refusal(alloc, named, rows.as_bytes())?;
        assert_eq!(rt; found, fault(*at, *cause));
    }
    Ok(())
}

// Each file is accepted.
fn accept_all(rt: &impl Abort, alloc: Global, named: &Named, cases: &[&str]) -> Result<(), Fail> {
    for rows in cases {
        assert_eq!(rt; refusal(alloc, named, rows.as_bytes())?, None);
    }
    Ok(())
}

fn rows_of(alloc: Global, rows: &str) -> Result<Vec<Row>, ReadError> {
    let text = file(alloc, rows.as_bytes())?;
    read_rows(alloc, &text)
}

fn check_row(rt: &impl Abort, row: &Row, fields: [&[u8]; 5]) {
    for (k, field) in fields.iter().enumerate() {
        assert_eq!(rt; row.fields.get(k), *field);
    }
}

#[test]
fn rows_whatever_their_fields_say(rt: HostRuntime) -> Result<(), Fail> {
    let text = file(rt.alloc(), b"move,\"x,1\",,\xFF,\r\n\r\nnew,y,1,a,5")?;
    let rows = read_rows(rt.alloc(), &text)?;
    assert_eq!(rt; rows.len(), 2);
    let copy = rows[0].copy(rt.alloc())?;
    check_row(&rt, &rows[0], [b"move", b"x,1", b"", b"\xFF", b""]);
    check_row(&rt, &copy, [b"move", b"x,1", b"", b"\xFF", b""]);
    check_row(&rt, &rows[1], [b"new", b"y", b"1", b"a", b"5"]);
    Ok(())
}

#[test]
fn rows_of_another_form(rt: HostRuntime) -> Result<(), Fail> {
    let header = read_rows(rt.alloc(), b"kind,subject\n").err();
    assert_eq!(rt; header, fault(1, Cause::BadHeader));
    let narrow = rows_of(rt.alloc(), "move,x,,,\nmove,x\n").err();
    assert_eq!(rt; narrow, fault(3, Cause::FieldCount));
    Ok(())
}

const REFUSED: &[(&str, u32, Cause)] = &[
    ("move,x,,,\n", 2, Cause::BadKind),
    ("quota,A,1,,2\n", 2, Cause::NotEmpty),
    ("quota,Z,,,2\n", 2, Cause::UnknownPool),
    ("quota,A,,,0\n", 2, Cause::BadQuota),
    ("add,w,1,a,5\n", 2, Cause::UnknownApplicant),
    ("new,x,3,a,5\n", 2, Cause::KnownApplicant),
    ("drop,z,,a,\n", 2, Cause::UnknownChoice),
    ("drop,z,,b,\n", 2, Cause::LastChoice),
    ("add,z,1,a,5\n", 2, Cause::RepeatedPlace),
    ("withdraw,z,,,\nnew,z,1,a,5\n", 3, Cause::KnownApplicant),
    // Each kind once more, from left to right.
    ("quota,A,,,+2\n", 2, Cause::BadNumber),
    ("quota,A,,,1000001\n", 2, Cause::BadQuota),
    ("new,,0,q,x\n", 2, Cause::BadCode),
    ("new,w,0,q,x\n", 2, Cause::BadNumber),
    ("new,w,1,q,x\n", 2, Cause::UnknownProgramme),
    ("new,w,1,a,x\n", 2, Cause::BadNumber),
    ("new,w,1,a,5\nnew,w,1,b,5\n", 3, Cause::RepeatedPlace),
    ("new,w,1,a,5\nnew,w,2,a,5\n", 3, Cause::RepeatedChoice),
    (
        "new,w,1,a,5\nwithdraw,w,,,\nnew,w,1,a,5\n",
        4,
        Cause::KnownApplicant,
    ),
    ("add,z,2,b,x\n", 2, Cause::RepeatedChoice),
    ("drop,z,1,b,1\n", 2, Cause::NotEmpty),
    ("drop,z,,b,1\n", 2, Cause::LastChoice),
    ("drop,x,,b,1\n", 2, Cause::NotEmpty),
    ("drop,x,,q,1\n", 2, Cause::UnknownProgramme),
    ("withdraw,x,,b,\n", 2, Cause::NotEmpty),
    ("score,z,,a,x\n", 2, Cause::UnknownChoice),
    ("score,z,,b,1000001\n", 2, Cause::BadNumber),
    // Before one of a later record, and after one of an earlier.
    ("move,x,,,\nmove,x\n", 2, Cause::BadKind),
    (
        "withdraw,x,,,\nwithdraw,x,,,\nmove,x\n",
        3,
        Cause::UnknownApplicant,
    ),
    ("withdraw,x,,,\nmove,x\n", 3, Cause::FieldCount),
];

const CONFLICTS: &[(&str, u32, Cause)] = &[
    // The first of two rows that name a tied choice, whatever stands in between.
    ("quota,R,,,3\nscore,m8,,c,7\n", 3, Cause::MeritTied),
    ("add,m8,2,d,8\nscore,m7,,d,8\n", 2, Cause::MeritTied),
    ("new,m5,1,c,8\n", 2, Cause::MeritTied),
    ("add,m8,2,d,7\n", 2, Cause::MeritDiffers),
    ("score,m9,,c,6\nadd,m8,2,d,7\n", 3, Cause::MeritDiffers),
    ("new,n,1,c,5\ndrop,m8,,c,\n", 3, Cause::LastChoice),
    // By programme, though the choice was dropped and made again.
    (
        "add,m8,2,d,8\ndrop,m8,,c,\nadd,m8,1,c,3\n",
        2,
        Cause::MeritDiffers,
    ),
];

const NO_CONFLICTS: &[&str] = &[
    // A merit that changes throughout a tree; a tie that a later row ends.
    "add,m8,2,d,8\nscore,m8,,c,5\nscore,m8,,d,5\n",
    "score,m8,,c,7\nscore,m7,,d,8\n",
    "score,m8,,c,7\nwithdraw,m7,,,\n",
    // A choice that is dropped and made again.
    "add,m8,2,d,8\ndrop,m8,,c,\nadd,m8,1,c,8\n",
];

#[test]
fn refused_amendments(rt: HostRuntime) -> Result<(), Fail> {
    let named = displaced(rt.alloc())?;
    refuse_all(&rt, rt.alloc(), &named, REFUSED)
}

#[test]
fn bytes_that_are_no_text(rt: HostRuntime) -> Result<(), Fail> {
    let named = displaced(rt.alloc())?;
    let new = refusal(rt.alloc(), &named, b"new,\xFF,1,a,5\n")?;
    assert_eq!(rt; new, fault(2, Cause::NotText));
    let add = refusal(rt.alloc(), &named, b"add,\xFF,1,a,5\n")?;
    assert_eq!(rt; add, fault(2, Cause::UnknownApplicant));
    Ok(())
}

#[test]
fn merits_in_trees(rt: HostRuntime) -> Result<(), Fail> {
    let named = nested(rt.alloc())?;
    refuse_all(&rt, rt.alloc(), &named, CONFLICTS)?;
    accept_all(&rt, rt.alloc(), &named, NO_CONFLICTS)
}

// A table of so many programmes, and rows that choose as many as they may, from the last place on.
fn longest(alloc: Global) -> Result<(String, String), AllocError> {
    let mut progs = String::from_str(alloc, "programme,pool\n")?;
    let mut rows = String::new(alloc);
    for row in 0u32..64 {
        write!(progs, "g{row},B\n")?;
        write!(rows, "new,w,{},g{row},1\n", 64 - row)?;
    }
    Ok((progs, rows))
}

#[test]
fn longest_list(rt: HostRuntime) -> Result<(), Fail> {
    let (progs, mut rows) = longest(rt.alloc())?;
    let choices = "applicant,place,programme,score\n";
    let named = tables(rt.alloc(), POOLS, &progs, choices)?;
    assert_eq!(rt; refusal(rt.alloc(), &named, rows.as_bytes())?, None);
    rows.push_str("add,w,0,q,x\n")?;
    let found = refusal(rt.alloc(), &named, rows.as_bytes())?;
    assert_eq!(rt; found, fault(66, Cause::ListTooLong));
    Ok(())
}
