use super::*;
use sl_desk::OpenGate;
use sl_io::{MemShelf, MemSink};
use std::alloc::{AllocError, Global};
use std::process::Abort;
use std::test::Fail;
use std::thread::Threads;

mod amending;
mod checking;
mod clearing;
mod demo;
mod faults;
mod fetching;
mod meeting;
mod nesting;
mod refusals;
mod replaying;
mod verdicts;
mod watching;

const POOL_HEADER: &str = "pool,quota,parent,kind\n";

const TWO_POOLS: &str = "pool,quota,parent,kind\nA,1,,score\nB,1,,score\n";

const TWO_PROGRAMMES: &str = "programme,pool\na,A\nb,B\n";

const ONE_POOL: &str = "pool,quota,parent,kind\nA,1,,score\n";

const ONE_PROGRAMME: &str = "programme,pool\na,A\n";

const DISPLACED: &str =
    "applicant,place,programme,score\nx,1,a,10\nx,2,b,10\ny,1,b,9\ny,2,a,12\nz,1,b,11\n";

const DISPLACED_TEXT: &str =
    "result,1,,\nrule,H,,\nlimit,A,11,1\nlimit,B,11,1\nadmit,x,0,\nadmit,y,2,a\nadmit,z,1,b\n\
        raise,B,10,\nraise,A,11,\nraise,B,11,\nend,10,,\n";

const NOBODY: &str = "applicant,place,programme,score\n";

const AMENDMENT_HEADER: &str = "kind,subject,place,programme,number\n";

const CLEAR: [&str; 6] = ["clear", "H", "1", "pools", "programmes", "applications"];

const CHECK: [&str; 6] = [
    "check",
    "H",
    "pools",
    "programmes",
    "applications",
    "result",
];

const AMEND: [&str; 8] = [
    "amend",
    "H",
    "1",
    "pools",
    "programmes",
    "applications",
    "result",
    "amendments",
];

const TABLE: [&str; 6] = [
    "table",
    "applications",
    "pools",
    "programmes",
    "applications",
    "amendments",
];

// The files of a command, and the numbers of the fetches that fail.
#[derive(Clone, Copy)]
struct Inputs<'a> {
    pools: &'a [u8],
    programmes: &'a [u8],
    applications: &'a [u8],
    document: &'a [u8],
    amendments: &'a [u8],
    fails: &'a [u64],
}

// The files of "displaced twice".
fn displaced() -> Inputs<'static> {
    Inputs {
        pools: TWO_POOLS.as_bytes(),
        programmes: TWO_PROGRAMMES.as_bytes(),
        applications: DISPLACED.as_bytes(),
        document: DISPLACED_TEXT.as_bytes(),
        amendments: AMENDMENT_HEADER.as_bytes(),
        fails: &[],
    }
}

// What a command is to end with, where standard output has this much room.
#[derive(Clone, Copy)]
struct Ending<'a> {
    room: usize,
    status: u8,
    out: &'a str,
    err: &'a str,
}

// It does what it is to do.
fn done(out: &str) -> Ending<'_> {
    Ending {
        room: 1000,
        status: 0,
        out,
        err: "",
    }
}

// It refuses a file.
fn refused(err: &str) -> Ending<'_> {
    Ending {
        room: 1000,
        status: 3,
        out: "",
        err,
    }
}

fn words_of(alloc: Global, words: &[&str]) -> Result<Vec<String>, AllocError> {
    let mut all = Vec::new(alloc);
    for word in words {
        all.push(String::from_str(alloc, word)?)?;
    }
    Ok(all)
}

fn shelf_of(alloc: Global, inputs: Inputs<'_>) -> Result<MemShelf, AllocError> {
    let mut files = Vec::new(alloc);
    for (name, bytes) in [
        ("pools", inputs.pools),
        ("programmes", inputs.programmes),
        ("applications", inputs.applications),
        ("result", inputs.document),
        ("amendments", inputs.amendments),
    ] {
        let name = String::from_str(alloc, name)?;
        files.push((name, Vec::from_slice(alloc, bytes)?))?;
    }
    Ok(MemShelf::new(files, inputs.fails.to_vec(alloc)?))
}

fn is_text(found: &[u8], wanted: &str) -> bool {
    found == wanted.as_bytes()
}

// Runs a command.
fn expect<R: Abort + AllocGlobal + Threads + Sync>(
    rt: &R,
    name: &str,
    words: &[&str],
    inputs: Inputs<'_>,
    ending: Ending<'_>,
) -> Result<(), Fail> {
    let words = words_of(rt.alloc(), words)?;
    let mut shelf = shelf_of(rt.alloc(), inputs)?;
    let mut out = MemSink::new(rt.alloc(), ending.room)?;
    let mut err = MemSink::new(rt.alloc(), 1000)?;
    let ended = run(
        rt,
        rt.alloc(),
        &words,
        &mut shelf,
        &mut out,
        &mut err,
        &OpenGate,
    );
    assert_eq!(rt; ended.status, ending.status, "{name}");
    assert!(rt; is_text(out.bytes(), ending.out), "{name}");
    assert!(rt; is_text(err.bytes(), ending.err), "{name}");
    Ok(())
}
