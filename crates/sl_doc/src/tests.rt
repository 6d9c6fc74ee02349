ghost use Rattle.std.specs.Prelude.{◌≡◌, true, IfOk, OnOk};
ghost use Rattle.std.specs.List.{list_all};
ghost use Rattle.sl_codes.specs.Fields.{is_code};
ghost use Rattle.sl_doc.specs.Document.{IsInRange};

use super::*;
use sl_check::Verdict;
use sl_codes::{Cause, Codes, ReadError, Table, TableFault, add_code};
use sl_instance::Named;
use sl_io::{MemSink, WriteError};
use sl_types::{AppId, Entry, Instance, Pool, PoolId, ProgId, Raise, Rule};
use std::alloc::{AllocError, Global};
use std::process::Abort;
use std::test::Fail;

mod printing;
mod reading;

const A: PoolId = PoolId(0);

const B: PoolId = PoolId(1);

// The document of "displaced twice".
const DISPLACED: &str = "\
result,1,,\n\
rule,H,,\n\
limit,A,11,1\n\
limit,B,11,1\n\
admit,x,0,\n\
admit,y,2,a\n\
admit,z,1,b\n\
raise,B,10,\n\
raise,A,11,\n\
raise,B,11,\n\
end,10,,\n";

fn choice(place: u32, prog: u32, score: u32) -> Entry {
    Entry {
        place,
        prog: ProgId(prog),
        score,
    }
}

// Two pools of one place each, with one programme each.
fn instance(alloc: Global, lists: Vec<Vec<Entry>>) -> Result<Instance, Fail> {
    let pool = Pool {
        quota: 1,
        parent: None,
        rule: Rule::H,
    };
    Ok(Instance::new(
        alloc,
        vec![in alloc; pool; 2]?,
        vec![in alloc; A, B]?,
        lists,
    )?)
}

// Adds a code.
#[tactic(auto, using(crate::proofs::Lines::codes_more))]
fn add(codes: &mut Codes, text: &str) -> Result<(), Fail>
    requires { list_all is_code codes.old ≡ true }
    ensures { OnOk result (list_all is_code codes.new ≡ true) }
{
    if codes.len() >= 1_000_000 {
        return Err(AllocError.into());
    }
    add_code(codes, text.as_bytes(), Cause::RepeatedPool)?;
    Ok(())
}

fn codes_of(alloc: Global, texts: &[&str]) -> Result<Codes, Fail>
    ensures { IfOk result (λ codes. list_all is_code codes ≡ true) }
{
    let mut codes = Codes::new(alloc);
    for text in texts {
        add(&mut codes, text)?;
    }
    Ok(codes)
}

// An instance with its codes, where there is one for each pool, programme and applicant.
fn join(instance: Instance, pools: Codes, progs: Codes, apps: Codes) -> Result<Named, Fail>
    requires pools { list_all is_code pools ≡ true }
    requires progs { list_all is_code progs ≡ true }
    requires apps { list_all is_code apps ≡ true }
{
    if pools.len() != instance.pools()
        || progs.len() != instance.progs()
        || apps.len() != instance.applicants()
    {
        return Err(AllocError.into());
    }
    Ok(Named::new(instance, pools, progs, apps))
}

// An instance of two pools with these codes of pools, programmes and applicants.
fn named(
    alloc: Global,
    instance: Instance,
    pools: &[&str],
    progs: &[&str],
    apps: &[&str],
) -> Result<Named, Fail> {
    let pools = codes_of(alloc, pools)?;
    let progs = codes_of(alloc, progs)?;
    let apps = codes_of(alloc, apps)?;
    join(instance, pools, progs, apps)
}

// x prefers a; y and z prefer b.
fn displaced_twice(alloc: Global) -> Result<Named, Fail> {
    let x = vec![in alloc; choice(1, 0, 10), choice(2, 1, 10)]?;
    let y = vec![in alloc; choice(1, 1, 9), choice(2, 0, 12)]?;
    let z = vec![in alloc; choice(1, 1, 11)]?;
    let instance = instance(alloc, vec![in alloc; x, y, z]?)?;
    named(alloc, instance, &["A", "B"], &["a", "b"], &["x", "y", "z"])
}

// The same with codes that have to be quoted.
fn quoted_codes(alloc: Global) -> Result<Named, Fail> {
    let (instance, ..) = displaced_twice(alloc)?.into_parts();
    named(
        alloc,
        instance,
        &["ELTE IK, nappali", "He said \"no\""],
        &["ELTE-PTI", "BME,INF"],
        &["\u{C1}-71001", "\"q\"", "z"],
    )
}

fn read(alloc: Global, text: &[u8], named: &Named, rule: Rule) -> Result<Doc, ReadError>
    ensures { IfOk result (IsInRange named.now) }
{
    if text.len() > 1 << 28 {
        return Err(ReadError::OutOfMemory);
    }
    read_doc(alloc, text, named, rule)
}

fn fault(at: u32, cause: Cause) -> Option<ReadError> {
    let table = Table::Results;
    Some(ReadError::Bad(TableFault { table, at, cause }))
}

// The document of "displaced twice" with another record in one place.
fn changed(alloc: Global, at: usize, record: &str) -> Result<String, AllocError> {
    let mut text = String::new(alloc);
    for (row, line) in DISPLACED.lines().enumerate() {
        text.push_str(if row + 1 == at { record } else { line })?;
        text.push_str("\n")?;
    }
    Ok(text)
}
