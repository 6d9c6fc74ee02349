ghost use Rattle.std.specs.Prelude.{◌≡◌, OnOk};
ghost use Rattle.sl_laws.specs.Raises.{Replays};
ghost use Rattle.sl_contend.specs.Contention.{contention_of};

use super::{NESTED, NESTED_PROGRAMMES, displaced, file, tables};
use crate::{amend, read_amendments};
use sl_codes::Codes;
use sl_contend::Contenders;
use sl_instance::Named;
use sl_nested::Mixed;
use sl_proof::Replay;
use sl_types::{AppId, Instance, PoolId, Raise};
use std::alloc::Global;
use std::process::Abort;
use std::test::Fail;

const A: PoolId = PoolId(0);

const B: PoolId = PoolId(1);

// The raises of `displaced`.
const DISPLACING: [Raise; 3] = [
    Raise { pool: B, limit: 10 },
    Raise { pool: A, limit: 11 },
    Raise { pool: B, limit: 11 },
];

// An applicant: their code, and their choices as place, programme and score.
type Member = (&'static str, &'static [(u32, u32, u32)]);

const X: Member = ("x", &[(1, 0, 10), (2, 1, 10)]);

const Y: Member = ("y", &[(1, 1, 9), (2, 0, 12)]);

const Z: Member = ("z", &[(1, 1, 11)]);

// The raises replay.
fn replays(
    rt: &impl Abort,
    alloc: Global,
    instance: &Instance,
    contenders: &Contenders,
    raises: &[Raise],
) -> Result<(), Fail>
    requires { contenders.now ≡ contention_of instance.now }
    ensures { OnOk result (Replays instance.now raises.now) }
{
    let mut replay = Replay::new(alloc, instance, contenders)?;
    for raise in raises {
        assert!(rt; (raise.pool.0 as usize) < instance.pools());
        let Ok(()) = replay.add(&Mixed, *raise) else {
            panic!(rt; "a raise is unjust");
        };
    }
    Ok(())
}

// The list of an applicant.
fn check_list(rt: &impl Abort, instance: &Instance, number: usize, wanted: &[(u32, u32, u32)]) {
    assert!(rt; number < instance.applicants());
    let list = instance.list(AppId(number as u32));
    assert_eq!(rt; list.len(), wanted.len());
    for (choice, wanted) in list.iter().zip(wanted) {
        assert_eq!(rt; (choice.place, choice.prog.0, choice.score), *wanted);
    }
}

// Just these applicants, in this order.
fn check_members(rt: &impl Abort, named: &Named, members: &[Member]) {
    let codes: &Codes = named.app_codes();
    assert_eq!(rt; named.instance().applicants(), members.len());
    assert_eq!(rt; codes.len(), members.len());
    for (number, (code, wanted)) in members.iter().enumerate() {
        assert!(rt; number < codes.len());
        assert_eq!(rt; codes.text(number as u32), *code);
        check_list(rt, named.instance(), number, wanted);
    }
}

// The instance that rows lead to, and the raises that are kept.
fn amended(
    alloc: Global,
    named: &Named,
    rows: &str,
    raises: &[Raise],
) -> Result<(Named, Vec<Raise>), Fail>
    requires { Replays named.now.market raises.now }
{
    let text = file(alloc, rows.as_bytes())?;
    let rows = read_amendments(alloc, &text, named)?;
    Ok(amend(alloc, named, &rows, raises)?)
}

// The rows lead to these applicants, and these of the raises are kept, which replay.
fn amends(
    rt: &impl Abort,
    alloc: Global,
    named: &Named,
    rows: &str,
    raises: &[Raise],
    members: &[Member],
    wanted: &[Raise],
) -> Result<(), Fail> {
    let contenders = Contenders::new(alloc, named.instance())?;
    replays(rt, alloc, named.instance(), &contenders, raises)?;
    let (amended, kept) = amended(alloc, named, rows, raises)?;
    check_members(rt, &amended, members);
    assert_eq!(rt; kept.as_slice(), wanted);
    let contenders = Contenders::new(alloc, amended.instance())?;
    replays(rt, alloc, amended.instance(), &contenders, &kept)
}

// A new applicant touches no pool, and stands last.
#[test]
fn late_applicant(rt: HostRuntime) -> Result<(), Fail> {
    let named = displaced(rt.alloc())?;
    let rows = "new,w,1,b,20\n";
    let members = [X, Y, Z, ("w", [(1, 1, 20)].as_slice())];
    amends(
        &rt,
        rt.alloc(),
        &named,
        rows,
        &DISPLACING,
        &members,
        &DISPLACING,
    )
}

// z, who is gone, had a choice in B, and B feeds A.
#[test]
fn withdrawal(rt: HostRuntime) -> Result<(), Fail> {
    let named = displaced(rt.alloc())?;
    amends(
        &rt,
        rt.alloc(),
        &named,
        "withdraw,z,,,\n",
        &DISPLACING,
        &[X, Y],
        &[],
    )
}

// New applicants stand after those of the tables, whoever of both was withdrawn.
#[test]
fn withdrawn_old_and_new(rt: HostRuntime) -> Result<(), Fail> {
    let named = displaced(rt.alloc())?;
    let rows = "new,w,1,b,20\nwithdraw,x,,,\nnew,v,1,a,5\nwithdraw,w,,,\n";
    let members = [Y, Z, ("v", [(1, 0, 5)].as_slice())];
    amends(&rt, rt.alloc(), &named, rows, &DISPLACING, &members, &[])
}

// Two rows change a merit throughout a tree, all of which it touches. After the first alone the
// applicant would have two merits there.
#[test]
fn merit_throughout_a_tree(rt: HostRuntime) -> Result<(), Fail> {
    let choices = "applicant,place,programme,score\nm9,1,c,9\nm8,1,c,8\nm8,2,d,8\nm7,1,d,7\n";
    let named = tables(rt.alloc(), NESTED, NESTED_PROGRAMMES, choices)?;
    let rows = "score,m8,,c,5\nscore,m8,,d,5\n";
    let members = [
        ("m9", [(1, 0, 9)].as_slice()),
        ("m8", [(1, 0, 5), (2, 1, 5)].as_slice()),
        ("m7", [(1, 1, 7)].as_slice()),
    ];
    let raises = [Raise {
        pool: PoolId(1),
        limit: 9,
    }];
    amends(&rt, rt.alloc(), &named, rows, &raises, &members, &[])
}
