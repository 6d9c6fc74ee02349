ghost use Rattle.std.specs.Prelude.{◌≡◌, None};
ghost use Rattle.sl_amend.specs.Conflicts.{conflict_cause};

use super::{displaced, nested, rows_of};
use crate::{Draft, Row};
use sl_codes::Cause;
use std::alloc::Global;
use std::process::Abort;
use std::test::Fail;

// Applies one row; the cause, and how many applicants and applications are present then.
fn apply(
    rt: &impl Abort,
    alloc: Global,
    draft: &mut Draft,
    row: &str,
    answer: (Option<Cause>, usize, usize),
) -> Result<(), Fail> {
    let rows = rows_of(alloc, row)?;
    for row in &rows {
        let cause = draft.apply(row)?;
        assert_eq!(rt; (cause, draft.applicants(), draft.applications()), answer);
    }
    Ok(())
}

#[test]
fn rows_by_themselves(rt: HostRuntime) -> Result<(), Fail> {
    let mut draft = Draft::of(rt.alloc(), &displaced(rt.alloc())?)?;
    for (row, answer) in [
        ("add,z,1,a,5\n", (Some(Cause::RepeatedPlace), 3, 5)),
        ("add,z,2,a,5\n", (None, 3, 6)),
        ("add,z,2,a,5\n", (Some(Cause::RepeatedPlace), 3, 6)),
        ("new,w,7,b,1\n", (None, 4, 7)),
        ("new,w,2,a,1\n", (None, 4, 8)),
        ("drop,z,,b,\n", (None, 4, 7)),
        ("drop,z,,b,\n", (Some(Cause::UnknownChoice), 4, 7)),
        ("withdraw,x,,,\n", (None, 3, 5)),
        ("withdraw,x,,,\n", (Some(Cause::UnknownApplicant), 3, 5)),
    ] {
        apply(&rt, rt.alloc(), &mut draft, row, answer)?;
    }
    Ok(())
}

// Applies one row by itself.
fn alone(
    rt: &impl Abort,
    alloc: Global,
    draft: &mut Draft,
    row: &str,
    answer: (Option<Cause>, usize),
) -> Result<(), Fail>
    requires { conflict_cause draft.old.named.market ≡ None }
    ensures { conflict_cause draft.new.named.market ≡ None }
{
    let rows = rows_of(alloc, row)?;
    if let Some(row) = rows.first() {
        let cause = draft.apply_alone(row)?;
        assert_eq!(rt; (cause, draft.applicants()), answer);
    }
    Ok(())
}

fn all_alone(rt: &impl Abort, alloc: Global, draft: &mut Draft) -> Result<(), Fail>
    requires { conflict_cause draft.old.named.market ≡ None }
{
    alone(
        rt,
        alloc,
        draft,
        "new,m5,1,c,8\n",
        (Some(Cause::MeritTied), 4),
    )?;
    alone(rt, alloc, draft, "new,m5,1,c,5\n", (None, 5))?;
    alone(
        rt,
        alloc,
        draft,
        "add,m5,2,d,4\n",
        (Some(Cause::MeritDiffers), 5),
    )?;
    alone(rt, alloc, draft, "add,m5,2,d,5\n", (None, 5))?;
    alone(
        rt,
        alloc,
        draft,
        "score,m5,,d,4\n",
        (Some(Cause::MeritDiffers), 5),
    )?;
    alone(
        rt,
        alloc,
        draft,
        "score,m9,,c,5\n",
        (Some(Cause::MeritTied), 5),
    )?;
    alone(rt, alloc, draft, "withdraw,m8,,,\n", (None, 4))?;
    alone(rt, alloc, draft, "score,m9,,c,8\n", (None, 4))
}

#[test]
fn merits_row_by_row(rt: HostRuntime) -> Result<(), Fail> {
    let mut draft = Draft::of(rt.alloc(), &nested(rt.alloc())?)?;
    all_alone(&rt, rt.alloc(), &mut draft)
}

// Two drafts answer alike.
fn alike(rt: &impl Abort, used: &mut Draft, fresh: &mut Draft, rows: &[Row]) -> Result<(), Fail> {
    for row in rows {
        assert_eq!(rt; used.apply(row)?, fresh.apply(row)?);
        assert_eq!(rt; used.applicants(), fresh.applicants());
        assert_eq!(rt; used.applications(), fresh.applications());
    }
    Ok(())
}

// A row that is refused leaves a draft as one that was made anew.
fn leaves_as_new(rt: &impl Abort, alloc: Global, refused: &Row, later: &[Row]) -> Result<(), Fail> {
    let named = displaced(alloc)?;
    let mut used = Draft::of(alloc, &named)?;
    let mut fresh = Draft::of(alloc, &named)?;
    assert_eq!(rt; used.apply(refused)?.is_some(), true);
    alike(rt, &mut used, &mut fresh, later)
}

const REFUSED: &str = "quota,A,,,0\nnew,x,3,a,5\nnew,w,1,a,x\nadd,z,1,a,5\nadd,z,2,a,x\n\
drop,z,,b,\ndrop,x,,a,1\nwithdraw,x,,,1\nscore,x,,a,x\n";

const LATER: &str = "new,w,1,a,5\nadd,z,1,a,5\nadd,z,2,a,5\ndrop,z,,b,\ndrop,x,,a,\n\
score,x,,a,1\nwithdraw,x,,,\nquota,A,,,3\n";

#[test]
fn drafts_after_refusals(rt: HostRuntime) -> Result<(), Fail> {
    let later = rows_of(rt.alloc(), LATER)?;
    for row in &rows_of(rt.alloc(), REFUSED)? {
        leaves_as_new(&rt, rt.alloc(), row, &later)?;
    }
    Ok(())
}
