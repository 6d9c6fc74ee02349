ghost use Rattle.std.specs.Prelude.{◌≡◌, length, IfOk};
ghost use Rattle.sl_laws.specs.Raises.{Replays};
ghost use Rattle.sl_amend.specs.Amended.{IsAmended, AreOrigins};
ghost use Rattle.sl_amend.specs.Applied.{draft_after};
ghost use Rattle.sl_amend.specs.Cone.{kept_by};
ghost use Rattle.sl_amend.specs.DraftMarket.{opening, amended};
ghost use Rattle.sl_amend.specs.Origins.{origins_in};

use crate::{Amendments, kept};
use sl_contend::Contenders;
use sl_instance::Named;
use sl_types::{AppId, Instance, OutOfMemory, Raise};
use std::alloc::Global;

// The raises of an instance that are kept on an amended one.
fn kept_between(
    alloc: Global,
    old: &Instance,
    new: &Instance,
    origins: &[Option<AppId>],
    raises: &[Raise],
) -> Result<Vec<Raise>, OutOfMemory>
    requires amended { IsAmended old.now new.now }
    requires every { length origins.now ≡ length new.now.lists }
    requires origins { AreOrigins old.now origins.now }
    requires replays { Replays old.now raises.now }
    ensures kept { IfOk result (λ v. v.items ≡ kept_by old.now new.now origins.now raises.now) }
    ensures replays { IfOk result (λ v. Replays new.now v.items) }
{
    let old_contenders = Contenders::new(alloc, old)?;
    let new_contenders = Contenders::new(alloc, new)?;
    kept(
        alloc,
        old,
        new,
        &old_contenders,
        &new_contenders,
        origins,
        raises,
    )
}

/// The amended instance with its codes: the pools and programmes in their old order, then the old
/// applicants who were not withdrawn in their old order, then the new ones in the order in which
/// the rows made them. `rows` was read against `named`. It is refused for want of memory alone.
pub fn amended_instance(
    alloc: Global,
    named: &Named,
    rows: &Amendments,
) -> Result<Named, OutOfMemory>
    requires named { rows.now.named ≡ named.now }
    ensures { let draft = draft_after (opening named.now) rows.now.rows in
        IfOk result (λ n. n ≡ amended draft) }
{
    rows.draft().amended(alloc, named)
}

/// The amended instance with its codes, and the kept raises, which replay on it. It has the pools
/// and programmes in their old order, then the old applicants who were not withdrawn in their old
/// order, then the new ones in the order in which the rows made them. `rows` was read against
/// `named`, and `raises` replays on it. It is refused for want of memory alone.
pub fn amend(
    alloc: Global,
    named: &Named,
    rows: &Amendments,
    raises: &[Raise],
) -> Result<(Named, Vec<Raise>), OutOfMemory>
    requires named { rows.now.named ≡ named.now }
    requires replays { Replays named.now.market raises.now }
    ensures amended { let draft = draft_after (opening named.now) rows.now.rows in
        IfOk result (λ r. r.0 ≡ amended draft) }
    ensures kept { let draft = draft_after (opening named.now) rows.now.rows in
        let old = named.now.market in let new = (amended draft).market in
        IfOk result (λ r. r.1.items ≡ kept_by old new (origins_in draft) raises.now) }
    ensures replays { IfOk result (λ r. Replays r.0.market r.1.items) }
{
    let draft = rows.draft();
    let amended = draft.amended(alloc, named)?;
    let origins = draft.origins(alloc, named)?;
    let kept = kept_between(
        alloc,
        named.instance(),
        amended.instance(),
        &origins,
        raises,
    )?;
    Ok((amended, kept))
}
