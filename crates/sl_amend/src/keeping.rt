ghost use Rattle.std.specs.Prelude.{◌≡◌, ℕ, false, length, IfOk, OnOk};
ghost use Rattle.sl_laws.specs.Raises.{Replays};
ghost use Rattle.sl_contend.specs.Contention.{contention_of};
ghost use Rattle.sl_amend.specs.Amended.{IsAmended, origins_of, AreOrigins};
ghost use Rattle.sl_amend.specs.Flags.{is_flagged};
ghost use Rattle.sl_amend.specs.Touched.{AreStill, HasTouched, AreCone};
ghost use Rattle.sl_amend.specs.Cone.{kept_by};

use crate::{by_choice, by_quota, marking};
use sl_contend::Contenders;
use sl_types::{AppId, Instance, OutOfMemory, Raise};
use std::alloc::Global;

// The applicants of the old instance who are in the amended one with the same choices.
fn still_there(
    alloc: Global,
    old: &Instance,
    new: &Instance,
    origins: &[Option<AppId>],
) -> Result<Vec<bool>, OutOfMemory>
    requires sizes { length origins.now ≡ length new.now.lists }
    requires origins { AreOrigins old.now origins.now }
    ensures each { IfOk result (λ v. length v.items ≡ length old.now.lists) }
    ensures still { IfOk result (λ v. AreStill old.now new.now (origins_of origins.now) v.items) }
{
    let Ok(mut still) = vec![in alloc; false; old.applicants()] else {
        return Err(OutOfMemory);
    };
    by_choice::flag_still(old, new, origins, &mut still);
    Ok(still)
}

// Flags the touched pools.
fn flag_touched(
    alloc: Global,
    old: &Instance,
    new: &Instance,
    origins: &[Option<AppId>],
    flags: &mut [bool],
) -> Result<(), OutOfMemory>
    requires amended { IsAmended old.now new.now }
    requires sizes { length flags.old ≡ length old.now.pools }
    requires every { length origins.now ≡ length new.now.lists }
    requires origins { AreOrigins old.now origins.now }
    ensures each { length flags.new ≡ length flags.old }
    ensures touched { let was = origins_of origins.now in
        OnOk result (HasTouched old.now new.now was flags.old flags.new) }
{
    let still = still_there(alloc, old, new, origins)?;
    by_choice::flag_before(old, &still, flags);
    by_choice::flag_after(old, new, origins, &still, flags);
    by_quota::flag_quotas(alloc, old, new, flags)?;
    Ok(())
}

// Flags the cone. No pool is flagged before.
fn flag_cone(
    alloc: Global,
    old: &Instance,
    new: &Instance,
    old_contenders: &Contenders,
    new_contenders: &Contenders,
    origins: &[Option<AppId>],
    flags: &mut [bool],
) -> Result<(), OutOfMemory>
    requires amended { IsAmended old.now new.now }
    requires old_contenders { old_contenders.now ≡ contention_of old.now }
    requires new_contenders { new_contenders.now ≡ contention_of new.now }
    requires sizes { length flags.old ≡ length old.now.pools }
    requires fresh { (P : ℕ) → is_flagged flags.old P ≡ false }
    requires every { length origins.now ≡ length new.now.lists }
    requires origins { AreOrigins old.now origins.now }
    ensures each { length flags.new ≡ length flags.old }
    ensures cone { OnOk result (AreCone old.now new.now (origins_of origins.now) flags.new) }
{
    let _old_pools = old.pools();
    let _new_pools = new.pools();
    flag_touched(alloc, old, new, origins, flags)?;
    marking::spread(alloc, old, new, old_contenders, new_contenders, flags)?;
    Ok(())
}

// The cone as flags.
fn cone(
    alloc: Global,
    old: &Instance,
    new: &Instance,
    old_contenders: &Contenders,
    new_contenders: &Contenders,
    origins: &[Option<AppId>],
) -> Result<Vec<bool>, OutOfMemory>
    requires amended { IsAmended old.now new.now }
    requires old_contenders { old_contenders.now ≡ contention_of old.now }
    requires new_contenders { new_contenders.now ≡ contention_of new.now }
    requires every { length origins.now ≡ length new.now.lists }
    requires origins { AreOrigins old.now origins.now }
    ensures each { IfOk result (λ v. length v.items ≡ length old.now.pools) }
    ensures cone { IfOk result (λ v. AreCone old.now new.now (origins_of origins.now) v.items) }
{
    let Ok(mut flags) = vec![in alloc; false; old.pools()] else {
        return Err(OutOfMemory);
    };
    flag_cone(
        alloc,
        old,
        new,
        old_contenders,
        new_contenders,
        origins,
        &mut flags,
    )?;
    Ok(flags)
}

/// The kept raises: those of pools outside the cone, in order. They replay on the amended instance,
/// which has the pools and programmes of the old one; quotas, applicants and lists may differ.
/// `origins` has for each applicant of the amended instance which one of the old they are, or none.
/// The contenders were made for the instances, and `raises` replays on the old one.
pub fn kept(
    alloc: Global,
    old: &Instance,
    new: &Instance,
    old_contenders: &Contenders,
    new_contenders: &Contenders,
    origins: &[Option<AppId>],
    raises: &[Raise],
) -> Result<Vec<Raise>, OutOfMemory>
    requires amended { IsAmended old.now new.now }
    requires old_contenders { old_contenders.now ≡ contention_of old.now }
    requires new_contenders { new_contenders.now ≡ contention_of new.now }
    requires every { length origins.now ≡ length new.now.lists }
    requires origins { AreOrigins old.now origins.now }
    requires replays { Replays old.now raises.now }
    ensures kept { IfOk result (λ v. v.items ≡ kept_by old.now new.now origins.now raises.now) }
    ensures replays { IfOk result (λ v. Replays new.now v.items) }
{
    let _old_pools = old.pools();
    let _new_pools = new.pools();
    let flags = cone(alloc, old, new, old_contenders, new_contenders, origins)?;
    let kept = marking::keep(alloc, &flags, raises)?;
    Ok(kept)
}

#[cfg(test)]
mod tests;
