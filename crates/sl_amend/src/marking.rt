ghost use Rattle.std.specs.Prelude.{◌≡◌, ℕ, ◌<◌, ◌≤◌, true, false, not, [], ◌∷◌, length};
ghost use Rattle.std.specs.Prelude.{nat_eq, filter, All, IfOk, OnOk, IfSome, vec_len};
ghost use Rattle.sl_types.specs.declared.kinds.TheConstants.{MAX_POOLS};
ghost use Rattle.sl_contend.specs.Contention.{contention_of};
ghost use Rattle.sl_amend.specs.Amended.{IsAmended};
ghost use Rattle.sl_amend.specs.Cone.{feeds_in_either, is_reached};
ghost use Rattle.sl_amend.specs.Flags.{is_flagged, is_listed, AreFlagged, AreListed, Grew};
ghost use Rattle.sl_amend.specs.Flags.{HasFlaggedFed, IsSpread, is_kept};

use sl_contend::Contenders;
use sl_types::{Instance, OutOfMemory, PoolId, Raise};
use std::alloc::Global;

// Flags a pool that isn't, and puts it on the list.
#[tactic(auto, using(crate::proofs::Growing::grown_not, crate::proofs::Growing::grown_one))]
fn flag(flags: &mut [bool], todo: &mut Vec<PoolId>, pool: PoolId) -> Result<(), OutOfMemory>
    requires within { pool.0 < length flags.old }
    ensures flagged { OnOk result (is_flagged flags.new pool.0 ≡ true) }
    ensures grown { OnOk result (Grew flags.old flags.new todo.old todo.new (nat_eq pool.0)) }
{
    if flags[pool.0 as usize] {
        return Ok(());
    }
    let Ok(()) = todo.push(pool) else {
        return Err(OutOfMemory);
    };
    flags[pool.0 as usize] = true;
    Ok(())
}

// The same for each pool of a slice.
fn flag_each(
    flags: &mut [bool],
    todo: &mut Vec<PoolId>,
    pools: &[PoolId],
) -> Result<(), OutOfMemory>
    requires within { All (λ Q. Q.0 < length flags.old) pools.now }
    ensures flagged { OnOk result (AreFlagged flags.new pools.now) }
    ensures grown { OnOk result (Grew flags.old flags.new todo.old todo.new (is_listed pools.now)) }
{
    for pool in pools {
        flag(flags, todo, *pool)?;
    }
    Ok(())
}

// The flagged pools.
fn flagged_pools(alloc: Global, flags: &[bool]) -> Result<Vec<PoolId>, OutOfMemory>
    requires few { length flags.now ≤ MAX_POOLS }
    ensures flagged { IfOk result (λ v. AreFlagged flags.now v.items) }
    ensures listed { IfOk result (λ v. AreListed flags.now v.items) }
{
    let mut todo = Vec::new(alloc);
    for (number, is_flagged) in flags.iter().enumerate() {
        if *is_flagged {
            let Ok(()) = todo.push(PoolId(number as u32)) else {
                return Err(OutOfMemory);
            };
        }
    }
    Ok(todo)
}

// Flags the pools that a pool feeds in the old instance or the amended one.
fn flag_fed(
    old: &Instance,
    new: &Instance,
    old_contenders: &Contenders,
    new_contenders: &Contenders,
    flags: &mut [bool],
    todo: &mut Vec<PoolId>,
    pool: PoolId,
) -> Result<(), OutOfMemory>
    requires old_contenders { old_contenders.now ≡ contention_of old.now }
    requires new_contenders { new_contenders.now ≡ contention_of new.now }
    requires sizes { length flags.old ≡ length old.now.pools }
    requires same { length new.now.pools ≡ length old.now.pools }
    requires within { pool.0 < length old.now.pools }
    ensures fed { OnOk result (HasFlaggedFed old.now new.now flags.new pool.0) }
    ensures grown { let fed = feeds_in_either old.now new.now pool.0 in
        OnOk result (Grew flags.old flags.new todo.old todo.new fed) }
{
    let _old_pools = old.pools();
    let _new_pools = new.pools();
    flag_each(flags, todo, old_contenders.fed(pool))?;
    flag_each(flags, todo, new_contenders.fed(pool))?;
    Ok(())
}

/// Flags what is reached from the flagged pools, by feeding in the old instance or the amended one.
pub fn spread(
    alloc: Global,
    old: &Instance,
    new: &Instance,
    old_contenders: &Contenders,
    new_contenders: &Contenders,
    flags: &mut [bool],
) -> Result<(), OutOfMemory>
    requires amended { IsAmended old.now new.now }
    requires old_contenders { old_contenders.now ≡ contention_of old.now }
    requires new_contenders { new_contenders.now ≡ contention_of new.now }
    requires sizes { length flags.old ≡ length old.now.pools }
    ensures each { length flags.new ≡ length flags.old }
    ensures reached { OnOk result (IsSpread old.now new.now flags.old flags.new) }
{
    let _old_pools = old.pools();
    let _new_pools = new.pools();
    let mut todo = flagged_pools(alloc, flags)?;
    while let Some(pool) = todo.pop() {
        flag_fed(
            old,
            new,
            old_contenders,
            new_contenders,
            flags,
            &mut todo,
            pool,
        )?;
    }
    Ok(())
}

/// The raises of pools that aren't flagged, in order.
pub fn keep(alloc: Global, flags: &[bool], raises: &[Raise]) -> Result<Vec<Raise>, OutOfMemory>
    requires within { All (λ r. r.pool.0 < length flags.now) raises.now }
    ensures { IfOk result (λ v. v.items ≡ filter (is_kept flags.now) raises.now) }
{
    let mut kept = Vec::new(alloc);
    for raise in raises {
        if !flags[raise.pool.0 as usize] {
            let Ok(()) = kept.push(*raise) else {
                return Err(OutOfMemory);
            };
        }
    }
    Ok(kept)
}
