// Kept raises and logged ones as one list.
ghost use Rattle.std.specs.Prelude.{◌≡◌, ◌<◌, ◌++◌, List, All, length, IfOk};
ghost use Rattle.sl_types.specs.declared.kinds.Logged.{Logged};
ghost use Rattle.sl_laws.specs.Raises.{Replays, without_void};
ghost use Rattle.sl_proof.specs.Merging.{IsByTicket, IsMerged, AreOfPools, raises_of};

use sl_laws::plain_eff;
use sl_types::{Instance, Logged, OutOfMemory, Raise};
use std::alloc::{AllocError, Global};

// The kept raises, and then those of entries in order.
fn joined(alloc: Global, kept: &[Raise], sorted: &[Logged]) -> Result<Vec<Raise>, AllocError>
    ensures { IfOk result (λ v. v.items ≡ kept.now ++ raises_of sorted.now) }
{
    let mut raises = Vec::with_capacity(alloc, kept.len() + sorted.len())?;
    raises.extend_from_slice(kept)?;
    for entry in sorted {
        raises.push(Raise {
            pool: entry.pool,
            limit: entry.limit,
        })?;
    }
    Ok(raises)
}

// A list without its void raises.
fn without_void(
    alloc: Global,
    instance: &Instance,
    raises: &[Raise],
) -> Result<Vec<Raise>, AllocError>
    requires { All (λ r. r.pool.0 < length instance.now.pools) raises.now }
    ensures { IfOk result (λ v. v.items ≡ without_void instance.now raises.now) }
{
    let mut limits: Vec<u32> = vec![in alloc; 0; instance.pools()]?;
    let mut rising = Vec::new(alloc);
    for at in 0..raises.len() {
        let raise = raises[at];
        let place = raise.pool.0 as usize;
        let word: u32 = limits[place];
        if plain_eff(instance, &limits, raise.pool) < raise.limit {
            rising.push(raise)?;
        }
        limits[place] = word.max(raise.limit);
    }
    Ok(rising)
}

// A log in rising order of ticket.
fn by_ticket(log: Vec<Logged>) -> Vec<Logged>
    ensures { IsByTicket log.items result.items }
{
    let mut sorted = log;
    sorted.sort_unstable_by_key(|entry| entry.ticket);
    sorted
}

/// The kept raises, which replay, and then those of a log in rising order of ticket, without the void ones. Where
/// the tickets differ there is one such list. It takes the time of a sort, and refuses for want of memory alone.
pub fn merge(
    alloc: Global,
    instance: &Instance,
    kept: &[Raise],
    logged: Vec<Logged>,
) -> Result<Vec<Raise>, OutOfMemory>
    requires kept { Replays instance.now kept.now }
    requires within { AreOfPools instance.now logged.items }
    ensures { IfOk result (λ v. IsMerged instance.now kept.now logged.items v.items) }
{
    let sorted = by_ticket(logged);
    let raises = joined(alloc, kept, &sorted)?;
    let merged = without_void(alloc, instance, &raises)?;
    Ok(merged)
}
