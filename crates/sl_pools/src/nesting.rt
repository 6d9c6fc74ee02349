ghost use Rattle.std.specs.Prelude.{◌≡◌, ◌≤◌, ◌<◌, length, IfOk};
ghost use Rattle.sl_codes.specs.Faults.{fault_at};
ghost use Rattle.sl_codes.specs.declared.faults.Table.TheVariants.{Pools};
ghost use Rattle.sl_pools.specs.Pools.{nesting_fault};

use sl_codes::{Cause, Table, TableFault};
use sl_types::{MAX_POOLS, Pool, first_badly_nested, first_in_ring, first_too_deep};
use std::alloc::{AllocError, Global};

/// The fault of a pass over the whole file, at the pool of this number.
pub fn pass_fault(cause: Cause, pool: usize) -> TableFault
    requires { pool < MAX_POOLS }
    ensures { result ≡ fault_at Pools pool cause }
{
    TableFault {
        table: Table::Pools,
        at: pool as u32 + 2,
        cause,
    }
}

/// The first fault of the passes that take parents to be known: first no pool may be its own ancestor, then
/// none too deep, then none badly nested.
pub fn nesting_fault(alloc: Global, pools: &[Pool]) -> Result<Option<TableFault>, AllocError>
    requires { length pools.now ≤ MAX_POOLS }
    ensures { IfOk result (λ fault. fault ≡ nesting_fault pools.now) }
{
    if let Some(pool) = first_in_ring(alloc, pools)? {
        return Ok(Some(pass_fault(Cause::ParentCycle, pool)));
    }
    if let Some(pool) = first_too_deep(alloc, pools)? {
        return Ok(Some(pass_fault(Cause::TooDeep, pool)));
    }
    if let Some(pool) = first_badly_nested(pools) {
        return Ok(Some(pass_fault(Cause::KindDiffers, pool)));
    }
    Ok(None)
}
