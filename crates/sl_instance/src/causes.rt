ghost use Rattle.std.specs.Prelude.{◌≡◌, ◌≤◌, ◌<◌, length, All, None, IfOk};
ghost use Rattle.sl_types.specs.Market.{market_of_pools};
ghost use Rattle.sl_types.specs.Valid.{nesting_fault};
ghost use Rattle.sl_codes.specs.Faults.{fault_at};
ghost use Rattle.sl_codes.specs.declared.faults.Table.TheVariants.{Applications};
ghost use Rattle.sl_instance.specs.Causes.{IsFine, merit_fault, keyed_fault};

use crate::conflicts::first_conflict;
use crate::keyed::Agreement;
use sl_choices::ChoiceRow;
use sl_codes::{Cause, Table, TableFault};
use sl_types::{MAX_CHOICES, Pool, PoolId, trees};
use std::alloc::{AllocError, Global};

// The fault of a pass over the whole file, at the row of this number.
fn pass_fault(cause: Cause, row: usize) -> TableFault
    requires { row < MAX_CHOICES }
    ensures { result ≡ fault_at Applications row cause }
{
    TableFault {
        table: Table::Applications,
        at: row as u32 + 2,
        cause,
    }
}

// The first fault of the passes over merits in trees, by the trees of the programmes.
fn keyed_fault(
    alloc: Global,
    trees: &[Option<u32>],
    rows: &[ChoiceRow],
) -> Result<Option<TableFault>, AllocError>
    requires { length rows.now ≤ MAX_CHOICES }
    ensures { IfOk result (λ fault. fault ≡ keyed_fault trees.now rows.now) }
{
    if let Some(row) = first_conflict(alloc, Agreement::OneMerit, trees, rows)? {
        return Ok(Some(pass_fault(Cause::MeritDiffers, row)));
    }
    if let Some(row) = first_conflict(alloc, Agreement::OneApplicant, trees, rows)? {
        return Ok(Some(pass_fault(Cause::MeritTied, row)));
    }
    Ok(None)
}

// The first fault of the passes over merits in trees: no applicant may have two in one tree, and then no two
// applicants the same.
pub fn merit_fault(
    alloc: Global,
    pools: &[Pool],
    progs: &[PoolId],
    rows: &[ChoiceRow],
) -> Result<Option<TableFault>, AllocError>
    requires nested { nesting_fault (market_of_pools pools.now) ≡ None }
    requires fine { All (IsFine (length progs.now)) rows.now }
    requires few { length rows.now ≤ MAX_CHOICES }
    ensures { IfOk result (λ fault. fault ≡ merit_fault pools.now progs.now rows.now) }
{
    let trees = trees(alloc, pools, progs)?;
    let fault = keyed_fault(alloc, trees.as_slice(), rows)?;
    Ok(fault)
}
