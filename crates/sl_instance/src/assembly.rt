ghost use Rattle.std.specs.Prelude.{◌≡◌, ◌<◌, length, All, None, OnOk, IfOk, IfErr};
ghost use Rattle.sl_codes.specs.Faults.{IsFirst};
ghost use Rattle.sl_instance.specs.Assembly.{IsKnown, IsAssembled};
ghost use Rattle.sl_instance.specs.Causes.{merits_fault};

use crate::Named;
use crate::causes::merit_fault;
use crate::lists::sorted_lists;
use sl_choices::ChoiceTable;
use sl_codes::ReadError;
use sl_pools::{PoolTable, ProgTable};
use sl_types::Instance;
use std::alloc::Global;

// That the merits of these tables are in order in trees.
fn check_merits(
    alloc: Global,
    pools: &PoolTable,
    progs: &ProgTable,
    choices: &ChoiceTable,
) -> Result<(), ReadError>
    requires { All (IsKnown (length choices.now.codes) (length progs.now.codes)) choices.now.rows }
    ensures right { OnOk result (merits_fault pools.now progs.now choices.now ≡ None) }
    ensures refused { IfErr result (IsFirst (merits_fault pools.now progs.now choices.now)) }
{
    match merit_fault(alloc, pools.pools(), progs.pools(), choices.rows()) {
        Ok(None) => Ok(()),
        Ok(Some(fault)) => Err(ReadError::Bad(fault)),
        Err(_) => Err(ReadError::OutOfMemory),
    }
}

/// The instance of three tables, with its codes: pools and programmes in file order, applicants in first-seen
/// order, and each applicant's choices in rising order of place. After the tables themselves it refuses, at the
/// record of the application table, first a choice whose applicant has another merit in an earlier record of
/// the same tree, and then one whose merit another applicant has in an earlier record of the same tree.
pub fn assemble(
    alloc: Global,
    pools: PoolTable,
    progs: ProgTable,
    choices: ChoiceTable,
) -> Result<Named, ReadError>
    requires progs { All (λ Q. Q.0 < length pools.codes) progs.pools }
    requires choices { All (IsKnown (length choices.codes) (length progs.codes)) choices.rows }
    ensures right { OnOk result (merits_fault pools progs choices ≡ None) }
    ensures assembled { IfOk result (IsAssembled pools progs choices) }
    ensures refused { IfErr result (IsFirst (merits_fault pools progs choices)) }
{
    check_merits(alloc, &pools, &progs, &choices)?;
    let (pool_codes, pools) = pools.into_parts();
    let (prog_codes, progs) = progs.into_parts();
    let Ok(lists) = sorted_lists(alloc, &choices) else {
        return Err(ReadError::OutOfMemory);
    };
    let app_codes = choices.into_codes();
    let instance = Instance::of_lists(pools, progs, lists);
    Ok(Named::new(instance, pool_codes, prog_codes, app_codes))
}
