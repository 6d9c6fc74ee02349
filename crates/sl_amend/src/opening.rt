ghost use Rattle.std.specs.Prelude.{◌≡◌, ◌≤◌, ◌<◌, ℕ, [], None, true, length, map, replicate, sum_by, IfOk, OnOk};
ghost use Rattle.sl_types.specs.declared.kinds.TheConstants.{MAX_APPLICANTS, MAX_CHOICES};
ghost use Rattle.sl_types.specs.Market.{list_of};
ghost use Rattle.sl_types.specs.Trees.{tree_of};
ghost use Rattle.sl_types.specs.Valid.{IsValid};
ghost use Rattle.sl_amend.specs.Conflicts.{conflict_cause};
ghost use Rattle.sl_amend.specs.DraftMarket.{opening};
ghost use Rattle.sl_amend.specs.Register.{draft_of, IsRegister};
ghost use Rattle.sl_amend.specs.Roll.{is_list, IsRoll, lists_of, programmes};

use crate::merits::Merits;
use crate::register::Register;
use crate::roll::Roll;
use sl_codes::Codes;
use sl_instance::Named;
use sl_types::{AppId, Instance, OutOfMemory, Pool, PoolId, ProgId, trees};
use std::alloc::{AllocError, Global};
use std::collections::HashMap;

/// The same codes.
pub fn copy_codes(alloc: Global, codes: &Codes) -> Result<Codes, OutOfMemory>
    ensures { IfOk result (λ copy. copy ≡ codes.now) }
{
    let mut copy = Codes::new(alloc);
    for number in 0..codes.len() {
        copy.add(codes.text(number as u32))?;
    }
    Ok(copy)
}

// The pools of an instance.
fn copy_pools(alloc: Global, instance: &Instance) -> Result<Vec<Pool>, AllocError>
    ensures { IfOk result (λ pools. pools.items ≡ instance.now.pools) }
{
    let mut pools = Vec::with_capacity(alloc, instance.pools())?;
    for number in 0..instance.pools() {
        pools.push(*instance.pool(PoolId(number as u32)))?;
    }
    Ok(pools)
}

// The pool of each programme of an instance.
fn copy_progs(alloc: Global, instance: &Instance) -> Result<Vec<PoolId>, AllocError>
    ensures { IfOk result (λ progs. progs.items ≡ instance.now.progs) }
{
    let mut progs = Vec::with_capacity(alloc, instance.progs())?;
    for number in 0..instance.progs() {
        progs.push(instance.pool_of(ProgId(number as u32)))?;
    }
    Ok(progs)
}

// Nobody, where programmes are in these trees.
fn empty_roll(alloc: Global, trees: Vec<Option<u32>>) -> Roll
    ensures roll { IsRoll result }
    ensures lists { lists_of result ≡ [] }
    ensures present { result.present.items ≡ [] }
    ensures trees { result.merits.trees.items ≡ trees.items }
{
    Roll {
        lists: Vec::new(alloc),
        present: Vec::new(alloc),
        applicants: 0,
        applications: 0,
        merits: Merits {
            trees,
            held: HashMap::new(alloc),
        },
    }
}

// The applicants of an instance, where programmes are in these trees.
fn roll_of(alloc: Global, instance: &Instance, trees: Vec<Option<u32>>) -> Result<Roll, AllocError>
    requires { length trees.items ≡ length instance.now.progs }
    ensures roll { IfOk result IsRoll }
    ensures lists { IfOk result (λ roll. lists_of roll ≡ instance.now.lists) }
    ensures present { IfOk result (λ roll.
        roll.present.items ≡ replicate (length instance.now.lists) true) }
    ensures trees { IfOk result (λ roll. roll.merits.trees.items ≡ trees.items) }
{
    let mut roll = empty_roll(alloc, trees);
    let _valid = instance.pools();
    for number in 0..instance.applicants() {
        let list = Vec::from_slice(alloc, instance.list(AppId(number as u32)))?;
        roll.push_list(list)?;
    }
    Ok(roll)
}

impl Register {
    /// What a draft of an instance begins with.
    pub fn of(alloc: Global, named: &Named) -> Result<Register, OutOfMemory>
        ensures draft { IfOk result (λ register. draft_of register ≡ opening named.now) }
        ensures register { IfOk result IsRegister }
        ensures free { OnOk result (conflict_cause named.now.market ≡ None) }
    {
        let instance = named.instance();
        let _valid = instance.pools();
        let pools = copy_pools(alloc, instance)?;
        let progs = copy_progs(alloc, instance)?;
        let trees = trees(alloc, &pools, &progs)?;
        Ok(Register {
            alloc,
            pools,
            progs,
            pool_codes: copy_codes(alloc, named.pool_codes())?,
            prog_codes: copy_codes(alloc, named.prog_codes())?,
            app_codes: copy_codes(alloc, named.app_codes())?,
            of_tables: instance.applicants(),
            roll: roll_of(alloc, instance, trees)?,
        })
    }
}
