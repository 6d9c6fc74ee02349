ghost use Rattle.std.specs.Prelude.{◌≡◌, ℕ, ◌<◌, length, IfOk, OnOk};
ghost use Rattle.sl_types.specs.Market.{rule_of};
ghost use Rattle.sl_amend.specs.Amended.{is_touched_by_quota};
ghost use Rattle.sl_amend.specs.Touched.{IsFlaggedBy, outermost_of, is_other_tree};
ghost use Rattle.sl_amend.specs.Touched.{AreOtherTrees, touched_by_quota};

use sl_types::{Instance, OutOfMemory, PoolId, Rule};
use std::alloc::Global;

// The outermost pool round a pool, or the pool itself.
fn outermost(instance: &Instance, pool: PoolId) -> PoolId
    requires { pool.0 < length instance.now.pools }
    ensures value { result.0 ≡ outermost_of instance.now pool.0 }
    ensures within { result.0 < length instance.now.pools }
{
    let mut outermost = pool;
    for here in instance.outward(pool) {
        outermost = here;
    }
    outermost
}

// Marks the outermost pool of each tree in which a quota differs.
fn mark_trees(old: &Instance, new: &Instance, marks: &mut [bool])
    requires same { length new.now.pools ≡ length old.now.pools }
    requires sizes { length marks.old ≡ length old.now.pools }
    ensures each { length marks.new ≡ length marks.old }
    ensures marked { let other = is_other_tree old.now new.now in
        IsFlaggedBy other (length old.now.pools) marks.old marks.new }
{
    for number in 0..old.pools() {
        let pool = PoolId(number as u32);
        if new.pool(pool).quota != old.pool(pool).quota {
            marks[outermost(old, pool).0 as usize] = true;
        }
    }
}

// The trees in which a quota differs, by their outermost pools.
fn other_trees(alloc: Global, old: &Instance, new: &Instance) -> Result<Vec<bool>, OutOfMemory>
    requires same { length new.now.pools ≡ length old.now.pools }
    ensures each { IfOk result (λ v. length v.items ≡ length old.now.pools) }
    ensures marked { IfOk result (λ v. AreOtherTrees old.now new.now v.items) }
{
    let Ok(mut marks) = vec![in alloc; false; old.pools()] else {
        return Err(OutOfMemory);
    };
    mark_trees(old, new, &mut marks);
    Ok(marks)
}

// Whether quotas touch a pool.
fn is_touched_by_quota(old: &Instance, new: &Instance, other_trees: &[bool], pool: PoolId) -> bool
    requires same { length new.now.pools ≡ length old.now.pools }
    requires each { length other_trees.now ≡ length old.now.pools }
    requires marked { AreOtherTrees old.now new.now other_trees.now }
    requires within { pool.0 < length old.now.pools }
    ensures { result ≡ is_touched_by_quota (rule_of old.now pool.0) old.now new.now pool.0 }
{
    // An instance is well formed: pools with the same outermost pool are in one tree.
    let _pools = old.pools();
    match old.pool(pool).rule {
        Rule::Merit => other_trees[outermost(old, pool).0 as usize],
        Rule::H | Rule::L => new.pool(pool).quota > old.pool(pool).quota,
    }
}

// Flags the pools that quotas touch, where the trees in which a quota differs are known.
fn flag_by_rules(old: &Instance, new: &Instance, other_trees: &[bool], flags: &mut [bool])
    requires same { length new.now.pools ≡ length old.now.pools }
    requires trees { length other_trees.now ≡ length old.now.pools }
    requires marked { AreOtherTrees old.now new.now other_trees.now }
    requires sizes { length flags.old ≡ length old.now.pools }
    ensures each { length flags.new ≡ length flags.old }
    ensures flagged { let touched = touched_by_quota old.now new.now in
        IsFlaggedBy touched (length old.now.pools) flags.old flags.new }
{
    for number in 0..old.pools() {
        if is_touched_by_quota(old, new, other_trees, PoolId(number as u32)) {
            flags[number] = true;
        }
    }
}

// Flags the pools that quotas touch.
pub fn flag_quotas(
    alloc: Global,
    old: &Instance,
    new: &Instance,
    flags: &mut [bool],
) -> Result<(), OutOfMemory>
    requires same { length new.now.pools ≡ length old.now.pools }
    requires sizes { length flags.old ≡ length old.now.pools }
    ensures each { length flags.new ≡ length flags.old }
    ensures flagged { let touched = touched_by_quota old.now new.now in
        OnOk result (IsFlaggedBy touched (length old.now.pools) flags.old flags.new) }
{
    let other_trees = other_trees(alloc, old, new)?;
    flag_by_rules(old, new, &other_trees, flags);
    Ok(())
}
