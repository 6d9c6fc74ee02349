ghost use Rattle.std.specs.Prelude.{◌≡◌, ◌<◌, ℕ, length, slice_get, slice_index, IfOk};
ghost use Rattle.sl_types.specs.Market.{list_of};
ghost use Rattle.sl_admit.specs.Counting.{counts_of, HaveRoom, CountsRound, CountsChoice, AreCountsAtLimits};

use sl_types::{AppId, Instance, OutOfMemory, PoolId};
use std::alloc::Global;

// One more in a pool and in each pool round it.
fn count_round(instance: &Instance, counts: &mut [u32], pool: PoolId)
    requires sizes { length counts.old ≡ length instance.now.pools }
    requires within { pool.0 < length instance.now.pools }
    requires room { HaveRoom instance.now counts.old }
    ensures counts { CountsRound instance.now pool.0 counts.old counts.new }
    ensures sizes { length counts.new ≡ length counts.old }
{
    for here in instance.outward(pool) {
        counts[here.0 as usize] += 1;
    }
}

// One more in each pool that the choice at an index of an applicant's list lies in, where there is one.
fn count_choice(instance: &Instance, counts: &mut [u32], app: AppId, index: u32)
    requires sizes { length counts.old ≡ length instance.now.pools }
    requires within { app.0 < length instance.now.lists }
    requires room { HaveRoom instance.now counts.old }
    ensures counts { let choice = slice_get (list_of instance.now app.0) index in
        CountsChoice instance.now choice counts.old counts.new }
    ensures sizes { length counts.new ≡ length counts.old }
{
    if let Some(choice) = instance.list(app).get(index as usize) {
        count_round(instance, counts, instance.pool_of(choice.prog));
    }
}

// From zeros, one more for each applicant in each pool that their choice lies in.
fn count_each(instance: &Instance, counts: &mut [u32], admitted: &[u32])
    requires sizes { length counts.old ≡ length instance.now.pools }
    requires zeros { (P : ℕ) → P < length instance.now.pools → slice_index counts.old P ≡ 0 }
    requires each { length admitted.now ≡ length instance.now.lists }
    ensures counts { counts.new ≡ counts_of instance.now admitted.now }
    ensures of_limits { AreCountsAtLimits instance.now admitted.now counts.new }
{
    for number in 0..instance.applicants() {
        count_choice(instance, counts, AppId(number as u32), admitted[number]);
    }
}

/// How many applicants each pool admits: those admitted to one of its programmes, or to one of a pool inside
/// it. `admitted` has for each applicant the index in their list of the choice that they are admitted with,
/// or the list's length where there is none; an index past that counts nowhere either.
pub fn counts(alloc: Global, instance: &Instance, admitted: &[u32]) -> Result<Vec<u32>, OutOfMemory>
    requires each { length admitted.now ≡ length instance.now.lists }
    ensures counts { IfOk result (λ v. v.items ≡ counts_of instance.now admitted.now) }
    ensures of_limits { IfOk result (λ v. AreCountsAtLimits instance.now admitted.now v.items) }
{
    let mut counts = vec![in alloc; 0u32; instance.pools()]?;
    count_each(instance, &mut counts, admitted);
    Ok(counts)
}
