ghost use Rattle.std.specs.Prelude.{◌≡◌, ◌≤◌, IfOk};
ghost use Rattle.sl_gen.specs.Choices.{lists_between};
ghost use Rattle.sl_gen.specs.Pools.{prog_count};
ghost use Rattle.sl_gen.specs.Round.{generated};

use crate::lists::{lists, lists_in_parallel};
use crate::pools::{pool_count, pools, programmes};
use sl_types::{ChoiceLists, Instance, MAX_APPLICANTS, OutOfMemory};
use std::alloc::Global;
use std::thread::Threads;

// The round of so many applicants, who have these lists. No rule of an instance fails in it, by
// `generated_fits`, so none is tested.
fn round_with(alloc: Global, n: u32, lists: ChoiceLists) -> Result<Instance, OutOfMemory>
    requires few { n ≤ MAX_APPLICANTS }
    requires lists { lists ≡ lists_between (prog_count n) 0 n }
    ensures { IfOk result (λ i. i ≡ generated n) }
{
    let count = pool_count(n);
    let pools = pools(alloc, count)?;
    let progs = programmes(alloc, 2 * count)?;
    Ok(Instance::of_lists(pools, progs, lists))
}

/// The generated round of `n` applicants, at least one and at most `MAX_APPLICANTS`. It is refused for
/// want of memory alone.
pub fn generate(alloc: Global, n: u32) -> Result<Instance, OutOfMemory>
    requires at_least_one { 1 ≤ n }
    requires few { n ≤ MAX_APPLICANTS }
    ensures { IfOk result (λ i. i ≡ generated n) }
{
    let lists = lists(alloc, 2 * pool_count(n), n)?;
    round_with(alloc, n, lists)
}

/// The same, with the lists made by pieces of the applicants in parallel.
pub fn generate_in_parallel(
    rt: &(impl Threads + Sync),
    alloc: Global,
    n: u32,
) -> Result<Instance, OutOfMemory>
    requires at_least_one { 1 ≤ n }
    requires few { n ≤ MAX_APPLICANTS }
    ensures { IfOk result (λ i. i ≡ generated n) }
{
    let lists = lists_in_parallel(rt, alloc, 2 * pool_count(n), n)?;
    round_with(alloc, n, lists)
}
