ghost use Rattle.std.specs.Prelude.{◌≡◌, ◌<◌, ◌^◌, All, length, map, position, slice_index, IfOk};
ghost use Rattle.std.specs.List.{position_or_len};
ghost use Rattle.sl_types.specs.Market.{list_of};
ghost use Rattle.sl_laws.specs.Outcome.{admitted_indexes};
ghost use Rattle.sl_admit.specs.Admitting.{published_limits, reaches, first_reaching};

use rayon::prelude::*;
use sl_nesting::published;
use sl_types::{AppId, Entry, Instance, OutOfMemory};
use std::alloc::{AllocError, Global};
use std::thread::Threads;

// The effective limit of each pool.
fn published_limits(
    alloc: Global,
    instance: &Instance,
    limits: &[u32],
) -> Result<Vec<u32>, AllocError>
    requires { length limits.now ≡ length instance.now.pools }
    ensures { IfOk result (λ v. v.items ≡ published_limits instance.now (slice_index limits.now)) }
{
    let mut out = vec![in alloc; 0; instance.pools()]?;
    published(instance, limits, &mut out);
    Ok(out)
}

// Whether the score of a choice is at least the number of its pool.
fn reaches(instance: &Instance, published: &[u32], choice: Entry) -> bool
    requires sizes { length published.now ≡ length instance.now.pools }
    requires within { choice.prog.0 < length instance.now.progs }
    ensures { result ≡ reaches instance.now (slice_index published.now) choice }
{
    published[instance.pool_of(choice.prog).0 as usize] <= choice.score
}

// The first choice of a list that reaches its pool's number.
fn first_reaching(instance: &Instance, published: &[u32], choices: &[Entry]) -> Option<usize>
    requires sizes { length published.now ≡ length instance.now.pools }
    requires within { All (λ e. e.prog.0 < length instance.now.progs) choices.now }
    ensures { result ≡ position (reaches instance.now (slice_index published.now)) choices.now }
{
    choices
        .iter()
        .position(|choice| reaches(instance, published, *choice))
}

// Its index in an applicant's list, or the list's length.
#[tactic(auto, using(sl_laws::proofs::Choices::first_or_len))]
fn admitted_index(instance: &Instance, published: &[u32], app: AppId) -> u32
    requires sizes { length published.now ≡ length instance.now.pools }
    requires within { app.0 < length instance.now.lists }
    ensures { result ≡ first_reaching instance.now published.now (list_of instance.now app.0) }
{
    let choices = instance.list(app);
    first_reaching(instance, published, choices).unwrap_or(choices.len()) as u32
}

// That of each applicant, by pieces of the applicants in parallel.
fn admitted_indexes(
    rt: &(impl Threads + Sync),
    alloc: Global,
    instance: &Instance,
    published: &[u32],
) -> Result<Vec<u32>, AllocError>
    requires { length published.now ≡ length instance.now.pools }
    ensures { let first = first_reaching instance.now published.now in
        IfOk result (λ v. v.items ≡ map (λ choices. first choices) instance.now.lists) }
{
    (0..instance.applicants())
        .into_par_iter()
        .map(
            |number: usize| -> u32
                requires { (number < length instance.now.lists) × (number < 2 ^ 32)
                    × (length published.now ≡ length instance.now.pools) }
                ensures { let choices = list_of instance.entry.now number in
                    result ≡ first_reaching instance.entry.now published.entry.now choices }
            { admitted_index(instance, published, AppId(number as u32)) },
        )
        .collect(rt, alloc)
}

/// The index in each applicant's list of the choice that they are admitted with, or the list's length where
/// there is none: of the first choice whose score is at least the published limit of its pool. `limits` has
/// a number for each pool, in points, and the published limit of a pool is the greatest of these over the
/// pool and the pools round it.
pub fn admissions(
    rt: &(impl Threads + Sync),
    alloc: Global,
    instance: &Instance,
    limits: &[u32],
) -> Result<Vec<u32>, OutOfMemory>
    requires { length limits.now ≡ length instance.now.pools }
    ensures { IfOk result (λ v. v.items ≡ admitted_indexes instance.now (slice_index limits.now)) }
{
    // An instance is well formed: each choice is in a pool.
    let _pools = instance.pools();
    let published = published_limits(alloc, instance, limits)?;
    let admitted = admitted_indexes(rt, alloc, instance, &published)?;
    Ok(admitted)
}
