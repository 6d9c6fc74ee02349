ghost use Rattle.std.specs.Prelude.{◌≡◌, ◌<◌, ◌^◌, [], length, IfOk, None};
ghost use Rattle.sl_types.specs.Market.{market_of_pools, market_with};
ghost use Rattle.sl_types.specs.Valid.{size_fault, nesting_fault, list_fault, merit_fault, first_fault};
ghost use Rattle.sl_types.specs.Trees.{merit_fault_by};

use crate::{
    AppId, Entry, MAX_APPLICANTS, MAX_POOLS, MAX_PROGRAMMES, Pool, PoolId, ProgId, Unfit, merits,
    nesting, rules,
};
use std::alloc::{AllocError, Global};

#[tactic(auto, using(crate::proofs::Lists::sum_by_map))]
fn size_fault(pools: &[Pool], progs: &[PoolId], lists: &[Vec<Entry>]) -> Option<Unfit>
    ensures { result ≡ size_fault (market_with pools.now progs.now lists.now) }
{
    if pools.len() > MAX_POOLS {
        return Some(Unfit::TooManyPools);
    }
    if progs.len() > MAX_PROGRAMMES {
        return Some(Unfit::TooManyProgrammes);
    }
    if lists.len() > MAX_APPLICANTS {
        return Some(Unfit::TooManyApplicants);
    }
    if rules::has_too_many_choices(lists) {
        return Some(Unfit::TooManyChoices);
    }
    None
}

#[tactic(auto, using(crate::proofs::Lists::position_map))]
fn list_fault(progs: &[PoolId], lists: &[Vec<Entry>]) -> Option<Unfit>
    requires { length lists.now < 2 ^ 32 }
    ensures { result ≡ list_fault (market_with [] progs.now lists.now) }
{
    if let Some(at) = rules::first_too_long(lists) {
        return Some(Unfit::ListLength(AppId(at as u32)));
    }
    if let Some(at) = rules::first_with_prog_out(progs.len(), lists) {
        return Some(Unfit::ProgRange(AppId(at as u32)));
    }
    if let Some(at) = rules::first_out_of_order(lists) {
        return Some(Unfit::PlaceOrder(AppId(at as u32)));
    }
    if let Some(at) = rules::first_with_score_out(lists) {
        return Some(Unfit::ScoreRange(AppId(at as u32)));
    }
    if let Some(at) = rules::first_with_prog_twice(lists) {
        return Some(Unfit::ProgRepeated(AppId(at as u32)));
    }
    None
}

// The first of the rules on merits that fails, by the trees of the programmes.
#[tactic(auto, using(crate::proofs::Lists::position_map, crate::proofs::Lists::length_map))]
fn merit_fault_by(
    alloc: Global,
    trees: &[Option<u32>],
    lists: &[Vec<Entry>],
) -> Result<Option<Unfit>, AllocError>
    requires few { length lists.now < 2 ^ 32 }
    ensures { IfOk result (λ fault. fault ≡ merit_fault_by trees.now (market_with [] [] lists.now).lists) }
{
    if let Some(at) = merits::first_with_two_scores(trees, lists) {
        return Ok(Some(Unfit::MeritDiffers(AppId(at as u32))));
    }
    if let Some(at) = merits::first_tied(alloc, trees, lists)? {
        return Ok(Some(Unfit::MeritTied(AppId(at as u32))));
    }
    Ok(None)
}

// The first of the rules on merits that fails, where the rules on parents and on lists hold.
fn merit_fault(
    alloc: Global,
    pools: &[Pool],
    progs: &[PoolId],
    lists: &[Vec<Entry>],
) -> Result<Option<Unfit>, AllocError>
    requires few { length lists.now < 2 ^ 32 }
    requires nested { nesting_fault (market_of_pools pools.now) ≡ None }
    requires listed { list_fault (market_with [] progs.now lists.now) ≡ None }
    ensures { IfOk result (λ fault. fault ≡ merit_fault (market_with pools.now progs.now lists.now)) }
{
    let trees = merits::trees(alloc, pools, progs)?;
    let fault = merit_fault_by(alloc, trees.as_slice(), lists)?;
    Ok(fault)
}

// The first rule that fails, with the lowest number.
#[tactic(auto, using(crate::proofs::Alike::nesting_alike))]
pub fn first_fault(
    alloc: Global,
    pools: &[Pool],
    progs: &[PoolId],
    lists: &[Vec<Entry>],
) -> Result<Option<Unfit>, AllocError>
    ensures { IfOk result (λ fault. fault ≡ first_fault (market_with pools.now progs.now lists.now)) }
{
    if let Some(fault) = size_fault(pools, progs, lists) {
        return Ok(Some(fault));
    }
    if let Some(at) = rules::first_quota_out(pools) {
        return Ok(Some(Unfit::QuotaRange(PoolId(at as u32))));
    }
    if let Some(fault) = nesting::nesting_fault(alloc, pools)? {
        return Ok(Some(fault));
    }
    if let Some(at) = rules::first_in_no_pool(pools.len(), progs) {
        return Ok(Some(Unfit::PoolRange(ProgId(at as u32))));
    }
    if let Some(fault) = list_fault(progs, lists) {
        return Ok(Some(fault));
    }
    merit_fault(alloc, pools, progs, lists)
}
