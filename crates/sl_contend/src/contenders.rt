ghost use Rattle.std.specs.Prelude.{◌≡◌, ◌<◌, All, length, slice_get, IfOk};
ghost use Rattle.std.specs.List.Sorted.{IsPermutation, IsSortedBy};
ghost use Rattle.sl_contend.specs.Contention.{contention_of, MadeFor, contenders_of, feeding, fed_by, numbers_of_apps, numbers_of_pools, AreListed};
ghost use Rattle.sl_contend.specs.Offers.{choices_in, comes_before, HoldOffers, IsChoice};
ghost use Rattle.sl_contend.specs.Rows.{AreCut};

use crate::listing::Lists;
use crate::offer::Offer;
use crate::rows::{Rows, row};
use crate::{contention, listing, offering};
use sl_types::{AppId, Instance, OutOfMemory, PoolId};
use std::alloc::{AllocError, Global};
use std::marker::Model;
use std::thread::{Threads, join};

/// The choices in each pool of an instance, who has one, and which pools feed which. Contracts see the four
/// lists of each pool, the last three as numbers.
#[derive(Drop)]
pub struct Contenders {
    pools: usize,
    offers: Rows<Offer>,
    of: Rows<AppId>,
    feeds: Rows<PoolId>,
    fed: Rows<PoolId>,
}

impl Model for Contenders {
    ghost use Rattle.sl_contend.specs.Contention.{Contention};
    ghost use Rattle.sl_contend.specs.Made.{contention_in, AreAllCut};

    ghost Value = { Contention };

    ghost view = { λ s. contention_in s.pools s.offers s.of s.feeds s.fed };

    ghost invariant = { λ s. AreAllCut s.pools s.offers s.of s.feeds s.fed };
}

impl Contenders {
    /// The contenders of an instance's pools, and which of its pools feed which.
    pub fn new(alloc: Global, instance: &Instance) -> Result<Contenders, OutOfMemory>
        ensures { IfOk result (λ c. c ≡ contention_of instance.now) }
    {
        let offers = offering::offers(alloc, instance)?;
        let of = contention::contenders(alloc, instance)?;
        let fed = contention::fed(alloc, instance, &of)?;
        let feeds = contention::feeds(alloc, instance, &fed)?;
        Ok(Contenders {
            pools: instance.pools(),
            offers,
            of,
            feeds,
            fed,
        })
    }

    /// The contenders of an instance's pools, and which of its pools feed which, made in parallel: the choices
    /// beside the other lists, and put in order by pieces of the pools.
    pub fn new_in_parallel(
        rt: &(impl Threads + Sync),
        alloc: Global,
        instance: &Instance,
    ) -> Result<Contenders, OutOfMemory>
        ensures { IfOk result (λ c. c ≡ contention_of instance.now) }
    {
        let (lists, offers) = join(
            rt,
            || -> Result<Lists, AllocError>
                ensures { IfOk result (AreListed instance.entry.now) }
            { listing::lists(rt, alloc, instance) },
            || -> Result<Rows<Offer>, AllocError>
                ensures { IfOk result (AreCut (length instance.entry.now.pools))
                    × IfOk result (HoldOffers instance.entry.now) }
            { offering::offers_in_parallel(rt, alloc, instance) },
        );
        let offers = offers?;
        let (of, feeds, fed) = lists?;
        Ok(Contenders {
            pools: instance.pools(),
            offers,
            of,
            feeds,
            fed,
        })
    }

    /// Every choice in a pool or in a pool inside it, once: by falling score, then by rising applicant, then by
    /// rising place on the list.
    pub fn offers(&self, pool: PoolId) -> &[Offer]
        requires { pool.0 < self.now.pools }
        ensures value { slice_get self.now.offers pool.0 ≡ Some result.now }
        ensures each { MadeFor self.now (λ m. IsPermutation (choices_in m pool.0) result.now) }
        ensures falling { MadeFor self.now (λ m. IsSortedBy comes_before result.now) }
        ensures within { MadeFor self.now (λ m. All (IsChoice m) result.now) }
    {
        row(&self.offers, self.pools, pool)
    }

    /// Each applicant who has a choice in a pool or in a pool inside it, once, in rising order.
    pub fn of(&self, pool: PoolId) -> &[AppId]
        requires { pool.0 < self.now.pools }
        ensures value { slice_get self.now.of pool.0 ≡ Some (numbers_of_apps result.now) }
        ensures contenders { MadeFor self.now
            (λ m. numbers_of_apps result.now ≡ contenders_of m pool.0) }
        ensures within { MadeFor self.now (λ m. All (λ a. a.0 < length m.lists) result.now) }
    {
        row(&self.of, self.pools, pool)
    }

    /// The pools that feed a pool, in rising order.
    pub fn feeds(&self, pool: PoolId) -> &[PoolId]
        requires { pool.0 < self.now.pools }
        ensures value { slice_get self.now.feeds pool.0 ≡ Some (numbers_of_pools result.now) }
        ensures feeding { MadeFor self.now (λ m. numbers_of_pools result.now ≡ feeding m pool.0) }
        ensures within { MadeFor self.now (λ m. All (λ p. p.0 < length m.pools) result.now) }
    {
        row(&self.feeds, self.pools, pool)
    }

    /// The pools that a pool feeds, in rising order.
    pub fn fed(&self, pool: PoolId) -> &[PoolId]
        requires { pool.0 < self.now.pools }
        ensures value { slice_get self.now.fed pool.0 ≡ Some (numbers_of_pools result.now) }
        ensures fed { MadeFor self.now (λ m. numbers_of_pools result.now ≡ fed_by m pool.0) }
        ensures within { MadeFor self.now (λ m. All (λ p. p.0 < length m.pools) result.now) }
    {
        row(&self.fed, self.pools, pool)
    }
}
