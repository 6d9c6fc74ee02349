// What an actor at work finds from its reads.
ghost use Rattle.std.specs.Prelude.{◌≡◌, ◌<◌, length, slice_index};
ghost use Rattle.sl_laws.specs.Best.{best_raise};
ghost use Rattle.sl_core.specs.Machine.{is_asked, lacks_read, phase_found, phase_after_read};

use crate::Phase;
use crate::lists::has_pool;
use sl_laws::{plain_eff, plain_feeds, plain_justified};
use sl_types::{Instance, MAX_SCORE, PoolId};

// Whether a raise of `at` asks for a read of `pool`.
pub fn is_asked(instance: &Instance, at: PoolId, pool: PoolId) -> bool
    ensures { result ≡ is_asked instance.now at.0 pool.0 }
{
    pool.0 == at.0 || plain_feeds(instance, pool, at)
}

// Whether a read that `at` asks for isn't made yet.
fn lacks_read(instance: &Instance, at: PoolId, made: &[bool]) -> bool
    ensures { result ≡ lacks_read instance.now at.0 made.now }
{
    for number in 0..instance.pools() {
        let pool = PoolId(number as u32);
        if is_asked(instance, at, pool) && !has_pool(made, pool) {
            return true;
        }
    }
    false
}

// The greatest justified raise of a pool at the reads, or 0.
fn best_raise(instance: &Instance, reads: &[u32], pool: PoolId) -> u32
    requires sizes { length reads.now ≡ length instance.now.pools }
    requires within { pool.0 < length instance.now.pools }
    ensures { result ≡ best_raise instance.now (slice_index reads.now) pool.0 }
{
    let _pools = instance.pools();
    let mut low = 0;
    let mut high = MAX_SCORE + 2;
    while high - low > 1 {
        let middle = low + (high - low) / 2;
        if plain_justified(instance, reads, pool, middle) {
            low = middle;
        } else {
            high = middle;
        }
    }
    low
}

// What comes after the last read.
fn phase_found(instance: &Instance, at: PoolId, reads: &[u32]) -> Phase
    requires sizes { length reads.now ≡ length instance.now.pools }
    requires within { at.0 < length instance.now.pools }
    ensures { result ≡ phase_found instance.now at reads.now }
{
    let best = best_raise(instance, reads, at);
    if plain_eff(instance, reads, at) < best {
        Phase::Ready(at, best)
    } else {
        Phase::Idle
    }
}

// What comes after a read.
pub fn phase_after_read(instance: &Instance, at: PoolId, reads: &[u32], made: &[bool]) -> Phase
    requires sizes { length reads.now ≡ length instance.now.pools }
    requires within { at.0 < length instance.now.pools }
    ensures { result ≡ phase_after_read instance.now at reads.now made.now }
{
    if lacks_read(instance, at, made) {
        Phase::Working(at)
    } else {
        phase_found(instance, at, reads)
    }
}
