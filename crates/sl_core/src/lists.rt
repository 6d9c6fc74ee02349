// Lists with a number or a flag for each pool.
ghost use Rattle.std.specs.Prelude.{◌≡◌, false, length, replicate};
ghost use Rattle.sl_core.specs.State.{has_pool};
ghost use Rattle.sl_core.specs.Machine.{fed_pools, has_any};

use sl_laws::plain_feeds;
use sl_types::{Instance, PoolId};

// Whether a pool's flag is up; a number that is no pool's has none.
pub fn has_pool(flags: &[bool], pool: PoolId) -> bool
    ensures { result ≡ has_pool flags.now pool.0 }
{
    let at = pool.0 as usize;
    at < flags.len() && flags[at]
}

// Whether any flag is up.
pub fn has_any(flags: &[bool]) -> bool
    ensures { result ≡ has_any flags.now }
{
    flags.iter().any(|flag| *flag)
}

// Puts down every flag.
pub fn clear_flags(flags: &mut [bool])
    ensures { flags.new ≡ replicate (length flags.old) false }
{
    for at in 0..flags.len() {
        flags[at] = false;
    }
}

// Makes every number 0.
pub fn clear_numbers(numbers: &mut [u32])
    ensures { numbers.new ≡ replicate (length numbers.old) 0 }
{
    for at in 0..numbers.len() {
        numbers[at] = 0;
    }
}

// Puts up the flags of the pools that a pool feeds, and down all others.
pub fn flag_fed(instance: &Instance, pool: PoolId, flags: &mut [bool])
    requires { length flags.old ≡ length instance.now.pools }
    ensures { flags.new ≡ fed_pools instance.now pool.0 }
{
    // An instance has few enough pools for their numbers.
    let _pools = instance.pools();
    for at in 0..flags.len() {
        flags[at] = plain_feeds(instance, pool, PoolId(at as u32));
    }
}
