ghost use Rattle.std.specs.Prelude.{◌≡◌, length, slice_index};
ghost use Rattle.sl_nesting.specs.Published.{ArePublished};

use sl_laws::plain_eff;
use sl_types::{Instance, PoolId};

/// Writes the effective limit of each pool, in points: the greatest of `words` over the pool and the pools
/// round it. Both slices have a number for each pool. It takes no memory.
pub fn published(instance: &Instance, words: &[u32], out: &mut [u32])
    requires sizes { length words.now ≡ length instance.now.pools }
    requires room { length out.old ≡ length instance.now.pools }
    ensures size { length out.new ≡ length out.old }
    ensures limits { ArePublished instance.now (slice_index words.now) out.new }
{
    for at in 0..instance.pools() {
        out[at] = plain_eff(instance, words, PoolId(at as u32));
    }
}
