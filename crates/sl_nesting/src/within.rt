ghost use Rattle.std.specs.Prelude.{◌≡◌, ◌<◌, length, All};
ghost use Rattle.sl_types.specs.Market.{children_of};

use crate::inner::Children;
use sl_types::{Instance, PoolId};

/// The pools directly inside a pool, in rising order. It takes no memory.
pub fn children<'a>(instance: &'a Instance, pool: PoolId) -> Children<'a>
    ensures pools { result ≡ children_of instance.now pool.0 }
    ensures within { All (λ C. C < length instance.now.pools) result }
{
    Children::all(instance, pool)
}
