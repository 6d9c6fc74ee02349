// What a settling finds at its reads.
ghost use Rattle.std.specs.Prelude.{◌≡◌, ◌+◌, ◌<◌, ◌≤◌, length, slice_index};
ghost use Rattle.std.specs.Option.{IfSome};
ghost use Rattle.sl_types.specs.declared.kinds.TheConstants.{MAX_SCORE};
ghost use Rattle.sl_core.specs.Machine.{phase_found};
ghost use Rattle.sl_contend.specs.Contention.{contention_of};
ghost use Rattle.sl_contend.specs.Counters.{HasRoomFor};
ghost use Rattle.sl_desk.specs.Reading.{after_reads};

use sl_contend::{Contenders, RaiseRule, Scratch};
use sl_laws::plain_eff;
use sl_types::{Instance, PoolId};

// The limit to which the machine asks to raise the pool at these reads, where it does.
#[tactic(auto, using(crate::proofs::Best::best_low, crate::proofs::Best::own_below))]
pub fn limit_found<R: RaiseRule>(
    rule: &R,
    instance: &Instance,
    contenders: &Contenders,
    scratch: &mut Scratch,
    reads: &[u32],
    pool: PoolId,
) -> Option<u32>
    requires contenders { contenders.now ≡ contention_of instance.now }
    requires scratch { HasRoomFor instance.now scratch.old }
    requires reads { length reads.now ≡ length instance.now.pools }
    requires within { pool.0 < length instance.now.pools }
    requires covered { R.covers rule.now instance.now pool.0 }
    ensures found { phase_found instance.now pool reads.now ≡ after_reads pool result }
    ensures above { IfSome result (λ x. slice_index reads.now pool.0 < x) }
    ensures top { IfSome result (λ x. x ≤ MAX_SCORE + 1) }
    ensures scratch { HasRoomFor instance.now scratch.new }
{
    // An instance is valid.
    let _pools = instance.pools();
    let best = rule.best(instance, contenders, pool, reads, scratch);
    if best > plain_eff(instance, reads, pool) {
        Some(best)
    } else {
        None
    }
}
