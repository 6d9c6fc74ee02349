// The memory that a floor opens with.
ghost use Rattle.std.specs.Prelude.{◌≡◌, ◌∷◌, ◌++◌, length, replicate, IfOk};
ghost use Rattle.sl_laws.specs.Raises.{Replays};
ghost use Rattle.sl_core.specs.State.{words_after};
ghost use Rattle.sl_floor.specs.Floor.{opening_words};

use sl_types::{Instance, Raise};
use std::alloc::{AllocError, Global};

// The limits that a list which replays reaches, in points.
pub fn reached(alloc: Global, instance: &Instance, kept: &[Raise]) -> Result<Vec<u32>, AllocError>
    requires { Replays instance.now kept.now }
    ensures { IfOk result (λ v. v.items ≡ words_after instance.now kept.now) }
{
    let mut limits: Vec<u32> = vec![in alloc; 0; instance.pools()]?;
    for at in 0..kept.len() {
        let raise = kept[at];
        let place = raise.pool.0 as usize;
        let word: u32 = limits[place];
        limits[place] = word.max(raise.limit);
    }
    Ok(limits)
}

// The ticket number, the limits, and every flag up.
pub fn opening_words(alloc: Global, limits: &[u32], ticket: u64) -> Result<Vec<u64>, AllocError>
    ensures { IfOk result (λ v. v.items ≡ opening_words ticket limits.now) }
{
    let mut words = Vec::new(alloc);
    words.push(ticket)?;
    for at in 0..limits.len() {
        words.push(limits[at] as u64)?;
    }
    for _ in 0..limits.len() {
        words.push(1)?;
    }
    Ok(words)
}
