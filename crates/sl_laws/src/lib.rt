//! The rules of stable score limits, plain functions that compute them, and the laws that they obey.
#![tactic(auto)]

mod plain;
mod replaced;
mod theorems;

pub use plain::{
    plain_admit, plain_count, plain_eff, plain_feeds, plain_justified, plain_settled, plain_weight,
};
pub use replaced::effective_at;
pub use theorems::{
    best_decides, deciding_is_justified, demand_is_monotone, drops_void, feeds_says, is_local,
    justified_below, justified_has_top, least_is_one, limits_under_l_are_lower, none_earlier,
    passes_no_stable_limit, proves_the_least, reaches_by_end, replays_by_end, settled_alike,
    sound_passes_none, stays_justified, stays_settled,
};

#[cfg(test)]
mod tests;
