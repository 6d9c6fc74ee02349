ghost use Rattle.sl_types.specs.Market.{Market};
ghost use Rattle.sl_types.specs.Valid.{IsValid};
ghost use Rattle.sl_laws.specs.Laws.{DemandIsMonotone, JustifiedBelow, JustifiedHasTop, PassesNoStableLimit, StaysJustified, DropsVoid, DecidingIsJustified, IsLocal, StaysSettled, SoundPassesNone, ProvesTheLeast, BestDecides, SettledAlike, FeedsSays, NoneEarlier, LeastIsOne, ReplaysByEnd, ReachesByEnd, UnderLIsLower};

/// The demand for a score pool doesn't rise with its own limit, and doesn't fall where other limits rise.
pub fn demand_is_monotone()
    ensures { (market : Market) → IsValid market → DemandIsMonotone market }
{}

/// Where a raise is justified, so is each smaller one.
pub fn justified_below()
    ensures { (market : Market) → IsValid market → JustifiedBelow market }
{}

/// No raise above one point more than the greatest score is justified.
pub fn justified_has_top()
    ensures { (market : Market) → IsValid market → JustifiedHasTop market }
{}

/// A justified raise passes no stable limit.
pub fn passes_no_stable_limit()
    ensures { (market : Market) → IsValid market → PassesNoStableLimit market }
{}

/// A justified raise stays justified until it is overtaken.
pub fn stays_justified()
    ensures { (market : Market) → IsValid market → StaysJustified market }
{}

/// Void raises can be dropped.
pub fn drops_void()
    ensures { (market : Market) → IsValid market → DropsVoid market }
{}

/// The number that decides a pool's limit is itself justified.
pub fn deciding_is_justified()
    ensures { (market : Market) → IsValid market → DecidingIsJustified market }
{}

/// No sound list of raises passes a stable limit.
pub fn sound_passes_none()
    ensures { (market : Market) → IsValid market → SoundPassesNone market }
{}

/// A list that proves limits proves them the least stable ones.
pub fn proves_the_least()
    ensures { (market : Market) → IsValid market → ProvesTheLeast market }
{}

/// Whether a raise is justified is local to the feeding pools.
pub fn is_local()
    ensures { (market : Market) → IsValid market → IsLocal market }
{}

/// A settled pool stays settled where its own number rises and those of its feeding pools stay.
pub fn stays_settled()
    ensures { (market : Market) → IsValid market → StaysSettled market }
{}

/// A raise is justified exactly where it is at most the best.
pub fn best_decides()
    ensures { (market : Market) → IsValid market → BestDecides market }
{}

/// Whether a pool is settled depends on effective limits alone.
pub fn settled_alike()
    ensures { (market : Market) → IsValid market → SettledAlike market }
{}

/// What it means that a pool feeds another, in applicants and their choices.
pub fn feeds_says()
    ensures { (market : Market) → FeedsSays market }
{}

/// No stable limits admit any applicant earlier on their list than the least do.
pub fn none_earlier()
    ensures { (market : Market) → IsValid market → NoneEarlier market }
{}

/// The least stable limits are one vector.
pub fn least_is_one()
    ensures { (market : Market) → LeastIsOne market }
{}

/// A list with a raise at its end replays exactly where its front does, and the raise may come there.
pub fn replays_by_end()
    ensures { (market : Market) → ReplaysByEnd market }
{}

/// It reaches the limits of its front after that raise.
pub fn reaches_by_end()
    ensures { ReachesByEnd }
{}

/// Where pools of rule H have rule L instead, the least stable limits are at most what they were.
pub fn limits_under_l_are_lower()
    ensures { (market relaxed : Market)
        → IsValid market → IsValid relaxed → UnderLIsLower market relaxed }
{}
