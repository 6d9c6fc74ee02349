ghost use Rattle.std.specs.Prelude.{◌≡◌, ℕ, ◌<◌, All, length, nat_eq};
ghost use Rattle.std.specs.List.{list_any};
ghost use Rattle.sl_types.specs.Market.{lies_in};
ghost use Rattle.sl_types.specs.Valid.{applicant_numbers};
ghost use Rattle.sl_contend.specs.Contention.{has_choice_in};
ghost use Rattle.sl_amend.specs.Amended.{are_same_choices, is_still, origins_of, AreOrigins};
ghost use Rattle.sl_amend.specs.Touched.{IsFlaggedBy, is_there_still};
ghost use Rattle.sl_amend.specs.Touched.{is_left_by_some, is_joined_by_some};

use sl_types::{AppId, Entry, Instance, PoolId};

// Whether two lists have the same programmes and scores.
fn are_same(first: &[Entry], second: &[Entry]) -> bool
    ensures { result ≡ are_same_choices first.now second.now }
{
    let mut first = first;
    let mut second = second;
    while let [e, later @ ..] = first {
        let [f, others @ ..] = second else {
            return false;
        };
        if e.prog.0 != f.prog.0 || e.score != f.score {
            return false;
        }
        first = later;
        second = others;
    }
    second.is_empty()
}

// Flags the applicants of the old instance who are in the amended one with the same choices.
pub fn flag_still(old: &Instance, new: &Instance, origins: &[Option<AppId>], still: &mut [bool])
    requires sizes { length origins.now ≡ length new.now.lists }
    requires each { length still.old ≡ length old.now.lists }
    requires origins { AreOrigins old.now origins.now }
    ensures each { length still.new ≡ length still.old }
    ensures still { let stays = is_there_still old.now new.now (origins_of origins.now) in
        IsFlaggedBy stays (length old.now.lists) still.old still.new }
{
    for number in 0..new.applicants() {
        let Some(app) = origins[number] else {
            continue;
        };
        if are_same(old.list(app), new.list(AppId(number as u32))) {
            still[app.0 as usize] = true;
        }
    }
}

// Flags a pool and the pools round it.
fn flag_round(instance: &Instance, flags: &mut [bool], pool: PoolId)
    requires sizes { length flags.old ≡ length instance.now.pools }
    requires within { pool.0 < length instance.now.pools }
    ensures each { length flags.new ≡ length flags.old }
    ensures flagged { let pools = length instance.now.pools in
        IsFlaggedBy (lies_in instance.now pool.0) pools flags.old flags.new }
{
    for here in instance.outward(pool) {
        flags[here.0 as usize] = true;
    }
}

// Flags the pools that choices are in.
pub fn flag_choices(instance: &Instance, flags: &mut [bool], choices: &[Entry])
    requires sizes { length flags.old ≡ length instance.now.pools }
    requires within { All (λ e. e.prog.0 < length instance.now.progs) choices.now }
    ensures each { length flags.new ≡ length flags.old }
    ensures flagged { let chosen = has_choice_in instance.now choices.now in
        IsFlaggedBy chosen (length instance.now.pools) flags.old flags.new }
{
    for choice in choices {
        flag_round(instance, flags, instance.pool_of(choice.prog));
    }
}

// Flags the pools of the old choices of those who aren't there still.
pub fn flag_before(old: &Instance, still: &[bool], flags: &mut [bool])
    requires sizes { length flags.old ≡ length old.now.pools }
    requires each { length still.now ≡ length old.now.lists }
    ensures each { length flags.new ≡ length flags.old }
    ensures flagged { let left = is_left_by_some old.now still.now in
        IsFlaggedBy left (length old.now.pools) flags.old flags.new }
{
    for number in 0..old.applicants() {
        if !still[number] {
            flag_choices(old, flags, old.list(AppId(number as u32)));
        }
    }
}

// Flags the pools of the new choices of those whose origins aren't there still.
pub fn flag_after(
    old: &Instance,
    new: &Instance,
    origins: &[Option<AppId>],
    still: &[bool],
    flags: &mut [bool],
)
    requires sizes { length flags.old ≡ length new.now.pools }
    requires each { length still.now ≡ length old.now.lists }
    requires every { length origins.now ≡ length new.now.lists }
    requires origins { AreOrigins old.now origins.now }
    ensures each { length flags.new ≡ length flags.old }
    ensures flagged { let joined = is_joined_by_some new.now (origins_of origins.now) still.now in
        IsFlaggedBy joined (length new.now.pools) flags.old flags.new }
{
    for number in 0..new.applicants() {
        let Some(app) = origins[number] else {
            continue;
        };
        if !still[app.0 as usize] {
            flag_choices(new, flags, new.list(AppId(number as u32)));
        }
    }
}
