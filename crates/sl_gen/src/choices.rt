ghost use Rattle.std.specs.Prelude.{◌≡◌, ◌≤◌, ◌<◌, OnOk};
ghost use Rattle.sl_gen.specs.Choices.{choice_numbered, choices_of, merit_of, points_of};
ghost use Rattle.sl_gen.specs.Choices.{prog_chosen, score_of};

use crate::pools::rule_of_pool;
use sl_types::{Entry, MAX_APPLICANTS, MAX_PROGRAMMES, ProgId, Rule};
use std::alloc::AllocError;

// The programme of a choice, where there are so many programmes.
fn prog_chosen(progs: u32, app: u32, choice: u32) -> u32
    requires some { 0 < progs }
    requires app { app < MAX_APPLICANTS }
    requires choice { choice < 6 }
    ensures value { result ≡ prog_chosen progs app choice }
    ensures within { result < progs }
{
    (app * 37 + choice * 113 + app / 400 * 16) % progs
}

// The merit of an applicant in all merit pools.
fn merit_of(app: u32) -> u32
    ensures { result ≡ merit_of app }
{
    1 + (u64::from(app) * 314_159 % 524_288) as u32
}

// The points of an applicant for a programme whose pool is no merit pool.
fn points_of(app: u32, prog: u32) -> u32
    requires app { app < MAX_APPLICANTS }
    requires prog { prog < MAX_PROGRAMMES }
    ensures { result ≡ points_of app prog }
{
    (app * 7_919 + prog * 331) % 501
}

fn score_of(app: u32, prog: u32) -> u32
    requires app { app < MAX_APPLICANTS }
    requires prog { prog < MAX_PROGRAMMES }
    ensures { result ≡ score_of app prog }
{
    if rule_of_pool(prog / 2) == Rule::Merit {
        merit_of(app)
    } else {
        points_of(app, prog)
    }
}

fn choice_numbered(progs: u32, app: u32, choice: u32) -> Entry
    requires some { 0 < progs }
    requires few { progs ≤ MAX_PROGRAMMES }
    requires app { app < MAX_APPLICANTS }
    requires choice { choice < 6 }
    ensures { result ≡ choice_numbered progs app choice }
{
    let prog = prog_chosen(progs, app, choice);
    Entry {
        place: choice + 1,
        prog: ProgId(prog),
        score: score_of(app, prog),
    }
}

// Puts the list of an applicant into `choices`.
pub fn choose(choices: &mut Vec<Entry>, progs: u32, app: u32) -> Result<(), AllocError>
    requires some { 0 < progs }
    requires few { progs ≤ MAX_PROGRAMMES }
    requires app { app < MAX_APPLICANTS }
    ensures { OnOk result (choices.new.items ≡ choices_of progs app) }
{
    choices.clear();
    for choice in 0..1 + app % 6 {
        choices.push(choice_numbered(progs, app, choice))?;
    }
    Ok(())
}
