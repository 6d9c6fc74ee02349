ghost use Rattle.std.specs.Prelude.{◌≡◌, ◌<◌, ◌≤◌, length, OnOk, OnErr};
ghost use Rattle.sl_types.specs.declared.kinds.TheConstants.{MAX_SCORE};
ghost use Rattle.sl_amend.specs.Applied.{with_quota};
ghost use Rattle.sl_amend.specs.Change.{changed, Fits, FitsQuota, FitsJoin, FitsAdd, HasChoice, IsMember};
ghost use Rattle.sl_amend.specs.Register.{draft_of, IsRegister};

use crate::change::Change;
use crate::joining::join;
use crate::roll::Roll;
use sl_codes::Codes;
use sl_types::{AppId, Entry, OutOfMemory, Pool, PoolId};
use std::alloc::Global;

/// What a draft is kept in.
#[derive(Drop)]
pub struct Register {
    pub alloc: Global,
    pub pools: Vec<Pool>,
    pub progs: Vec<PoolId>,
    pub pool_codes: Codes,
    pub prog_codes: Codes,
    /// The codes of the applicants of the tables, and then of those that rows made.
    pub app_codes: Codes,
    /// How many applicants are of the tables.
    pub of_tables: usize,
    pub roll: Roll,
}

/// The most applicants that a draft gives a number to, present or not.
const MAX_NUMBERS: usize = u32::MAX as usize - 1;

impl Register {
    // Gives a pool a quota.
    fn set_quota(&mut self, pool: PoolId, quota: u32)
        requires register { IsRegister self.old }
        requires fits { FitsQuota (draft_of self.old) pool.0 quota }
        ensures draft { draft_of self.new ≡ changed (draft_of self.old) (Change.Quota pool quota) }
        ensures register { IsRegister self.new }
    {
        self.pools[pool.0 as usize].quota = quota;
    }

    // Makes an applicant. Numbers end at 32 bits.
    fn join(&mut self, code: &str, choice: Entry) -> Result<(), OutOfMemory>
        requires register { IsRegister self.old }
        requires fits { FitsJoin (draft_of self.old) code.now choice }
        ensures ok { let after = changed (draft_of self.old) (Change.Join code.entry choice) in
            OnOk result (draft_of self.new ≡ after) }
        ensures err { OnErr result (draft_of self.new ≡ draft_of self.old) }
        ensures register { IsRegister self.new }
    {
        if self.app_codes.len() >= MAX_NUMBERS {
            return Err(OutOfMemory);
        }
        join(
            self.alloc,
            &mut self.roll,
            &mut self.app_codes,
            code,
            choice,
        )
    }

    fn add(&mut self, app: AppId, choice: Entry) -> Result<(), OutOfMemory>
        requires register { IsRegister self.old }
        requires fits { FitsAdd (draft_of self.old) app.0 choice }
        ensures ok { let after = changed (draft_of self.old) (Change.Add app choice) in
            OnOk result (draft_of self.new ≡ after) }
        ensures err { OnErr result (draft_of self.new ≡ draft_of self.old) }
        ensures register { IsRegister self.new }
    {
        self.roll.add_choice(app.0 as usize, choice)?;
        Ok(())
    }

    fn drop_choice(&mut self, app: AppId, at: usize)
        requires register { IsRegister self.old }
        requires fits { HasChoice (draft_of self.old) app.0 at }
        ensures draft { draft_of self.new ≡ changed (draft_of self.old) (Change.Drop app at) }
        ensures register { IsRegister self.new }
    {
        self.roll.drop_choice(app.0 as usize, at);
    }

    fn withdraw(&mut self, app: AppId)
        requires register { IsRegister self.old }
        requires fits { IsMember (draft_of self.old) app.0 }
        ensures draft { draft_of self.new ≡ changed (draft_of self.old) (Change.Withdraw app) }
        ensures register { IsRegister self.new }
    {
        self.roll.withdraw(app.0 as usize);
    }

    fn rescore(&mut self, app: AppId, at: usize, score: u32) -> Result<(), OutOfMemory>
        requires register { IsRegister self.old }
        requires fits { HasChoice (draft_of self.old) app.0 at }
        requires low { score ≤ MAX_SCORE }
        ensures ok { let after = changed (draft_of self.old) (Change.Score app at score) in
            OnOk result (draft_of self.new ≡ after) }
        ensures err { OnErr result (draft_of self.new ≡ draft_of self.old) }
        ensures register { IsRegister self.new }
    {
        self.roll.rescore(app.0 as usize, at, score)?;
        Ok(())
    }

    /// Makes a change.
    pub fn make(&mut self, change: Change) -> Result<(), OutOfMemory>
        requires register { IsRegister self.old }
        requires fits { Fits (draft_of self.old) change }
        ensures ok { OnOk result (draft_of self.new ≡ changed (draft_of self.old) change.entry) }
        ensures err { OnErr result (draft_of self.new ≡ draft_of self.old) }
        ensures register { IsRegister self.new }
    {
        match change {
            Change::Quota(pool, quota) => {
                self.set_quota(pool, quota);
                Ok(())
            }
            Change::Join(code, choice) => self.join(code, choice),
            Change::Add(app, choice) => self.add(app, choice),
            Change::Drop(app, at) => {
                self.drop_choice(app, at);
                Ok(())
            }
            Change::Withdraw(app) => {
                self.withdraw(app);
                Ok(())
            }
            Change::Score(app, at, score) => self.rescore(app, at, score),
        }
    }
}
