ghost use Rattle.std.specs.Prelude.{◌≡◌, length, IfOk};
ghost use Rattle.sl_types.specs.Valid.{IsValid};
ghost use Rattle.sl_amend.specs.Amended.{IsAmended, AreOrigins};
ghost use Rattle.sl_amend.specs.DraftMarket.{amended};
ghost use Rattle.sl_amend.specs.Files.{IsLedTo};
ghost use Rattle.sl_amend.specs.Origins.{origins_in};
ghost use Rattle.sl_amend.specs.Register.{draft_of, IsRegister};

use crate::opening::copy_codes;
use crate::present::{present_codes, present_lists, present_origins};
use crate::register::Register;
use sl_instance::Named;
use sl_types::{AppId, Instance, OutOfMemory};
use std::alloc::Global;

impl Register {
    // The instance of the applicants who are present, which breaks no rule.
    fn instance(&self, alloc: Global) -> Result<Instance, OutOfMemory>
        requires register { IsRegister self.now }
        requires valid { IsValid (amended (draft_of self.now)).market }
        ensures { IfOk result (λ i. i ≡ (amended (draft_of self.now)).market) }
    {
        let pools = Vec::from_slice(alloc, &self.pools)?;
        let progs = Vec::from_slice(alloc, &self.progs)?;
        let lists = present_lists(alloc, &self.roll)?;
        Instance::of_valid(alloc, pools, progs, lists)
    }

    /// The amended instance, where the rows of a file without a fault led here from an instance.
    pub fn amended(&self, alloc: Global, named: &Named) -> Result<Named, OutOfMemory>
        requires register { IsRegister self.now }
        requires led { IsLedTo named.now (draft_of self.now) }
        ensures amended { IfOk result (λ n. n ≡ amended (draft_of self.now)) }
        ensures same { IfOk result (λ n. IsAmended named.now.market n.market) }
    {
        let _valid = named.instance().pools();
        let instance = self.instance(alloc)?;
        let pools = copy_codes(alloc, named.pool_codes())?;
        let progs = copy_codes(alloc, named.prog_codes())?;
        let apps = present_codes(alloc, &self.app_codes, &self.roll.present)?;
        Ok(Named::new(instance, pools, progs, apps))
    }

    /// Which of the old applicants those of the amended instance are.
    pub fn origins(&self, alloc: Global, named: &Named) -> Result<Vec<Option<AppId>>, OutOfMemory>
        requires register { IsRegister self.now }
        requires led { IsLedTo named.now (draft_of self.now) }
        ensures origins { IfOk result (λ v. v.items ≡ origins_in (draft_of self.now)) }
        ensures each { let applicants = (amended (draft_of self.now)).market.lists in
            IfOk result (λ v. length v.items ≡ length applicants) }
        ensures known { IfOk result (λ v. AreOrigins named.now.market v.items) }
    {
        let _valid = named.instance().pools();
        let origins = present_origins(alloc, self.of_tables, &self.roll.present)?;
        Ok(origins)
    }
}
