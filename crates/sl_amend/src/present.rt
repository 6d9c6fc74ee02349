ghost use Rattle.std.specs.Prelude.{◌≡◌, ◌≤◌, ◌<◌, ◌^◌, length, IfOk};
ghost use Rattle.sl_types.specs.declared.kinds.TheConstants.{MAX_APPLICANTS};
ghost use Rattle.sl_instance.specs.Lists.{contents};
ghost use Rattle.sl_amend.specs.DraftMarket.{marked};
ghost use Rattle.sl_amend.specs.Origins.{origin_of, origins_of_marked};
ghost use Rattle.sl_amend.specs.Roll.{IsRoll, lists_of};

use crate::roll::{Roll, list_at};
use sl_codes::Codes;
use sl_types::{AppId, Entry, OutOfMemory};
use std::alloc::{AllocError, Global};

/// The lists of the applicants who are present, in order.
pub fn present_lists(alloc: Global, roll: &Roll) -> Result<Vec<Vec<Entry>>, AllocError>
    requires { IsRoll roll.now }
    ensures { let present = roll.now.present.items in
        IfOk result (λ v. contents v.items ≡ marked present (lists_of roll.now)) }
{
    let mut lists = Vec::with_capacity(alloc, roll.applicants)?;
    for app in 0..roll.lists.len() {
        if roll.present[app] {
            lists.push(Vec::from_slice(alloc, list_at(&roll.lists, app))?)?;
        }
    }
    Ok(lists)
}

/// The codes of the applicants who are present, in order.
pub fn present_codes(alloc: Global, codes: &Codes, present: &[bool]) -> Result<Codes, OutOfMemory>
    requires { length present.now ≡ length codes.now }
    ensures { IfOk result (λ copy. copy ≡ marked present.now codes.now) }
{
    let mut copy = Codes::new(alloc);
    for number in 0..codes.len() {
        if present[number] {
            copy.add(codes.text(number as u32))?;
        }
    }
    Ok(copy)
}

// An applicant's number in the tables, of which there are so many, or none.
fn origin(of_tables: usize, number: usize) -> Option<AppId>
    requires { of_tables < 2 ^ 32 }
    ensures { result ≡ origin_of of_tables number }
{
    if number < of_tables {
        Some(AppId(number as u32))
    } else {
        None
    }
}

/// Which of the tables' applicants those are who are present, in order.
pub fn present_origins(
    alloc: Global,
    of_tables: usize,
    present: &[bool],
) -> Result<Vec<Option<AppId>>, AllocError>
    requires { of_tables ≤ MAX_APPLICANTS }
    ensures { IfOk result (λ v. v.items ≡ origins_of_marked of_tables present.now) }
{
    let mut origins = Vec::new(alloc);
    for number in 0..present.len() {
        if present[number] {
            origins.push(origin(of_tables, number))?;
        }
    }
    Ok(origins)
}
