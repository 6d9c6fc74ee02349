ghost use Rattle.std.specs.Prelude.{◌≡◌, IfOk, IfErr};
ghost use Rattle.sl_io.specs.Shelf.{KeepsFiles};
ghost use Rattle.sl_codes.specs.declared.faults.Table.TheVariants as table;
ghost use Rattle.sl_run.specs.Accepted.{amendment_fault};
ghost use Rattle.sl_run.specs.Fetching.{Reads, GivesRows, IsFileCause};

use crate::failure::Failure;
use crate::files::fetch;
use sl_amend::{Amendments, read_amendments};
use sl_codes::Table;
use sl_instance::Named;
use sl_io::Shelf;
use std::alloc::Global;

/// The amendments of an instance that a file holds.
pub fn fetch_amendments<S: Shelf>(
    alloc: Global,
    shelf: &mut S,
    name: &str,
    named: &Named,
) -> Result<Amendments, Failure>
    ensures rows { let gives = GivesRows named.now in
        IfOk result (λ a. Reads (S.files shelf.old) name.now (gives a.rows)) }
    ensures named { IfOk result (λ a. a.named ≡ named.now) }
    ensures cause { let first = amendment_fault named.now in
        IfErr result
        (IsFileCause table.Amendments first (S.files shelf.old) (S.files shelf.new) name.now) }
    ensures keeps { KeepsFiles (S.files shelf.old) (S.files shelf.new) }
{
    let bytes = fetch(alloc, shelf, Table::Amendments, name)?;
    match read_amendments(alloc, &bytes, named) {
        Ok(amendments) => Ok(amendments),
        Err(error) => Err(Failure::from(error)),
    }
}

/// Drops amendments that are done with. They are made of so much that a function which drops them
/// has little room for more.
pub fn dismiss(_amendments: Amendments) {}
