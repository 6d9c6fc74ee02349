ghost use Rattle.std.specs.Prelude.{◌≡◌, true, IfOk, IfErr};
ghost use Rattle.sl_io.specs.Shelf.{KeepsFiles};
ghost use Rattle.sl_amend.specs.Tables.{is_written};
ghost use Rattle.sl_run.specs.Words.{print_table, table_inputs, tables_in};
ghost use Rattle.sl_run.specs.Accepted.{IsTold, AreReadAs};
ghost use Rattle.sl_run.specs.Causes.{IsCause};
ghost use Rattle.sl_run.specs.Receipt.{done_without};
ghost use Rattle.sl_run.specs.Run.{Performs, LeavesOf, HoldsAmended};
ghost use Rattle.sl_run.specs.Run.{amended_by, is_of_files};

use crate::amendments::{dismiss, fetch_amendments};
use crate::failure::Failure;
use crate::files::read_tables;
use crate::words::Tables;
use sl_amend::{Amendments, amended_instance, table_text};
use sl_codes::Table;
use sl_instance::Named;
use sl_io::{Shelf, Sink};
use sl_types::OutOfMemory;
use std::alloc::Global;

// The amended instance. It drops the amendments.
fn amended_of(alloc: Global, named: &Named, rows: Amendments) -> Result<Named, OutOfMemory>
    requires { rows.named ≡ named.now }
    ensures amended { IfOk result (λ n. n ≡ amended_by named.now rows.rows) }
{
    let amended = amended_instance(alloc, named, &rows);
    dismiss(rows);
    amended
}

// The instance of three files, and the same as the amendments of a fourth leave it; each file is
// fetched and read before the next.
fn read_amended<S: Shelf>(
    alloc: Global,
    tables: Tables<'_>,
    amendments: &str,
    shelf: &mut S,
) -> Result<(Named, Named), Failure>
    ensures held { let inputs = table_inputs (tables_in tables.entry) amendments.now in
        IfOk result (λ r. AreReadAs (S.files shelf.old) inputs r.0) }
    ensures amended { let holds = HoldsAmended (S.files shelf.old) amendments.now in
        IfOk result (λ r. IsTold (S.files shelf.old) → holds r.0 r.1) }
    ensures cause { let inputs = table_inputs (tables_in tables.entry) amendments.now in
        IfErr result (IsCause inputs (S.files shelf.old) (S.files shelf.new)) }
    ensures late { IfErr result (λ failure. is_of_files failure ≡ true) }
    ensures keeps { KeepsFiles (S.files shelf.old) (S.files shelf.new) }
{
    let named = read_tables(alloc, tables, shelf)?;
    let rows = fetch_amendments(alloc, shelf, amendments, &named)?;
    match amended_of(alloc, &named, rows) {
        Ok(amended) => Ok((named, amended)),
        Err(_) => Err(Failure::OutOfMemory),
    }
}

/// Reads tables and amendments, and puts one of the amended tables.
pub fn table_to<S: Shelf, O: Sink>(
    alloc: Global,
    printed: Table,
    tables: Tables<'_>,
    amendments: &str,
    shelf: &mut S,
    out: &mut O,
) -> Result<(), Failure>
    requires { is_written printed ≡ true }
    ensures carried_out { let command = print_table printed (tables_in tables.entry) amendments.now in
        let by = Performs (S.files shelf.old) command (O.output out.old) (O.output out.new) in
        IfOk result (λ _. by (done_without 0)) }
    ensures left { let command = print_table printed (tables_in tables.entry) amendments.now in
        let same = out.new ≡ out.old in
        IfErr result
        (LeavesOf (S.files shelf.old) command same (O.output out.old) (O.output out.new)) }
    ensures cause { let inputs = table_inputs (tables_in tables.entry) amendments.now in
        IfErr result (IsCause inputs (S.files shelf.old) (S.files shelf.new)) }
    ensures keeps { KeepsFiles (S.files shelf.old) (S.files shelf.new) }
{
    let (named, amended) = read_amended(alloc, tables, amendments, shelf)?;
    // An instance is valid, and its codes are codes.
    let _pools = amended.instance().pools();
    match table_text(alloc, &amended, printed, out) {
        Ok(()) => Ok(()),
        Err(error) => Err(Failure::from(error)),
    }
}
