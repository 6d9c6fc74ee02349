ghost use Rattle.std.specs.Prelude.{◌≡◌, ◌≤◌, ◌<◌, true, None, Some, length, All, IfOk, IfErr};
ghost use Rattle.sl_io.specs.Shelf.{KeepsFiles};
ghost use Rattle.sl_types.specs.Valid.{IsValid};
ghost use Rattle.sl_codes.specs.declared.faults.Table.TheVariants as table;
ghost use Rattle.sl_instance.specs.Assembly.{IsKnown};
ghost use Rattle.sl_instance.specs.NamedMarket.{IsNamed};
ghost use Rattle.sl_run.specs.Words.{inputs_in, letter_rule};
ghost use Rattle.sl_run.specs.Accepted.{AreReadAs, pool_fault, programme_fault, choice_fault, application_fault};
ghost use Rattle.sl_run.specs.Causes.{IsCause};
ghost use Rattle.sl_run.specs.Fetching.{IsTextOf, Reads, GivesPools, GivesProgrammes, GivesChoices, GivesInstance, IsFetchCause, IsFileCause};
ghost use Rattle.sl_run.specs.Run.{is_of_files};

use crate::failure::Failure;
use crate::letter::Letter;
use crate::words::Tables;
use sl_choices::{ChoiceTable, read_choices};
use sl_codes::Table;
use sl_instance::{Named, assemble};
use sl_io::{FetchError, LONGEST_FILE, Shelf};
use sl_pools::{PoolTable, ProgTable, read_pools, read_programmes};
use std::alloc::Global;

/// The bytes of the file of a table.
pub fn fetch<S: Shelf>(
    alloc: Global,
    shelf: &mut S,
    table: Table,
    name: &str,
) -> Result<Vec<u8>, Failure>
    ensures told { IfOk result (λ v. IsTextOf (S.files shelf.old) name.now v.items) }
    ensures short { IfOk result (λ v. length v.items ≤ LONGEST_FILE) }
    ensures keeps { KeepsFiles (S.files shelf.old) (S.files shelf.new) }
    ensures cause { IfErr result
        (IsFetchCause table (S.files shelf.old) (S.files shelf.new) name.now) }
{
    let mut bytes = Vec::new(alloc);
    match shelf.fetch(name, &mut bytes) {
        Ok(()) => Ok(bytes),
        Err(FetchError::Fault) => Err(Failure::Unreadable(table)),
        Err(FetchError::TooLong) => Err(Failure::TooLong(table)),
        Err(FetchError::OutOfMemory) => Err(Failure::OutOfMemory),
    }
}

fn fetch_pools<S: Shelf>(
    alloc: Global,
    shelf: &mut S,
    name: &str,
    letter: Letter,
) -> Result<PoolTable, Failure>
    ensures table { let gives = GivesPools (letter_rule letter) in
        IfOk result (λ t. Reads (S.files shelf.old) name.now (gives t)) }
    ensures cause { let first = pool_fault (letter_rule letter) in
        IfErr result
        (IsFileCause table.Pools first (S.files shelf.old) (S.files shelf.new) name.now) }
    ensures keeps { KeepsFiles (S.files shelf.old) (S.files shelf.new) }
{
    let bytes = fetch(alloc, shelf, Table::Pools, name)?;
    match read_pools(alloc, &bytes, letter.rule()) {
        Ok(table) => Ok(table),
        Err(error) => Err(Failure::from(error)),
    }
}

fn fetch_programmes<S: Shelf>(
    alloc: Global,
    shelf: &mut S,
    name: &str,
    pools: &PoolTable,
) -> Result<ProgTable, Failure>
    ensures table { let gives = GivesProgrammes pools.now.codes in
        IfOk result (λ t. Reads (S.files shelf.old) name.now (gives t)) }
    ensures within { IfOk result (λ t. All (λ Q. Q.0 < length pools.now.codes) t.pools) }
    ensures cause { let first = programme_fault pools.now.codes in
        IfErr result
        (IsFileCause table.Programmes first (S.files shelf.old) (S.files shelf.new) name.now) }
    ensures keeps { KeepsFiles (S.files shelf.old) (S.files shelf.new) }
{
    let bytes = fetch(alloc, shelf, Table::Programmes, name)?;
    match read_programmes(alloc, &bytes, pools) {
        Ok(table) => Ok(table),
        Err(error) => Err(Failure::from(error)),
    }
}

fn fetch_applications<S: Shelf>(
    alloc: Global,
    shelf: &mut S,
    name: &str,
    pools: &PoolTable,
    progs: &ProgTable,
) -> Result<ChoiceTable, Failure>
    ensures table { let gives = GivesChoices progs.now.codes in
        IfOk result (λ t. Reads (S.files shelf.old) name.now (gives t)) }
    ensures within { let progs = length progs.now.codes in
        IfOk result (λ t. All (IsKnown (length t.codes) progs) t.rows) }
    ensures cause { let first = choice_fault progs.now.codes in
        IfErr result
        (IsFileCause table.Applications first (S.files shelf.old) (S.files shelf.new) name.now) }
    ensures keeps { KeepsFiles (S.files shelf.old) (S.files shelf.new) }
{
    let bytes = fetch(alloc, shelf, Table::Applications, name)?;
    match read_choices(alloc, &bytes, pools, progs) {
        Ok(table) => Ok(table),
        Err(error) => Err(Failure::from(error)),
    }
}

// The instance that an application table makes with the other two.
fn fetch_instance<S: Shelf>(
    alloc: Global,
    shelf: &mut S,
    name: &str,
    pools: PoolTable,
    progs: ProgTable,
) -> Result<Named, Failure>
    requires { All (λ Q. Q.0 < length pools.codes) progs.pools }
    ensures named { let gives = GivesInstance pools progs in
        IfOk result (λ n. Reads (S.files shelf.old) name.now (gives n)) }
    ensures pools { IfOk result (λ n. n.market.pools ≡ pools.pools) }
    ensures cause { let first = application_fault pools progs in
        IfErr result
        (IsFileCause table.Applications first (S.files shelf.old) (S.files shelf.new) name.now) }
    ensures keeps { KeepsFiles (S.files shelf.old) (S.files shelf.new) }
{
    let choices = fetch_applications(alloc, shelf, name, &pools, &progs)?;
    match assemble(alloc, pools, progs, choices) {
        Ok(named) => Ok(named),
        Err(error) => Err(Failure::from(error)),
    }
}

/// The instance of three files, each fetched and read before the next.
pub fn read_tables<S: Shelf>(
    alloc: Global,
    tables: Tables<'_>,
    shelf: &mut S,
) -> Result<Named, Failure>
    ensures held { IfOk result (AreReadAs (S.files shelf.old) (inputs_in tables.entry)) }
    ensures cause { let inputs = inputs_in tables.entry in
        IfErr result (IsCause inputs (S.files shelf.old) (S.files shelf.new)) }
    ensures valid { IfOk result (λ n. IsValid n.market) }
    ensures named { IfOk result IsNamed }
    ensures late { IfErr result (λ failure. is_of_files failure ≡ true) }
    ensures keeps { KeepsFiles (S.files shelf.old) (S.files shelf.new) }
{
    let pools = fetch_pools(alloc, shelf, tables.pools, tables.letter)?;
    let progs = fetch_programmes(alloc, shelf, tables.programmes, &pools)?;
    let named = fetch_instance(alloc, shelf, tables.applications, pools, progs)?;
    // An instance is valid, and its codes are codes.
    let _pools = named.instance().pools();
    Ok(named)
}
