ghost use Rattle.std.specs.Prelude.{◌≡◌, ◌<◌, ◌^◌, true, length, IfOk, IfErr};
ghost use Rattle.sl_io.specs.Shelf.{KeepsFiles};
ghost use Rattle.sl_types.specs.Valid.{IsValid};
ghost use Rattle.sl_codes.specs.declared.faults.Table.TheVariants.{Results};
ghost use Rattle.sl_doc.specs.Document.{IsInRange};
ghost use Rattle.sl_instance.specs.NamedMarket.{IsNamed};
ghost use Rattle.sl_run.specs.Words.{letter_rule, result_inputs, tables_in};
ghost use Rattle.sl_run.specs.Accepted.{IsTold, Holds, AreReadAs, document_fault};
ghost use Rattle.sl_run.specs.Fetching.{Reads, GivesDocument, IsFileCause};
ghost use Rattle.sl_run.specs.Causes.{IsCause};
ghost use Rattle.sl_run.specs.Run.{is_of_files};

use crate::failure::Failure;
use crate::files::{fetch, read_tables};
use crate::letter::Letter;
use crate::words::Tables;
use sl_codes::Table;
use sl_doc::{Doc, read_doc};
use sl_instance::Named;
use sl_io::Shelf;
use std::alloc::Global;

// The document of an instance that a file holds.
fn fetch_result<S: Shelf>(
    alloc: Global,
    shelf: &mut S,
    name: &str,
    named: &Named,
    letter: Letter,
) -> Result<Doc, Failure>
    ensures document { let gives = GivesDocument named.now (letter_rule letter) in
        IfOk result (λ doc. Reads (S.files shelf.old) name.now (gives doc)) }
    ensures in_range { IfOk result (IsInRange named.now) }
    ensures few { IfOk result (λ doc. length doc.raises < 2 ^ 32) }
    ensures cause { let first = document_fault named.now (letter_rule letter) in
        IfErr result (IsFileCause Results first (S.files shelf.old) (S.files shelf.new) name.now) }
    ensures keeps { KeepsFiles (S.files shelf.old) (S.files shelf.new) }
{
    let bytes = fetch(alloc, shelf, Table::Results, name)?;
    match read_doc(alloc, &bytes, named, letter.rule()) {
        Ok(doc) => Ok(doc),
        Err(error) => Err(Failure::from(error)),
    }
}

/// The instance of three files, and the document of it that a fourth holds, each fetched and read
/// before the next.
pub fn read_document<S: Shelf>(
    alloc: Global,
    tables: Tables<'_>,
    document: &str,
    shelf: &mut S,
) -> Result<(Named, Doc), Failure>
    ensures held { let inputs = result_inputs (tables_in tables.entry) document.now in
        IfOk result (λ r. AreReadAs (S.files shelf.old) inputs r.0) }
    ensures document { let rule = letter_rule tables.entry.letter in
        let holds = Holds (S.files shelf.old) document.now in
        IfOk result (λ r. IsTold (S.files shelf.old) → holds (GivesDocument r.0 rule r.1)) }
    ensures valid { IfOk result (λ r. IsValid r.0.market) }
    ensures named { IfOk result (λ r. IsNamed r.0) }
    ensures in_range { IfOk result (λ r. IsInRange r.0 r.1) }
    ensures few { IfOk result (λ r. length r.1.raises < 2 ^ 32) }
    ensures cause { let inputs = result_inputs (tables_in tables.entry) document.now in
        IfErr result (IsCause inputs (S.files shelf.old) (S.files shelf.new)) }
    ensures late { IfErr result (λ failure. is_of_files failure ≡ true) }
    ensures keeps { KeepsFiles (S.files shelf.old) (S.files shelf.new) }
{
    let named = read_tables(alloc, tables, shelf)?;
    let doc = fetch_result(alloc, shelf, document, &named, tables.letter)?;
    Ok((named, doc))
}
