ghost use Rattle.std.specs.Prelude.{◌≡◌, ◌<◌, ◌^◌, true, length, IfOk, IfErr};
ghost use Rattle.sl_io.specs.Shelf.{KeepsFiles};
ghost use Rattle.sl_types.specs.Valid.{IsValid};
ghost use Rattle.sl_doc.specs.Document.{IsInRange};
ghost use Rattle.sl_instance.specs.NamedMarket.{IsNamed};
ghost use Rattle.sl_run.specs.Words.{letter_rule, round_inputs, tables_in};
ghost use Rattle.sl_run.specs.Accepted.{IsTold, Holds, AreReadAs};
ghost use Rattle.sl_run.specs.Causes.{IsCause};
ghost use Rattle.sl_run.specs.Fetching.{GivesDocument};
ghost use Rattle.sl_run.specs.Run.{HoldsRows, is_of_files};

use crate::amendments::fetch_amendments;
use crate::documents::read_document;
use crate::failure::Failure;
use crate::words::Tables;
use sl_amend::Amendments;
use sl_doc::Doc;
use sl_instance::Named;
use sl_io::Shelf;
use std::alloc::Global;

/// A published round that is amended: its instance, its document, and the rows.
#[derive(Drop)]
pub struct Round {
    pub named: Named,
    pub doc: Doc,
    pub amendments: Amendments,
}

/// The round of five files, each fetched and read before the next.
pub fn read_round<S: Shelf>(
    alloc: Global,
    tables: Tables<'_>,
    document: &str,
    amendments: &str,
    shelf: &mut S,
) -> Result<Round, Failure>
    ensures held { let inputs = round_inputs (tables_in tables.entry) document.now amendments.now in
        IfOk result (λ r. AreReadAs (S.files shelf.old) inputs r.named) }
    ensures document { let rule = letter_rule tables.entry.letter in
        let holds = Holds (S.files shelf.old) document.now in
        IfOk result (λ r. IsTold (S.files shelf.old) → holds (GivesDocument r.named rule r.doc)) }
    ensures rows { let holds = HoldsRows (S.files shelf.old) amendments.now in
        IfOk result (λ r. IsTold (S.files shelf.old) → holds r.named r.amendments.rows) }
    ensures same { IfOk result (λ r. r.amendments.named ≡ r.named) }
    ensures valid { IfOk result (λ r. IsValid r.named.market) }
    ensures named { IfOk result (λ r. IsNamed r.named) }
    ensures in_range { IfOk result (λ r. IsInRange r.named r.doc) }
    ensures few { IfOk result (λ r. length r.doc.raises < 2 ^ 32) }
    ensures cause { let inputs = round_inputs (tables_in tables.entry) document.now amendments.now in
        IfErr result (IsCause inputs (S.files shelf.old) (S.files shelf.new)) }
    ensures late { IfErr result (λ failure. is_of_files failure ≡ true) }
    ensures keeps { KeepsFiles (S.files shelf.old) (S.files shelf.new) }
{
    let (named, doc) = read_document(alloc, tables, document, shelf)?;
    let amendments = fetch_amendments(alloc, shelf, amendments, &named)?;
    Ok(Round {
        named,
        doc,
        amendments,
    })
}
