ghost use Rattle.std.specs.Prelude.{◌≡◌, OnOk, OnErr, IsErrOf};
ghost use Rattle.sl_io.specs.Sink.{Takes, TakesPart, RoseIn, KeepsCount};
ghost use Rattle.sl_codes.specs.RecordText.{text_of_record, bytes_of_field, record_of};
ghost use Rattle.sl_doc.specs.VerdictText.{NamesWithin, naming_record, verdict_record};

use crate::texts::{app_code, pool_code};
use sl_check::Verdict;
use sl_codes::{Field, put_record};
use sl_instance::Named;
use sl_io::{Sink, WriteError};
use std::alloc::Global;

// The name of a verdict, and the field of what it names.
fn naming<'a>(named: &'a Named, verdict: &Verdict) -> (&'static str, Field<'a>)
    requires { NamesWithin named.now verdict.now }
    ensures { verdict_record named.now verdict.now
        ≡ naming_record result.0.now (bytes_of_field result.1) }
{
    match verdict {
        Verdict::Yes => ("Yes", Field::Text("")),
        Verdict::RaiseUnjust(number) => ("RaiseUnjust", Field::Number(u64::from(*number))),
        Verdict::Unsettled(pool) => ("Unsettled", Field::Text(pool_code(named, *pool))),
        Verdict::LimitWrong(pool) => ("LimitWrong", Field::Text(pool_code(named, *pool))),
        Verdict::AdmissionWrong(app) => ("AdmissionWrong", Field::Text(app_code(named, *app))),
        Verdict::CountWrong(pool) => ("CountWrong", Field::Text(pool_code(named, *pool))),
    }
}

/// The four fields of a verdict's record, with the code of the pool or of the applicant that it names. It takes
/// no memory.
pub fn verdict_fields<'a>(named: &'a Named, verdict: &Verdict) -> [Field<'a>; 4]
    requires { NamesWithin named.now verdict.now }
    ensures { record_of result ≡ verdict_record named.now verdict.now }
{
    let (name, value) = naming(named, verdict);
    [
        Field::Text("verdict"),
        Field::Text(name),
        value,
        Field::Text(""),
    ]
}

/// Writes the record of a verdict, with the code of the pool or of the applicant that it names. After an
/// error the sink took the first bytes of the record. `Fault` comes only where its count of faults rose.
pub fn verdict_text<O: Sink>(
    alloc: Global,
    named: &Named,
    verdict: &Verdict,
    out: &mut O,
) -> Result<(), WriteError>
    requires { NamesWithin named.now verdict.now }
    ensures text { let text = text_of_record (verdict_record named.now verdict.now) in
        OnOk result (Takes (O.output out.old) (O.output out.new) text) }
    ensures part { let text = text_of_record (verdict_record named.now verdict.now) in
        OnErr result (TakesPart (O.output out.old) (O.output out.new) text) }
    ensures cause { IsErrOf result WriteError.Fault → RoseIn (O.output out.old) (O.output out.new) }
    ensures later { KeepsCount (O.output out.old) (O.output out.new) }
{
    put_record(alloc, &verdict_fields(named, verdict), out)
}
