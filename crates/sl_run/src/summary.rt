ghost use Rattle.std.specs.Prelude.{◌≡◌, ◌<◌, ◌≤◌, length, map, slice_index, slice_get, sum};
ghost use Rattle.std.specs.Option.{option_copied};
ghost use Rattle.sl_types.specs.declared.kinds.TheConstants.{MAX_POOLS};
ghost use Rattle.sl_types.specs.Market.{list_of};
ghost use Rattle.sl_laws.specs.Limits.{admitted_choice};
ghost use Rattle.sl_laws.specs.Outcome.{admitted_indexes};
ghost use Rattle.sl_codes.specs.RecordText.{record_of};
ghost use Rattle.sl_run.specs.Result.{IsResultOf};
ghost use Rattle.sl_run.specs.Summary.{application_count, admitted_count, place_of, place_sum};
ghost use Rattle.sl_run.specs.Summary.{number_record, summary_records};

use sl_codes::Field;
use sl_doc::Doc;
use sl_types::{AppId, Entry, Instance};

// How many choices all lists have.
fn application_count(instance: &Instance) -> u64
    ensures { result ≡ application_count instance.now }
{
    let mut count = 0;
    for number in 0..instance.applicants() {
        count += instance.list(AppId(number as u32)).len() as u64;
    }
    count
}

// The choice at an index of an applicant's list.
fn choice_at(instance: &Instance, app: AppId, index: u32) -> Option<Entry>
    requires { app.0 < length instance.now.lists }
    ensures { result ≡ slice_get (list_of instance.now app.0) index }
{
    instance.list(app).get(index as usize).copied()
}

// The choice with which a result admits an applicant.
fn admitted_choice(instance: &Instance, doc: &Doc, app: AppId) -> Option<Entry>
    requires result { IsResultOf instance.now doc.now }
    requires within { app.0 < length instance.now.lists }
    ensures { let choices = list_of instance.now app.0 in
        result ≡ admitted_choice instance.now (slice_index doc.now.limits) choices }
{
    choice_at(instance, app, doc.admitted[app.0 as usize])
}

// How many applicants a result admits.
fn admitted_count(instance: &Instance, doc: &Doc) -> u64
    requires { IsResultOf instance.now doc.now }
    ensures { result ≡ admitted_count instance.now (slice_index doc.now.limits) }
{
    let mut count = 0;
    for number in 0..instance.applicants() {
        if admitted_choice(instance, doc, AppId(number as u32)).is_some() {
            count += 1;
        }
    }
    count
}

// The place of an admitted choice, 0 where there is none.
fn place_of(choice: Option<Entry>) -> u32
    ensures { result ≡ place_of choice }
{
    match choice {
        Some(choice) => choice.place,
        None => 0,
    }
}

// The places of all admitted choices, added up.
fn place_sum(instance: &Instance, doc: &Doc) -> u64
    requires { IsResultOf instance.now doc.now }
    ensures { result ≡ place_sum instance.now (slice_index doc.now.limits) }
{
    let mut places = 0;
    for number in 0..instance.applicants() {
        places += u64::from(place_of(admitted_choice(instance, doc, AppId(number as u32))));
    }
    places
}

// The limits of all pools, added up.
fn limit_sum(limits: &[u32]) -> u64
    requires { length limits.now ≤ MAX_POOLS }
    ensures { result ≡ sum limits.now }
{
    let mut total = 0;
    for limit in limits {
        total += u64::from(*limit);
    }
    total
}

// The record of a number with its name.
fn number_record(name: &'static str, number: u64) -> [Field<'static>; 4]
    ensures { record_of result ≡ number_record name.now number }
{
    [
        Field::Text("demo"),
        Field::Text(name),
        Field::Number(number),
        Field::Text(""),
    ]
}

/// The records of the summary of an instance and its result.
pub fn summary_records(instance: &Instance, doc: &Doc) -> [[Field<'static>; 4]; 7]
    requires { IsResultOf instance.now doc.now }
    ensures { map (λ r. record_of r) result ≡ summary_records instance.now doc.now.limits }
{
    [
        number_record("pools", instance.pools() as u64),
        number_record("applicants", instance.applicants() as u64),
        number_record("applications", application_count(instance)),
        number_record("admitted", admitted_count(instance, doc)),
        number_record("limits", limit_sum(&doc.limits)),
        number_record("places", place_sum(instance, doc)),
        [
            Field::Text("end"),
            Field::Number(6),
            Field::Text(""),
            Field::Text(""),
        ],
    ]
}
