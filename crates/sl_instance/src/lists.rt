ghost use Rattle.std.specs.Prelude.{◌≡◌, ◌<◌, ℕ, [], length, map, get_or, OnOk, IfOk};
ghost use Rattle.sl_instance.specs.Assembly.{chosen_by, entry_of};
ghost use Rattle.sl_instance.specs.Lists.{IsSortedOf};

use sl_choices::{ChoiceRow, ChoiceTable};
use sl_types::{AppId, ChoiceLists, Entry};
use std::alloc::{AllocError, Global};

// The choice of a row.
fn entry(row: &ChoiceRow) -> Entry
    ensures { result ≡ entry_of row.now }
{
    Entry {
        place: row.place,
        prog: row.prog,
        score: row.score,
    }
}

// Puts the choices of rows into `list`, in the order of the rows.
fn put_choices(rows: &[ChoiceRow], list: &mut Vec<Entry>) -> Result<(), AllocError>
    ensures { OnOk result (list.new.items ≡ map entry_of rows.now) }
{
    list.clear();
    'rows: for row in rows {
        list.push(entry(row))?;
    }
    Ok(())
}

fn sort_by_place(choices: &mut Vec<Entry>)
    ensures { IsSortedOf choices.old.items choices.new.items }
{
    choices.sort_unstable_by_key(|choice| choice.place);
}

// Puts the choices of an applicant, whose rows are found in `own` for it, into `list` in order of place.
fn find_list(
    choices: &ChoiceTable,
    app: AppId,
    own: &mut Vec<ChoiceRow>,
    list: &mut Vec<Entry>,
) -> Result<(), AllocError>
    requires { app.0 < length choices.now.codes }
    ensures { OnOk result (IsSortedOf (chosen_by choices.now.rows app.0) list.new.items) }
{
    choices.find_own(app, own)?;
    put_choices(own.as_slice(), list)?;
    sort_by_place(list);
    Ok(())
}

// The choices of each applicant, in order of place. No applicant has a vector of their own.
pub fn sorted_lists(alloc: Global, choices: &ChoiceTable) -> Result<ChoiceLists, AllocError>
    ensures each { IfOk result (λ lists. length lists ≡ length choices.now.codes) }
    ensures sorted { IfOk result (λ lists. (a : ℕ) → a < length choices.now.codes
        → IsSortedOf (chosen_by choices.now.rows a) (get_or lists a [])) }
{
    let rows = choices.rows().len();
    let applicants = choices.codes().len();
    let mut lists = ChoiceLists::with_capacity(alloc, applicants, rows)?;
    let mut own = Vec::new(alloc);
    let mut list = Vec::new(alloc);
    'applicants: for app in 0..applicants {
        find_list(choices, AppId(app as u32), &mut own, &mut list)?;
        lists.push(list.as_slice())?;
    }
    Ok(lists)
}
