ghost use Rattle.std.specs.Prelude.{◌≡◌, ◌+◌, ◌*◌};
ghost use Rattle.sl_types.specs.Trees.{tree_at};
ghost use Rattle.sl_instance.specs.Assembly.{entry_of};
ghost use Rattle.sl_instance.specs.Causes.{keyed_row};

use sl_choices::ChoiceRow;
use sl_types::{MAX_APPLICANTS, MAX_SCORE};

// In what the rows of a tree must agree: each applicant has one merit in it, and each merit one applicant.
#[derive(Clone, Copy)]
pub enum Agreement {
    OneMerit,
    OneApplicant,
}

fn tree_of_row(trees: &[Option<u32>], row: &ChoiceRow) -> Option<u32>
    ensures { result ≡ tree_at trees.now (entry_of row.now) }
{
    match trees.get(row.prog.0 as usize) {
        Some(tree) => *tree,
        None => None,
    }
}

// One number for a tree and a number below `most`.
fn key_of(tree: u32, most: u32, number: u32) -> u64
    ensures { result ≡ tree * most + number }
{
    u64::from(tree) * u64::from(most) + u64::from(number)
}

// The key of a row and its value, where rows of one key must have one value. A row outside trees has no key.
pub fn keyed_row(agreement: Agreement, trees: &[Option<u32>], row: &ChoiceRow) -> Option<(u64, u32)>
    ensures { result ≡ keyed_row agreement trees.now row.now }
{
    match (tree_of_row(trees, row), agreement) {
        (Some(tree), Agreement::OneMerit) => {
            Some((key_of(tree, MAX_APPLICANTS as u32, row.app.0), row.score))
        }
        (Some(tree), Agreement::OneApplicant) => {
            Some((key_of(tree, MAX_SCORE + 1, row.score), row.app.0))
        }
        (None, _) => None,
    }
}
