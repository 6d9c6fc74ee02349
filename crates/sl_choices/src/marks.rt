ghost use Rattle.std.specs.Prelude.{◌≡◌, ◌<◌, ◌-◌, ◌^◌, ◌∷◌, ◌++◌, [], true, ℕ, List};
ghost use Rattle.sl_choices.specs.declared.choices.ChoiceRow.{ChoiceRow};
ghost use Rattle.sl_choices.specs.Marks.{has_bit, no_marks, IsMarked};

use crate::ChoiceRow;

/// What is known of an applicant's rows without a walk over them. A number's bit is that of its remainder by 32, so
/// others share it: where it is 0 no row has the number, and where it is 1 one may.
#[derive(Clone, Copy)]
pub struct Marks {
    /// How many rows there are.
    pub rows: u32,
    /// The bits of their places.
    pub places: u32,
    /// The bits of their programmes.
    pub progs: u32,
}

fn has_bit(bits: u32, number: u32) -> bool
    ensures { result ≡ has_bit bits number }
{
    (bits >> (number % 32)) & 1 == 1
}

fn with_bit(bits: u32, number: u32) -> u32
    ensures own { has_bit result number ≡ true }
    ensures kept { (other : ℕ) → has_bit bits other ≡ true → has_bit result other ≡ true }
{
    bits | (1 << (number % 32))
}

impl Marks {
    /// Of an applicant who has no row yet.
    pub fn new() -> Marks
        ensures { result ≡ no_marks }
    {
        Marks {
            rows: 0,
            places: 0,
            progs: 0,
        }
    }

    /// With one more row.
    pub fn with(self, row: ChoiceRow) -> Marks
        requires { self.rows < 2 ^ 32 - 1 }
        ensures { (own : List ChoiceRow) → IsMarked own self → IsMarked (own ++ row ∷ []) result }
    {
        Marks {
            rows: self.rows + 1,
            places: with_bit(self.places, row.place),
            progs: with_bit(self.progs, row.prog.0),
        }
    }

    /// Whether a row may have this place.
    pub fn may_take_place(self, place: u32) -> bool
        ensures { result ≡ has_bit self.places place }
    {
        has_bit(self.places, place)
    }

    /// Whether a row may have this programme.
    pub fn may_take_prog(self, prog: u32) -> bool
        ensures { result ≡ has_bit self.progs prog }
    {
        has_bit(self.progs, prog)
    }
}
