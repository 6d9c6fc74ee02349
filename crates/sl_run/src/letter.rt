ghost use Rattle.std.specs.Prelude.{◌≡◌, ◌≢◌};
ghost use Rattle.sl_types.specs.declared.kinds.Rule.TheVariants.{Merit};
ghost use Rattle.sl_run.specs.Words.{letter_of, letter_rule};

use sl_types::Rule;

/// The letter of a command: the rule of the pools of kind `score`.
#[derive(Clone, Copy, Debug, PartialEq, Eq)]
pub enum Letter {
    H,
    L,
}

impl Letter {
    /// The letter that a word is.
    pub fn of(word: &str) -> Option<Letter>
        ensures { result ≡ letter_of word.now }
    {
        match word {
            "H" => Some(Letter::H),
            "L" => Some(Letter::L),
            _ => None,
        }
    }

    /// The rule.
    pub fn rule(self) -> Rule
        ensures rule { result ≡ letter_rule self }
        ensures score { result ≢ Merit }
    {
        match self {
            Letter::H => Rule::H,
            Letter::L => Rule::L,
        }
    }
}
