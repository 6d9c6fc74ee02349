ghost use Rattle.std.specs.Prelude.{◌≡◌, true, option_map, IfSome};
ghost use Rattle.sl_codes.specs.Fields.{number_within};
ghost use Rattle.sl_amend.specs.Tables.{is_written};
ghost use Rattle.sl_run.specs.Words.{texts_of, command_in, command_of, HasRanges};
ghost use Rattle.sl_run.specs.Words.{clear_of, check_of, watch_of, amend_of, table_of, demo_of};
ghost use Rattle.sl_run.specs.Words.{letter_of, printed_of};

use crate::letter::Letter;
use sl_codes::{Table, number_within};
use sl_types::MAX_APPLICANTS;

/// How many workers there can be.
pub const MAX_WORKERS: u32 = 64;

/// How many looks there can be.
pub const MAX_LOOKS: u32 = 100;

/// The letter of a command, and the files of its tables.
#[derive(Clone, Copy, Debug)]
pub struct Tables<'a> {
    pub letter: Letter,
    pub pools: &'a str,
    pub programmes: &'a str,
    pub applications: &'a str,
}

/// A command, with its files.
#[derive(Clone, Copy, Debug)]
pub enum Command<'a> {
    /// `clear R W pools programmes applications`
    Clear {
        workers: u32,
        tables: Tables<'a>,
    },
    /// `check R pools programmes applications result`
    Check {
        tables: Tables<'a>,
        document: &'a str,
    },
    /// `watch K R W pools programmes applications`
    Watch {
        looks: u32,
        workers: u32,
        tables: Tables<'a>,
    },
    /// `amend R W pools programmes applications result amendments`
    Amend {
        workers: u32,
        tables: Tables<'a>,
        document: &'a str,
        amendments: &'a str,
    },
    /// `table T pools programmes applications amendments`
    Table {
        printed: Table,
        tables: Tables<'a>,
        amendments: &'a str,
    },
    /// `demo n W`
    Demo {
        applicants: u32,
        workers: u32,
    },
}

// The table that a word is, of those that `table` prints.
fn printed_of(word: &str) -> Option<Table>
    ensures table { result ≡ printed_of word.now }
    ensures printed { IfSome result (λ t. is_written t ≡ true) }
{
    match word {
        "pools" => Some(Table::Pools),
        "applications" => Some(Table::Applications),
        _ => None,
    }
}

// The number from 1 to a greatest one that a word of digits is.
fn count_of(word: &str, most: u32) -> Option<u32>
    ensures { result ≡ number_within 1 most word.now }
{
    number_within(word.as_bytes(), 1, most).ok()
}

impl<'a> Command<'a> {
    /// The command that words are: its name, and the words of its form.
    pub fn of(words: &'a [String]) -> Option<Command<'a>>
        ensures command { option_map (λ c. command_in c) result ≡ command_of (texts_of words.now) }
        ensures ranges { IfSome result (λ c. HasRanges (command_in c)) }
    {
        let [name, words @ ..] = words else {
            return None;
        };
        match name.as_str() {
            "clear" => Command::clear_of(words),
            "check" => Command::check_of(words),
            "watch" => Command::watch_of(words),
            "amend" => Command::amend_of(words),
            "table" => Command::table_of(words),
            "demo" => Command::demo_of(words),
            _ => None,
        }
    }

    // `R W pools programmes applications`
    fn clear_of(words: &'a [String]) -> Option<Command<'a>>
        ensures command { option_map (λ c. command_in c) result ≡ clear_of (texts_of words.now) }
        ensures ranges { IfSome result (λ c. HasRanges (command_in c)) }
    {
        match words {
            [letter, workers, pools, programmes, applications] => Some(Command::Clear {
                tables: Tables {
                    letter: Letter::of(letter.as_str())?,
                    pools: pools.as_str(),
                    programmes: programmes.as_str(),
                    applications: applications.as_str(),
                },
                workers: count_of(workers.as_str(), MAX_WORKERS)?,
            }),
            _ => None,
        }
    }

    // `R pools programmes applications result`
    fn check_of(words: &'a [String]) -> Option<Command<'a>>
        ensures command { option_map (λ c. command_in c) result ≡ check_of (texts_of words.now) }
        ensures ranges { IfSome result (λ c. HasRanges (command_in c)) }
    {
        match words {
            [letter, pools, programmes, applications, document] => Some(Command::Check {
                tables: Tables {
                    letter: Letter::of(letter.as_str())?,
                    pools: pools.as_str(),
                    programmes: programmes.as_str(),
                    applications: applications.as_str(),
                },
                document: document.as_str(),
            }),
            _ => None,
        }
    }

    // `K R W pools programmes applications`
    fn watch_of(words: &'a [String]) -> Option<Command<'a>>
        ensures command { option_map (λ c. command_in c) result ≡ watch_of (texts_of words.now) }
        ensures ranges { IfSome result (λ c. HasRanges (command_in c)) }
    {
        match words {
            [looks, letter, workers, pools, programmes, applications] => Some(Command::Watch {
                looks: count_of(looks.as_str(), MAX_LOOKS)?,
                tables: Tables {
                    letter: Letter::of(letter.as_str())?,
                    pools: pools.as_str(),
                    programmes: programmes.as_str(),
                    applications: applications.as_str(),
                },
                workers: count_of(workers.as_str(), MAX_WORKERS)?,
            }),
            _ => None,
        }
    }

    // `R W pools programmes applications result amendments`
    fn amend_of(words: &'a [String]) -> Option<Command<'a>>
        ensures command { option_map (λ c. command_in c) result ≡ amend_of (texts_of words.now) }
        ensures ranges { IfSome result (λ c. HasRanges (command_in c)) }
    {
        match words {
            [
                letter,
                workers,
                pools,
                programmes,
                applications,
                document,
                amendments,
            ] => {
                Some(Command::Amend {
                    tables: Tables {
                        letter: Letter::of(letter.as_str())?,
                        pools: pools.as_str(),
                        programmes: programmes.as_str(),
                        applications: applications.as_str(),
                    },
                    workers: count_of(workers.as_str(), MAX_WORKERS)?,
                    document: document.as_str(),
                    amendments: amendments.as_str(),
                })
            }
            _ => None,
        }
    }

    // `T pools programmes applications amendments`. Pools of kind `score` are read with rule H.
    fn table_of(words: &'a [String]) -> Option<Command<'a>>
        ensures command { option_map (λ c. command_in c) result ≡ table_of (texts_of words.now) }
        ensures ranges { IfSome result (λ c. HasRanges (command_in c)) }
    {
        match words {
            [printed, pools, programmes, applications, amendments] => Some(Command::Table {
                printed: printed_of(printed.as_str())?,
                tables: Tables {
                    letter: Letter::H,
                    pools: pools.as_str(),
                    programmes: programmes.as_str(),
                    applications: applications.as_str(),
                },
                amendments: amendments.as_str(),
            }),
            _ => None,
        }
    }

    // `n W`
    fn demo_of(words: &'a [String]) -> Option<Command<'a>>
        ensures command { option_map (λ c. command_in c) result ≡ demo_of (texts_of words.now) }
        ensures ranges { IfSome result (λ c. HasRanges (command_in c)) }
    {
        match words {
            [applicants, workers] => Some(Command::Demo {
                applicants: count_of(applicants.as_str(), MAX_APPLICANTS as u32)?,
                workers: count_of(workers.as_str(), MAX_WORKERS)?,
            }),
            _ => None,
        }
    }
}
