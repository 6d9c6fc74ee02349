ghost use Rattle.std.specs.Prelude.{◌≡◌, ◌<◌, [], length, get_or, IfSome};
ghost use Rattle.sl_amend.specs.Tables.{kind_word, parent_code};

use sl_codes::Codes;
use sl_types::{PoolId, Rule};

/// The kind of a pool with this rule.
pub fn kind_word(rule: Rule) -> &'static str
    ensures { result.now ≡ kind_word rule }
{
    match rule {
        Rule::H | Rule::L => "score",
        Rule::Merit => "merit",
    }
}

/// The code of a number.
pub fn code_of(codes: &Codes, number: u32) -> &str
    requires { number < length codes.now }
    ensures { result.now ≡ get_or codes.now number [] }
{
    codes.text(number)
}

/// The code of a parent, or an empty text.
pub fn parent_code(pools: &Codes, parent: Option<PoolId>) -> &str
    requires { IfSome parent (λ Q. Q.0 < length pools.now) }
    ensures { result.now ≡ parent_code pools.now parent }
{
    match parent {
        Some(pool) => code_of(pools, pool.0),
        None => "",
    }
}
