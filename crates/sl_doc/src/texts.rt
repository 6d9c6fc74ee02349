ghost use Rattle.std.specs.Prelude.{◌≡◌, ◌<◌, [], length, get_or};
ghost use Rattle.sl_doc.specs.ResultText.{rule_letter};

use sl_codes::Codes;
use sl_instance::Named;
use sl_types::{AppId, PoolId, ProgId, Rule};

/// How a rule is written in a document; a merit pool's isn't.
pub fn letter(rule: Rule) -> &'static str
    ensures { result.now ≡ rule_letter rule }
{
    match rule {
        Rule::H => "H",
        Rule::L => "L",
        Rule::Merit => "",
    }
}

// The code of a number.
fn code(codes: &Codes, number: u32) -> &str
    requires { number < length codes.now }
    ensures { result.now ≡ get_or codes.now number [] }
{
    codes.text(number)
}

/// The code of a pool.
pub fn pool_code(named: &Named, pool: PoolId) -> &str
    requires { pool.0 < length named.now.market.pools }
    ensures { result.now ≡ get_or named.now.pool_codes pool.0 [] }
{
    let _instance = named.instance();
    code(named.pool_codes(), pool.0)
}

/// The code of a programme.
pub fn prog_code(named: &Named, prog: ProgId) -> &str
    requires { prog.0 < length named.now.market.progs }
    ensures { result.now ≡ get_or named.now.prog_codes prog.0 [] }
{
    let _instance = named.instance();
    code(named.prog_codes(), prog.0)
}

/// The code of an applicant.
pub fn app_code(named: &Named, app: AppId) -> &str
    requires { app.0 < length named.now.market.lists }
    ensures { result.now ≡ get_or named.now.app_codes app.0 [] }
{
    let _instance = named.instance();
    code(named.app_codes(), app.0)
}
