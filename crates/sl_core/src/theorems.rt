ghost use Rattle.sl_types.specs.Market.{Market};
ghost use Rattle.sl_types.specs.Valid.{IsValid};
ghost use Rattle.sl_core.specs.Laws.{StartHasParts, ClaimKeeps, ReadKeeps, DrawKeeps, RaiseKeeps, MarkKeeps, StepKeeps, DivideKeeps, UniteKeeps, WordsRise, WordsPassNone, OrderIsOne, QuietIsSettled, QuietProves, QuietIsLeast};

/// The start from a list that replays has the parts.
pub fn start_has_parts()
    ensures { (market : Market) → IsValid market → StartHasParts market }
{}

/// A claim keeps the parts.
pub fn claim_keeps()
    ensures { (market : Market) → IsValid market → ClaimKeeps market }
{}

/// A read keeps the parts.
pub fn read_keeps()
    ensures { (market : Market) → IsValid market → ReadKeeps market }
{}

/// A draw keeps the parts.
pub fn draw_keeps()
    ensures { (market : Market) → IsValid market → DrawKeeps market }
{}

/// A raise keeps the parts.
pub fn raise_keeps()
    ensures { (market : Market) → IsValid market → RaiseKeeps market }
{}

/// A mark keeps the parts.
pub fn mark_keeps()
    ensures { (market : Market) → IsValid market → MarkKeeps market }
{}

/// Every step of the machine keeps the parts.
pub fn step_keeps()
    ensures { (market : Market) → IsValid market → StepKeeps market }
{}

/// An actor that divides keeps the parts.
pub fn divide_keeps()
    ensures { (market : Market) → IsValid market → DivideKeeps market }
{}

/// Two idle actors that become one keep the parts.
pub fn unite_keeps()
    ensures { (market : Market) → IsValid market → UniteKeeps market }
{}

/// A step lowers no limit word.
pub fn words_rise()
    ensures { (market : Market) → WordsRise market }
{}

/// No word, no known number and no read passes a stable limit.
pub fn words_pass_none()
    ensures { (market : Market) → IsValid market → WordsPassNone market }
{}

/// Only one list of raises has the log entries in order of ticket.
pub fn order_is_one()
    ensures { OrderIsOne }
{}

/// In a quiet state each pool is settled at the words.
pub fn quiet_is_settled()
    ensures { (market : Market) → IsValid market → QuietIsSettled market }
{}

/// In a quiet state the log entries in order of ticket, without the void ones, prove the effective limits
/// of the words.
pub fn quiet_proves()
    ensures { (market : Market) → IsValid market → QuietProves market }
{}

/// In a quiet state the effective limits of the words are the least stable ones.
pub fn quiet_is_least()
    ensures { (market : Market) → IsValid market → QuietIsLeast market }
{}
