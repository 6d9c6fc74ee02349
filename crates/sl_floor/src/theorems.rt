ghost use Rattle.sl_types.specs.declared.kinds.Raise.{Raise};
ghost use Rattle.std.specs.Prelude.{List};
ghost use Rattle.sl_types.specs.Market.{Market};
ghost use Rattle.sl_floor.specs.Rule.{WordsPassNone};
ghost use Rattle.sl_floor.specs.Laws.{ReadIsEvent, ClaimIsEvent, DrawIsEvent, RaiseIsEvent, MarkIsEvent, OpensAtStart};

/// Whenever the rule of a floor's table holds, no limit word, no known number and no read of a seat is above a
/// stable limit of its pool.
pub fn words_pass_none()
    ensures { (market : Market) (kept : List Raise) → WordsPassNone market kept }
{}

/// A read is a load of a limit word, and the machine's read of that seat, whatever the other seats are.
pub fn read_is_event()
    ensures { (market : Market) (kept : List Raise) → ReadIsEvent market kept }
{}

/// A claim is a swap of a flag to 0, and the machine's claim of that seat.
pub fn claim_is_event()
    ensures { (market : Market) (kept : List Raise) → ClaimIsEvent market kept }
{}

/// A draw is a fetch-add of 1 on the ticket number, and the machine's draw of that seat.
pub fn draw_is_event()
    ensures { (market : Market) (kept : List Raise) → DrawIsEvent market kept }
{}

/// A raise is a fetch-max on a limit word, and the machine's raise of that seat.
pub fn raise_is_event()
    ensures { (market : Market) (kept : List Raise) → RaiseIsEvent market kept }
{}

/// A mark is a swap of a flag to 1, and the machine's mark of that seat.
pub fn mark_is_event()
    ensures { (market : Market) (kept : List Raise) → MarkIsEvent market kept }
{}

/// The words that a floor opens with, and its first seat, make the machine's start.
pub fn opens_at_start()
    ensures { (market : Market) (kept : List Raise) → OpensAtStart market kept }
{}
