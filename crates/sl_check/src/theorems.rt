ghost use Rattle.sl_check.specs.Verdict.{VerdictIsOne};

/// At most one verdict is right.
pub fn verdict_is_one()
    ensures { VerdictIsOne }
{}
