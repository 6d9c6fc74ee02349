ghost use Rattle.sl_codes.specs.Laws.{FirstFaultSays};

/// Of the records after a header, the first with something wrong has the first fault of the table, and where
/// none has there is no fault.
pub fn first_fault_says()
    ensures { FirstFaultSays }
{}
