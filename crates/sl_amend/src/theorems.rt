ghost use Rattle.sl_types.specs.Market.{Market};
ghost use Rattle.sl_types.specs.Valid.{IsValid};
ghost use Rattle.sl_amend.specs.Laws.{SameSays, ChangedSays, TouchedSays};
ghost use Rattle.sl_amend.specs.Laws.{ConeIsLeast, ConeIsOne, KeptReplays, KeptReaches};
ghost use Rattle.sl_amend.specs.TableLaws.{TablesReadBack, ReadIsTabular, AmendedIsTabular, AmendedKeepsProgrammes};

/// What it means that two lists have the same choices.
pub fn same_says()
    ensures { SameSays }
{}

/// What it means that an applicant is changed.
pub fn changed_says()
    ensures { (old new : Market) → ChangedSays old new }
{}

/// What it means that a pool is touched.
pub fn touched_says()
    ensures { (old new : Market) → TouchedSays old new }
{}

/// The cone is the least set that holds the touched pools and is closed under feeding.
pub fn cone_is_least()
    ensures { (old new : Market) → IsValid old → IsValid new → ConeIsLeast old new }
{}

/// There is one such set.
pub fn cone_is_one()
    ensures { (old new : Market) → ConeIsOne old new }
{}

/// What replays on the old market replays on the amended one without the raises in the cone.
pub fn kept_replays()
    ensures { (old new : Market) → IsValid old → IsValid new → KeptReplays old new }
{}

/// The kept raises are a sublist, and reach the list's limits outside the cone and 0 in it.
pub fn kept_reaches()
    ensures { (old new : Market) → KeptReaches old new }
{}

/// The pool table and the application table of an instance that tables can hold are without a
/// fault, and with its programme table they give this instance with its codes.
pub fn tables_read_back()
    ensures { TablesReadBack }
{}

/// An instance that was read from tables is one that tables can hold.
pub fn read_is_tabular()
    ensures { ReadIsTabular }
{}

/// It still is after amendments.
pub fn amended_is_tabular()
    ensures { AmendedIsTabular }
{}

/// The amended instance has the old programmes, with the old codes of pools and programmes.
pub fn amended_keeps_programmes()
    ensures { AmendedKeepsProgrammes }
{}
