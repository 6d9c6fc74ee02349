ghost use Rattle.sl_run.specs.Run.{DemosAreOne, TablesAreOne, TablesHaveInstance};

/// Files are the tables of one instance at most, with one list of codes each.
pub fn tables_are_one()
    ensures { TablesAreOne }
{}

/// Three tables with nothing wrong in them, by their bytes alone, are those of an instance.
pub fn tables_have_instance()
    ensures { TablesHaveInstance }
{}

/// What a demo writes follows from the number of its applicants alone, however many workers there
/// are.
pub fn demos_are_one()
    ensures { DemosAreOne }
{}
