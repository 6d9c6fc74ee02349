ghost use Rattle.sl_gen.specs.Round.{GeneratedFits, GeneratedSizes};

/// No rule of an instance fails in a generated round.
pub fn generated_fits()
    ensures { GeneratedFits }
{}

/// How many pools, programmes and applicants a generated round has, and how many choices at most.
pub fn generated_sizes()
    ensures { GeneratedSizes }
{}
