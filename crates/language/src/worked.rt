ghost use Rattle.language.specs.Worked.{WorkedRuns};

/// The worked runs come to what they should, beat by beat and step by step, on both kinds of stand.
pub fn worked_runs_hold()
    ensures { WorkedRuns }
{}
