ghost use Rattle.language.specs.StepLaws.{OneStep, StaysGoing, Simulation, FewStepsInAll};

/// The rules of a step are sound: a run of a well-formed table's translation that has not ended has
/// exactly one next step, also between the steps of a beat, after which the same holds.
pub fn steps_are_sound()
    ensures one { OneStep }
    ensures stays { StaysGoing }
{}

/// A beat from the table is matched by exactly the steps that belong to it, to the matching
/// configuration or the equal ending, on the same bench; over a whole go these are at least as many as
/// the beats, and at most 18 times as many.
pub fn beats_are_simulated()
    ensures simulation { Simulation }
    ensures few { FewStepsInAll }
{}
