ghost use Rattle.language.specs.BeatLaws.{OneBeat, StaysReachable, FewSteps};

/// The rules of a beat are sound: on a well-formed table, a run that has not ended has exactly one next
/// beat, after which the same holds; and to each beat belong at least one step and at most 18.
pub fn beats_are_sound()
    ensures one { OneBeat }
    ensures stays { StaysReachable }
    ensures steps { FewSteps }
{}
