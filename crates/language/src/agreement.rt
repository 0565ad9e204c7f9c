ghost use Rattle.language.specs.Agreement.{HistoriesAgree, HistoriesExist};
ghost use Rattle.language.specs.CallLaws.{OneAnswer};
ghost use Rattle.language.specs.Continuation.{ContinuationCalls, ContinuationReached};
ghost use Rattle.language.specs.Direct.{DirectCalls, DirectReached};

/// Fresh stands of the two kinds on equal benches, given the same events in turn, agree on each; and a
/// list of events has a history on the one exactly if it has one on the other.
pub fn histories_agree()
    ensures agree { HistoriesAgree }
    ensures exist { HistoriesExist }
{}

/// On either kind of stand, after any list of calls, each start, go and jog has exactly one answer, and
/// so has a load of bytes that are a well-formed table or are refused.
pub fn calls_are_answered()
    ensures direct { OneAnswer DirectReached DirectCalls }
    ensures continuation { OneAnswer ContinuationReached ContinuationCalls }
{}
