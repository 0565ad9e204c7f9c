ghost use Rattle.language.specs.Continuation.{NeverStuck, SomeGo, OneCall};

/// The rules of the continuation stand are sound: after any list of calls, a run that has not ended has
/// exactly one next step, now and after any number of further steps; any number of beats can be gone;
/// and a call has at most one answer, and leaves one stand.
pub fn continuation_calls_are_sound()
    ensures stuck { NeverStuck }
    ensures go { SomeGo }
    ensures one { OneCall }
{}
