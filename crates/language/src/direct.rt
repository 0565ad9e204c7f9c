ghost use Rattle.language.specs.Direct.{NeverStuck, SomeGo, OneCall};

/// The rules of the direct stand are sound: after any list of calls, a run that has not ended has
/// exactly one next beat, now and after any number of further beats; any number of beats can be gone;
/// and a call has at most one answer, and leaves one stand.
pub fn direct_calls_are_sound()
    ensures stuck { NeverStuck }
    ensures go { SomeGo }
    ensures one { OneCall }
{}
