//! That the premises of the laws can be met, shown by runs and calls that the checker computes.

ghost use Rattle.std.specs.Prelude.{◌≡◌, [], ◌∷◌};
ghost use Rattle.mega_rules.specs.Examples.{cluster, schema};
ghost use Rattle.mega_promises.specs.Runs.{IsRun};
ghost use Rattle.mega_promises.specs.Records.{AreNodeCalls, AreOfSchemas};
ghost use Rattle.mega_served_laws.specs.Calls.{sends_of};
ghost use Rattle.mega_served_laws.specs.Examples.{one_tick, promise_and_refusal, ticked_tape, two_calls};
ghost use Rattle.mega_served_laws.specs.Lives.{AreOfNine};

/// A witness promises in its first call, and keeps its promise in its second one, under a schema that extends that of the first.
pub fn a_promise_outlasts_its_call()
    ensures calls { AreNodeCalls 1 [] two_calls }
    ensures schemas { AreOfSchemas schema two_calls }
    ensures sends { sends_of two_calls ≡ promise_and_refusal }
{}

/// Three nodes start, and one of them ticks and asks the cells: a run whose tape meets the premise of the law on tapes.
pub fn a_tick_meets_the_premises()
    ensures run { IsRun cluster [] one_tick ticked_tape }
    ensures nine { AreOfNine ticked_tape }
{}
