//! Laws of causes, as contracts of functions that do nothing.

ghost use Rattle.std.specs.Prelude.{◌≡◌, List};
ghost use Rattle.mega_base.specs.declared.names.OpId.{OpId as Operation};
ghost use Rattle.mega_cluster.specs.declared.cluster.Cluster.{Cluster};
ghost use Rattle.mega_handler.specs.Named.{Meanings};
ghost use Rattle.mega_outcome.specs.declared.answer.Answer.{Answer as Given};
ghost use Rattle.mega_cause_laws.specs.of_run_laws.of_tape_laws.of_promises.of_transcript.declared.item.Item.{Item};
ghost use Rattle.mega_cause_laws.specs.of_run_laws.of_tape_laws.of_promises.of_transcript.declared.item.Item.TheVariants.{Answer};
ghost use Rattle.mega_cause_laws.specs.of_run_laws.of_tape_laws.of_promises.Causes.{HasCause};
ghost use Rattle.mega_cause_laws.specs.of_run_laws.of_tape_laws.of_promises.Moments.{StoodOn};
ghost use Rattle.mega_cause_laws.specs.of_run_laws.of_tape_laws.of_promises.Runs.{Happening, IsRun};
ghost use Rattle.mega_cause_laws.specs.of_run_laws.of_tape_laws.Writes.{Usage};
ghost use Rattle.mega_cause_laws.specs.of_run_laws.Usages.{Fits};
ghost use Rattle.mega_cause_laws.specs.of_run_laws.Justified.{Each};
ghost use Rattle.mega_answer_laws.specs.Answered.{IsAnswered};

/// In every run where each text means the request that begins with it, each answer has its cause on the tape before it: it was given in one of the run's events,
/// and the cause is told under the handlers of that event. A conflict and a full log come to transactions, batches and pumps alone.
pub fn every_answer_has_its_cause()
    ensures { (c : Cluster) (usage : Usage) (first : Meanings) (events : List Happening) (tape : List Item) → (run : IsRun c first events tape) → Fits usage events →
        (op : Operation) (answer : Given) (before : List Item) → StoodOn (Answer op answer) before tape → IsAnswered c usage.meaning first run.cuts events before op answer }
{}

/// Where the handlers are the same throughout, each answer has its cause under these.
pub fn answers_have_causes_under_the_same_handlers()
    ensures { (c : Cluster) (usage : Usage) (handlers first : Meanings) (events : List Happening) (tape : List Item) → IsRun c first events tape → Fits usage events →
        Each (λ (one : Happening). one.handlers ≡ handlers) events → (op : Operation) (answer : Given) (before : List Item) → StoodOn (Answer op answer) before tape → HasCause c usage.meaning handlers before op answer }
{}
