//! Laws of causes, as contracts of functions that do nothing.

ghost use Rattle.std.specs.Prelude.{◌≡◌, true, List, Some};
ghost use Rattle.mega_base.specs.declared.names.OpId.{OpId};
ghost use Rattle.mega_cluster.specs.declared.cluster.Cluster.{Cluster};
ghost use Rattle.mega_handler.specs.Named.{Meanings};
ghost use Rattle.mega_outcome.specs.declared.answer.Answer.{Answer as Given};
ghost use Rattle.mega_outcome.specs.declared.request.Request.{Request};
ghost use Rattle.mega_run_laws.specs.of_tape_laws.of_promises.of_transcript.declared.item.Item.{Item};
ghost use Rattle.mega_run_laws.specs.of_tape_laws.of_promises.of_transcript.declared.item.Item.TheVariants.{Answer};
ghost use Rattle.mega_run_laws.specs.of_tape_laws.of_promises.Causes.{HasCause};
ghost use Rattle.mega_run_laws.specs.of_tape_laws.of_promises.Moments.{StoodOn};
ghost use Rattle.mega_run_laws.specs.of_tape_laws.of_promises.Promises.{asked_for};
ghost use Rattle.mega_run_laws.specs.of_tape_laws.of_promises.Runs.{Happening, IsRun};
ghost use Rattle.mega_run_laws.specs.of_tape_laws.Answers.{LawfulAnswers};
ghost use Rattle.mega_run_laws.specs.of_tape_laws.Writes.{Usage};
ghost use Rattle.mega_run_laws.specs.Usages.{Fits};
ghost use Rattle.mega_cause_laws.specs.LogTells.{is_told};

/// On a tape whose answers are lawful, an answer that its group's log tells has its cause on the tape before it, whatever handlers are there: what a
/// transaction or a batch comes to over the entries below, or is turned on; the other entry of a conflict; and the rows of a current read.
pub fn lawful_answers_have_their_causes()
    ensures { (c : Cluster) (usage : Usage) (tape : List Item) → LawfulAnswers c usage tape → (handlers : Meanings) (op : OpId) (request : Request) (answer : Given) (before : List Item) → StoodOn (Answer op answer) before tape →
        asked_for usage.meaning before op ≡ Some request → is_told request answer ≡ true → HasCause c usage.meaning handlers before op answer }
{}

/// So has each of every run where each text means the request that begins with it, and the handlers of each event are there at some moment.
pub fn answers_of_runs_have_their_causes()
    ensures { (c : Cluster) (usage : Usage) (first : Meanings) (events : List Happening) (tape : List Item) → IsRun c first events tape → Fits usage events →
        (handlers : Meanings) (op : OpId) (request : Request) (answer : Given) (before : List Item) → StoodOn (Answer op answer) before tape →
        asked_for usage.meaning before op ≡ Some request → is_told request answer ≡ true → HasCause c usage.meaning handlers before op answer }
{}
