//! Laws of the answers of operations, as contracts of functions that do nothing: on a tape of lawful writes on which each answer has its
//! cause (`specs/Answers.antt`).

ghost use Rattle.std.specs.Prelude.{◌≡◌, ℕ, true, List, Option, Some, Ok, take};
ghost use Rattle.mega_base.specs.declared.names.OpId.{OpId as Operation};
ghost use Rattle.mega_base.specs.declared.names.Position.{Position as Index};
ghost use Rattle.mega_cluster.specs.declared.cluster.Cluster.{Cluster};
ghost use Rattle.mega_outcome.specs.declared.answer.Answer.TheVariants.{Read as ReadAnswer};
ghost use Rattle.mega_outcome.specs.declared.answer.Shown.{Shown};
ghost use Rattle.mega_outcome.specs.declared.request.ReadRequest.{ReadRequest};
ghost use Rattle.mega_outcome.specs.declared.request.Request.TheVariants.{Read as ReadRequested};
ghost use Rattle.mega_promises.specs.of_transcript.declared.item.Item.{Item};
ghost use Rattle.mega_promises.specs.of_transcript.declared.item.Item.TheVariants.{Answer, Begin};
ghost use Rattle.mega_promises.specs.of_rules.Steps.{is_current};
ghost use Rattle.mega_promises.specs.Promises.{IsSerial, Stands, log_of, rows_shown};
ghost use Rattle.mega_tape_laws.specs.Answers.{LawfulAnswers};
ghost use Rattle.mega_tape_laws.specs.Writes.{Usage};

/// The store is serial: entries are outcomes over the entries below, answers show what they come to there, an id stands once, and an
/// operation that was answered negatively is decided nowhere, at any time.
pub fn answers_are_serial()
    ensures { (c : Cluster) (usage : Usage) (tape : List Item) → LawfulAnswers c usage tape → IsSerial c.schema usage.meaning tape }
{}

/// A current read shows the rows of its group's log through the position that it answers with.
pub fn reads_show_the_front_of_the_log()
    ensures { (c : Cluster) (usage : Usage) (tape : List Item) → LawfulAnswers c usage tape → (op : Operation) (text : List ℕ) (request : ReadRequest) (p : Index) (rows : List (Option Shown)) → Stands (Begin op text) tape → usage.meaning text ≡ Some (ReadRequested request) → is_current request.mode ≡ true → Stands (Answer op (ReadAnswer p rows)) tape → rows_shown c.schema request (take p.0 (log_of tape request.group)) request.rows ≡ Ok rows }
{}
