//! Laws of shown rows and of whole tapes, as contracts of functions that do nothing.

ghost use Rattle.std.specs.Prelude.{◌≡◌, ℕ, All, List, Ok, reverse};
ghost use Rattle.mega_base.specs.declared.names.OpId.{OpId as Operation};
ghost use Rattle.mega_cluster.specs.declared.cluster.Cluster.{Cluster};
ghost use Rattle.mega_cluster.specs.Header.{read_of};
ghost use Rattle.mega_handler.specs.Named.{Meanings};
ghost use Rattle.mega_schema.specs.declared.schema.Schema.{Schema};
ghost use Rattle.mega_schema.specs.Verdict.{parse_of};
ghost use Rattle.mega_outcome.specs.declared.answer.Answer.{Answer as Given};
ghost use Rattle.mega_transcript.specs.declared.item.Item.{Item};
ghost use Rattle.mega_transcript.specs.declared.item.Item.TheVariants.{Answer};
ghost use Rattle.mega_transcript.specs.Lines.{lines};
ghost use Rattle.mega_transcript.specs.Plain.{IsPlain};
ghost use Rattle.mega_promises.specs.Promises.{Stands};
ghost use Rattle.mega_promises.specs.Runs.{Happening, IsRun};
ghost use Rattle.mega_format_laws.specs.Histories.{IsCluster};
ghost use Rattle.mega_plain_laws.specs.Answers.{IsNamed};
ghost use Rattle.mega_plain_laws.specs.Formed.{AreFormed};
ghost use Rattle.mega_plain_laws.specs.of_field_ranges.Held.{HoldsItem};
ghost use Rattle.mega_tape_laws.specs.Indexed.{IsDeclared};
ghost use Rattle.mega_tape_laws.specs.Writes.{Usage};
ghost use Rattle.mega_run_laws.specs.Usages.{Fits};
ghost use Rattle.mega_shown_laws.specs.Fitting.{FitsTable, rows_of};
ghost use Rattle.mega_shown_laws.specs.OfFormat.{IsOfFormat};

/// In every run each row that an answer shows fits the table that it names: a transaction's and a batch's reads, and current, snapshot and
/// inconsistent reads. The schema was declared, each text means the request that begins with it, and the handlers of each event are there at some moment.
pub fn shown_rows_fit()
    ensures { (c : Cluster) (usage : Usage) (first : Meanings) (events : List Happening) (tape : List Item) → IsDeclared c.schema → IsRun c first events tape → Fits usage events →
        (op : Operation) (answer : Given) → Stands (Answer op answer) tape → All (FitsTable c.schema) (rows_of answer) }
{}

/// So every item of a run is plain, that is read back from its line, where also cluster and events are of the format, the schema's tables and
/// properties are told by their names, and the tape's numbers and bytes are those that the program's types hold.
pub fn every_item_is_plain()
    ensures { (c : Cluster) (usage : Usage) (first : Meanings) (events : List Happening) (tape : List Item) → IsCluster c → IsNamed c.schema → IsDeclared c.schema → AreFormed events → Fits usage events →
        IsRun c first events tape → All HoldsItem tape → All (IsPlain c.schema) tape }
{}

/// So the text of a run tells its tape: two such runs, under one schema, whose tapes have the same lines from the oldest item on, have the same tape.
pub fn the_text_tells_the_tape()
    ensures { (c d : Cluster) (usage others : Usage) (first second : Meanings) (events more : List Happening) (tape other : List Item) → IsOfFormat c usage first events tape → IsOfFormat d others second more other →
        c.schema ≡ d.schema → lines c.schema (reverse tape) ≡ lines c.schema (reverse other) → tape ≡ other }
{}

/// A schema that a text declares has names that tell its tables and properties, as the law of plain items asks (`IsNamed`): each name is a text, and stands once.
pub fn declared_schemas_tell_their_names()
    ensures { (text : List ℕ) (schema : Schema) → parse_of text ≡ Ok schema → IsNamed schema }
{}

/// So a cluster that is read from a header meets what the laws ask of clusters and of their schemas.
pub fn headers_meet_the_premises()
    ensures { (least : ℕ) (text : List ℕ) (c : Cluster) → read_of least text ≡ Ok c → IsCluster c × IsNamed c.schema × IsDeclared c.schema }
{}
