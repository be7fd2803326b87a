//! The law of index rows, with what it asks of schemas and requests, as contracts of functions that do nothing: on a lawful tape on which
//! each proposed entry is an operation's own (`specs/Indexed.antt`).

ghost use Rattle.std.specs.Prelude.{◌≡◌, ℕ, List, [], ◌∷◌, Ok, Some, take};
ghost use Rattle.mega_base.specs.declared.names.GroupId.{GroupId as Group};
ghost use Rattle.mega_schema.specs.declared.schema.Schema.{Schema};
ghost use Rattle.mega_schema.specs.Verdict.{parse_of};
ghost use Rattle.mega_cluster.specs.declared.cluster.Cluster.{Cluster};
ghost use Rattle.mega_cluster.specs.Header.{read_of};
ghost use Rattle.mega_index.specs.Fits.{indexes_of};
ghost use Rattle.mega_index.specs.Rows.{list_after, no_rows};
ghost use Rattle.mega_outcome.specs.declared.transaction.Change.TheVariants.{Put};
ghost use Rattle.mega_outcome.specs.Changes.{all_changes};
ghost use Rattle.mega_promises.specs.of_transcript.declared.item.Item.{Item};
ghost use Rattle.mega_promises.specs.of_transcript.Tape.{newest};
ghost use Rattle.mega_promises.specs.of_rules.Acting.{table_rows};
ghost use Rattle.mega_promises.specs.of_rules.Examples.{group, user};
ghost use Rattle.mega_promises.specs.Promises.{log_of};
ghost use Rattle.mega_tape_laws.specs.Examples.{asks_put};
ghost use Rattle.mega_tape_laws.specs.IndexExamples.{john_key, named_cluster, named_put, named_users, no_text, no_text_key, nothing_stored, put_writes, whole, without_entry, without_user, word_group, word_schema};
ghost use Rattle.mega_tape_laws.specs.Indexed.{AreRows, AskValues, IsDeclared, IsIndexed, local_index_rows};
ghost use Rattle.mega_tape_laws.specs.Writes.{LawfulWrites, Usage};

/// After any number of a log's entries what stands under keys other than the tables' row keys is what the local indexes have over the
/// tables' rows, and nothing else; and each of those rows fits its table and stands under its own key. The schema is one that can be
/// declared, and the requests hold values of the program.
pub fn index_rows_are_those_of_the_tables()
    ensures indexed { (c : Cluster) (usage : Usage) (tape : List Item) → LawfulWrites c usage tape → IsDeclared c.schema → AskValues usage tape → (group : Group) (p : ℕ) → IsIndexed c.schema group (list_after (take p (log_of tape group)) []) }
    ensures rows { (c : Cluster) (usage : Usage) (tape : List Item) → LawfulWrites c usage tape → IsDeclared c.schema → AskValues usage tape → (group : Group) (p : ℕ) → AreRows c.schema group (list_after (take p (log_of tape group)) []) }
{}

/// A schema that a text declares keeps what the law asks of it, and so does that of a cluster whose header is accepted.
pub fn declared_schemas_keep_their_roots()
    ensures schemas { (text : List ℕ) (schema : Schema) → parse_of text ≡ Ok schema → IsDeclared schema }
    ensures clusters { (least : ℕ) (text : List ℕ) (c : Cluster) → read_of least text ≡ Ok c → IsDeclared c.schema }
{}

/// A put of a user writes the row and its entry by name; on a lawful tape on which it is decided these are all that stands.
pub fn a_put_has_its_entry()
    ensures writes { all_changes named_users group.key no_rows 0 (Put 1 user ∷ []) ≡ Ok put_writes }
    ensures entries { local_index_rows named_users 1 (indexes_of named_users) (table_rows named_users group whole) ≡ (john_key, nothing_stored) ∷ [] }
    ensures indexed { IsIndexed named_users group whole }
    ensures declared { IsDeclared named_cluster.schema }
    ensures values { AskValues asks_put (newest named_put) }
    ensures written { LawfulWrites named_cluster asks_put (newest named_put) }
    ensures log { list_after (log_of (newest named_put) group) [] ≡ whole }
{}

/// A user without the entry by name, and the entry without its user, are not indexed.
pub fn an_entry_and_its_row_stand_together()
    ensures row { IsIndexed named_users group without_entry → ⊥ }
    ensures entry { IsIndexed named_users group without_user → ⊥ }
{}

/// Why requests must hold values: a word that is no text is spelled in a key that is no row key, and its row would stand under it.
pub fn what_is_no_text_has_no_row_key()
    ensures writes { all_changes word_schema word_group.key no_rows 0 (Put 1 no_text ∷ []) ≡ Ok (record { key = no_text_key; row = Some no_text } ∷ []) }
    ensures unindexed { IsIndexed word_schema word_group ((no_text_key, no_text) ∷ []) → ⊥ }
{}
