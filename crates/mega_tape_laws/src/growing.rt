//! The law of schemas that grow: on rows that fit, what a transaction does is the same under a schema with more properties. With what it asks
//! of schemas and rows, as contracts of functions that do nothing (`specs/Growing.antt`).

ghost use Rattle.std.specs.Prelude.{◌≡◌, ℕ, List, Ok, take};
ghost use Rattle.mega_base.specs.declared.names.GroupId.{GroupId as Group};
ghost use Rattle.mega_cluster.specs.declared.cluster.Cluster.{Cluster};
ghost use Rattle.mega_entry.specs.declared.content.Write.{Write};
ghost use Rattle.mega_syntax.specs.declared.whole.SchemaText.{SchemaText};
ghost use Rattle.mega_syntax.specs.Whole.{read_of};
ghost use Rattle.mega_schema.specs.declared.schema.Schema.{Schema};
ghost use Rattle.mega_schema.specs.Verdict.{parse_of};
ghost use Rattle.mega_index.specs.Rows.{Rows, after, no_rows, written};
ghost use Rattle.mega_outcome.specs.declared.answer.Done.{Done};
ghost use Rattle.mega_outcome.specs.declared.transaction.Change.{Change};
ghost use Rattle.mega_outcome.specs.declared.transaction.Transaction.{Transaction};
ghost use Rattle.mega_outcome.specs.Changes.{all_changes, change};
ghost use Rattle.mega_outcome.specs.Extends.{Extends, LookAtKnown};
ghost use Rattle.mega_outcome.specs.Outcome.{outcome_in};
ghost use Rattle.mega_promises.specs.of_transcript.declared.item.Item.{Item};
ghost use Rattle.mega_promises.specs.Promises.{log_of};
ghost use Rattle.mega_promises.specs.of_rules.Examples.{group};
ghost use Rattle.mega_tape_laws.specs.IndexExamples.{named_users};
ghost use Rattle.mega_tape_laws.specs.Indexed.{IsDeclared};
ghost use Rattle.mega_tape_laws.specs.Writes.{LawfulWrites, Usage};
ghost use Rattle.mega_tape_laws.specs.Growing.{Continues, RowsFit};
ghost use Rattle.mega_tape_laws.specs.GrowingExamples.{john_rows, nicknamed_text, nicknamed_users, removal, removed, removed_whole, rename, renamed, stray_rows, users_text};

/// Where there are no rows they fit, and rows that fit still do after what a transaction's items write, in any group.
pub fn changes_keep_rows_fit()
    ensures none { (s : Schema) → RowsFit s no_rows }
    ensures one { (s : Schema) (group : List ℕ) (rows : Rows) (i : ℕ) (c : Change) (writes : List Write) → IsDeclared s → RowsFit s rows → change s group rows i c ≡ Ok writes → RowsFit s (written writes rows) }
    ensures all { (s : Schema) (group : List ℕ) (rows : Rows) (i : ℕ) (changes : List Change) (writes : List Write) → IsDeclared s → RowsFit s rows → all_changes s group rows i changes ≡ Ok writes → RowsFit s (written writes rows) }
{}

/// After any number of a log's entries the group's rows fit the schema, which is one that can be declared.
pub fn rows_of_logs_fit()
    ensures { (c : Cluster) (usage : Usage) (tape : List Item) → LawfulWrites c usage tape → IsDeclared c.schema → (group : Group) (p : ℕ) → RowsFit c.schema (after (take p (log_of tape group)) no_rows) }
{}

/// On rows that fit, each row that changes look at, on what the earlier ones left, has properties of its table alone.
pub fn fitting_rows_look_at_known()
    ensures { (s : Schema) (group : List ℕ) (rows : Rows) (i : ℕ) (changes : List Change) → IsDeclared s → RowsFit s rows → LookAtKnown s group rows i changes }
{}

/// On rows that fit, what a transaction does is the same under a schema with more properties, which are not required.
pub fn outcomes_stay_as_schemas_grow()
    ensures { (old new : Schema) (group : List ℕ) (txn : Transaction) (rows : Rows) (done : Done) → Extends old new → IsDeclared old → RowsFit old rows → outcome_in old group txn rows ≡ Ok done → outcome_in new group txn rows ≡ Ok done }
{}

/// A schema that grew from one that can be declared keeps what the laws ask of it, and rows that fit the one before fit it: it may grow again.
pub fn rows_fit_as_schemas_grow()
    ensures declared { (old new : Schema) → Extends old new → IsDeclared old → IsDeclared new }
    ensures rows { (old new : Schema) (rows : Rows) → Extends old new → RowsFit old rows → RowsFit new rows }
{}

/// A schema that a text declares is extended by that of a longer text, which has the same statements and behind them others, which only add
/// properties to tables.
pub fn longer_texts_extend_schemas()
    ensures { (text longer : List ℕ) (a b : SchemaText) (old new : Schema) → read_of text ≡ Ok a → read_of longer ≡ Ok b → Continues a.words b.words → parse_of text ≡ Ok old → parse_of longer ≡ Ok new → Extends old new }
{}

/// A text that declares users, and a longer one by which they may have a nickname.
pub fn a_nickname_extends_users()
    ensures before { parse_of users_text ≡ Ok named_users }
    ensures after { parse_of nicknamed_text ≡ Ok nicknamed_users }
    ensures continues { (a : SchemaText) × (b : SchemaText) × (read_of users_text ≡ Ok a) × (read_of nicknamed_text ≡ Ok b) × Continues a.words b.words }
{}

/// A user is renamed, with the entry by name, before and after users may have a nickname.
pub fn a_rename_stays()
    ensures extends { Extends named_users nicknamed_users }
    ensures fit { RowsFit named_users john_rows }
    ensures before { outcome_in named_users group.key rename john_rows ≡ Ok renamed }
    ensures after { outcome_in nicknamed_users group.key rename john_rows ≡ Ok renamed }
{}

/// Why rows must fit: a row with a property that its table lacks has no entry, and one once the table has the property; its deletion then
/// deletes the entry too.
pub fn what_does_not_fit_may_differ()
    ensures unfit { RowsFit named_users stray_rows → ⊥ }
    ensures before { outcome_in named_users group.key removal stray_rows ≡ Ok removed }
    ensures after { outcome_in nicknamed_users group.key removal stray_rows ≡ Ok removed_whole }
{}
