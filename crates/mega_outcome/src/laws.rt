//! Laws over all outcomes: they stay under more properties, and each looks at its own group alone.
ghost use Rattle.std.specs.Prelude.{◌≡◌, List, ℕ, Ok};
ghost use Rattle.mega_base.specs.declared.names.GroupId.{GroupId};
ghost use Rattle.mega_index.specs.of_schema.declared.schema.Schema.{Schema};
ghost use Rattle.mega_index.specs.Rows.{Rows};
ghost use Rattle.mega_outcome.specs.declared.answer.Done.{Done};
ghost use Rattle.mega_outcome.specs.declared.transaction.RowRef.{RowRef};
ghost use Rattle.mega_outcome.specs.declared.transaction.Transaction.{Transaction};
ghost use Rattle.mega_outcome.specs.Group.{AgreeIn};
ghost use Rattle.mega_outcome.specs.Outcome.{outcome_in, first_change, with_all};
ghost use Rattle.mega_outcome.specs.Reads.{read_rows};
ghost use Rattle.mega_outcome.specs.Extends.{Extends, LookAtKnown};

/// Under a schema that adds properties which are not required, what a transaction does is the same, where each row
/// that its writes look at, on what the earlier ones left, has properties of the earlier schema alone.
pub fn outcomes_stay_under_more_properties()
    ensures { (old new : Schema) (group : List ℕ) (txn : Transaction) (rows : Rows) (done : Done) →
        Extends old new → LookAtKnown old group rows (first_change txn) txn.writes →
        outcome_in old group txn rows ≡ Ok done → outcome_in new group txn rows ≡ Ok done }
{}

/// A transaction, a batch and a read look at rows under keys of their own group alone.
pub fn outcomes_look_at_their_group()
    ensures alone { (schema : Schema) (group : List ℕ) (txn : Transaction) (rows other : Rows) → AgreeIn schema group rows other → outcome_in schema group txn rows ≡ outcome_in schema group txn other }
    ensures batched { (schema : Schema) (group : List ℕ) (txns : List Transaction) (rows other : Rows) → AgreeIn schema group rows other → with_all schema group txns rows ≡ with_all schema group txns other }
    ensures reads { (schema : Schema) (group : GroupId) (refs : List RowRef) (rows other : Rows) → AgreeIn schema group.key rows other → read_rows schema group refs rows ≡ read_rows schema group refs other }
{}
