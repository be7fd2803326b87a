//! The law of local indexes: their writes turn the entries of an old row into those of the new one.
ghost use Rattle.std.specs.Prelude.{◌≡◌, List, ℕ, Option};
ghost use Rattle.mega_base.specs.declared.values.Row.{Row};
ghost use Rattle.mega_schema.specs.declared.schema.Table.{Table};
ghost use Rattle.mega_schema.specs.declared.schema.Schema.{Schema};
ghost use Rattle.mega_row_writes.specs.Rows.{row_under, written};
ghost use Rattle.mega_index.specs.Entries.{local_entries};
ghost use Rattle.mega_index.specs.LocalWrites.{turned};

/// The local index writes of a change turn the entries of a row's old state into those of its new one:
/// under every key then stands what stands there among the new entries, and nothing where they have none.
pub fn local_writes_turn_entries()
    ensures { (s : Schema) (n : ℕ) (t : Table) (old new : Option Row) (key : List ℕ) →
        written (turned (local_entries s n t old) (local_entries s n t new)) (row_under (local_entries s n t old)) key
        ≡ row_under (local_entries s n t new) key }
{}
