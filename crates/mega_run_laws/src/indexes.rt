//! The law of index rows, of every run.

ghost use Rattle.std.specs.Prelude.{ℕ, List, [], take};
ghost use Rattle.mega_base.specs.declared.names.GroupId.{GroupId as Group};
ghost use Rattle.mega_cluster.specs.declared.cluster.Cluster.{Cluster};
ghost use Rattle.mega_handler.specs.Named.{Meanings};
ghost use Rattle.mega_index.specs.Rows.{list_after};
ghost use Rattle.mega_tape_laws.specs.of_transcript.declared.item.Item.{Item};
ghost use Rattle.mega_tape_laws.specs.of_promises.Promises.{log_of};
ghost use Rattle.mega_tape_laws.specs.of_promises.Runs.{Happening, IsRun};
ghost use Rattle.mega_tape_laws.specs.Indexed.{AreRows, IsDeclared, IsIndexed};
ghost use Rattle.mega_tape_laws.specs.Writes.{Usage};
ghost use Rattle.mega_run_laws.specs.Usages.{Fits, MeansValues};

/// In every run, of a schema that was declared and with requests whose values the program can hold, what stands in a log under keys that
/// are no row keys is what the local indexes have over the tables' rows, and each of these fits and stands under its own key (CIDR 2011,
/// indexes).
pub fn runs_index()
    ensures indexed { (c : Cluster) (usage : Usage) (first : Meanings) (events : List Happening) (tape : List Item) → IsRun c first events tape → Fits usage events → IsDeclared c.schema → MeansValues usage.meaning → (group : Group) (p : ℕ) → IsIndexed c.schema group (list_after (take p (log_of tape group)) []) }
    ensures rows { (c : Cluster) (usage : Usage) (first : Meanings) (events : List Happening) (tape : List Item) → IsRun c first events tape → Fits usage events → IsDeclared c.schema → MeansValues usage.meaning → (group : Group) (p : ℕ) → AreRows c.schema group (list_after (take p (log_of tape group)) []) }
{}
