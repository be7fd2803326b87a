//! Laws of plain tapes, as contracts of functions that do nothing.

ghost use Rattle.std.specs.Prelude.{◌≡◌, All, false, List};
ghost use Rattle.mega_cluster.specs.declared.cluster.Cluster.{Cluster};
ghost use Rattle.mega_handler.specs.Named.{Meanings};
ghost use Rattle.mega_transcript.specs.declared.item.Item.{Item};
ghost use Rattle.mega_transcript.specs.Plain.{IsPlain};
ghost use Rattle.mega_promises.specs.Promises.{Stands};
ghost use Rattle.mega_promises.specs.Runs.{Happening, IsRun};
ghost use Rattle.mega_format_laws.specs.Histories.{IsCluster};
ghost use Rattle.mega_plain_laws.specs.Answers.{IsNamed};
ghost use Rattle.mega_plain_laws.specs.Formed.{AreFormed, IsSpelled, is_of_rows};
ghost use Rattle.mega_field_ranges.specs.Held.{HoldsItem};

/// In every run of a cluster of the format, with events of the format, what an item shows is of the format: its message, its entry, the text with
/// which an operation begins, and its answer, where that shows no rows of a read. Messages may be lost, repeated or taken in any order, and
/// nodes crash, start, and burn fuses. The tape's numbers and bytes are those that the program's types hold.
pub fn runs_are_of_the_format()
    ensures { (c : Cluster) (first : Meanings) (events : List Happening) (tape : List Item) → IsCluster c → AreFormed events → IsRun c first events tape → All HoldsItem tape → All (IsSpelled c.schema) tape }
{}

/// So each item of such a run is plain, that is read back from its line, where it shows no rows of a read. The schema's tables and properties are
/// told by their names.
pub fn items_are_plain()
    ensures { (c : Cluster) (first : Meanings) (events : List Happening) (tape : List Item) → IsCluster c → IsNamed c.schema → AreFormed events → IsRun c first events tape → All HoldsItem tape →
        (item : Item) → Stands item tape → is_of_rows item ≡ false → IsPlain c.schema item }
{}
