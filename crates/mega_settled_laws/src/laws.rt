//! Laws of what settles an entry, as contracts of functions that do nothing.

ghost use Rattle.std.specs.Prelude.{List};
ghost use Rattle.mega_base.specs.declared.names.NodeId.{NodeId as Node};
ghost use Rattle.mega_cluster.specs.declared.cluster.Cluster.{Cluster};
ghost use Rattle.mega_entry.specs.declared.content.Content.{Content};
ghost use Rattle.mega_handler.specs.Named.{Meanings};
ghost use Rattle.mega_run_laws.specs.of_transcript.declared.item.Item.{Item};
ghost use Rattle.mega_run_laws.specs.of_transcript.declared.item.Item.TheVariants.{Decide};
ghost use Rattle.mega_run_laws.specs.of_promises.Moments.{StoodOn};
ghost use Rattle.mega_run_laws.specs.of_promises.Runs.{Happening, IsRun};
ghost use Rattle.mega_run_laws.specs.of_tape_laws.Places.{Place};
ghost use Rattle.mega_run_laws.specs.of_tape_laws.Writes.{Usage};
ghost use Rattle.mega_run_laws.specs.Usages.{Fits};
ghost use Rattle.mega_settled_laws.specs.Covering.{AreSettled, WasCovered};

/// In every run a decision stands behind what settled its entry (CIDR 2011, write algorithm): an operation heard a majority accept it at one ballot,
/// and of each full node that it accepted at that ballot, that it is invalidated there, or that a majority of the cells, asked only after those
/// acceptances, hold nothing for it.
pub fn each_decision_stands_behind_what_settled_it()
    ensures { (c : Cluster) (first : Meanings) (events : List Happening) (tape : List Item) → IsRun c first events tape → (node : Node) (p : Place) (e : Content) (before : List Item) →
        StoodOn (Decide node p.group p.position e) before tape → WasCovered c before p e }
{}

/// So in every run where each text means the request that begins with it each decision, and each answer that an operation's own entry is in the log, alone or
/// with a batch, stands behind what settled the entry.
pub fn what_is_committed_was_settled()
    ensures { (c : Cluster) (usage : Usage) (first : Meanings) (events : List Happening) (tape : List Item) → IsRun c first events tape → Fits usage events → AreSettled c tape }
{}
