//! Laws of leases, as contracts of functions that do nothing.

ghost use Rattle.std.specs.Prelude.{◌≡◌, ℕ, List};
ghost use Rattle.mega_base.specs.declared.names.GroupId.{GroupId as Group};
ghost use Rattle.mega_base.specs.declared.names.OpId.{OpId};
ghost use Rattle.mega_base.specs.declared.names.Position.{Position as Index};
ghost use Rattle.mega_cluster.specs.declared.cluster.Cluster.{Cluster};
ghost use Rattle.mega_handler.specs.Named.{Meanings};
ghost use Rattle.mega_wire.specs.declared.message.Body.TheVariants.{Invalidated};
ghost use Rattle.mega_run_laws.specs.of_tape_laws.of_promises.of_transcript.declared.item.Item.{Item};
ghost use Rattle.mega_run_laws.specs.of_tape_laws.of_promises.of_transcript.declared.item.Item.TheVariants.{Invalid, Sent};
ghost use Rattle.mega_run_laws.specs.of_tape_laws.of_promises.Items.{number};
ghost use Rattle.mega_run_laws.specs.of_tape_laws.of_promises.Promises.{Stands, StoodBefore};
ghost use Rattle.mega_run_laws.specs.of_tape_laws.of_promises.Runs.{Happening, IsRun};
ghost use Rattle.mega_run_laws.specs.of_tape_laws.Lawful.{Heard, message};

/// In every run a node that tells that a group is invalid at its coordinator noted it before, for the same position (CIDR 2011, coordinators). So
/// where an operation heard of it, the node's `invalid` stands on the tape.
pub fn an_invalidated_stands_behind_its_invalid()
    ensures sent { (c : Cluster) (first : Meanings) (events : List Happening) (tape : List Item) → IsRun c first events tape → (key from to : ℕ) (op : OpId) (group : Group) (n : Index) →
        Stands (Sent key (message from to (Invalidated op group n))) tape → StoodBefore (Invalid (number from) group n) (Sent key (message from to (Invalidated op group n))) tape }
    ensures heard { (c : Cluster) (first : Meanings) (events : List Happening) (tape : List Item) → IsRun c first events tape → (from : ℕ) (op : OpId) (group : Group) (n : Index) →
        Heard tape from op (Invalidated op group n) → Stands (Invalid (number from) group n) tape }
{}
