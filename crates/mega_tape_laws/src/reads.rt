//! Laws of reads, as contracts of functions that do nothing.

ghost use Rattle.std.specs.Prelude.{ℕ, ◌≤◌, List};
ghost use Rattle.mega_base.specs.declared.names.GroupId.{GroupId as Group};
ghost use Rattle.mega_base.specs.declared.names.NodeId.{NodeId as Node};
ghost use Rattle.mega_base.specs.declared.names.OpId.{OpId as Operation};
ghost use Rattle.mega_base.specs.declared.names.Position.{Position as Index};
ghost use Rattle.mega_cluster.specs.declared.cluster.Cluster.{Cluster};
ghost use Rattle.mega_entry.specs.declared.content.Content.{Content};
ghost use Rattle.mega_promises.specs.of_transcript.declared.item.Item.{Item};
ghost use Rattle.mega_promises.specs.of_transcript.declared.item.Item.TheVariants.{Begin, Decide};
ghost use Rattle.mega_promises.specs.Promises.{StoodBefore};
ghost use Rattle.mega_tape_laws.specs.Lawful.{Lawful};
ghost use Rattle.mega_tape_laws.specs.Polls.{ArePolls, IsPolled};

/// A poll of a majority of the voters sees each position that was decided anywhere before its operation began: whether leases are safe or
/// not (CIDR 2011, current reads).
pub fn a_poll_sees_what_was_decided()
    ensures { (c : Cluster) (tape : List Item) → Lawful c tape → ArePolls tape → (op : Operation) (text : List ℕ) (group : Group) (n p : Index) (node : Node) (entry : Content) → StoodBefore (Decide node group n entry) (Begin op text) tape → IsPolled c tape op group p → n.0 ≤ p.0 }
{}
