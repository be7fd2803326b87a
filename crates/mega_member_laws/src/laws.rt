//! Laws of who sends to whom, as contracts of functions that do nothing.

ghost use Rattle.std.specs.Prelude.{◌≡◌, ◌≤◌, ℕ, List, [], length, Ok};
ghost use Rattle.mega_cluster.specs.declared.cluster.Cluster.{Cluster};
ghost use Rattle.mega_cluster.specs.Header.{read_of};
ghost use Rattle.mega_wire.specs.declared.message.Message.{Message};
ghost use Rattle.mega_format_laws.specs.of_rules.Met.{Met};
ghost use Rattle.mega_format_laws.specs.of_rules.Operations.{Node, Setting};
ghost use Rattle.mega_format_laws.specs.of_rules.Replies.{reply_to};
ghost use Rattle.mega_format_laws.specs.of_rules.Steps.{Event, crashed, start, step};
ghost use Rattle.mega_member_laws.specs.Messages.{AreWithin, IsHere, IsWithin};
ghost use Rattle.mega_member_laws.specs.Nodes.{EventWithin, MetWithin, StaysWithin, StepWithin};

/// In every step a node sends only messages between nodes of its cluster, where it took only such; and what it notes, what it met and its
/// open operations name only nodes of the cluster then.
pub fn steps_stay_within()
    ensures { (s : Setting) (node : Node) (event : Event) → IsHere s.cluster s.me → s.cluster.cells ≤ length s.cluster.nodes → StaysWithin s.cluster node → EventWithin s.cluster event → StepWithin s.cluster (step s node event) }
{}

/// A start of a node that met only messages between nodes of its cluster, with what it finds of a step that was cut before it, leaves the
/// node within the cluster; so do its first start and a crash.
pub fn starts_stay_within()
    ensures begins { (s : Setting) (number : ℕ) (owed met : List Met) → MetWithin s.cluster owed → MetWithin s.cluster met → StaysWithin s.cluster (start s number owed met) }
    ensures first { (s : Setting) (number : ℕ) → StaysWithin s.cluster (start s number [] []) }
    ensures crashes { (c : Cluster) (node : Node) → StaysWithin c node → StaysWithin c (crashed node) }
{}

/// The reply to a message between nodes of a cluster is one too.
pub fn replies_stay_within()
    ensures { (c : Cluster) (me : ℕ) (met : List Met) (m : Message) → IsHere c me → MetWithin c met → IsWithin c m → AreWithin c (reply_to c me met m) }
{}

/// A cluster that was read from the text of a header has no more cells than nodes, as the law of steps wants it.
pub fn clusters_have_their_cells()
    ensures { (least : ℕ) (text : List ℕ) (c : Cluster) → read_of least text ≡ Ok c → c.cells ≤ length c.nodes }
{}
