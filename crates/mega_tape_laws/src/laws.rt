//! Laws of every lawful tape, as contracts of functions that do nothing.

ghost use Rattle.std.specs.Prelude.{◌≡◌, ℕ, true, List, Some};
ghost use Rattle.mega_base.specs.declared.names.GroupId.{GroupId as Group};
ghost use Rattle.mega_base.specs.declared.names.NodeId.{NodeId as Node};
ghost use Rattle.mega_base.specs.declared.names.OpId.{OpId as Operation};
ghost use Rattle.mega_base.specs.declared.names.Position.{Position as Index};
ghost use Rattle.mega_ballot.specs.declared.ballot.Ballot.{Ballot as Number};
ghost use Rattle.mega_cluster.specs.declared.cluster.Cluster.{Cluster};
ghost use Rattle.mega_entry.specs.declared.content.Content.{Content};
ghost use Rattle.mega_wire.specs.declared.message.Body.TheVariants.{Accept};
ghost use Rattle.mega_wal.specs.Acceptor.{is_ballot_below};
ghost use Rattle.mega_promises.specs.of_transcript.declared.item.Item.{Item};
ghost use Rattle.mega_promises.specs.of_transcript.declared.item.Item.TheVariants.{Decide, Sent};
ghost use Rattle.mega_promises.specs.Promises.{Agree, Stands, first_decided, log_of};
ghost use Rattle.mega_tape_laws.specs.Chosen.{Chosen};
ghost use Rattle.mega_tape_laws.specs.Lawful.{Lawful, message};
ghost use Rattle.mega_tape_laws.specs.Places.{Place};
ghost use Rattle.mega_tape_laws.specs.Settled.{IsSettled};
ghost use Rattle.mega_tape_laws.specs.Writes.{IsFront, Knows};

/// All decides of one position of a group show one entry, on every lawful tape of every cluster: with any number of operations and
/// ballots, and with messages lost, repeated or taken in any order, crashes and restarts (Lamport 2001).
pub fn one_decided_log()
    ensures { (c : Cluster) (tape : List Item) → Lawful c tape → Agree tape }
{}

/// A chosen entry stays: no other is chosen at its position, at any ballot; each proposal at a ballot above carries it; and what an
/// operation settles, or a node decides, was chosen.
pub fn a_chosen_entry_stays()
    ensures once { (c : Cluster) (tape : List Item) → Lawful c tape → (p : Place) (d e : Content) → Chosen c p tape d → Chosen c p tape e → d ≡ e }
    ensures carried { (c : Cluster) (tape : List Item) → Lawful c tape → (p : Place) (e f : Content) (b : Number) (op : Operation) (node to key : ℕ) (chosen : Chosen c p tape e) → Stands (Sent key (message node to (Accept op p.group p.position b f))) tape → is_ballot_below chosen.ballot b ≡ true → f ≡ e }
    ensures settled { (c : Cluster) (tape : List Item) → Lawful c tape → (op : Operation) (p : Place) (e : Content) → IsSettled c tape op p e → Chosen c p tape e }
    ensures decided { (c : Cluster) (tape : List Item) → Lawful c tape → (p : Place) (node : Node) (e : Content) → Stands (Decide node p.group p.position e) tape → Chosen c p tape e }
{}

/// What a node decided of a group's log, from position 1 on, is the front of the log.
pub fn a_node_decides_the_front_of_the_log()
    ensures { (c : Cluster) (tape : List Item) → Lawful c tape → (node : ℕ) (group : Group) (below : List Content) → Knows tape node group below → IsFront (log_of tape group) below }
{}

/// What any node decides at a position is the entry that the log has there, which is that of the first decide.
pub fn the_log_shows_each_decide()
    ensures { (c : Cluster) (tape : List Item) → Lawful c tape → (node : Node) (group : Group) (n : Index) (e : Content) → Stands (Decide node group n e) tape → first_decided tape group n.0 ≡ Some e }
{}
