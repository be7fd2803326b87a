//! Laws of leases, as contracts of functions that do nothing.

ghost use Rattle.std.specs.Prelude.{◌≡◌, ℕ, ◌<◌, ◌≤◌, Bool, true, List};
ghost use Rattle.mega_base.specs.declared.names.Epoch.{Epoch};
ghost use Rattle.mega_base.specs.declared.names.GroupId.{GroupId as Group};
ghost use Rattle.mega_base.specs.declared.names.NodeId.{NodeId as Node};
ghost use Rattle.mega_base.specs.declared.names.OpId.{OpId as Operation};
ghost use Rattle.mega_base.specs.declared.names.Position.{Position as Index};
ghost use Rattle.mega_cluster.specs.declared.cluster.Cluster.{Cluster};
ghost use Rattle.mega_entry.specs.declared.content.Content.{Content};
ghost use Rattle.mega_handler.specs.Named.{Meanings};
ghost use Rattle.mega_settled_laws.specs.of_tape_laws.of_promises.of_transcript.declared.item.Item.{Item};
ghost use Rattle.mega_settled_laws.specs.of_tape_laws.of_promises.of_transcript.declared.item.Item.TheVariants.{Decide};
ghost use Rattle.mega_settled_laws.specs.of_tape_laws.of_promises.Promises.{Stands};
ghost use Rattle.mega_settled_laws.specs.of_tape_laws.of_promises.Runs.{Happening, IsRun, goes_on, opening};
ghost use Rattle.mega_settled_laws.specs.of_tape_laws.of_promises.of_rules.Clock.{is_up};
ghost use Rattle.mega_settled_laws.specs.of_tape_laws.of_promises.of_rules.Coordinators.{serves_at, valid_at};
ghost use Rattle.mega_settled_laws.specs.of_tape_laws.of_promises.of_rules.Members.{full_nodes, is_full};
ghost use Rattle.mega_settled_laws.specs.of_tape_laws.Places.{In};
ghost use Rattle.mega_settled_laws.specs.of_tape_laws.Polls.{ArePolls};
ghost use Rattle.mega_settled_laws.specs.of_tape_laws.Settled.{IsCellMajority};
ghost use Rattle.mega_settled_laws.specs.Covering.{WasCovered};
ghost use Rattle.mega_settled_laws.specs.of_tape_laws.of_promises.of_rules.Examples.{cluster, entry_of, group};
ghost use Rattle.mega_settled_laws.specs.of_tape_laws.Examples.{place};
ghost use Rattle.mega_valid_laws.specs.Examples.{epoch, validated};
ghost use Rattle.mega_valid_laws.specs.Leases.{AreLeased, HasAtLeast, IsHeld, IsTop, SaysFree, ServedBehind, serving_on, valid_on};

/// An epoch that serves with a majority of the cells, none of which lapsed it, began to serve behind an answer of one of any majority of the cells that
/// said, each at some moment, that they hold nothing for its node (CIDR 2011, coordinators).
pub fn an_epoch_serves_behind_an_answer()
    ensures { (c : Cluster) (tape : List Item) → AreLeased c tape → (node : ℕ) (epoch : Epoch) → IsHeld c tape node epoch → (op : Operation) (test : ℕ → Bool) → IsCellMajority c test →
        ((cell : ℕ) → test cell ≡ true → SaysFree tape op cell node) → ServedBehind tape op test node epoch }
{}

/// Where a group is valid at a full node, under an epoch that serves with a majority of the cells, none of which lapsed it, the node accepted or decided
/// a position at least as great as each that an operation settled.
pub fn a_valid_group_has_what_was_settled()
    ensures { (c : Cluster) (tape : List Item) → AreLeased c tape → ArePolls tape → (node : ℕ) (group : Group) (n : Index) (entry : Content) (epoch : Epoch) → In node (full_nodes c) → 0 < n.0 →
        WasCovered c tape (record { group = group; position = n }) entry → valid_on tape node group ≡ true → IsHeld c tape node epoch → HasAtLeast tape node group n }
{}

/// So in every run whose leases are such, the greatest position that such a node accepted or decided covers each decision anywhere.
pub fn a_local_position_covers_each_decision()
    ensures { (c : Cluster) (first : Meanings) (events : List Happening) (tape : List Item) → IsRun c first events tape → AreLeased c tape → (node : ℕ) (group : Group) (n p : Index) (entry : Content) (other : Node) (epoch : Epoch) →
        In node (full_nodes c) → 0 < n.0 → Stands (Decide other group n entry) tape → valid_on tape node group ≡ true → IsHeld c tape node epoch → IsTop tape node group p → n.0 ≤ p.0 }
{}

/// In every run a tape shows of each full node that is up which epoch of it serves, and which groups are valid there, exactly as its coordinator has them.
pub fn a_tape_shows_what_is_valid()
    ensures serving { (c : Cluster) (first : Meanings) (events : List Happening) (tape : List Item) → (run : IsRun c first events tape) → (node : ℕ) → is_full c node ≡ true →
        is_up ((goes_on c run.cuts (opening c first) events).node node).met ≡ true → serving_on tape node ≡ serves_at c ((goes_on c run.cuts (opening c first) events).node node).met }
    ensures valid { (c : Cluster) (first : Meanings) (events : List Happening) (tape : List Item) → (run : IsRun c first events tape) → (node : ℕ) → is_full c node ≡ true →
        is_up ((goes_on c run.cuts (opening c first) events).node node).met ≡ true → (group : Group) → valid_on tape node group ≡ valid_at c ((goes_on c run.cuts (opening c first) events).node node).met group }
{}

/// There is a tape that is leased, on which a group is valid at a node under an epoch that is held, and an entry is settled: the laws are about some.
pub fn a_group_may_be_valid()
    ensures leased { AreLeased cluster validated }
    ensures polled { ArePolls validated }
    ensures settled { WasCovered cluster validated place (entry_of 1) }
    ensures valid { valid_on validated 2 group ≡ true }
    ensures held { IsHeld cluster validated 2 epoch }
{}
