//! Laws of the turns of a served node, as contracts of functions that do nothing.

ghost use Rattle.std.specs.Prelude.{◌≡◌, ◌<◌, ℕ, List, None, Option};
ghost use Rattle.mega_cluster.specs.declared.cluster.Cluster.{Cluster};
ghost use Rattle.mega_handler.specs.Named.{Meanings};
ghost use Rattle.mega_link.specs.Datagrams.{Datagram};
ghost use Rattle.mega_wal.specs.History.{starts_of};
ghost use Rattle.mega_wal.specs.Records.{first_bad, history_of};
ghost use Rattle.mega_rules.specs.Logs.{log_of};
ghost use Rattle.mega_rules.specs.Operations.{Node, Setting};
ghost use Rattle.mega_rules.specs.Steps.{Event, step};
ghost use Rattle.mega_node_laws.specs.Own.{HasOwnRows};
ghost use Rattle.mega_format_laws.specs.Histories.{IsCluster};
ghost use Rattle.mega_format_laws.specs.Nodes.{IsEvent, IsNode, IsSetting};
ghost use Rattle.mega_format_laws.specs.Requests.{AreHandlers};
ghost use Rattle.mega_format_laws.specs.Rounds.{IsMember};
ghost use Rattle.mega_run_laws.specs.of_tape_laws.Indexed.{IsDeclared};
ghost use Rattle.mega_promises.specs.Runs.{setting};
ghost use Rattle.mega_promises.specs.Served.{served, served_start};
ghost use Rattle.mega_serve.specs.Turns.{AreTimes, MayServe, turns_of};
ghost use Rattle.mega_serve.specs.Wishes.{wish_of};
ghost use Rattle.mega_server.specs.Serving.{MayStep};
ghost use Rattle.mega_turn_laws.specs.OwnEntries.{DatagramsOwn, ItemsOwn};

use mega_serve::Steps;

/// A step of a node of the format, at an event of the format, may happen where the rows of all that the node has decided by its end are the
/// groups' own.
pub fn steps_may_happen()
    ensures { (s : Setting) (node : Node) (event : Event) → IsSetting s → IsNode node → IsEvent event → HasOwnRows s.cluster.schema (log_of (step s node event).node.met) → MayStep s node event }
{}

/// Of a node that started over records of the format, with handlers that make what an entry can hold, each turn may happen, whatever datagrams come,
/// where its clock shows times that a tick can have and the rows of all that it decided by the end are the groups' own.
pub fn turns_may_happen<S: Steps>()
    ensures { ((s : Setting) (node : Node) (event : Event) → MayStep s node event → S.may_happen s node event) →
        (c : Cluster) (h : Meanings) (me : ℕ) (found : List (List ℕ)) (given : List (ℕ × Option Datagram)) → IsCluster c → IsMember me → AreHandlers h → first_bad found ≡ None → starts_of (history_of found) < 4294967295 →
        AreTimes given → HasOwnRows c.schema (log_of (served c me (wish_of c.schema me) h (history_of found) (turns_of h given)).node.met) → MayServe S.Steps (setting c h me) (served_start c me h (history_of found)) (turns_of h given) }
{}

/// The rows of what a node decided are the groups' own where the log over which it started and each datagram tell only of entries that write rows of
/// their own groups. The schema is one that was declared by a text.
pub fn what_own_datagrams_decide_is_own()
    ensures { (c : Cluster) (h : Meanings) (me : ℕ) (found : List (List ℕ)) (given : List (ℕ × Option Datagram)) → IsDeclared c.schema → ItemsOwn c.schema (history_of found) → DatagramsOwn c.schema given →
        HasOwnRows c.schema (log_of (served c me (wish_of c.schema me) h (history_of found) (turns_of h given)).node.met) }
{}
