//! Laws of the requests that clients send to a node, as contracts of functions that do nothing.

ghost use Rattle.std.specs.Prelude.{◌≡◌, false, ℕ, List, All, map};
ghost use Rattle.mega_cluster.specs.declared.cluster.Cluster.{Cluster};
ghost use Rattle.mega_handler.specs.Named.{Meanings};
ghost use Rattle.mega_wal.specs.declared.item.JournalItem.{JournalItem};
ghost use Rattle.mega_promises.specs.of_rules.Operations.{Node, Setting};
ghost use Rattle.mega_promises.specs.of_rules.Steps.{Event, op_of, step};
ghost use Rattle.mega_promises.specs.Runs.{setting};
ghost use Rattle.mega_promises.specs.Served.{Turn, Wish, is_open_at, served};
ghost use Rattle.mega_reply_laws.specs.Fates.{AreApart, HaveFates, ids, open_at};
ghost use Rattle.mega_reply_laws.specs.Requests.{AreReplied, HasOpen, op_awaited, requests, waits};

/// Each request of a client on the record of a node gets one reply at most: one where it was refused or its operation was answered, and none
/// while its operation is open. As the front of a run is a run, this holds behind each turn: a reply stands behind its request, in the turn in
/// which that was refused or answered.
pub fn each_request_gets_one_reply()
    ensures { (c : Cluster) (me : ℕ) (wish : List ℕ → Wish) (first : Meanings) (before : List JournalItem) (turns : List Turn) → AreReplied c me wish (served c me wish first before turns) }
{}

/// Those who wait at a served node are the clients whose requests have open operations. The operation of each is open, and no two of them wait for one.
pub fn each_waits_for_an_operation_of_its_own()
    ensures waits { (c : Cluster) (me : ℕ) (wish : List ℕ → Wish) (first : Meanings) (before : List JournalItem) (turns : List Turn) →
        (served c me wish first before turns).waiting ≡ waits (requests me wish (served c me wish first before turns).lines) }
    ensures open { (c : Cluster) (me : ℕ) (wish : List ℕ → Wish) (first : Meanings) (before : List JournalItem) (turns : List Turn) →
        All (HasOpen (served c me wish first before turns).node) (served c me wish first before turns).waiting }
    ensures apart { (c : Cluster) (me : ℕ) (wish : List ℕ → Wish) (first : Meanings) (before : List JournalItem) (turns : List Turn) →
        AreApart (map op_awaited (served c me wish first before turns).waiting) }
{}

/// The open operations of a served node have ids of their own, and the id of the next one is none of these.
pub fn open_operations_are_apart()
    ensures apart { (c : Cluster) (me : ℕ) (wish : List ℕ → Wish) (first : Meanings) (before : List JournalItem) (turns : List Turn) →
        AreApart (ids (served c me wish first before turns).node.open_operations) }
    ensures new { (c : Cluster) (me : ℕ) (wish : List ℕ → Wish) (first : Meanings) (before : List JournalItem) (turns : List Turn) (handlers : Meanings) →
        is_open_at (served c me wish first before turns).node (op_of (setting c handlers me) (served c me wish first before turns).node.met) ≡ false }
{}

/// In a step of any node each operation that was open, or begins in it, either stays open or is answered once, in order; nothing else is answered.
pub fn each_operation_stays_open_or_is_answered()
    ensures { (s : Setting) (node : Node) (event : Event) → HaveFates (open_at s node event) (step s node event) }
{}
