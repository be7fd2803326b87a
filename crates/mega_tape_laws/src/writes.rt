//! Laws of the entries that the logs hold, as contracts of functions that do nothing: on a lawful tape on which each proposed entry is an
//! operation's own, made over the entries that its node decided below (`specs/Writes.antt`).

ghost use Rattle.std.specs.Prelude.{◌≡◌, ℕ, true, List, Some, Contains, slice_get, take};
ghost use Rattle.mega_base.specs.declared.names.GroupId.{GroupId as Group};
ghost use Rattle.mega_base.specs.declared.names.OpId.{OpId as Operation};
ghost use Rattle.mega_cluster.specs.declared.cluster.Cluster.{Cluster};
ghost use Rattle.mega_entry.specs.declared.content.Content.{Content};
ghost use Rattle.mega_entry.specs.declared.content.Enter.{Enter};
ghost use Rattle.mega_entry.specs.declared.content.Name.{Name};
ghost use Rattle.mega_handler.specs.Named.{Meanings};
ghost use Rattle.mega_outcome.specs.declared.request.Request.{Request};
ghost use Rattle.mega_promises.specs.of_rules.Queues.{entered_in, handled_in, names_entered, oldest_unhandled};
ghost use Rattle.mega_promises.specs.of_transcript.declared.item.Item.{Item};
ghost use Rattle.mega_promises.specs.Promises.{AreMessages, WasSent, asked_for, comes_to, group_written, handled_by, is_write, log_of};
ghost use Rattle.mega_tape_laws.specs.Writes.{LawfulWrites, OwnEntry, Usage};

/// Each entry of a log is an operation's own over the log's entries below it.
pub fn each_entry_is_an_operations_own()
    ensures { (c : Cluster) (usage : Usage) (tape : List Item) → LawfulWrites c usage tape → (group : Group) (n : ℕ) (e : Content) → slice_get (log_of tape group) n ≡ Some e → (op : Operation) × OwnEntry c.schema usage tape op group (take n (log_of tape group)) e }
{}

/// The logs are as of one thread: an entry with the id of a transaction or a batch stands in the log of its group, and is its outcome over
/// the entries below; and an id stands at one position of one log at most.
pub fn writes_are_serial()
    ensures entries { (c : Cluster) (usage : Usage) (tape : List Item) → LawfulWrites c usage tape → (group : Group) (n : ℕ) (entry : Content) (op : Operation) (request : Request) → slice_get (log_of tape group) n ≡ Some entry → entry.id ≡ Some op → asked_for usage.meaning tape op ≡ Some request → is_write request ≡ true → (group_written request ≡ Some group) × (comes_to c.schema op request (take n (log_of tape group)) ≡ Some entry) }
    ensures once { (c : Cluster) (usage : Usage) (tape : List Item) → LawfulWrites c usage tape → (g h : Group) (m n : ℕ) (d e : Content) (op : Operation) → slice_get (log_of tape g) m ≡ Some d → slice_get (log_of tape h) n ≡ Some e → d.id ≡ Some op → e.id ≡ Some op → (g ≡ h) × (m ≡ n) }
{}

/// A message that is entered stands in its sender's log; it is entered once at most in a log, and handled once at most, the oldest first: the entry that handles it is what a handler makes
/// of it over the entries below.
pub fn messages_come_once()
    ensures sent { (c : Cluster) (usage : Usage) (tape : List Item) → LawfulWrites c usage tape → (group : Group) (message : Enter) → Contains (entered_in (log_of tape group)) message → WasSent tape group message }
    ensures entered { (c : Cluster) (usage : Usage) (tape : List Item) → LawfulWrites c usage tape → (group : Group) (m n : ℕ) (first second : Name) → slice_get (names_entered (log_of tape group)) m ≡ Some first → slice_get (names_entered (log_of tape group)) n ≡ Some second → first ≡ second → m ≡ n }
    ensures handled { (c : Cluster) (usage : Usage) (tape : List Item) → LawfulWrites c usage tape → (group : Group) (m n : ℕ) (first second : Name) → slice_get (handled_in (log_of tape group)) m ≡ Some first → slice_get (handled_in (log_of tape group)) n ≡ Some second → first ≡ second → m ≡ n }
    ensures oldest { (c : Cluster) (usage : Usage) (tape : List Item) → LawfulWrites c usage tape → (group : Group) (n : ℕ) (e : Content) (name : Name) → slice_get (log_of tape group) n ≡ Some e → Contains e.handles name → (message : Enter) × (op : Operation) × (moment : List Item) × (oldest_unhandled (take n (log_of tape group)) ≡ Some message) × (message.name ≡ name) × (e ≡ handled_by c.schema (usage.handlers moment) group op message (take n (log_of tape group))) }
{}

/// All that is promised of messages, where the handlers are the same throughout: what is entered was sent to that group, with its queue and
/// payload, and is entered once, handled once, the oldest first, by its queue's handler.
pub fn messages_are_delivered_in_order()
    ensures { (c : Cluster) (usage : Usage) (tape : List Item) (handlers : Meanings) → ((moment : List Item) → usage.handlers moment ≡ handlers) → LawfulWrites c usage tape → AreMessages c.schema handlers tape }
{}
