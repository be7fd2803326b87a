//! Laws of whose rows are whose, as contracts of functions that do nothing.

ghost use Rattle.std.specs.Prelude.{◌≡◌, ℕ, suc, List, [], ◌∷◌, Some, None};
ghost use Rattle.mega_base.specs.declared.names.NodeId.{NodeId as Node};
ghost use Rattle.mega_cluster.specs.declared.cluster.Cluster.{Cluster};
ghost use Rattle.mega_wire.specs.declared.message.Message.{Message};
ghost use Rattle.mega_handler.specs.Named.{Meanings};
ghost use Rattle.mega_outcome.specs.declared.request.Request.{Request};
ghost use Rattle.mega_run_laws.specs.of_tape_laws.of_promises.of_schedule.declared.world_event.WorldEvent.TheVariants.{Begin as BeginEvent, Deliver, Tick as TickEvent};
ghost use Rattle.mega_run_laws.specs.of_tape_laws.of_promises.of_transcript.declared.item.Item.{Item};
ghost use Rattle.mega_run_laws.specs.of_tape_laws.of_promises.of_rules.Logs.{log_of};
ghost use Rattle.mega_run_laws.specs.of_tape_laws.of_promises.of_rules.Steps.{Begin, Take, Tick};
ghost use Rattle.mega_run_laws.specs.of_tape_laws.of_promises.Messages.{message_of, next_delivery};
ghost use Rattle.mega_run_laws.specs.of_tape_laws.of_promises.Promises.{log_of as tape_log};
ghost use Rattle.mega_run_laws.specs.of_tape_laws.of_promises.Runs.{Cuts, Happening, IsRun, Standing, drained, goes_on, opening, refusal, setting, up};
ghost use Rattle.mega_node_laws.specs.Acted.{acted_on};
ghost use Rattle.mega_node_laws.specs.Own.{HasOwnRows};
ghost use Rattle.mega_run_laws.specs.of_tape_laws.Indexed.{IsDeclared};
ghost use Rattle.mega_run_laws.specs.of_tape_laws.Writes.{Usage};
ghost use Rattle.mega_run_laws.specs.Usages.{Fits, FitsOne};

/// In every run the rows that items of a group can name are written by that group's own entries alone, and these leave rows of its tables
/// only under keys that its items can name, on the tape and at every node. The
/// schema is one that was declared (`a_root_that_is_none_mixes_groups` says why). Each text means the request that
/// begins with it, and the handlers of each event are there at some moment.
pub fn runs_have_own_rows()
    ensures tapes { (c : Cluster) (usage : Usage) (first : Meanings) (events : List Happening) (tape : List Item) → IsDeclared c.schema → IsRun c first events tape → Fits usage events → HasOwnRows c.schema (tape_log tape) }
    ensures nodes { (c : Cluster) (usage : Usage) (first : Meanings) (cuts : Cuts) (events : List Happening) (me : ℕ) → IsDeclared c.schema → Fits usage events → HasOwnRows c.schema (log_of ((goes_on c cuts (opening c first) events).node me).met) }
{}

/// So are those of the logs on which operations act in a step, whatever comes next in a run and is not refused, and whatever fuses are set:
/// a tick, a delivery, and the beginning of an operation.
pub fn steps_act_on_own_rows()
    ensures ticks { (c : Cluster) (usage : Usage) (first : Meanings) (cuts : Cuts) (events : List Happening) (handlers : Meanings) (node : Node) (clock : ℕ) → IsDeclared c.schema → Fits usage events → FitsOne usage (record { handlers = handlers; event = TickEvent node clock }) →
        refusal c (goes_on c cuts (opening c first) events) (TickEvent node clock) ≡ None →
        HasOwnRows c.schema (log_of (acted_on (setting c handlers node.0) ((goes_on c cuts (opening c first) events).node node.0) (Tick clock))) }
    ensures takes { (c : Cluster) (usage : Usage) (first : Meanings) (cuts : Cuts) (events : List Happening) (handlers : Meanings) (number : ℕ) (message : Message) → IsDeclared c.schema → Fits usage events → FitsOne usage (record { handlers = handlers; event = Deliver number }) →
        refusal c (goes_on c cuts (opening c first) events) (Deliver number) ≡ None → message_of (goes_on c cuts (opening c first) events).tape number ≡ Some message →
        HasOwnRows c.schema (log_of (acted_on (setting c handlers message.to) ((goes_on c cuts (opening c first) events).node message.to) (Take message))) }
    ensures begins { (c : Cluster) (usage : Usage) (first : Meanings) (cuts : Cuts) (events : List Happening) (handlers : Meanings) (node : Node) (request : Request) (text : List ℕ) → IsDeclared c.schema → Fits usage events → FitsOne usage (record { handlers = handlers; event = BeginEvent node request text }) →
        refusal c (goes_on c cuts (opening c first) events) (BeginEvent node request text) ≡ None →
        HasOwnRows c.schema (log_of (acted_on (setting c handlers node.0) ((goes_on c cuts (opening c first) events).node node.0) (Begin request text))) }
{}

/// A drain is a run of deliveries, so this is also of its steps: what it delivers next is not refused, and behind it the drain goes on.
pub fn drains_are_deliveries()
    ensures allowed { (c : Cluster) (now : Standing) (number : ℕ) → next_delivery (up now) now.tape ≡ Some number → refusal c now (Deliver number) ≡ None }
    ensures onward { (c : Cluster) (handlers : Meanings) (cuts : Cuts) (now : Standing) (number most : ℕ) → next_delivery (up now) now.tape ≡ Some number →
        drained c handlers cuts now (suc most) ≡ drained c handlers cuts (goes_on c cuts now (record { handlers = handlers; event = Deliver number } ∷ [])) most }
{}
