//! Laws of whose rows a node writes, as contracts of functions that do nothing.

ghost use Rattle.std.specs.Prelude.{◌≡◌, ◌≢◌, ℕ, List, [], Contains, Ok};
ghost use Rattle.mega_base.specs.declared.names.GroupId.{GroupId};
ghost use Rattle.mega_base.specs.declared.names.OpId.{OpId};
ghost use Rattle.mega_base.specs.declared.values.Value.{Value};
ghost use Rattle.mega_entry.specs.declared.content.Content.{Content};
ghost use Rattle.mega_entry.specs.declared.content.Enter.{Enter};
ghost use Rattle.mega_entry.specs.declared.content.Write.{Write};
ghost use Rattle.mega_schema.specs.declared.schema.Schema.{Schema};
ghost use Rattle.mega_index.specs.Rows.{Listed, Rows};
ghost use Rattle.mega_outcome.specs.declared.answer.Done.{Done};
ghost use Rattle.mega_outcome.specs.declared.transaction.Transaction.{Transaction};
ghost use Rattle.mega_outcome.specs.Outcome.{batch_outcome, entry_of_batch, entry_of_done, outcome};
ghost use Rattle.mega_outcome.specs.Places.{key_in};
ghost use Rattle.mega_node_laws.specs.Acted.{acted_on};
ghost use Rattle.mega_node_laws.specs.Own.{HasOwnRows};
ghost use Rattle.mega_run_laws.specs.of_rules.Acting.{handling};
ghost use Rattle.mega_run_laws.specs.of_rules.Logs.{log_of};
ghost use Rattle.mega_run_laws.specs.of_rules.Met.{Met};
ghost use Rattle.mega_run_laws.specs.of_rules.Operations.{Node, Setting};
ghost use Rattle.mega_run_laws.specs.of_rules.Steps.{Event, crashed, start, step};
ghost use Rattle.mega_run_laws.specs.of_tape_laws.Indexed.{IsDeclared};
ghost use Rattle.mega_run_laws.specs.Justified.{Each};
ghost use Rattle.mega_own_laws.specs.Entries.{IsOwn};
ghost use Rattle.mega_own_laws.specs.Nodes.{ActOnOwn, EventOwn, MetOwn, NodeOwn, StepOwn};

/// In every step a node notes and sends only entries that write rows of their own groups, where it was told only of such, and it is such a
/// node then. The schema is one that was declared by a text.
pub fn steps_stay_own()
    ensures { (s : Setting) (node : Node) (event : Event) → IsDeclared s.cluster.schema → NodeOwn s.cluster.schema node → EventOwn s.cluster.schema event → StepOwn s.cluster.schema (step s node event) }
{}

/// So the operations of a step act on logs whose rows are each group's own: in one step, and in each of one event after another.
pub fn steps_act_on_own_logs()
    ensures once { (s : Setting) (node : Node) (event : Event) → IsDeclared s.cluster.schema → NodeOwn s.cluster.schema node → EventOwn s.cluster.schema event → HasOwnRows s.cluster.schema (log_of (acted_on s node event)) }
    ensures always { (s : Setting) (node : Node) (events : List Event) → IsDeclared s.cluster.schema → NodeOwn s.cluster.schema node → Each (EventOwn s.cluster.schema) events → ActOnOwn s node events }
{}

/// A start of a node that met only such entries, with what it finds of a step that was cut before it, leaves such a node; so do its first
/// start and a crash. The rows of its logs are each group's own.
pub fn starts_stay_own()
    ensures begins { (s : Setting) (number : ℕ) (owed met : List Met) → MetOwn s.cluster.schema owed → MetOwn s.cluster.schema met → NodeOwn s.cluster.schema (start s number owed met) }
    ensures first { (s : Setting) (number : ℕ) → NodeOwn s.cluster.schema (start s number [] []) }
    ensures crashes { (schema : Schema) (node : Node) → NodeOwn schema node → NodeOwn schema (crashed node) }
    ensures logs { (schema : Schema) (met : List Met) → MetOwn schema met → HasOwnRows schema (log_of met) }
{}

/// What an operation makes of its own is the group's own: the entry of a transaction or of a batch of the group over any rows, one that handles a
/// message there, and one that writes nothing. An entry that writes under a key which an item of another group names is not.
pub fn what_operations_make_is_own()
    ensures transactions { (schema : Schema) (op : OpId) (transaction : Transaction) (rows : Rows) (done : Done) → IsDeclared schema → outcome schema transaction rows ≡ Ok done → IsOwn schema transaction.group (entry_of_done op done) }
    ensures batches { (schema : Schema) (op : OpId) (group : GroupId) (transactions : List Transaction) (rows : Rows) → IsDeclared schema → IsOwn schema group (entry_of_batch op (batch_outcome schema group transactions rows)) }
    ensures handling { (s : Setting) (op : OpId) (group : GroupId) (message : Enter) (rows : Listed) → IsDeclared s.cluster.schema → IsOwn s.cluster.schema group (handling s op group message rows) }
    ensures nothing { (schema : Schema) (group : GroupId) (entry : Content) → entry.writes ≡ [] → IsOwn schema group entry }
    ensures others { (schema : Schema) (group other : GroupId) (entry : Content) (write : Write) (i n : ℕ) (values : List Value) → Contains entry.writes write → key_in schema other.key i n values ≡ Ok write.key → other ≢ group → IsOwn schema group entry → ⊥ }
{}
