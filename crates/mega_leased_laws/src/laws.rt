//! Laws of the leases of every run, as contracts of functions that do nothing.

ghost use Rattle.std.specs.Prelude.{◌≡◌, ℕ, ◌≤◌, false, true, List, [], ◌∷◌, length, Option, Some};
ghost use Rattle.mega_base.specs.declared.names.Epoch.{Epoch};
ghost use Rattle.mega_base.specs.declared.names.GroupId.{GroupId as Group};
ghost use Rattle.mega_base.specs.declared.names.NodeId.{NodeId as Node};
ghost use Rattle.mega_base.specs.declared.names.Position.{Position as Index};
ghost use Rattle.mega_cluster.specs.declared.cluster.Cluster.{Cluster};
ghost use Rattle.mega_entry.specs.declared.content.Content.{Content};
ghost use Rattle.mega_handler.specs.Named.{Meanings};
ghost use Rattle.mega_lease_laws.specs.of_run_laws.of_tape_laws.of_promises.of_transcript.declared.item.Item.{Item};
ghost use Rattle.mega_lease_laws.specs.of_run_laws.of_tape_laws.of_promises.of_transcript.declared.item.Item.TheVariants.{Decide};
ghost use Rattle.mega_lease_laws.specs.of_run_laws.of_tape_laws.of_promises.Messages.{is_unsafe};
ghost use Rattle.mega_lease_laws.specs.of_run_laws.of_tape_laws.of_promises.Promises.{Stands};
ghost use Rattle.mega_lease_laws.specs.of_run_laws.of_tape_laws.of_promises.Runs.{Happening, IsRun, goes_on, opening, setting};
ghost use Rattle.mega_lease_laws.specs.of_run_laws.of_tape_laws.of_promises.of_rules.of_read.Catching.{through_of};
ghost use Rattle.mega_lease_laws.specs.of_run_laws.of_tape_laws.of_promises.of_rules.Acting.{read_begun};
ghost use Rattle.mega_lease_laws.specs.of_run_laws.of_tape_laws.of_promises.of_rules.Clock.{is_up};
ghost use Rattle.mega_lease_laws.specs.of_run_laws.of_tape_laws.of_promises.of_rules.Coordinators.{valid_at};
ghost use Rattle.mega_lease_laws.specs.of_run_laws.of_tape_laws.of_promises.of_rules.Logs.{top_of};
ghost use Rattle.mega_lease_laws.specs.of_run_laws.of_tape_laws.of_promises.of_rules.Members.{is_full};
ghost use Rattle.mega_lease_laws.specs.of_run_laws.of_tape_laws.of_promises.of_rules.Met.{Begins};
ghost use Rattle.mega_lease_laws.specs.of_run_laws.of_tape_laws.of_promises.of_rules.Operations.{Now, Operation};
ghost use Rattle.mega_valid_laws.specs.Leases.{AreLeased, IsHeld, serving_on};
ghost use Rattle.mega_leased_laws.specs.Cells.{IsFreed};
ghost use Rattle.mega_leased_laws.specs.Invalidations.{IsObeyed, IsPressed};
ghost use Rattle.mega_leased_laws.specs.Items.{Are};
ghost use Rattle.mega_leased_laws.specs.Serving.{IsServing};
ghost use Rattle.mega_leased_laws.specs.Validation.{IsValidated};

/// In every run of at most nine nodes a cell that says that it holds nothing for a node was asked, and holds nothing: the last epoch that it granted the
/// node lapsed there, or there is none (CIDR 2011, coordinators).
pub fn a_cell_says_truly_that_it_holds_nothing()
    ensures { (c : Cluster) (first : Meanings) (events : List Happening) (tape : List Item) → length c.nodes ≤ 9 → IsRun c first events tape → Are IsFreed tape }
{}

/// In every run of at most nine nodes no epoch is granted above one of its node that serves; a cell is counted that granted the epoch, while none serves;
/// and an epoch serves once, while no other does, with none above it granted.
pub fn epochs_serve_behind_their_grants()
    ensures { (c : Cluster) (first : Meanings) (events : List Happening) (tape : List Item) → length c.nodes ≤ 9 → IsRun c first events tape → Are IsServing tape }
{}

/// In every run a node that says that it is invalidated noted so behind the question of that operation.
pub fn a_node_obeys_behind_a_question()
    ensures { (c : Cluster) (first : Meanings) (events : List Happening) (tape : List Item) → IsRun c first events tape → Are IsObeyed tape }
{}

/// In every run an operation tells a node to invalidate a position where a majority of the voters accepted some entry (CIDR 2011, write algorithm).
pub fn an_operation_invalidates_what_was_accepted()
    ensures { (c : Cluster) (first : Meanings) (events : List Happening) (tape : List Item) → IsRun c first events tape → Are (IsPressed c) tape }
{}

/// In every run of at most nine nodes a group becomes valid only by a poll that began while the epoch served that serves now: a majority of the voters told
/// it no position above this one, which is decided, and no lower than each at which the group was invalidated since (CIDR 2011, coordinators).
pub fn a_group_is_valid_by_a_poll()
    ensures { (c : Cluster) (first : Meanings) (events : List Happening) (tape : List Item) → length c.nodes ≤ 9 → IsRun c first events tape → Are (IsValidated c) tape }
{}

/// So the leases of every run of at most nine nodes are as the rules have them, item by item.
pub fn leases_are_as_the_rules_have_them()
    ensures { (c : Cluster) (first : Meanings) (events : List Happening) (tape : List Item) → length c.nodes ≤ 9 → IsRun c first events tape → AreLeased c tape }
{}

/// As long as leases are safe, which is that no coordinator counts a cell under an epoch that this cell lapsed, an epoch that serves at the end of a run is
/// held: it counts a majority of the cells, none of which lapsed it (CIDR 2011, coordinators).
pub fn an_epoch_that_serves_is_held()
    ensures { (c : Cluster) (first : Meanings) (events : List Happening) (tape : List Item) → length c.nodes ≤ 9 → c.cells ≤ 5 → IsRun c first events tape → is_unsafe tape ≡ false → (node : ℕ) (epoch : Epoch) → serving_on tape node ≡ Some epoch → IsHeld c tape node epoch }
{}

/// So as long as leases are safe, where a group is valid at a full node that is up, the greatest position that the node accepted or decided, through which a
/// local read reads, is no lower than any that is decided anywhere (CIDR 2011, current reads).
pub fn a_local_read_covers_each_decision()
    ensures { (c : Cluster) (first : Meanings) (events : List Happening) (tape : List Item) → length c.nodes ≤ 9 → c.cells ≤ 5 → (run : IsRun c first events tape) → is_unsafe tape ≡ false → (node : ℕ) → is_full c node ≡ true →
        is_up ((goes_on c run.cuts (opening c first) events).node node).met ≡ true → (group : Group) → valid_at c ((goes_on c run.cuts (opening c first) events).node node).met group ≡ true → (n : Index) (entry : Content) (other : Node) →
        Stands (Decide other group n entry) tape → n.0 ≤ top_of ((goes_on c run.cuts (opening c first) events).node node).met group }
{}

/// So where an operation begins at such a node by a read that has its position already, which is a local one, that position is no lower than any that was
/// decided before (CIDR 2011, current reads).
pub fn a_read_that_begins_local_covers_each_decision()
    ensures { (c : Cluster) (first : Meanings) (events : List Happening) (tape : List Item) → length c.nodes ≤ 9 → c.cells ≤ 5 → (run : IsRun c first events tape) → is_unsafe tape ≡ false → (node : ℕ) → is_full c node ≡ true →
        is_up ((goes_on c run.cuts (opening c first) events).node node).met ≡ true → (h : Meanings) (now : Now) (o : Operation) (text : List ℕ) → now.met ≡ Begins o.id text ∷ ((goes_on c run.cuts (opening c first) events).node node).met →
        (group : Group) (p : ℕ) → through_of (read_begun (setting c h node) now o group []).reading ≡ Some p → (n : Index) (entry : Content) (other : Node) → Stands (Decide other group n entry) tape → n.0 ≤ p }
{}
