//! Which items leave what a node keeps of leases as it is, as contracts of functions that do nothing.

ghost use Rattle.std.specs.Prelude.{◌≡◌, ℕ, List, ◌∷◌, true, false};
ghost use Rattle.std.specs.List.{list_all};
ghost use Rattle.mega_cluster.specs.declared.cluster.Cluster.{Cluster};
ghost use Rattle.mega_rules.specs.Met.{Met};
ghost use Rattle.mega_rules.specs.Clock.{is_opening};
ghost use Rattle.mega_rules.specs.Steps.{onto};
ghost use Rattle.mega_leases.specs.declared.leases.Leases.{Leases};
ghost use Rattle.mega_leases.specs.Laws.{is_apart, shows_only};
ghost use Rattle.mega_leases.specs.Tells.{Tells};

/// An item that tells neither the clock nor the cell nor the coordinator leaves what a node keeps of them.
pub fn others_leave_it()
    ensures { (c : Cluster) (me : ℕ) (leases : Leases) (item : Met) (met : List Met) → is_apart item ≡ true → Tells c me leases met → Tells c me leases (item ∷ met) }
{}

/// Past the opening of a start so do items that show a grant or a lapse.
pub fn notes_leave_it()
    ensures { (c : Cluster) (me : ℕ) (leases : Leases) (notes met : List Met) → list_all shows_only notes ≡ true → is_opening met ≡ false → Tells c me leases met → Tells c me leases (onto notes met) }
{}
