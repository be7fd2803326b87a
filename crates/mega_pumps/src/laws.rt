//! A digest follows logs as they go on.
ghost use Rattle.std.specs.Prelude.{◌≡◌, ◌≤◌, ◌++◌, ℕ, List};
ghost use Rattle.mega_base.specs.declared.names.GroupId.{GroupId as Group};
ghost use Rattle.mega_entry.specs.declared.content.Content.{Content};
ghost use Rattle.mega_queues.specs.Boxes.{Logs};
ghost use Rattle.mega_replica.specs.Applying.{applied};
ghost use Rattle.mega_pumps.specs.Notes.{Notes};
ghost use Rattle.mega_pumps.specs.declared.digest.Digest.{Digest as DigestKept};

/// What is noted of logs is noted of longer ones that begin with these, where no less is applied of them.
pub fn what_is_noted_stays()
    ensures { (log longer : Logs) (stored after : Group → ℕ) (digest : DigestKept) → ((group : Group) → (more : List Content) × (longer group ≡ log group ++ more)) →
        ((group : Group) → applied (log group) (stored group) ≤ applied (longer group) (after group)) →
        Notes log stored digest → Notes longer after digest }
{}
