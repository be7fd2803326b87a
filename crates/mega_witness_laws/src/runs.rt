//! Runs in which premises of the laws are met, as contracts of functions that do nothing.

ghost use Rattle.std.specs.Prelude.{◌≡◌, ◌++◌, false, true, [], ◌∷◌, reverse, None, Some};
ghost use Rattle.mega_outcome.specs.declared.answer.Answer.TheVariants.{Read as ReadAnswer};
ghost use Rattle.mega_valid_laws.specs.Leases.{serving_on, valid_on};
ghost use Rattle.mega_valid_laws.specs.of_settled_laws.of_tape_laws.of_promises.Messages.{is_unsafe};
ghost use Rattle.mega_valid_laws.specs.of_settled_laws.of_tape_laws.of_promises.Worked.{Asked, Lapses, Learned, Proposed, Serves, Valid, answers, committed_at, drain, epoch, marks, op, read_through, run, second, story, told};
ghost use Rattle.mega_valid_laws.specs.of_settled_laws.of_tape_laws.of_rules.Examples.{group};
ghost use Rattle.mega_witness_laws.specs.Schedules.{not_told, regained, third, told_before, two_pumps};

/// A read of node 2 polled before a put of node 3. Node 2 is told to count the group invalid, and then the old answers come: it answers its read, and the group
/// does not become valid, so that the put is committed and no local read of node 2 misses it.
#[tactic(auto, unfolding(mega_base::specs::Codec::number_text))]
pub fn an_invalidate_prevents_a_validate()
    ensures read { answers (run told_before) ≡ told (op 2 1 1) (ReadAnswer (record { 0 = 0 }) (None ∷ [])) ∷ [] }
    ensures marks { marks (run told_before) ≡ Serves 2 1 0 ∷ [] }
    ensures serves { serving_on (reverse (run told_before)) 2 ≡ Some epoch }
    ensures not_valid { valid_on (reverse (run told_before)) 2 group ≡ false }
    ensures safe { is_unsafe (reverse (run told_before)) ≡ false }
    ensures committed { answers (run (told_before ++ drain ∷ [])) ≡ told (op 2 1 1) (ReadAnswer (record { 0 = 0 }) (None ∷ [])) ∷ told (op 3 1 1) (committed_at 1) ∷ [] }
{}

/// Where the same answers come before that word the group becomes valid at node 2, through position 0: the put waits until node 2 is told.
#[tactic(auto, unfolding(mega_base::specs::Codec::number_text))]
pub fn without_the_invalidate_the_group_is_valid()
    ensures read { answers (run not_told) ≡ told (op 2 1 1) (ReadAnswer (record { 0 = 0 }) (None ∷ [])) ∷ [] }
    ensures marks { marks (run not_told) ≡ Serves 2 1 0 ∷ Valid 2 0 ∷ [] }
    ensures valid { valid_on (reverse (run not_told)) 2 group ≡ true }
    ensures safe { is_unsafe (reverse (run not_told)) ≡ false }
{}

/// Node 3 is down, and two cells hold nothing for it, so a put is committed of which it knows nothing. It starts again, regains its locks in an epoch of its second
/// start, and its current reads, the first polled and the second local, show the put.
#[tactic(auto, unfolding(mega_base::specs::Codec::number_text))]
pub fn a_node_that_was_covered_by_cells_regains_its_locks()
    ensures marks { marks (run regained) ≡ Serves 3 1 0 ∷ Lapses 1 3 ∷ Lapses 2 3 ∷ Serves 1 1 0 ∷ Serves 2 1 0 ∷ Serves 3 2 0 ∷ Valid 3 1 ∷ [] }
    ensures answers { answers (run regained) ≡ told (op 1 1 1) (committed_at 1) ∷ told (op 3 2 1) (read_through 1) ∷ told (op 3 2 2) (read_through 1) ∷ [] }
    ensures safe { is_unsafe (reverse (run regained)) ≡ false }
{}

/// Pumps of two nodes pick one group. The second hears there that its message is entered, picks again, and enters the other message in the same operation.
#[tactic(auto, unfolding(mega_base::specs::Codec::number_text, mega_keys::specs::Reading::key_at, mega_keys::specs::Reading::key_front_at, mega_keys::specs::Reading::root_at, mega_keys::specs::Reading::marks_at, mega_keys::specs::Reading::byte_at, mega_keys::specs::Reading::values_at, mega_keys::specs::Reading::int64_at, mega_keys::specs::Reading::agree))]
pub fn a_pump_picks_again()
    ensures answers { answers (run two_pumps) ≡ told (op 1 1 1) (committed_at 1) ∷ told (op 2 1 1) (committed_at 1) ∷ told (op 1 1 2) (committed_at 1) ∷ [] }
    ensures entered { story second (run two_pumps) ≡ Asked 1 ∷ Asked 2 ∷ Asked 3 ∷ Learned 2 1 ∷ Learned 1 1 ∷ Learned 3 1 ∷ [] }
    ensures picked { story third (run two_pumps) ≡ Asked 1 ∷ Asked 2 ∷ Asked 3 ∷ Proposed 1 ∷ Proposed 1 ∷ Proposed 1 ∷ Learned 1 1 ∷ Learned 2 1 ∷ Learned 3 1 ∷ [] }
{}
