//! Tapes that are lawful, so that the laws are about some, and tapes that are not, as contracts of functions that do nothing.

ghost use Rattle.std.specs.Prelude.{◌≡◌, None, Some, []};
ghost use Rattle.mega_ballot.specs.declared.ballot.Ballot.{Ballot as Number};
ghost use Rattle.mega_entry.specs.declared.content.Content.{Content};
ghost use Rattle.mega_locks.specs.declared.asked.Asked.TheVariants.{Over};
ghost use Rattle.mega_coordinator.specs.declared.answers.NotValid.TheVariants.{Beaten};
ghost use Rattle.mega_promises.specs.of_rules.Locks.{asked_for};
ghost use Rattle.mega_promises.specs.of_rules.Coordinators.{refused_at};
ghost use Rattle.mega_outcome.specs.declared.answer.Answer.TheVariants.{Conflict};
ghost use Rattle.mega_promises.specs.of_transcript.declared.item.Item.TheVariants.{Answer, Begin, Decide};
ghost use Rattle.mega_promises.specs.of_transcript.Tape.{newest};
ghost use Rattle.mega_promises.specs.Items.{number};
ghost use Rattle.mega_promises.specs.Promises.{Stands, StoodBefore};
ghost use Rattle.mega_promises.specs.of_rules.Examples.{cluster, entry_of, group, op_of};
ghost use Rattle.mega_tape_laws.specs.Examples.{all_accept, asked_before, asks_put, beaten, completed, decided_at_zero, early, epoch, first, forgotten, kept_own, lapsed, not_its_own, passed_over, place, polled, put_decided, rivals, second, told_too_soon, too_few};
ghost use Rattle.mega_tape_laws.specs.Answers.{LawfulAnswers};
ghost use Rattle.mega_tape_laws.specs.Lawful.{Lawful};
ghost use Rattle.mega_tape_laws.specs.Settled.{IsCovered, IsSettled};
ghost use Rattle.mega_tape_laws.specs.Polls.{ArePolls, IsPolled};
ghost use Rattle.mega_tape_laws.specs.Writes.{LawfulWrites};

/// An entry that the leader and another voter accept at ballot zero is decided.
pub fn a_decision_at_zero()
    ensures lawful { Lawful cluster (newest decided_at_zero) }
    ensures decided { Stands (Decide (number 1) group first (entry_of 1)) (newest decided_at_zero) }
{}

/// An entry that every full node accepted is settled.
pub fn what_all_accept_is_settled()
    ensures lawful { Lawful cluster (newest all_accept) }
    ensures settled { IsSettled cluster (newest all_accept) (op_of 1) place (entry_of 1) }
{}

/// An entry that a majority accepted is not settled while a full node is not covered.
pub fn an_uncovered_node_is_waited_for()
    ensures { IsSettled cluster (newest decided_at_zero) (op_of 1) place (entry_of 1) → ⊥ }
{}

/// What cells said of a node counts only where that node was asked about for the place that is covered, and for no other before.
pub fn an_earlier_answer_covers_nothing()
    ensures { (b : Number) (e : Content) → IsCovered cluster (newest asked_before) (op_of 1) second b e 3 → ⊥ }
{}

/// A cell does not grant an epoch again that it let lapse.
pub fn a_lapsed_epoch_is_not_granted_again()
    ensures { asked_for cluster 1 lapsed 3 epoch ≡ Over epoch }
{}

/// A read through a position below that of an invalidate does not make the group valid, and one through it does.
pub fn a_validate_below_an_invalidate_is_refused()
    ensures below { refused_at cluster beaten group 4 epoch ≡ Some (Beaten (record { 0 = 5 })) }
    ensures through { refused_at cluster beaten group 5 epoch ≡ None }
{}

/// A position that a crash left open is completed by another's operation, at a ballot above zero, with the entry that was accepted.
pub fn a_position_completed_by_another()
    ensures lawful { Lawful cluster (newest completed) }
    ensures decided { Stands (Decide (number 3) group first (entry_of 1)) (newest completed) }
{}

/// A voter that promised a greater ballot does not accept a lower one.
pub fn a_promise_is_not_forgotten()
    ensures { Lawful cluster (newest forgotten) → ⊥ }
{}

/// Ballot zero goes to no other voter before the leader accepted.
pub fn zero_goes_to_the_leader_first()
    ensures { Lawful cluster (newest early) → ⊥ }
{}

/// An operation does not propose its own entry above a ballot at which another was chosen.
pub fn a_chosen_entry_is_carried()
    ensures { Lawful cluster (newest kept_own) → ⊥ }
{}

/// An operation whose promises report another's entry does not propose its own, whether that entry was chosen or not.
pub fn a_reported_entry_is_carried()
    ensures { Lawful cluster (newest passed_over) → ⊥ }
{}

/// What less than a majority accepted is not decided.
pub fn one_of_three_is_too_few()
    ensures { Lawful cluster (newest too_few) → ⊥ }
{}

/// A put that is decided stands in the log as what it comes to over the entries below: over none.
pub fn a_put_is_written()
    ensures written { LawfulWrites cluster asks_put (newest put_decided) }
    ensures decided { Stands (Decide (number 1) group first (entry_of 1)) (newest put_decided) }
{}

/// An operation does not propose another's entry as its own.
pub fn an_entry_is_its_operations_own()
    ensures { LawfulWrites cluster asks_put (newest not_its_own) → ⊥ }
{}

/// Of two operations that propose at one position the first is committed, and the second is told of a conflict: each answer has its cause.
pub fn a_rival_is_told()
    ensures answered { LawfulAnswers cluster asks_put (newest rivals) }
    ensures told { Stands (Answer (op_of 2) (Conflict first (Some (op_of 1)))) (newest rivals) }
{}

/// No operation is told that it is committed before its entry is decided.
pub fn committed_waits_for_the_decide()
    ensures { LawfulAnswers cluster asks_put (newest told_too_soon) → ⊥ }
{}

/// An operation that begins after a decision polls two voters, and hears of the position.
pub fn a_poll_after_a_decision()
    ensures written { LawfulWrites cluster asks_put (newest polled) }
    ensures polls { ArePolls (newest polled) }
    ensures after { StoodBefore (Decide (number 1) group first (entry_of 1)) (Begin (op_of 2) []) (newest polled) }
    ensures heard { IsPolled cluster (newest polled) (op_of 2) group first }
{}
