//! Tapes that the laws refuse, as contracts of functions that do nothing.

ghost use Rattle.std.specs.Prelude.{◌≡◌, false};
ghost use Rattle.mega_valid_laws.specs.of_settled_laws.of_tape_laws.of_transcript.Tape.{newest};
ghost use Rattle.mega_valid_laws.specs.Leases.{AreLeased};
ghost use Rattle.mega_valid_laws.specs.of_settled_laws.Covering.{AreSettled, OwnSettled};
ghost use Rattle.mega_valid_laws.specs.of_settled_laws.of_tape_laws.of_promises.Fresh.{IsFresh};
ghost use Rattle.mega_valid_laws.specs.of_settled_laws.of_tape_laws.of_promises.Messages.{is_unsafe};
ghost use Rattle.mega_valid_laws.specs.of_settled_laws.of_tape_laws.Answers.{LawfulAnswers};
ghost use Rattle.mega_valid_laws.specs.of_settled_laws.of_tape_laws.Examples.{asks_put, first, put_decided};
ghost use Rattle.mega_valid_laws.specs.of_settled_laws.of_tape_laws.of_rules.Examples.{cluster, op_of};
ghost use Rattle.mega_witness_laws.specs.Tapes.{committed_uncovered, covered_before, first_covered, missed, polled_across, put_then_read, valid_across};

/// While leases are safe no current read misses an entry that was decided before it began, although what it shows is the front of the log, and all else is
/// allowed.
pub fn a_read_that_misses_a_decided_put_is_refused()
    ensures refused { IsFresh cluster put_then_read.meaning (newest missed) → ⊥ }
    ensures safe { is_unsafe (newest missed) ≡ false }
    ensures lawful { LawfulAnswers cluster put_then_read (newest missed) }
{}

/// A group does not become valid by answers to what was asked while an earlier epoch of its node served, although all else that came across is allowed.
pub fn a_validate_across_an_epoch_is_refused()
    ensures refused { AreLeased cluster (newest valid_across) → ⊥ }
    ensures leased { AreLeased cluster (newest polled_across) }
{}

/// What cells said of a node covers it at the position for which they were asked, and not at the next one of the same operation.
pub fn an_unheld_of_an_earlier_position_is_refused()
    ensures refused { AreSettled cluster (newest covered_before) → ⊥ }
    ensures settled { AreSettled cluster (newest first_covered) }
{}

/// No operation is told that it is committed while one full node is not covered: its entry is decided, but not settled, although all else about that answer is
/// allowed.
pub fn a_committed_with_one_node_uncovered_is_refused()
    ensures refused { AreSettled cluster (newest committed_uncovered) → ⊥ }
    ensures cause { OwnSettled cluster (newest put_decided) (op_of 1) first → ⊥ }
    ensures lawful { LawfulAnswers cluster asks_put (newest committed_uncovered) }
{}
