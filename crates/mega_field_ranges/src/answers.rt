//! Answers: the rows, finds, marks and reasons that they show.
ghost use Rattle.mega_field_ranges.specs.Held.{HoldsAnswer, HoldsFound, HoldsResult, HoldsShown, HoldsTurn};
ghost use Rattle.mega_transcript.specs.PlainAnswers.{IsPlainOther};
ghost use Rattle.mega_transcript.specs.PlainRows.{IsHeldMark};

use crate::held::{Held, hold_both};
use crate::values::hold_text;
use mega_base::{Items, OpId};
use mega_outcome::mega_index::Found;
use mega_outcome::{Answer, Mark, Shown, Turn};

impl Held for Option<Shown> {
    ghost holds = { HoldsShown };

    fn hold(&self) {
        match self {
            None => {}
            Some(shown) => {
                shown.table.hold();
                shown.row.hold();
            }
        }
    }
}

impl Held for Found {
    ghost holds = { HoldsFound };

    fn hold(&self) {
        self.table.hold();
        self.key.hold();
        self.stored.hold();
    }
}

impl Held for Turn {
    ghost holds = { HoldsTurn };

    fn hold(&self) {
        match self {
            Turn::OtherGroup { item } => item.hold(),
            Turn::BadRow { item } => item.hold(),
            Turn::CheckFailed { item } => item.hold(),
            Turn::NoRow { item } => item.hold(),
            Turn::Overflow { item } => item.hold(),
            Turn::TooLarge { bytes } => bytes.hold(),
            Turn::DiskFault => {}
            Turn::Full { .. } => {}
            Turn::BadRecord { .. } => {}
            Turn::NoMemory => {}
        }
    }
}

impl Held for Result<Items<Option<Shown>>, Turn> {
    ghost holds = { HoldsResult };

    fn hold(&self) {
        match self {
            Ok(replies) => replies.hold(),
            Err(turn) => turn.hold(),
        }
    }
}

impl Held for Mark {
    ghost holds = { IsHeldMark };

    fn hold(&self) {
        self.group.hold();
        self.position.hold();
    }
}

impl Held for Option<OpId> {
    ghost holds = { IsPlainOther };

    fn hold(&self) {
        match self {
            None => {}
            Some(op) => op.hold(),
        }
    }
}

impl Held for Answer {
    ghost holds = { HoldsAnswer };

    fn hold(&self) {
        match self {
            Answer::Committed { position, replies } => hold_both(position, replies),
            Answer::Conflict { position, other } => hold_both(position, other),
            Answer::Turned(turn) => turn.hold(),
            Answer::Unknown => {}
            Answer::TimedOut => {}
            Answer::Read { position, rows } => hold_both(position, rows),
            Answer::Found { marks, rows } => hold_both(marks, rows),
            Answer::Refreshed { marks } => marks.hold(),
            Answer::LogFull { position } => position.hold(),
            Answer::Busy { count } => count.hold(),
            Answer::Worn => {}
            Answer::NotHere { .. } => {}
            Answer::NothingToDo { marks } => marks.hold(),
            Answer::NoHandler { queue } => hold_text(queue),
            Answer::Batched { position, results } => hold_both(position, results),
            Answer::AllTurned { results } => results.hold(),
        }
    }
}
