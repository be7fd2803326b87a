//! What is wrong with a line, of which the first by rank is told.
ghost use Rattle.std.specs.Prelude.{◌≡◌};
ghost use Rattle.mega_schedule.specs.Verdicts.{◌⊓◌, judged};
ghost use Rattle.mega_schedule.specs.Answers.{GivesOrReason};

use crate::world_event::LineFault;

/// What is wrong with a line or a part of it, what is told first standing before the others.
#[derive(Clone, Copy, PartialEq, Eq, Debug, Drop)]
pub enum Verdict {
    Missing,
    Extra,
    WrongKind,
    OutOfRange,
    Fine,
}

impl Verdict {
    /// The one of the two that is told.
    pub fn and(self, other: Verdict) -> Verdict
        ensures { result ≡ self ⊓ other }
    {
        match (self, other) {
            (Verdict::Missing, _) | (_, Verdict::Missing) => Verdict::Missing,
            (Verdict::Extra, _) | (_, Verdict::Extra) => Verdict::Extra,
            (Verdict::WrongKind, _) | (_, Verdict::WrongKind) => Verdict::WrongKind,
            (Verdict::OutOfRange, _) | (_, Verdict::OutOfRange) => Verdict::OutOfRange,
            (Verdict::Fine, Verdict::Fine) => Verdict::Fine,
        }
    }

    /// The reason for which a line with this verdict is refused.
    pub(crate) fn judge(self) -> Result<(), LineFault>
        ensures { GivesOrReason result (judged self tt) }
    {
        let reason = match self {
            Verdict::Missing => 3,
            Verdict::Extra => 6,
            Verdict::WrongKind => 4,
            Verdict::OutOfRange => 5,
            Verdict::Fine => return Ok(()),
        };
        Err(LineFault::Refused { reason })
    }
}
