//! Why a change is not begun.
ghost use Rattle.mega_schedule.specs.Verdicts.{judged};
ghost use Rattle.mega_two_driver.specs.Answers.{GivesOrReason};

use mega_base::NoMemory;
use mega_schedule::Verdict;

/// Why a change is not begun: the line or the schema has a fault of this number, or memory ran out.
#[derive(Debug, Drop)]
pub enum TwoFault {
    Refused { reason: u8 },
    NoMemory,
}

impl From<NoMemory> for TwoFault {
    ghost use Rattle.std.specs.Prelude.{◌≡◌};
    ghost use Rattle.mega_two_driver.specs.declared.fault.TwoFault.TheVariants.{NoMemory as OutOfMemory};

    ghost from_gives = { λ _ fault. fault ≡ OutOfMemory };

    fn from(_refused: NoMemory) -> TwoFault {
        TwoFault::NoMemory
    }
}

/// The reason for which a line with this verdict is refused.
pub(crate) fn judge(verdict: Verdict) -> Result<(), TwoFault>
    ensures { GivesOrReason result (judged verdict tt) }
{
    let reason = match verdict {
        Verdict::Missing => 3,
        Verdict::Extra => 6,
        Verdict::WrongKind => 4,
        Verdict::OutOfRange => 5,
        Verdict::Fine => return Ok(()),
    };
    Err(TwoFault::Refused { reason })
}
