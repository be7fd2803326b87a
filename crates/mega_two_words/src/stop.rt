//! Why a run of the word `two` is cut off.
ghost use Rattle.std.specs.Prelude.{◌≡◌};

use mega_base::NoMemory;

/// Why a run ends without a last line.
#[derive(Clone, Copy, PartialEq, Debug, Drop)]
pub enum Stop {
    /// A call of the source failed.
    Source,
    /// The link was not bound.
    Link,
    /// An allocation was refused.
    NoMemory,
}

impl From<NoMemory> for Stop {
    ghost use Rattle.std.specs.Prelude.{◌≡◌};
    ghost use Rattle.mega_two_words.specs.declared.stop.Stop.TheVariants.{NoMemory as OutOfMemory};

    ghost from_gives = { λ _ stop. stop ≡ OutOfMemory };

    fn from(_refused: NoMemory) -> Stop {
        Stop::NoMemory
    }
}

impl Stop {
    ghost use Rattle.mega_two_words.specs.Endings.{stop_status};

    /// The status with which the program ends.
    pub(crate) fn status(self) -> u8
        ensures { result ≡ stop_status self }
    {
        match self {
            Stop::Source => 5,
            Stop::Link => 9,
            Stop::NoMemory => 8,
        }
    }
}
