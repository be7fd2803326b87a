//! Why a line of a transcript is not read.
ghost use Rattle.std.specs.Prelude.{◌≡◌};
ghost use Rattle.mega_transcript_reader.specs.declared.fault.Refusal.TheVariants.{NoMemory as Refused};

use std::alloc::{AllocError, AllocFailed};

/// Why a line is not read.
#[derive(Clone, Copy, PartialEq, Eq, Debug, Drop)]
pub enum ItemFault {
    /// It is the line of no plain item: `at` is the offset of the word that is refused, or of the first
    /// byte that differs from the line of the item that the words were taken for.
    NotItem { at: u64 },
    /// An allocation was refused.
    NoMemory,
}

/// Why a word is not read.
#[derive(Clone, Copy, Drop)]
pub(crate) enum Refusal {
    /// So many bytes are left from the first of the word on.
    Word { left: u64 },
    NoMemory,
}

/// How a text compares with a line.
#[derive(Clone, Copy, Drop)]
pub(crate) enum Found {
    Same,
    /// The offset of the first byte that differs.
    Differs { at: u64 },
    NoMemory,
}

impl From<mega_base::NoMemory> for Refusal {
    ghost from_gives = { λ _ refusal. refusal ≡ Refused };

    fn from(_refused: mega_base::NoMemory) -> Refusal {
        Refusal::NoMemory
    }
}

impl From<AllocError> for Refusal {
    ghost from_gives = { λ _ refusal. refusal ≡ Refused };

    fn from(_refused: AllocError) -> Refusal {
        Refusal::NoMemory
    }
}

impl<T: Drop> From<AllocFailed<T>> for Refusal {
    ghost from_gives = { λ _ refusal. refusal ≡ Refused };

    fn from(_refused: AllocFailed<T>) -> Refusal {
        Refusal::NoMemory
    }
}
