//! Why no page is written.
use crate::refusal::Refusal;

/// Why no page is written.
#[derive(Clone, Copy, Drop)]
pub enum Stop {
    /// The input has no page.
    Refused { refusal: Refusal },
    /// A call of the source failed.
    Source,
    /// A call of the sink failed.
    Sink,
    /// An allocation was refused.
    NoMemory,
}
