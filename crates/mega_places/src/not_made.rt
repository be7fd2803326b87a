//! Why a node of a world did not make a step.
use crate::fault::WorldFault;
use mega_durable::Cut;

/// Why a node did not make a step.
#[derive(Drop)]
pub enum NotMade {
    /// Its log's fuse cut the step off; this is owed where its record was kept.
    Cut(Cut),
    /// The world refused the event, met a limit, or ran out of memory.
    Fault(WorldFault),
}
