//! What a node notes in a step.
use mega_base::GroupId;
use mega_entry::Entry;
use mega_step_work::{Answered, Valid};

/// What a node notes in a step.
#[derive(Debug, Drop)]
pub enum Note {
    /// A note of its lock cell or its coordinator.
    OfLeases(mega_step_work::mega_leases::LeaseNote),
    /// A position of a group is decided.
    Decided {
        group: GroupId,
        position: u64,
        entry: Entry,
    },
    /// All entries of a group through a position are applied.
    Applied {
        group: GroupId,
        position: u64,
    },
    /// A group became valid at its coordinator.
    MadeValid(Valid),
    /// An operation ended.
    Answered(Answered),
}
