//! What a step gives.
use crate::note::Note;
use mega_base::Items;
use mega_wire::Message;

/// What a step gives: what the node notes, and then what it sends, each in order.
#[derive(Debug, Drop)]
pub struct Step {
    pub notes: Items<Note>,
    pub sends: Items<Message>,
}
