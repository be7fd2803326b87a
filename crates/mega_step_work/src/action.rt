//! What an operation does that acts: what it sends, and whether it stays open or ends.
use mega_base::{Items, OpId};
use mega_operations::Operation;
use mega_outcome::Answer;
use mega_wire::Message;

/// Whether an operation that acted stays open.
#[derive(Debug, Drop)]
pub enum End {
    /// It stays open.
    Stays(Operation),
    /// It ends with this answer.
    Ends(OpId, Answer),
}

/// What an operation does that acts: what it sends, where it sends anything, and then whether it stays open.
#[derive(Debug, Drop)]
pub struct Action {
    pub sends: Option<Items<Message>>,
    pub end: End,
}
