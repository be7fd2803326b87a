//! What a node makes a step of.
use mega_base::Text;
use mega_outcome::Request;
use mega_wire::Message;

/// An event at a node, of which it makes one step.
#[derive(Debug, Drop)]
pub enum Event<'a> {
    /// The node takes a message.
    Take(&'a Message),
    /// An operation begins at the node; the text is its request.
    Begin(Request, &'a Text),
    /// The node's clock shows this, in milliseconds.
    Tick(u64),
}
