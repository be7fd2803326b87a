//! Laws of who sends to whom: a node that took only messages between nodes of its cluster sends only such messages. So no message
//! goes to a receiver that is no node. No code stands here.
#![tactic(auto)]

pub mod laws;
