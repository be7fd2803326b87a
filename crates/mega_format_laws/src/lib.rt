//! Laws of the message format: a node that took only messages of the format sends only such messages, and decides only entries that the
//! format can hold. So a program may write each message and each entry as text, with no check when it runs. No code stands here.
#![tactic(auto)]

pub mod laws;
