//! The parts of a world: its nodes, up and down, in their places, and the messages between them.
#![tactic(auto)]

mod fallen;
mod fault;
mod judging;
mod log_fuse;
mod mail;
mod mail_order;
mod mail_refusals;
mod member;
mod not_made;
mod place;
mod places;
mod remains;
mod starting;
mod stepping;

pub use fallen::Fallen;
pub use fault::WorldFault;
pub use judging::breaks_first;
pub use log_fuse::LogFuse;
pub use mail::Mail;
pub use mega_durable;
pub use mega_meanings;
pub use mega_outcome;
pub use mega_safety::{Lapse, Safety, keep_lapses};
pub use mega_schedule;
pub use mega_transcript;
pub use member::Member;
pub use not_made::NotMade;
pub use place::Place;
pub use places::{is_node, is_up, member_of, put_place, take_down, take_place};
pub use remains::Remains;
pub use starting::{Begun, NotBegun};
pub use stepping::{Stepped, begin_at, step_at};
