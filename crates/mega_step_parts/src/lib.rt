//! The parts of a node's step in which its open operations do not act: which kinds of node vote and keep rows, what operations hear of a
//! message, what is decided, replied, noted, kept and fetched, and the groups of which a step may apply more (Lamport 2001; CIDR 2011).
#![tactic(auto)]

mod applying;
mod deciding;
mod event;
mod fetching;
mod hearing;
mod joining;
mod keeping;
mod listening;
mod note;
mod replying;
mod spreading;
mod step;
mod storing;
mod touching;

pub use applying::{Before, apply_notes, positions};
pub use deciding::{Chosen, decides, decision, note_decision};
pub use event::Event;
pub use fetching::background;
pub use hearing::all_hear;
pub use joining::{add_sends, joined};
pub use keeping::{as_notes, both, keep_notes, tell_all_sent};
pub use listening::Listeners;
pub use mega_kinds::{has_rows, is_voter, kind_of, missing_kind};
pub use mega_step_choices::{is_to_compact, is_to_spill};
pub use mega_step_work;
pub use mega_step_work::{mega_leases, mega_operations, mega_voter};
pub use note::Note;
pub use replying::{own_reply, reply_message};
pub use spreading::news_by;
pub use step::Step;
pub use storing::{store_portions, stores};
pub use touching::{begun_groups, behind_among, touched};
