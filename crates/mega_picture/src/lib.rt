//! A picture of a run: the items of a transcript as one page of SVG, time downwards, a lane for each node.
#![tactic(auto)]

mod arrow_names;
mod arrow_texts;
mod arrows;
mod bands;
mod drawable;
mod escape;
mod groups;
mod item_line;
mod journeys;
mod kinds;
mod labels;
mod mark_texts;
mod marks;
mod page;
mod page_notes;
mod sheet;
mod style;
mod validity;

pub use drawable::{Flaw, flaw_of};
pub use item_line::{ItemLine, MOST};
pub use page::put_page;
