//! Files of two areas: where their pages stand, which area counts, how long a file is, and writes into an area.
#![tactic(auto)]

mod area;
mod counting;
mod writing;

pub use area::{Area, Areas, Form, MAX_LENGTH, PAGE, length_of_pages, pages_for};
pub use counting::{counts, generation_of, is_areas, is_open};
pub use writing::{add_page, set_byte, stage, zeros};
