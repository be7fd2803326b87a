//! Reads a line of a transcript back into its item, so that a text of lines tells its tape.
#![tactic(auto)]

mod answer_kinds;
mod fault;
mod kinds;
mod laws;
mod named;
mod parsing;
mod reading;
mod reading_answers;
mod reading_finds;
mod reading_items;
mod reading_json;
mod reading_marks;
mod reading_results;
mod reading_rows;
mod reading_texts;
mod reading_values;

pub use fault::ItemFault;
pub use laws::text_tells_tape;
pub use parsing::parse;
