//! The header at the front of an input, up to the line `---` or the end, and the cluster that it describes.
#![tactic(auto)]

mod heading;
mod text;

pub use heading::{Heading, HeadingFault, read_heading};
