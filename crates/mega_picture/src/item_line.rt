//! A line of a transcript, and how many a page has at most.
use mega_base::Bytes;
use mega_transcript::Item;

/// The most items that a page has.
pub const MOST: usize = 4000;

/// A line of a transcript, without its line feed, and the item that it tells.
#[derive(Drop)]
pub struct ItemLine {
    pub line: Bytes,
    pub item: Item,
}
