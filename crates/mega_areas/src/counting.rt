//! Which of the two areas of a file counts, by their gates and generations.
ghost use Rattle.std.specs.Prelude.{◌≡◌, ◌≤◌, length};
ghost use Rattle.mega_areas.specs.Pages.{counts, generation_of, is_areas, is_open};

use crate::area::{Area, PAGE};
use byteorder::{BigEndian, ByteOrder};

/// Whether the bytes are those of a file of areas.
pub fn is_areas(bytes: &[u8]) -> bool
    ensures { result ≡ is_areas bytes.now }
{
    bytes.len() >= 12288
        && bytes[0] != 0
        && bytes[1] == 0x47
        && bytes[2] == 0x41
        && bytes[3] == 0x32
}

/// Whether the gate of the area is open.
pub fn is_open(bytes: &[u8], area: Area) -> bool
    requires { 12288 ≤ length bytes.now }
    ensures { result ≡ is_open area bytes.now }
{
    bytes[(PAGE * area.first_page()) as usize] == 1
}

/// The generation of the area.
#[tactic(auto, unfolding(crate::specs::Pages::generation_of))]
pub fn generation_of(bytes: &[u8], area: Area) -> u64
    requires { 12288 ≤ length bytes.now }
    ensures { result ≡ generation_of area bytes.now }
{
    let at = (PAGE * area.first_page()) as usize;
    BigEndian::read_u64(&bytes[at + 1..])
}

/// Whether the area counts.
pub fn counts(bytes: &[u8], area: Area) -> bool
    requires { 12288 ≤ length bytes.now }
    ensures { result ≡ counts area bytes.now }
{
    if !is_open(bytes, area) {
        return false;
    }
    let other = area.other();
    if !is_open(bytes, other) {
        return true;
    }
    let (mine, others) = (generation_of(bytes, area), generation_of(bytes, other));
    match area {
        Area::Odd => others <= mine,
        Area::Even => others < mine,
    }
}
