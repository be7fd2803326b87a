//! The two areas of a file, and where their bytes stand in it.
ghost use Rattle.std.specs.Prelude.{◌≡◌, ◌<◌, ◌^◌};
ghost use Rattle.mega_areas.specs.Pages.{first_page, offset, other_of, pages_for, length_of_pages};
ghost use Rattle.mega_areas.specs.Forms.{is_due, length_replaced, length_with, limit_of, pages_of};

/// The bytes of a page.
pub const PAGE: u64 = 4096;

/// The length in bytes that no file passes.
pub const MAX_LENGTH: u64 = 1 << 40;

/// So many records behind the last replacement make the list due for the next.
const MANY: u64 = 4096;

/// An area, by its pages: 1, 3, 5 and so on, or 2, 4, 6 and so on.
#[derive(Clone, Copy, PartialEq, Eq, Debug, Drop)]
pub enum Area {
    Odd,
    Even,
}

/// A file of areas: the one that counts, its generation, the pages that each has, and whether the gate of the other is
/// open.
#[derive(Clone, Copy, PartialEq, Eq, Debug, Drop)]
pub struct Areas {
    pub active: Area,
    pub generation: u64,
    pub pages: u64,
    pub other_open: bool,
}

/// How a file keeps its records.
#[derive(Clone, Copy, PartialEq, Eq, Debug, Drop)]
pub enum Form {
    Chain,
    InAreas(Areas),
}

impl Area {
    pub fn other(self) -> Area
        ensures { result ≡ other_of self }
    {
        match self {
            Area::Odd => Area::Even,
            Area::Even => Area::Odd,
        }
    }

    /// The page with which the area begins.
    pub fn first_page(self) -> u64
        ensures { result ≡ first_page self }
    {
        match self {
            Area::Odd => 1,
            Area::Even => 2,
        }
    }

    /// Where a place of the area stands in the file.
    pub fn offset(self, place: u64) -> u64
        requires { place < 2 ^ 62 }
        ensures { result ≡ offset self place }
    {
        PAGE * (2 * (place / PAGE) + self.first_page()) + place % PAGE
    }
}

/// How many pages hold so many bytes.
pub fn pages_for(bytes: u64) -> u64
    requires { bytes < 2 ^ 63 }
    ensures { result ≡ pages_for bytes }
{
    (bytes + PAGE - 1) / PAGE
}

/// The length of a file with so many pages of each area.
pub fn length_of_pages(pages: u64) -> u64
    requires { pages < 2 ^ 51 }
    ensures { result ≡ length_of_pages pages }
{
    PAGE * (2 * pages + 1)
}

impl Form {
    /// The length of the file with a body of so many bytes behind the end.
    pub fn length_with(self, end: u64, size: u64) -> u64
        requires end { end < limit_of self }
        requires size { size < 2 ^ 32 }
        requires pages { pages_of self < 2 ^ 50 }
        ensures { result ≡ length_with self end size }
    {
        match self {
            Form::Chain => end + 6 + size,
            Form::InAreas(areas) => length_of_pages(areas.pages.max(pages_for(end + 15 + size))),
        }
    }

    /// The length of the file with a body of so many bytes in place of all.
    pub fn length_replaced(self, size: u64) -> u64
        requires size { size < 2 ^ 32 }
        requires pages { pages_of self < 2 ^ 50 }
        ensures { result ≡ length_replaced self size }
    {
        match self {
            Form::Chain => 0,
            Form::InAreas(areas) => length_of_pages(areas.pages.max(pages_for(15 + size))),
        }
    }

    /// Whether the list is to be replaced: enough records follow the last replacement, or stand there where there was
    /// none, and there is a next generation.
    pub fn is_due(self, count: u64) -> bool
        ensures { result ≡ is_due self count }
    {
        match self {
            Form::Chain => false,
            Form::InAreas(areas) => {
                let behind = if areas.generation <= 1 {
                    count
                } else {
                    count.saturating_sub(1)
                };
                areas.generation < u64::MAX && behind >= MANY
            }
        }
    }
}
