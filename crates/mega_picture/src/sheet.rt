//! The measures of a page.
ghost use Rattle.std.specs.Prelude.{◌≡◌, ◌≤◌};
ghost use Rattle.mega_picture.specs.Sheets.{step};

/// Where the first step stands, below the names of the lanes.
const TOP: u64 = 66;

/// How far two steps are apart.
const STEP: u64 = 22;

/// After how many steps one is left free, for the names of the lanes.
pub const NAMED: u32 = 40;

/// Where the lane of the first node stands, and that of clients.
const FIRST_LANE: u64 = 148;

const CLIENT_LANE: u64 = 66;

/// What is left below the last step.
const FOOT: u64 = 34;

/// What is left beside a label, and how wide its letters are.
const MARGIN: u64 = 24;

const LETTER: u64 = 7;

/// How many bytes of a page the titles of all its steps may take, and of how many steps a page has room for titles at least.
const TITLES: u64 = 800_000;

const FEW: u32 = 60;

/// The measures of a page: how many nodes it has lanes for, and how many steps.
#[derive(Clone, Copy, Drop)]
pub struct Sheet {
    pub nodes: u8,
    pub steps: u32,
}

/// Where a step stands.
#[tactic(auto, unfolding(crate::specs::Sheets::step))]
pub fn step(row: u32) -> u64
    ensures value { result ≡ step row }
    ensures bound { result ≤ 281474976710656 }
{
    TOP + (u64::from(row) + u64::from(row / NAMED)) * STEP
}

impl Sheet {
    ghost use Rattle.mega_picture.specs.Sheets.{gap, lane, width, foot, height, label_room, title_room};

    /// How far two lanes are apart.
    pub fn gap(self) -> u64
        ensures value { result ≡ gap self }
        ensures bound { result ≤ 272 }
    {
        if self.nodes <= 3 {
            272
        } else if self.nodes <= 5 {
            236
        } else {
            204
        }
    }

    /// Where the lane of a node stands; 0 stands for clients.
    #[tactic(auto, unfolding(crate::specs::Sheets::lane))]
    pub fn lane(self, node: u8) -> u64
        ensures value { result ≡ lane self node }
        ensures bound { result ≤ 100000 }
    {
        if node == 0 {
            return CLIENT_LANE;
        }
        FIRST_LANE + u64::from(node - 1) * self.gap()
    }

    /// How wide the page is.
    #[tactic(auto, unfolding(crate::specs::Sheets::width))]
    pub fn width(self) -> u64
        ensures { result ≡ width self }
    {
        FIRST_LANE + u64::from(self.nodes) * self.gap()
    }

    /// Where the lanes end.
    pub fn foot(self) -> u64
        ensures value { result ≡ foot self }
        ensures bound { result ≤ 281474976710656 }
    {
        step(self.steps)
    }

    /// How high the page is, with so many lines below the lanes.
    pub fn height(self, notes: u32) -> u64
        ensures { result ≡ height self notes }
    {
        self.foot() + FOOT + u64::from(notes) * STEP
    }

    /// How many bytes of a label there is room for beside a lane.
    #[tactic(auto, unfolding(crate::specs::Sheets::label_room))]
    pub fn label_room(self) -> usize
        ensures { result ≡ label_room self }
    {
        ((self.gap() - MARGIN) / LETTER) as usize
    }

    /// How many bytes of the page a title has room for.
    #[tactic(auto, unfolding(crate::specs::Sheets::title_room))]
    pub fn title_room(self) -> usize
        ensures { result ≡ title_room self }
    {
        (TITLES / u64::from(self.steps.max(FEW))) as usize
    }
}
