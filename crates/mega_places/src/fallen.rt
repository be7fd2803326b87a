//! What a node of a world left that is down.
ghost use Rattle.std.specs.Prelude.{◌≡◌, ℕ, List, Option};
ghost use Rattle.mega_cluster.specs.declared.cluster.Cluster.{Cluster};
ghost use Rattle.mega_rules.specs.Met.{Met};
ghost use Rattle.mega_promises.specs.Runs.{Fuse, new_fuse};
ghost use Rattle.mega_places.specs.Kept.{IsFallen};

use crate::log_fuse::LogFuse;
use crate::remains::Remains;
use mega_durable::Cut;

/// What a node left that is down: its logs and rows or its records, the fuse that is set on these, and what its next start owes
/// to a step that was cut off after its record was kept.
#[derive(Drop)]
pub struct Fallen {
    pub remains: Remains,
    pub fuse: Option<LogFuse>,
    pub owed: Option<Cut>,
}

impl Fallen {
    /// A fuse is set on the log of the node.
    pub fn set_fuse(&mut self, calls: u64, image: u8)
        ensures { (c : Cluster) (me starts : ℕ) (owed met : List Met) (fuse : Option Fuse) → IsFallen c me self.old starts owed met fuse → IsFallen c me self.new starts owed met (new_fuse calls image) }
    {
        self.remains.fuse(calls, image);
        self.fuse = Some(LogFuse {
            calls,
            image,
            appended: 0,
        });
    }
}
