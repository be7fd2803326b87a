//! Whether a coordinator counts a cell under an epoch.

ghost use Rattle.std.specs.Prelude.{◌≡◌, List};
ghost use Rattle.mega_rules.specs.Met.{Met};
ghost use Rattle.mega_leases.specs.Counting.{counts_at, is_epoch};
ghost use Rattle.mega_leases.specs.Tells.{Tells};

use crate::leases::Leases;
use crate::noting::is_marked;
use mega_base::Epoch;

/// Whether this is the present epoch.
fn is_epoch(present: Option<Epoch>, epoch: Epoch) -> bool
    ensures { result ≡ is_epoch present epoch }
{
    match present {
        Some(present) => present.start == epoch.start && present.count == epoch.count,
        None => false,
    }
}

impl Leases {
    /// Whether the coordinator counts a cell, in this as its present epoch.
    pub fn counts(&self, cell: u8, epoch: Epoch) -> bool
        ensures { (c me : _) (met : List Met) → Tells c me self.now met → result ≡ counts_at c met cell epoch }
    {
        is_epoch(self.coordinator.epoch(), epoch) && is_marked(&self.coordinator.counted(), cell)
    }
}
