//! What of a node is left that is down, as it stands in memory or on its device.
ghost use Rattle.mega_places.specs.Fusing.{FusesRemains};

use mega_disk::{MemRecords, Records};
use mega_durable::Down;
use mega_rows::VersionedRows;

/// Between two steps the logs and rows of a node, which its next start goes on with. A step or a start that was cut off leaves
/// the records alone, which its next start opens again.
#[derive(Drop)]
pub enum Remains {
    InMemory(Down<MemRecords, VersionedRows>),
    OnDisk(MemRecords),
}

impl Remains {
    /// Sets a fuse on the device below the log.
    pub fn fuse(&mut self, calls: u64, image: u8)
        ensures { FusesRemains calls image self.old self.new }
    {
        match self {
            Remains::InMemory(down) => down.fuse(calls, image),
            Remains::OnDisk(records) => records.fuse(calls, image),
        }
    }
}
