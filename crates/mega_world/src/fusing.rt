//! A fuse is set on a device of a node.
ghost use Rattle.std.specs.Prelude.{◌≡◌, ◌≢◌, ◌≤◌, ◌-◌, ℕ, List, length, slice_get, IfNone, OnOk, Err, Some, None};
ghost use Rattle.mega_cluster.specs.declared.cluster.Cluster.{Cluster};
ghost use Rattle.mega_disk.specs.declared.pair.Device.{Device as DeviceValue};
ghost use Rattle.mega_places.specs.of_handler.Named.{Meanings};
ghost use Rattle.mega_places.specs.of_promises.of_schedule.declared.world_event.WorldEvent.TheVariants as event;
ghost use Rattle.mega_places.specs.of_promises.of_transcript.declared.item.Item.{Item as OnTape};
ghost use Rattle.mega_places.specs.of_promises.Runs.{Standing, after_event, by_fuse, refusal};
ghost use Rattle.mega_places.specs.declared.fault.WorldFault.TheVariants.{Limit, Refused};
ghost use Rattle.mega_places.specs.declared.place.Place.{Place as PlaceValue};
ghost use Rattle.mega_places.specs.Fusing.{SetsFuse, SetsFuseAt};
ghost use Rattle.mega_places.specs.Members.{AreMembers};
ghost use Rattle.mega_world.specs.AtRun.{StandsWith};

use crate::world::World;
use mega_base::NodeId;
use mega_disk::Device;
use mega_places::{Place, WorldFault, is_node};

/// Why no fuse is set: 6, there is no such node.
fn refusal(places: &[Place], node: NodeId) -> Option<u8>
    ensures least { IfNone result (1 ≤ node.0) }
    ensures most { IfNone result (node.0 ≤ length places.now) }
    ensures value { (c : Cluster) (now : Standing) (calls image : ℕ) (device : DeviceValue) → AreMembers c places.now now.node → result ≡ refusal c now (event.Fuse node calls image device) }
{
    if !is_node(places.len(), node.0) {
        return Some(6);
    }
    None
}

/// A fuse is set on the log of the node in a place.
fn set_fuse(place: &mut Place, calls: u64, image: u8)
    ensures { SetsFuse calls image place.old place.new }
{
    match place {
        Place::Up(member) => member.set_fuse(calls, image),
        Place::Down(fallen) => fallen.set_fuse(calls, image),
    }
}

/// A fuse is set on the log of the node of a number.
fn fuse_at(places: &mut Vec<Place>, me: u8, calls: u64, image: u8)
    requires least { 1 ≤ me }
    requires most { me ≤ length places.old.items }
    ensures { (was : PlaceValue) → slice_get places.old.items (me - 1) ≡ Some was → SetsFuseAt calls image places.old.items (me - 1) was places.new.items }
{
    set_fuse(&mut places[usize::from(me) - 1], calls, image);
}

impl World {
    /// A fuse is set on a device of a node, unless that is refused; one on the rows never burns.
    pub(crate) fn fuse(
        &mut self,
        node: NodeId,
        calls: u64,
        image: u8,
        device: Device,
    ) -> Result<(), WorldFault>
        ensures state { OnOk result ((c : Cluster) (h : Meanings) (items : List OnTape) (now : Standing) → StandsWith c self.old items now → StandsWith c self.new items (after_event c h by_fuse now (event.Fuse node calls image device))) }
        ensures happens { OnOk result ((c : Cluster) (items : List OnTape) (now : Standing) → StandsWith c self.old items now → refusal c now (event.Fuse node calls image device) ≡ None) }
        ensures refused { (why : ℕ) → result ≡ Err (Refused why) → (c : Cluster) (items : List OnTape) (now : Standing) → StandsWith c self.old items now → refusal c now (event.Fuse node calls image device) ≡ Some why }
        ensures world { (why : ℕ) → result ≡ Err (Refused why) → self.new ≡ self.old }
        ensures limited { result ≢ Err Limit }
    {
        match refusal(self.places.as_slice(), node) {
            Some(why) => Err(WorldFault::Refused { why }),
            None => {
                self.fuses(node, calls, image, device);
                Ok(())
            }
        }
    }

    /// A fuse is set on a device of a node that is there.
    fn fuses(&mut self, node: NodeId, calls: u64, image: u8, device: Device)
        requires least { 1 ≤ node.0 }
        requires most { node.0 ≤ length self.old.places.items }
        ensures state { (c : Cluster) (h : Meanings) (items : List OnTape) (now : Standing) → StandsWith c self.old items now → StandsWith c self.new items (after_event c h by_fuse now (event.Fuse node calls image device)) }
    {
        match device {
            Device::Log => fuse_at(&mut self.places, node.0, calls, image),
            Device::Data => {}
        }
    }
}
