//! A world begins: all nodes start for the first time, with nothing on their devices.
ghost use Rattle.std.specs.Prelude.{◌≡◌, ◌++◌, ◌∷◌, [], length, true, IfOk, OnOk, OnErr, Err};
ghost use Rattle.std.specs.Prelude.{All};
ghost use Rattle.mega_places.specs.of_handler.Named.{Meanings};
ghost use Rattle.mega_places.specs.of_promises.of_transcript.Lines.{HasLine};
ghost use Rattle.mega_places.specs.of_promises.of_transcript.Tape.{newest};
ghost use Rattle.mega_places.specs.of_durable.of_core.Served.{IsServed};
ghost use Rattle.mega_places.specs.of_voter.of_rules.Members.{is_node};
ghost use Rattle.mega_places.specs.of_promises.Runs.{opening};
ghost use Rattle.mega_places.specs.declared.fault.WorldFault.TheVariants.{NoMemory as OutOfMemory};
ghost use Rattle.mega_places.specs.declared.place.Place.TheVariants.{Up};
ghost use Rattle.mega_world.specs.Opening.{AreStarted, IsFirst, first_starts};
ghost use Rattle.mega_world.specs.AtRun.{IsAt};

use crate::world::World;
use mega_base::{Copied, NoMemory, NodeId};
use mega_cluster::Cluster;
use mega_disk::MemRecords;
use mega_places::mega_transcript::{Item, Tape};
use mega_places::{Begun, Fallen, Mail, Member, Place, Remains, Safety, WorldFault};
use std::alloc::Global;

/// A node of a cluster at its first start, over logs and rows in memory that hold nothing.
fn started(alloc: Global, cluster: &Cluster, me: u8) -> Result<Member, WorldFault>
    requires served { IsServed cluster.now }
    requires member { is_node cluster.now me ≡ true }
    ensures node { IfOk result (λ member. (h : Meanings) → IsFirst cluster.now h me member) }
    ensures only { OnErr result (result ≡ Err OutOfMemory) }
{
    let own = cluster.copy(alloc)?;
    let nothing = Fallen {
        remains: Remains::OnDisk(MemRecords::new(alloc)),
        fuse: None,
        owed: None,
    };
    match nothing.start(alloc, own, me) {
        Ok(begun) => {
            let Begun { member, .. } = begun;
            Ok(member)
        }
        Err(_refused) => Err(WorldFault::NoMemory),
    }
}

/// A node that is up takes its place behind these.
fn add(places: &mut Vec<Place>, node: Member) -> Result<(), NoMemory>
    ensures { OnOk result (places.new.items ≡ places.old.items ++ Up node ∷ []) }
{
    places.push(Place::Up(node))?;
    Ok(())
}

/// Starts all nodes of a cluster, in order, and puts their starts on the tape.
fn start_all(alloc: Global, cluster: &Cluster, tape: &mut Tape) -> Result<Vec<Place>, WorldFault>
    requires tape { tape.old.items ≡ [] }
    requires served { IsServed cluster.now }
    ensures count { IfOk result (λ places. length places.items ≡ length cluster.now.nodes) }
    ensures nodes { IfOk result (λ places. AreStarted cluster.now places.items) }
    ensures tape { OnOk result (newest tape.new.items ≡ first_starts (length cluster.now.nodes)) }
    ensures lines { OnOk result (All HasLine tape.new.items) }
    ensures only { OnErr result (result ≡ Err OutOfMemory) }
{
    let mut places = Vec::new(alloc);
    let count = cluster.nodes.len() as u8;
    for before in 0..count {
        let me = before + 1;
        let node = match started(alloc, cluster, me) {
            Ok(node) => node,
            Err(fault) => return Err(fault),
        };
        add(&mut places, node)?;
        tape.items.push(Item::Start {
            node: NodeId(me),
            start: 1,
        })?;
    }
    Ok(places)
}

impl World {
    /// A cluster, of nodes of any kinds, all started for the first time on empty disks, with their starts on the tape, which is empty before.
    pub fn new(alloc: Global, cluster: &Cluster, tape: &mut Tape) -> Result<World, WorldFault>
        requires tape { tape.old.items ≡ [] }
        requires served { IsServed cluster.now }
        ensures state { IfOk result (λ world. (h : Meanings) → IsAt cluster.now world (opening cluster.now h)) }
        ensures tape { OnOk result ((h : Meanings) → newest tape.new.items ≡ (opening cluster.now h).tape) }
        ensures lines { OnOk result (All HasLine tape.new.items) }
        ensures only { OnErr result (result ≡ Err OutOfMemory) }
    {
        let own = cluster.copy(alloc)?;
        let places = match start_all(alloc, cluster, tape) {
            Ok(places) => places,
            Err(fault) => return Err(fault),
        };
        Ok(World {
            cluster: own,
            places,
            mail: Mail::new(alloc),
            safety: Safety::new(alloc),
        })
    }
}
