//! A node of the world starts again, or its log's fuse cuts the start off.
ghost use Rattle.std.specs.Prelude.{◌≡◌, ◌≢◌, ◌≤◌, ◌-◌, ℕ, List, length, set, IfNone, IfOk, OnOk, Err, Option, Some, None, true, false, ◌++◌};
ghost use Rattle.std.specs.Prelude.{All};
ghost use Rattle.mega_cluster.specs.declared.cluster.Cluster.{Cluster as ClusterValue};
ghost use Rattle.mega_places.specs.of_durable.of_core.Served.{IsServed};
ghost use Rattle.mega_places.specs.of_handler.Named.{Meaning, Meanings};
ghost use Rattle.mega_places.specs.of_voter.of_rules.Members.{is_node};
ghost use Rattle.mega_places.specs.of_promises.of_schedule.declared.world_event.WorldEvent.TheVariants as event;
ghost use Rattle.mega_places.specs.of_promises.of_transcript.declared.item.Item.{Item as OnTape};
ghost use Rattle.mega_places.specs.of_promises.of_transcript.Lines.{HasLine};
ghost use Rattle.mega_places.specs.of_promises.Runs.{Standing, after_event, by_fuse, refusal};
ghost use Rattle.mega_places.specs.declared.fault.WorldFault.TheVariants.{Limit, Refused};
ghost use Rattle.mega_places.specs.declared.place.Place.{Place as PlaceValue};
ghost use Rattle.mega_places.specs.Kept.{AreNodes, IsFallen};
ghost use Rattle.mega_places.specs.Members.{AreMembers, is_up_at};
ghost use Rattle.mega_world.specs.Restarting.{AreStartable, OpensOr, Reopens};
ghost use Rattle.mega_places.specs.Starting.{AtEachFallen, IsStartable};
ghost use Rattle.mega_world.specs.Formed.{IsFormed};
ghost use Rattle.mega_world.specs.AtRun.{StandsWith, IsDue, MayCome};
ghost use Rattle.mega_world.specs.Last.{IsPastLast};

use crate::world::World;
use mega_base::{Copied, Items, NodeId};
use mega_cluster::Cluster;
use mega_places::mega_durable::Cut;
use mega_places::mega_durable::mega_core::mega_step_parts::Note;
use mega_places::mega_transcript::{Item, Tape};
use mega_places::{
    Begun, Fallen, NotBegun, Place, WorldFault, is_node, is_up, put_place, take_place,
};
use std::alloc::Global;

/// What a start shows: its number, what it owed, and what it applied.
#[derive(Drop)]
pub struct Shown {
    pub(crate) start: u32,
    pub(crate) owed: Option<Cut>,
    pub(crate) notes: Items<Note>,
}

/// Why a node does not start: 6, there is no such node; 2, it is up.
fn refusal(places: &[Place], node: NodeId) -> Option<u8>
    ensures least { IfNone result (1 ≤ node.0) }
    ensures most { IfNone result (node.0 ≤ length places.now) }
    ensures down { IfNone result (is_up_at places.now node.0 ≡ false) }
    ensures value { (c : ClusterValue) (now : Standing) → AreMembers c places.now now.node → result ≡ refusal c now (event.Start node) }
{
    if !is_node(places.len(), node.0) {
        return Some(6);
    }
    if is_up(places, node.0) {
        return Some(2);
    }
    None
}

/// A node that is down as this starts in the place of its number, and this is shown; or its log's fuse cuts the start off.
fn restarted(
    alloc: Global,
    places: &mut Vec<Place>,
    cluster: Cluster,
    me: u8,
    fallen: Fallen,
) -> Result<Option<Shown>, WorldFault>
    requires least { 1 ≤ me }
    requires most { me ≤ length places.old.items }
    requires served { IsServed cluster }
    requires member { is_node cluster me ≡ true }
    requires known { IsStartable cluster me fallen }
    ensures reopens { IfOk result (λ shown. (now : Standing) (was : List PlaceValue) → AreNodes cluster was now → me ≤ length was → ((place : PlaceValue) → set places.old.items (me - 1) place ≡ set was (me - 1) place) →
        IsFallen cluster me fallen (now.starts me) (now.owed me) (now.node me).met (now.log_fuse me) → OpensOr cluster now me places.new.items shown) }
    ensures limit { result ≡ Err Limit → AtEachFallen cluster me fallen (λ starts owed met fuse. starts ≡ 4294967295) }
    ensures served { (why : ℕ) → result ≢ Err (Refused why) }
{
    match fallen.start(alloc, cluster, me) {
        Ok(begun) => {
            let Begun {
                member,
                start,
                owed,
                notes,
            } = begun;
            put_place(places, me, Place::Up(member));
            Ok(Some(Shown { start, owed, notes }))
        }
        Err(NotBegun::Cut(fallen)) => {
            put_place(places, me, Place::Down(fallen));
            Ok(None)
        }
        Err(NotBegun::Limit) => Err(WorldFault::Limit),
        Err(NotBegun::NoMemory) => Err(WorldFault::NoMemory),
    }
}

/// The node of a number, which is down, starts, and this is shown; or its log's fuse cuts the start off.
fn start_at(
    alloc: Global,
    places: &mut Vec<Place>,
    cluster: Cluster,
    me: u8,
) -> Result<Option<Shown>, WorldFault>
    requires least { 1 ≤ me }
    requires most { me ≤ length places.old.items }
    requires down { is_up_at places.old.items me ≡ false }
    requires served { IsServed cluster }
    requires member { is_node cluster me ≡ true }
    requires known { AreStartable cluster places.old.items }
    ensures reopens { IfOk result (λ shown. Reopens cluster me places.old.items places.new.items shown) }
    ensures limit { result ≡ Err Limit → (now : Standing) → AreNodes cluster places.old.items now → now.starts me ≡ 4294967295 }
    ensures served { (why : ℕ) → result ≢ Err (Refused why) }
{
    match take_place(alloc, places, me) {
        Place::Down(fallen) => match restarted(alloc, places, cluster, me, fallen) {
            Ok(shown) => Ok(shown),
            Err(fault) => Err(fault),
        },
        Place::Up(_) => unreachable!(),
    }
}

impl World {
    /// A node starts again, unless that is refused.
    pub(crate) fn start(
        &mut self,
        alloc: Global,
        node: NodeId,
        tape: &mut Tape,
    ) -> Result<(), WorldFault>
        requires known { (makes : List ℕ → Option Meaning) × MayCome makes self.old tape.old.items (event.Start node) }
        ensures state { OnOk result ((c : ClusterValue) (h : Meanings) (earlier : List OnTape) (now : Standing) → StandsWith c self.old (earlier ++ tape.old.items) now →
            StandsWith c self.new (earlier ++ tape.new.items) (after_event c h by_fuse now (event.Start node))) }
        ensures lines { OnOk result ((c : ClusterValue) (earlier : List OnTape) (now : Standing) → StandsWith c self.old (earlier ++ tape.old.items) now → IsFormed now → All HasLine tape.old.items → All HasLine tape.new.items) }
        ensures happens { OnOk result ((c : ClusterValue) (items : List OnTape) (now : Standing) → StandsWith c self.old items now → refusal c now (event.Start node) ≡ None) }
        ensures refused { (why : ℕ) → result ≡ Err (Refused why) → (c : ClusterValue) (items : List OnTape) (now : Standing) → StandsWith c self.old items now → refusal c now (event.Start node) ≡ Some why }
        ensures world { (why : ℕ) → result ≡ Err (Refused why) → self.new ≡ self.old }
        ensures limit { result ≡ Err Limit → (c : ClusterValue) (items : List OnTape) (now : Standing) → StandsWith c self.old items now → IsPastLast c now (event.Start node) }
    {
        match refusal(self.places.as_slice(), node) {
            Some(why) => Err(WorldFault::Refused { why }),
            None => self.starts(alloc, node, tape),
        }
    }

    /// A node that is down starts again.
    fn starts(&mut self, alloc: Global, node: NodeId, tape: &mut Tape) -> Result<(), WorldFault>
        requires least { 1 ≤ node.0 }
        requires most { node.0 ≤ length self.old.places.items }
        requires down { is_up_at self.old.places.items node.0 ≡ false }
        requires known { (makes : List ℕ → Option Meaning) × IsDue makes self.old tape.old.items (event.Start node) }
        ensures state { OnOk result ((c : ClusterValue) (h : Meanings) (earlier : List OnTape) (now : Standing) → StandsWith c self.old (earlier ++ tape.old.items) now →
            StandsWith c self.new (earlier ++ tape.new.items) (after_event c h by_fuse now (event.Start node))) }
        ensures lines { OnOk result ((c : ClusterValue) (earlier : List OnTape) (now : Standing) → StandsWith c self.old (earlier ++ tape.old.items) now → IsFormed now → All HasLine tape.old.items → All HasLine tape.new.items) }
        ensures served { (why : ℕ) → result ≢ Err (Refused why) }
        ensures limit { result ≡ Err Limit → (c : ClusterValue) (items : List OnTape) (now : Standing) → StandsWith c self.old items now → now.starts node.0 ≡ 4294967295 }
    {
        let cluster = self.cluster.copy(alloc)?;
        match start_at(alloc, &mut self.places, cluster, node.0) {
            Ok(Some(shown)) => {
                self.show_start(node.0, shown, tape)?;
                Ok(())
            }
            Ok(None) => {
                tape.items.push(Item::Crash { node })?;
                Ok(())
            }
            Err(fault) => Err(fault),
        }
    }
}
