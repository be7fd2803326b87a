//! A node of the world makes the step of an event: it is whole, or its log's fuse cuts it off.
ghost use Rattle.std.specs.Prelude.{◌≡◌, ◌≢◌, ◌⊎◌, ◌≤◌, ◌-◌, ℕ, List, true, false, length, set, IfOk, Err};
ghost use Rattle.mega_cluster.specs.declared.cluster.Cluster.{Cluster};
ghost use Rattle.mega_handler.specs.Named.{Meanings};
ghost use Rattle.mega_rules.specs.Steps.{Begin, Event as RuleEvent, op_of};
ghost use Rattle.mega_durable.specs.of_core.of_step_parts.Events.{event_of};
ghost use Rattle.mega_rules.specs.Clock.{is_up};
ghost use Rattle.mega_promises.specs.Runs.{Standing, setting};
ghost use Rattle.mega_places.specs.declared.fault.WorldFault.{WorldFault as FaultValue};
ghost use Rattle.mega_places.specs.declared.fault.WorldFault.TheVariants.{Limit, Refused};
ghost use Rattle.mega_places.specs.declared.member.Member.{Member as MemberValue};
ghost use Rattle.mega_places.specs.declared.not_made.NotMade.TheVariants as not_made;
ghost use Rattle.mega_places.specs.declared.place.Place.{Place as PlaceValue};
ghost use Rattle.mega_places.specs.declared.place.Place.TheVariants.{Up};
ghost use Rattle.mega_places.specs.Kept.{AreNodes};
ghost use Rattle.mega_places.specs.Members.{is_up_at};
ghost use Rattle.mega_places.specs.Stepping.{AtEachRun, Comes, IsRunning, Outcome};

use crate::fault::WorldFault;
use crate::not_made::NotMade;
use crate::place::Place;
use crate::places::cut_down;
use mega_base::{OpId, Text};
use mega_durable::mega_core::mega_step_parts::{Event, Step};
use mega_meanings::QueueHandlers;
use mega_outcome::Request;
use std::alloc::Global;

/// What became of a step of a node.
#[derive(Drop)]
pub enum Stepped {
    /// The node made it.
    Made(Step),
    /// Its log's fuse cut it off, and the node is down.
    Cut,
}

/// What becomes of a step that the node of a number, which is up, made or did not make.
fn settled(
    alloc: Global,
    places: &mut Vec<Place>,
    me: u8,
    made: Result<Step, NotMade>,
) -> Result<Stepped, WorldFault>
    requires least { 1 ≤ me }
    requires most { me ≤ length places.old.items }
    ensures comes { IfOk result (λ one. (c : Cluster) (h : Meanings) (now : Standing) (event : RuleEvent) (was : List PlaceValue) (member : MemberValue) → AreNodes c was now → is_up (now.node me).met ≡ true → me ≤ length was →
        places.old.items ≡ set was (me - 1) (Up member) → Outcome c h me (now.node me) event (now.log_fuse me) member made → Comes c h now me event places.new.items one) }
    ensures fault { (fault : FaultValue) → result ≡ Err fault → made ≡ Err (not_made.Fault fault) }
{
    match made {
        Ok(step) => Ok(Stepped::Made(step)),
        Err(NotMade::Fault(fault)) => Err(fault),
        Err(NotMade::Cut(cut)) => {
            cut_down(alloc, places, me, cut);
            Ok(Stepped::Cut)
        }
    }
}

/// A node that is up makes the step of an event.
pub fn step_at<H: QueueHandlers>(
    alloc: Global,
    handlers: &mut H,
    places: &mut Vec<Place>,
    me: u8,
    event: Event<'_>,
) -> Result<Stepped, WorldFault>
    requires least { 1 ≤ me }
    requires most { me ≤ length places.old.items }
    requires up { is_up_at places.old.items me ≡ true }
    requires known { IsRunning (H.meant handlers.old) places.old.items me (event_of event) }
    ensures made { IfOk result (λ one. AtEachRun (H.meant handlers.old) places.old.items me (event_of event.entry) (λ c h now. Comes c h now me (event_of event.entry) places.new.items one)) }
    ensures handlers { H.meant handlers.new ≡ H.meant handlers.old }
    ensures served { (why : ℕ) → result ≢ Err (Refused why) }
    ensures limited { result ≢ Err Limit }
{
    match &mut places[usize::from(me) - 1] {
        Place::Up(member) => {
            let made = member.step(alloc, handlers, event);
            match settled(alloc, places, me, made) {
                Ok(one) => Ok(one),
                Err(fault) => Err(fault),
            }
        }
        Place::Down(_) => unreachable!(),
    }
}

/// The id of the operation that begins next at a node that is up.
fn op_at(places: &[Place], me: u8) -> OpId
    requires least { 1 ≤ me }
    requires most { me ≤ length places.now }
    requires up { is_up_at places.now me ≡ true }
    ensures { (c : Cluster) (h : Meanings) (now : Standing) → AreNodes c places.now now → result ≡ op_of (setting c h me) (now.node me).met }
{
    match &places[usize::from(me) - 1] {
        Place::Up(member) => member.up.next_op(),
        Place::Down(_) => unreachable!(),
    }
}

/// An operation begins at a node that is up, under this id.
pub fn begin_at<H: QueueHandlers>(
    alloc: Global,
    handlers: &mut H,
    places: &mut Vec<Place>,
    me: u8,
    request: Request,
    text: &Text,
) -> Result<(OpId, Stepped), WorldFault>
    requires least { 1 ≤ me }
    requires most { me ≤ length places.old.items }
    requires up { is_up_at places.old.items me ≡ true }
    requires known { IsRunning (H.meant handlers.old) places.old.items me (Begin request text.now) }
    ensures id { IfOk result (λ begun. (c : Cluster) (h : Meanings) (now : Standing) → AreNodes c places.old.items now → begun.0 ≡ op_of (setting c h me) (now.node me).met) }
    ensures made { IfOk result (λ begun. AtEachRun (H.meant handlers.old) places.old.items me (Begin request text.now) (λ c h now. Comes c h now me (Begin request text.now) places.new.items begun.1)) }
    ensures handlers { H.meant handlers.new ≡ H.meant handlers.old }
    ensures served { (why : ℕ) → result ≢ Err (Refused why) }
    ensures limited { result ≢ Err Limit }
{
    let op = op_at(places.as_slice(), me);
    match step_at(alloc, handlers, places, me, Event::Begin(request, text)) {
        Ok(one) => Ok((op, one)),
        Err(fault) => Err(fault),
    }
}
