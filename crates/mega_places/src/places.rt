//! The places of all nodes of a cluster, in order, asked by number.
ghost use Rattle.std.specs.Prelude.{◌≡◌, ◌≤◌, ◌-◌, Some, None, if◌then◌else◌, length, set, slice_get, true};
ghost use Rattle.std.specs.Option.{option_copied};
ghost use Rattle.mega_cluster.specs.declared.cluster.Cluster.{Cluster};
ghost use Rattle.mega_rules.specs.Members.{is_node};
ghost use Rattle.mega_promises.specs.Runs.{is_kept, left_by};
ghost use Rattle.mega_places.specs.declared.member.Member.{Member as MemberValue};
ghost use Rattle.mega_places.specs.declared.place.Place.{Place as PlaceValue};
ghost use Rattle.mega_places.specs.declared.place.Place.TheVariants.{Down, Up};
ghost use Rattle.mega_places.specs.declared.remains.Remains.TheVariants.{OnDisk};
ghost use Rattle.mega_places.specs.LogFuses.{run_fuse};
ghost use Rattle.mega_places.specs.Kept.{remains_of};
ghost use Rattle.mega_places.specs.Members.{is_up_at, member_in, member_of, records_of};

use crate::fallen::Fallen;
use crate::log_fuse::keeps_record;
use crate::member::Member;
use crate::place::Place;
use crate::remains::Remains;
use mega_disk::MemRecords;
use mega_durable::Cut;
use mega_verdicts::CutAt;
use std::alloc::Global;
use std::mem;

/// The node in a place, while it is up.
fn member_in(place: Option<&Place>) -> Option<&Member>
    ensures { option_copied result ≡ member_in (option_copied place.entry) }
{
    match place {
        Some(Place::Up(member)) => Some(member),
        Some(Place::Down(_)) => None,
        None => None,
    }
}

/// The node of a number, while it is up.
pub fn member_of(places: &[Place], me: usize) -> Option<&Member>
    ensures { option_copied result ≡ member_of places.now me }
{
    if me == 0 {
        return None;
    }
    member_in(places.get(me - 1))
}

/// Whether the node of a number is up.
pub fn is_up(places: &[Place], me: u8) -> bool
    ensures { result ≡ is_up_at places.now me }
{
    member_of(places, usize::from(me)).is_some()
}

/// Whether a node is one of so many.
pub fn is_node(nodes: usize, node: u8) -> bool
    ensures value { (c : Cluster) → length c.nodes ≡ nodes → result ≡ is_node c node }
    ensures least { result ≡ true → 1 ≤ node }
    ensures most { result ≡ true → node ≤ nodes }
{
    1 <= node && usize::from(node) <= nodes
}

/// What stands in a place of no node.
fn nobody(alloc: Global) -> Place {
    Place::Down(Fallen {
        remains: Remains::OnDisk(MemRecords::new(alloc)),
        fuse: None,
        owed: None,
    })
}

/// What stands in a place, of which nothing is left there.
pub fn take_place(alloc: Global, places: &mut Vec<Place>, me: u8) -> Place
    requires least { 1 ≤ me }
    requires most { me ≤ length places.old.items }
    ensures found { slice_get places.old.items (me - 1) ≡ Some result }
    ensures left { (place : PlaceValue) → set places.new.items (me - 1) place ≡ set places.old.items (me - 1) place }
    ensures count { length places.new.items ≡ length places.old.items }
{
    mem::replace(&mut places[usize::from(me) - 1], nobody(alloc))
}

/// Puts what stands there now into a place.
pub fn put_place(places: &mut Vec<Place>, me: u8, place: Place)
    requires least { 1 ≤ me }
    requires most { me ≤ length places.old.items }
    ensures { places.new.items ≡ set places.old.items (me - 1) place }
{
    let was = mem::replace(&mut places[usize::from(me) - 1], place);
    drop(was);
}

/// What a node leaves that goes down.
fn fallen(place: Place) -> Fallen
    ensures { (member : MemberValue) → place ≡ Up member → result ≡ record { remains = remains_of member; fuse = member.fuse; owed = None } }
{
    match place {
        Place::Up(member) => {
            let Member { up, fuse } = member;
            Fallen {
                remains: Remains::InMemory(up.crash()),
                fuse,
                owed: None,
            }
        }
        Place::Down(fallen) => fallen,
    }
}

/// What a node leaves whose step its log's fuse cut off: the fuse is burnt, and this is owed where it kept the step's record.
fn cut_off(place: Place, cut: Cut) -> Fallen
    ensures { (member : MemberValue) → place ≡ Up member → result ≡ record { remains = OnDisk (records_of member); fuse = None; owed = if is_kept (left_by (run_fuse member.fuse)) then Some cut else None } }
{
    match place {
        Place::Up(member) => {
            let Member { up, fuse } = member;
            let is_kept = keeps_record(fuse);
            Fallen {
                remains: Remains::OnDisk(up.close()),
                fuse: None,
                owed: CutAt::Step { is_kept, cut }.owes(),
            }
        }
        Place::Down(fallen) => fallen,
    }
}

/// The node of a number, which is up, goes down.
pub fn take_down(alloc: Global, places: &mut Vec<Place>, me: u8)
    requires least { 1 ≤ me }
    requires most { me ≤ length places.old.items }
    ensures { (member : MemberValue) → slice_get places.old.items (me - 1) ≡ Some (Up member) → places.new.items ≡ set places.old.items (me - 1) (Down (record { remains = remains_of member; fuse = member.fuse; owed = None })) }
{
    let place = take_place(alloc, places, me);
    put_place(places, me, Place::Down(fallen(place)));
}

/// The node of a number, whose step its log's fuse cut off, goes down.
pub(crate) fn cut_down(alloc: Global, places: &mut Vec<Place>, me: u8, cut: Cut)
    requires least { 1 ≤ me }
    requires most { me ≤ length places.old.items }
    ensures { (member : MemberValue) → slice_get places.old.items (me - 1) ≡ Some (Up member) →
        places.new.items ≡ set places.old.items (me - 1) (Down (record { remains = OnDisk (records_of member); fuse = None; owed = if is_kept (left_by (run_fuse member.fuse)) then Some cut else None })) }
{
    let place = take_place(alloc, places, me);
    put_place(places, me, Place::Down(cut_off(place, cut)));
}
