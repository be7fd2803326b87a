//! The marks of items: where each stands, and what shape it has.
ghost use Rattle.std.specs.Prelude.{◌≡◌};
ghost use Rattle.std.specs.Option.{option_copied};
ghost use Rattle.mega_picture.specs.Rows.{Follows};
ghost use Rattle.mega_picture.specs.Marks.{word_of, side_of, arrival_of, on_lane, across, taken_mark, dropped_mark, arrival_at, mark_of};

use crate::item_line::ItemLine;
use crate::journeys::{Journeys, message_at};
use mega_transcript::Item;
use mega_wire::Message;

/// The shape of a mark.
#[derive(Clone, Copy, Drop)]
pub enum Shape {
    Start,
    Unsent,
    Tick,
    Begin,
    Taken,
    LostLeft,
    LostRight,
    Grant,
    Lapse,
    Counts,
    Forgets,
    Serving,
    Lost,
    Valid,
    Invalid,
    Decide,
    Apply,
    Answer,
    Crash,
    Cut,
    Unsafe,
}

/// The name of a shape in a page.
pub fn word_of(shape: Shape) -> &'static str
    ensures { result.now ≡ word_of shape }
{
    match shape {
        Shape::Start => "start",
        Shape::Unsent => "unsent",
        Shape::Tick => "tick",
        Shape::Begin => "begin",
        Shape::Taken => "taken",
        Shape::LostLeft => "lost-left",
        Shape::LostRight => "lost-right",
        Shape::Grant => "grant",
        Shape::Lapse => "lapse",
        Shape::Counts => "counts",
        Shape::Forgets => "forgets",
        Shape::Serving => "serving",
        Shape::Lost => "lost",
        Shape::Valid => "valid",
        Shape::Invalid => "invalid",
        Shape::Decide => "decide",
        Shape::Apply => "apply",
        Shape::Answer => "answer",
        Shape::Crash => "crash",
        Shape::Cut => "cut",
        Shape::Unsafe => "unsafe",
    }
}

/// Where a mark stands.
#[derive(Clone, Copy, Drop)]
pub enum Place {
    /// On the lane of a node, with its label to the right of it.
    Right { node: u8 },
    /// On the lane of a node, with its label to the left of it.
    Left { node: u8 },
    /// Across all lanes.
    Across,
}

/// The mark of an item. A position 0 is none.
#[derive(Clone, Copy, Drop)]
pub struct Mark {
    pub place: Place,
    pub shape: Shape,
    pub position: u64,
}

/// On the lane of a message's receiver, with the label away from the sender.
fn side_of(message: &Message) -> Place
    ensures { result ≡ side_of message.now }
{
    if message.to < message.from {
        Place::Left { node: message.to }
    } else {
        Place::Right { node: message.to }
    }
}

/// Where the mark of a message stands that comes to its receiver, or does not.
fn arrival_of(message: Option<&Message>) -> Place
    ensures { result ≡ arrival_of (option_copied message.entry) }
{
    match message {
        Some(message) => side_of(message),
        None => Place::Across,
    }
}

/// A mark on the lane of a node.
fn on_lane(node: u8, shape: Shape, position: u64) -> Mark
    ensures { result ≡ on_lane node shape position }
{
    Mark {
        place: Place::Right { node },
        shape,
        position,
    }
}

/// A mark across all lanes.
fn across(shape: Shape) -> Mark
    ensures { result ≡ across shape }
{
    Mark {
        place: Place::Across,
        shape,
        position: 0,
    }
}

/// The mark of a message that is taken.
fn taken_mark(place: Place) -> Mark
    ensures { result ≡ taken_mark place }
{
    Mark {
        place,
        shape: Shape::Taken,
        position: 0,
    }
}

/// The mark of a message that is dropped: a cross before its receiver's lane.
fn dropped_mark(place: Place) -> Mark
    ensures { result ≡ dropped_mark place }
{
    match place {
        Place::Left { .. } => Mark {
            place,
            shape: Shape::LostRight,
            position: 0,
        },
        Place::Right { .. } => Mark {
            place,
            shape: Shape::LostLeft,
            position: 0,
        },
        Place::Across => across(Shape::LostLeft),
    }
}

/// Where the mark of a message by its number stands.
fn arrival_at(journeys: &Journeys, told: &[ItemLine], number: u64) -> Place
    requires { Follows journeys.now told.now }
    ensures { result ≡ arrival_at told.now number }
{
    arrival_of(message_at(told, journeys.sent(number)))
}

/// The mark of an item; a message that is sent has its arrow instead.
pub fn mark_of(journeys: &Journeys, told: &[ItemLine], item: &Item) -> Option<Mark>
    requires { Follows journeys.now told.now }
    ensures { result ≡ mark_of told.now item.now }
{
    match item {
        Item::Sent { .. } => None,
        Item::Taken { number } => Some(taken_mark(arrival_at(journeys, told, *number))),
        Item::Dropped { number } => Some(dropped_mark(arrival_at(journeys, told, *number))),
        Item::Start { node, .. } => Some(on_lane(node.0, Shape::Start, 0)),
        Item::Unsent { node, .. } => Some(on_lane(node.0, Shape::Unsent, 0)),
        Item::Tick { node, .. } => Some(on_lane(node.0, Shape::Tick, 0)),
        Item::Begin { op, .. } => Some(on_lane(op.node.0, Shape::Begin, 0)),
        Item::Grant { cell, .. } => Some(on_lane(*cell, Shape::Grant, 0)),
        Item::Lapse { cell, .. } => Some(on_lane(*cell, Shape::Lapse, 0)),
        Item::Counts { node, .. } => Some(on_lane(node.0, Shape::Counts, 0)),
        Item::Forgets { node, .. } => Some(on_lane(node.0, Shape::Forgets, 0)),
        Item::Serving { node, .. } => Some(on_lane(node.0, Shape::Serving, 0)),
        Item::Lost { node, .. } => Some(on_lane(node.0, Shape::Lost, 0)),
        Item::Valid { node, .. } => Some(on_lane(node.0, Shape::Valid, 0)),
        Item::Invalid { node, .. } => Some(on_lane(node.0, Shape::Invalid, 0)),
        Item::Decide { node, position, .. } => Some(on_lane(node.0, Shape::Decide, position.0)),
        Item::Apply { node, position, .. } => Some(on_lane(node.0, Shape::Apply, position.0)),
        Item::Answer { op, .. } => Some(on_lane(op.node.0, Shape::Answer, 0)),
        Item::Crash { node } => Some(on_lane(node.0, Shape::Crash, 0)),
        Item::Cut => Some(across(Shape::Cut)),
        Item::Unsafe => Some(across(Shape::Unsafe)),
    }
}
