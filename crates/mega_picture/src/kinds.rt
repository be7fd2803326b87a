//! The words of nodes' kinds and of messages' kinds, and the colours of positions.
ghost use Rattle.std.specs.Prelude.{◌≡◌};
ghost use Rattle.mega_picture.specs.Kinds.{node_word, kind_of, kind_name, position_of, tone_of};

use mega_base::NodeKind;
use mega_wire::Body;

/// The word of a node's kind.
pub fn node_word(kind: NodeKind) -> &'static str
    ensures { result.now ≡ node_word kind }
{
    match kind {
        NodeKind::Full => "full",
        NodeKind::Witness => "witness",
        NodeKind::Read => "read",
    }
}

/// The kind of a message.
#[derive(Clone, Copy, Drop)]
pub enum Kind {
    Where,
    Top,
    Accept,
    Accepted,
    Refused,
    Prepare,
    Promise,
    Invalidate,
    Invalidated,
    Dead,
    Held,
    Unheld,
    Decide,
    Fetch,
    Have,
    HaveNot,
    Acquire,
    Granted,
    Past,
    Request,
    Reply,
}

/// The kind of what a message says.
pub fn kind_of(body: &Body) -> Kind
    ensures { result ≡ kind_of body.now }
{
    match body {
        Body::Where { .. } => Kind::Where,
        Body::Top { .. } => Kind::Top,
        Body::Accept { .. } => Kind::Accept,
        Body::Accepted { .. } => Kind::Accepted,
        Body::Refused { .. } => Kind::Refused,
        Body::Prepare { .. } => Kind::Prepare,
        Body::Promise { .. } => Kind::Promise,
        Body::Invalidate { .. } => Kind::Invalidate,
        Body::Invalidated { .. } => Kind::Invalidated,
        Body::Dead { .. } => Kind::Dead,
        Body::Held { .. } => Kind::Held,
        Body::Unheld { .. } => Kind::Unheld,
        Body::Decide { .. } => Kind::Decide,
        Body::Fetch { .. } => Kind::Fetch,
        Body::Have { .. } => Kind::Have,
        Body::HaveNot { .. } => Kind::HaveNot,
        Body::Acquire { .. } => Kind::Acquire,
        Body::Granted { .. } => Kind::Granted,
        Body::Past { .. } => Kind::Past,
        Body::Request { .. } => Kind::Request,
        Body::Reply { .. } => Kind::Reply,
    }
}

/// The name of a kind of messages.
pub fn kind_name(kind: Kind) -> &'static str
    ensures { result.now ≡ kind_name kind }
{
    match kind {
        Kind::Where => "where",
        Kind::Top => "top",
        Kind::Accept => "accept",
        Kind::Accepted => "accepted",
        Kind::Refused => "refused",
        Kind::Prepare => "prepare",
        Kind::Promise => "promise",
        Kind::Invalidate => "invalidate",
        Kind::Invalidated => "invalidated",
        Kind::Dead => "dead",
        Kind::Held => "held",
        Kind::Unheld => "unheld",
        Kind::Decide => "decide",
        Kind::Fetch => "fetch",
        Kind::Have => "have",
        Kind::HaveNot => "havenot",
        Kind::Acquire => "acquire",
        Kind::Granted => "granted",
        Kind::Past => "past",
        Kind::Request => "request",
        Kind::Reply => "reply",
    }
}

/// The position that a message is about, 0 for none.
pub fn position_of(body: &Body) -> u64
    ensures { result ≡ position_of body.now }
{
    match body {
        Body::Top { position, .. } => position.0,
        Body::Accept { position, .. } => position.0,
        Body::Accepted { position, .. } => position.0,
        Body::Refused { position, .. } => position.0,
        Body::Prepare { position, .. } => position.0,
        Body::Promise { position, .. } => position.0,
        Body::Invalidate { position, .. } => position.0,
        Body::Invalidated { position, .. } => position.0,
        Body::Decide { position, .. } => position.0,
        Body::Fetch { position, .. } => position.0,
        Body::Have { position, .. } => position.0,
        Body::HaveNot { position, .. } => position.0,
        _ => 0,
    }
}

/// How many colours positions have, in turn.
const COLOURS: u64 = 12;

/// The number of a position's colour: 1 to 12, and 0 for no position.
pub fn tone_of(position: u64) -> u64
    ensures { result ≡ tone_of position }
{
    if position == 0 {
        0
    } else {
        (position - 1) % COLOURS + 1
    }
}
