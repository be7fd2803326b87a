//! The messages of a client: the request that it sends, and the reply that it waits for.
ghost use Rattle.std.specs.Prelude.{◌≡◌, IfOk, option_map};
ghost use Rattle.mega_base.specs.Reading.{whole_of};
ghost use Rattle.mega_wire.specs.Messages.{message_at, message_text};
ghost use Rattle.mega_two_turns.specs.Messages.{reply_from, reply_of, reply_read, request_of, request_text, text_under};

use mega_base::{Bytes, Copied, FieldFault, NoMemory};
use mega_link::Peer;
use mega_well_formed::is_message;
use mega_wire::{Body, Message, decode, encode};
use std::alloc::Global;

/// The message by which a client asks a node.
fn request_of(node: u8, token: u64, json: Bytes) -> Message
    ensures { result ≡ request_of node token json }
{
    Message {
        from: 0,
        to: node,
        body: Body::Request { token, json },
    }
}

/// The text of a message. One that is none of the format, as one to no node, has none.
fn message_text(alloc: Global, message: &Message) -> Result<Bytes, NoMemory>
    ensures { IfOk result (λ text. text ≡ message_text message.now) }
{
    if !is_message(message) {
        return Err(NoMemory);
    }
    let mut text = Bytes::new(alloc);
    encode(message, &mut text)?;
    Ok(text)
}

/// The text of the message by which a client asks a node.
pub(crate) fn request_text(
    alloc: Global,
    node: u8,
    token: u64,
    json: &[u8],
) -> Result<Bytes, NoMemory>
    ensures { IfOk result (λ text. text ≡ request_text node token json.now) }
{
    let json = Bytes::from_slice(alloc, json)?;
    let message = request_of(node, token, json);
    message_text(alloc, &message)
}

fn text_under(token: u64, body: &Body) -> Option<&Bytes>
    ensures { option_map (λ text. text.now) result ≡ text_under token body.now }
{
    match body {
        Body::Reply { token: other, text } => { if *other == token { Some(text) } else { None } }
        _ => None,
    }
}

/// The text of a message, where it is the reply of this node under this token.
fn reply_of(node: u8, token: u64, message: &Message) -> Option<&Bytes>
    ensures { option_map (λ text. text.now) result ≡ reply_of node token message.now }
{
    if message.from == node {
        text_under(token, &message.body)
    } else {
        None
    }
}

fn copied(alloc: Global, text: Option<&Bytes>) -> Result<Option<Bytes>, NoMemory>
    ensures { IfOk result (λ copy. copy ≡ option_map (λ text. text.now) text.entry) }
{
    match text {
        Some(text) => Ok(Some(text.copy(alloc)?)),
        None => Ok(None),
    }
}

fn reply_read(alloc: Global, node: u8, token: u64, bytes: &[u8]) -> Result<Option<Bytes>, NoMemory>
    ensures { IfOk result (λ text. text ≡ reply_read node token (whole_of message_at bytes.now)) }
{
    match decode(alloc, bytes) {
        Ok(message) => copied(alloc, reply_of(node, token, &message)),
        Err(FieldFault::Malformed { .. }) => Ok(None),
        Err(FieldFault::NoMemory) => Err(NoMemory),
    }
}

/// The text of the reply of this node under this token, where a datagram is that.
pub(crate) fn reply_from(
    alloc: Global,
    node: u8,
    token: u64,
    peer: Peer,
    bytes: &[u8],
) -> Result<Option<Bytes>, NoMemory>
    ensures { IfOk result (λ text. text ≡ reply_from node token peer bytes.now) }
{
    match peer {
        Peer::Node(id) => {
            if id.0 == node {
                reply_read(alloc, node, token, bytes)
            } else {
                Ok(None)
            }
        }
        Peer::Client(_) => Ok(None),
    }
}
