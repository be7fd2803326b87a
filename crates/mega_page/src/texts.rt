//! The words of the record's own lines.
ghost use Rattle.std.specs.Prelude.{◌≡◌, ◌≤◌, ◌++◌, ◌∷◌, [], length, decimal, OnOk};
ghost use Rattle.hex.specs.Hex.{encode_lower};
ghost use Rattle.mega_page.specs.Lines.{datagram_line, peer_of, peer_text};

use itoa::Buffer;
use mega_base::{Bytes, NoMemory};
use mega_link::Peer;

/// How many bytes are spelled in hex at once.
const PART: usize = 64;

/// Appends the decimal digits of a number.
pub fn put_digits(out: &mut Bytes, number: u64) -> Result<(), NoMemory>
    ensures { OnOk result (out.new ≡ out.old ++ decimal number) }
{
    let mut buffer = Buffer::new();
    out.extend_from_slice(buffer.format(number).as_bytes())?;
    Ok(())
}

/// Appends a space and a word.
pub fn put_word(out: &mut Bytes, word: &[u8]) -> Result<(), NoMemory>
    ensures { OnOk result (out.new ≡ out.old ++ 32 ∷ word.now) }
{
    out.push(b' ')?;
    out.extend_from_slice(word)?;
    Ok(())
}

/// Appends a space and a number.
pub fn put_number(out: &mut Bytes, number: u64) -> Result<(), NoMemory>
    ensures { OnOk result (out.new ≡ out.old ++ 32 ∷ decimal number) }
{
    out.push(b' ')?;
    put_digits(out, number)?;
    Ok(())
}

/// Appends at most 64 bytes in lower-case hex.
fn put_part(out: &mut Bytes, bytes: &[u8]) -> Result<(), NoMemory>
    requires { length bytes.now ≤ 64 }
    ensures { OnOk result (out.new ≡ out.old ++ encode_lower bytes.now) }
{
    let mut digits = [0u8; 2 * PART];
    let (spelled, _rest) = digits.split_at_mut(2 * bytes.len());
    match hex::encode_to_slice(bytes, spelled) {
        Ok(()) => {
            out.extend_from_slice(spelled)?;
            Ok(())
        }
        Err(_) => Err(NoMemory),
    }
}

/// Appends bytes in lower-case hex, with no text of their own in between.
fn put_hex(out: &mut Bytes, bytes: &[u8]) -> Result<(), NoMemory>
    ensures { OnOk result (out.new ≡ out.old ++ encode_lower bytes.now) }
{
    let mut rest = bytes;
    while !rest.is_empty() {
        let (front, behind) = rest.split_at(rest.len().min(PART));
        put_part(out, front)?;
        rest = behind;
    }
    Ok(())
}

/// Appends who is at the other end.
fn put_peer(out: &mut Bytes, peer: Peer) -> Result<(), NoMemory>
    ensures { OnOk result (out.new ≡ out.old ++ peer_text (peer_of peer)) }
{
    match peer {
        Peer::Node(node) => {
            put_number(out, u64::from(node.0))?;
            Ok(())
        }
        Peer::Client(client) => {
            put_word(out, b"client")?;
            put_number(out, u64::from(client))?;
            Ok(())
        }
    }
}

/// Appends the line of a datagram that came from a peer or goes to it, behind its word.
pub(crate) fn put_datagram(
    word: &[u8],
    peer: Peer,
    bytes: &[u8],
    out: &mut Bytes,
) -> Result<(), NoMemory>
    ensures { OnOk result (out.new ≡ out.old ++ datagram_line word.now (peer_of peer) bytes.now) }
{
    out.extend_from_slice(word)?;
    put_peer(out, peer)?;
    out.push(b' ')?;
    put_hex(out, bytes)?;
    out.push(b'\n')?;
    Ok(())
}
