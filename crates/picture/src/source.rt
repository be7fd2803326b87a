//! Reads the whole input.
ghost use Rattle.std.specs.Prelude.{◌≡◌, ◌≤◌, ◌<◌, ◌⊎◌, Ok, Err, IfOk, IfErr, false, length};
ghost use Rattle.std.specs.Io.KnownBytes.{Keeps, IsAtEnd, prepend_known};
ghost use Rattle.mega_base.specs.Causes.{Rose};
ghost use Rattle.picture.specs.Known.{IsWhole};

use crate::stop::Stop;
use mega_base::Bytes;
use mega_io::Source;
use std::alloc::Global;

/// How many bytes are read at once.
const CHUNK: usize = 65_536;

/// Room for a piece of the input.
fn room(alloc: Global) -> Result<Vec<u8>, Stop>
    ensures room { IfOk result (λ chunk. 0 < length chunk.items) }
    ensures only { IfErr result (λ stop. stop ≡ Stop.NoMemory) }
{
    match vec![in alloc; 0u8; CHUNK] {
        Ok(chunk) => Ok(chunk),
        Err(_) => Err(Stop::NoMemory),
    }
}

/// Reads the next piece of the input behind the text, and tells whether the input goes on.
#[tactic(auto, using(crate::proofs::Pieces::grown))]
fn read_piece<I: Source>(input: &mut I, chunk: &mut Vec<u8>, text: &mut Bytes) -> Result<bool, Stop>
    requires { 0 < length chunk.old.items }
    ensures kept { IfOk result (λ on. Keeps (prepend_known text.old (I.left input.old)) (prepend_known text.new (I.left input.new))) }
    ensures end { result ≡ Ok false → IsAtEnd (I.left input.new) }
    ensures room { 0 < length chunk.new.items }
    ensures source { result ≡ Err Stop.Source → Rose (I.faults input.old) (I.faults input.new) }
    ensures only { IfErr result (λ stop. (stop ≡ Stop.Source) ⊎ (stop ≡ Stop.NoMemory)) }
    ensures count { I.faults input.old ≤ I.faults input.new }
{
    let Ok(count) = input.read(chunk) else {
        return Err(Stop::Source);
    };
    let (piece, _) = chunk.as_slice().split_at(count);
    match text.extend_from_slice(piece) {
        Ok(()) => Ok(0 < count),
        Err(_) => Err(Stop::NoMemory),
    }
}

/// Reads the whole input.
#[tactic(auto, using(crate::proofs::Pieces::begun, crate::proofs::Pieces::kept_on, crate::proofs::Pieces::whole))]
pub fn read_all<I: Source>(alloc: Global, input: &mut I) -> Result<Bytes, Stop>
    ensures whole { IfOk result (IsWhole (I.left input.old)) }
    ensures source { result ≡ Err Stop.Source → Rose (I.faults input.old) (I.faults input.new) }
    ensures only { IfErr result (λ stop. (stop ≡ Stop.Source) ⊎ (stop ≡ Stop.NoMemory)) }
    ensures count { I.faults input.old ≤ I.faults input.new }
{
    let mut chunk = match room(alloc) {
        Ok(chunk) => chunk,
        Err(_) => return Err(Stop::NoMemory),
    };
    let mut text = Bytes::new(alloc);
    for _ in 0..u64::MAX {
        match read_piece(input, &mut chunk, &mut text) {
            Ok(true) => {}
            Ok(false) => return Ok(text),
            Err(stop) => return Err(stop),
        }
    }
    Err(Stop::NoMemory)
}
