//! The lines of a text, each as bytes of its own.
ghost use Rattle.std.specs.Prelude.{◌≡◌, ◌++◌, ◌∷◌, [], List, ℕ, IfOk, OnOk};
ghost use Rattle.mega_io.specs.TextLines.{close_line, lines_after, lines_of};

use mega_base::{Bytes, Items, NoMemory};
use std::alloc::Global;
use std::mem;

/// Adds a line that has ended, and begins an empty one.
#[tactic(auto)]
fn end_line(alloc: Global, lines: &mut Items<Bytes>, line: &mut Bytes) -> Result<(), NoMemory>
    ensures lines { OnOk result (lines.new ≡ lines.old ++ line.old ∷ []) }
    ensures line { OnOk result (line.new ≡ []) }
{
    let ended = mem::replace(line, Bytes::new(alloc));
    lines.push(ended)
}

/// Goes on with a byte of the text.
#[tactic(auto, using(crate::proofs::Parting::ends, crate::proofs::Parting::grows))]
fn put_byte(
    alloc: Global,
    lines: &mut Items<Bytes>,
    line: &mut Bytes,
    byte: u8,
) -> Result<(), NoMemory>
    ensures { OnOk result ((rest : List ℕ) → lines.new ++ lines_after line.new rest ≡ lines.old ++ lines_after line.old (byte ∷ rest)) }
{
    if byte == b'\n' {
        end_line(alloc, lines, line)
    } else {
        line.push(byte)
    }
}

/// Adds the last line, where it has no line feed.
#[tactic(auto, using(crate::proofs::Parting::closed, crate::proofs::Parting::none))]
fn close(lines: &mut Items<Bytes>, line: Bytes) -> Result<(), NoMemory>
    ensures { OnOk result (lines.new ≡ lines.old ++ close_line line) }
{
    if line.is_empty() {
        Ok(())
    } else {
        lines.push(line)
    }
}

/// The lines of a text; each ends with a line feed, the last one maybe with the text.
#[tactic(auto, using(crate::proofs::Parting::on))]
pub fn lines_of(alloc: Global, text: &[u8]) -> Result<Items<Bytes>, NoMemory>
    ensures { IfOk result (λ lines. lines ≡ lines_of text.now) }
{
    let mut lines = Items::new(alloc);
    let mut line = Bytes::new(alloc);
    for byte in text {
        put_byte(alloc, &mut lines, &mut line, *byte)?;
    }
    close(&mut lines, line)?;
    Ok(lines)
}
