//! What the program does with its words, its input and its output.
ghost use Rattle.std.specs.Prelude.{◌≡◌, ◌≢◌, ◌≤◌, ◌⊎◌, ◌↔◌, ◌++◌, None, Err, IfErr, IfOk, OnOk, OnErr};
ghost use Rattle.mega_base.specs.Causes.{Rose};
ghost use Rattle.std.specs.Io.KnownBytes.{Appends};
ghost use Rattle.mega_io.specs.Pieces.{AppendsFront};
ghost use Rattle.picture.specs.declared.refusal.Refusal.{Refusal as RefusalValue};
ghost use Rattle.picture.specs.Known.{HasPage, IsRefused, Asks};
ghost use Rattle.picture.specs.Stops.{IsRefusal, IsUnwritten, IsStatus, IsWriteStop, status_of, line_of};
ghost use Rattle.picture.specs.Windows.{window_of};

use crate::drawing::drawing_of;
use crate::refusal::Refusal;
use crate::source::read_all;
use crate::stop::Stop;
use crate::words::{Window, window_of};
use mega_base::{Bytes, Text};
use mega_io::{Sink, SinkError, Source, put};
use std::alloc::Global;

/// What the program says where its words are no form.
const USAGE: &[u8] = b"usage: picture [--from A --to B] < header, --- and transcript\n";

/// Draws the transcript of the input, and gives the status with which the program ends: 0 where its page was written;
/// 2 where the words are no form; 3 where the header is refused; 4 where a line is refused, or more lines than a page has
/// are asked for; 5 and 6 where the source or the sink failed; 8 for want of memory. The page is written when it is whole:
/// with any status but 0, 6 and 8 the sink is left. A line that tells of a refusal is added to `aside`.
pub fn run<I: Source, O: Sink>(
    alloc: Global,
    words: &[Text],
    input: &mut I,
    out: &mut O,
    aside: &mut Bytes,
) -> u8
    ensures usage { (result ≡ 2) ↔ (window_of words.now ≡ None) }
    ensures drawn { result ≡ 0 → Asks (window_of words.now) (λ window. HasPage window (I.left input.old) (Appends (O.held out.old) (O.held out.new))) }
    ensures refused { IsRefusal result → Asks (window_of words.now) (λ window. (refusal : RefusalValue) × IsRefused window (I.left input.old) refusal × (status_of refusal ≡ result) × (aside.new ≡ aside.old ++ line_of refusal)) }
    ensures front { result ≡ 6 → Asks (window_of words.now) (λ window. HasPage window (I.left input.old) (AppendsFront (O.held out.old) (O.held out.new))) }
    ensures kept { IsUnwritten result → O.held out.new ≡ O.held out.old }
    ensures source { result ≡ 5 → Rose (I.faults input.old) (I.faults input.new) }
    ensures sink { result ≡ 6 → Rose (O.faults out.old) (O.faults out.new) }
    ensures only { IsStatus result }
    ensures inputs { I.faults input.old ≤ I.faults input.new }
    ensures outs { O.faults out.old ≤ O.faults out.new }
{
    let Some(window) = window_of(words) else {
        let _ = aside.extend_from_slice(USAGE);
        return 2;
    };
    match draw(alloc, window, input, out) {
        Ok(()) => 0,
        Err(Stop::Refused { refusal }) => told(alloc, refusal, aside),
        Err(Stop::Source) => 5,
        Err(Stop::Sink) => 6,
        Err(Stop::NoMemory) => 8,
    }
}

/// Adds the line of a refusal, and gives its status.
fn told(alloc: Global, refusal: Refusal, aside: &mut Bytes) -> u8
    ensures told { IsRefusal result → (status_of refusal ≡ result) × (aside.new ≡ aside.old ++ line_of refusal) }
    ensures only { IsRefusal result ⊎ (result ≡ 8) }
{
    match refusal.tell(alloc, aside) {
        Ok(()) => refusal.status(),
        Err(_) => 8,
    }
}

/// Draws the window of the input's transcript.
fn draw<I: Source, O: Sink>(
    alloc: Global,
    window: Window,
    input: &mut I,
    out: &mut O,
) -> Result<(), Stop>
    ensures drawn { OnOk result (HasPage window (I.left input.old) (Appends (O.held out.old) (O.held out.new))) }
    ensures refused { (refusal : RefusalValue) → result ≡ Err (Stop.Refused refusal) → IsRefused window (I.left input.old) refusal × (O.held out.new ≡ O.held out.old) }
    ensures front { result ≡ Err Stop.Sink → HasPage window (I.left input.old) (AppendsFront (O.held out.old) (O.held out.new)) }
    ensures kept { result ≡ Err Stop.Source → O.held out.new ≡ O.held out.old }
    ensures source { result ≡ Err Stop.Source → Rose (I.faults input.old) (I.faults input.new) }
    ensures sink { result ≡ Err Stop.Sink → Rose (O.faults out.old) (O.faults out.new) }
    ensures inputs { I.faults input.old ≤ I.faults input.new }
    ensures outs { O.faults out.old ≤ O.faults out.new }
{
    match page_of(alloc, window, input) {
        Ok(page) => write_page(out, page.as_slice()),
        Err(stop) => Err(stop),
    }
}

/// Writes a whole page.
fn write_page<O: Sink>(out: &mut O, page: &[u8]) -> Result<(), Stop>
    ensures ok { OnOk result (Appends (O.held out.old) (O.held out.new) page.now) }
    ensures err { OnErr result (AppendsFront (O.held out.old) (O.held out.new) page.now) }
    ensures only { IfErr result IsWriteStop }
    ensures sink { result ≡ Err Stop.Sink → Rose (O.faults out.old) (O.faults out.new) }
    ensures count { O.faults out.old ≤ O.faults out.new }
{
    match put(out, page) {
        Ok(()) => Ok(()),
        Err(SinkError::Failed) => Err(Stop::Sink),
        Err(SinkError::NoMemory) => Err(Stop::NoMemory),
    }
}

/// The page of the window of the input's transcript.
fn page_of<I: Source>(alloc: Global, window: Window, input: &mut I) -> Result<Bytes, Stop>
    ensures page { IfOk result (λ page. HasPage window (I.left input.old) (λ wanted. wanted ≡ page)) }
    ensures refused { (refusal : RefusalValue) → result ≡ Err (Stop.Refused refusal) → IsRefused window (I.left input.old) refusal }
    ensures source { result ≡ Err Stop.Source → Rose (I.faults input.old) (I.faults input.new) }
    ensures sink { result ≢ Err Stop.Sink }
    ensures count { I.faults input.old ≤ I.faults input.new }
{
    let text = match read_all(alloc, input) {
        Ok(text) => text,
        Err(stop) => return Err(stop),
    };
    drawing_of(alloc, window, text.as_slice())
}
