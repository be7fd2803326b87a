//! The report of an input, with the handlers that the store brings, and the status of its replay.
ghost use Rattle.std.specs.Prelude.{◌≡◌, ◌≤◌, ◌⊎◌, ◌++◌, ℕ, Err, OnOk, OnErr};
ghost use Rattle.std.specs.Io.KnownBytes.{Appends, IsAtEnd};
ghost use Rattle.mega_meanings.specs.BuiltIn.{built_in};
ghost use Rattle.mega_meanings.specs.Means.{Means};
ghost use Rattle.mega_base.specs.Causes.{Rose};
ghost use Rattle.mega_io.specs.Pieces.{AppendsFront};
ghost use Rattle.mega_replay_output.specs.LastLines.{header_line, schedule_line, refused_line, limit_line};
ghost use Rattle.mega_replay_loop.specs.Known.{InputDone, InputFailed, InputBroken, InputNoEvent, InputRefused, InputPastLast, InputCut};
ghost use Rattle.mega_replay_output.specs.Statuses.{IsCutStatus, IsReplayStatus};
ghost use Rattle.mega_words.specs.declared.command.Report.{Report};

use crate::replay::replay;
use mega_base::Bytes;
use mega_io::{Sink, Source};
use mega_meanings::{BuiltIn, QueueHandlers};
use mega_replay_output::{Stop, write_on, write_stop};
use mega_words::Report;
use std::alloc::Global;

/// Replays the input with the handlers that the store brings, and gives the status with which the program then ends.
#[tactic(auto, using(mega_meanings::proofs::Lasting::built_in_means))]
pub fn replay_all<I: Source, O: Sink>(
    alloc: Global,
    report: Report,
    input: &mut I,
    out: &mut O,
) -> u8
    ensures done { result ≡ 0 → InputDone report (I.left input.old) (Appends (O.held out.old) (O.held out.new)) }
    ensures end { result ≡ 0 → IsAtEnd (I.left input.new) }
    ensures header { result ≡ 3 → (rule : ℕ) × InputBroken (I.left input.old) rule (λ text. Appends (O.held out.old) (O.held out.new) (text ++ header_line rule)) }
    ensures refused { result ≡ 4 → ((line : ℕ) × (reason : ℕ) × InputNoEvent report (I.left input.old) line reason (λ text. Appends (O.held out.old) (O.held out.new) (text ++ schedule_line line reason))) ⊎ ((line : ℕ) × (why : ℕ) × InputRefused report (I.left input.old) line why (λ text. Appends (O.held out.old) (O.held out.new) (text ++ refused_line line why))) }
    ensures limit { result ≡ 10 → (line : ℕ) × InputPastLast report (I.left input.old) line (λ text. Appends (O.held out.old) (O.held out.new) (text ++ limit_line line)) }
    ensures broken { result ≡ 5 → InputFailed report (I.left input.old) (I.left input.new) (Appends (O.held out.old) (O.held out.new)) ⊎ Rose (O.faults out.old) (O.faults out.new) }
    ensures cut { IsCutStatus result → InputCut report (I.left input.old) (AppendsFront (O.held out.old) (O.held out.new)) }
    ensures source { result ≡ 5 → Rose (I.faults input.old) (I.faults input.new) }
    ensures sink { result ≡ 6 → Rose (O.faults out.old) (O.faults out.new) }
    ensures only { IsReplayStatus result }
    ensures inputs { I.faults input.old ≤ I.faults input.new }
    ensures outs { O.faults out.old ≤ O.faults out.new }
{
    let mut handlers = BuiltIn::new();
    match transcribe(alloc, report, &mut handlers, input, out) {
        Ok(()) => 0,
        Err(stop) => stop.status(),
    }
}

/// Writes the report of the input, to its last byte or with the last line that tells of the stop.
fn transcribe<I: Source, O: Sink, H: QueueHandlers>(
    alloc: Global,
    report: Report,
    handlers: &mut H,
    input: &mut I,
    out: &mut O,
) -> Result<(), Stop>
    requires { Means (H.meant handlers.old) built_in }
    ensures done { OnOk result (InputDone report (I.left input.old) (Appends (O.held out.old) (O.held out.new))) }
    ensures end { OnOk result (IsAtEnd (I.left input.new)) }
    ensures header { (rule : ℕ) → result ≡ Err (Stop.Header rule) → InputBroken (I.left input.old) rule (λ text. Appends (O.held out.old) (O.held out.new) (text ++ header_line rule)) }
    ensures none { (at reason : ℕ) → result ≡ Err (Stop.Schedule at reason) → InputNoEvent report (I.left input.old) at reason (λ text. Appends (O.held out.old) (O.held out.new) (text ++ schedule_line at reason)) }
    ensures refused { (at why : ℕ) → result ≡ Err (Stop.Refused at why) → InputRefused report (I.left input.old) at why (λ text. Appends (O.held out.old) (O.held out.new) (text ++ refused_line at why)) }
    ensures limit { (at : ℕ) → result ≡ Err (Stop.Limit at) → InputPastLast report (I.left input.old) at (λ text. Appends (O.held out.old) (O.held out.new) (text ++ limit_line at)) }
    ensures broken { result ≡ Err Stop.Source → InputFailed report (I.left input.old) (I.left input.new) (Appends (O.held out.old) (O.held out.new)) ⊎ Rose (O.faults out.old) (O.faults out.new) }
    ensures cut { OnErr result (InputCut report (I.left input.old) (AppendsFront (O.held out.old) (O.held out.new))) }
    ensures source { result ≡ Err Stop.Source → Rose (I.faults input.old) (I.faults input.new) }
    ensures sink { result ≡ Err Stop.Sink → Rose (O.faults out.old) (O.faults out.new) }
    ensures inputs { I.faults input.old ≤ I.faults input.new }
    ensures outs { O.faults out.old ≤ O.faults out.new }
{
    let mut waiting = Bytes::new(alloc);
    match replay(alloc, report, handlers, input, out, &mut waiting) {
        Ok(()) => match write_on(out, &mut waiting) {
            Ok(()) => Ok(()),
            Err(stop) => Err(stop),
        },
        Err(stop) => Err(write_stop(alloc, stop, out, &mut waiting)),
    }
}
