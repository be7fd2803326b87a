//! The top call: its words, what it writes, and its status.
ghost use Rattle.std.specs.Prelude.{◌≡◌, ◌≤◌, ◌⊎◌, ℕ, List, Option, Some, None};
ghost use Rattle.std.specs.Io.KnownBytes.{Appends};
ghost use Rattle.mega_base.specs.Causes.{Rose};
ghost use Rattle.mega_base.specs.declared.names.GroupId.{GroupId as Group};
ghost use Rattle.mega_io.specs.Pieces.{AppendsFront};
ghost use Rattle.mega_gen.specs.Generated.{generated};
ghost use Rattle.mega_meanings.specs.BuiltIn.{built_in};
ghost use Rattle.mega_node.specs.Outside.{told_by};
ghost use Rattle.mega_words.specs.Commands.{command_of};
ghost use Rattle.mega_words.specs.declared.command.Command.TheVariants.{Backup, Gen, Node, Replay, Restore, Two};
ghost use Rattle.mega_words.specs.declared.command.Report.{Report};
ghost use Rattle.mega_replay.specs.Run.{HasBackedUp, HasDrawn, HasDriven, HasReplayed, HasRestored, HasRunNode, HasToldUsage};
ghost use Rattle.mega_replay.specs.Statuses.{IsDrawn, IsOffline, IsStatusOf, UsesNoDevice};
ghost use Rattle.mega_replay.specs.Usage.{usage_line};

use crate::ended::Ended;
use crate::saving::back_up;
use crate::serving::serve_node;
use mega_backup_words::run_restore;
use mega_base::{NoMemory, Position, Text};
use mega_disk::{Disk, Pair};
use mega_gen::generate;
use mega_io::{Sink, SinkError, Source, put};
use mega_link::{Clock, Link};
use mega_node::mega_server::Number;
use mega_replay_loop::replay_all;
use mega_two_words::run_two;
use mega_words::{Command, Report, command_of};
use std::alloc::Global;

/// What the program says where its words are no form.
const USAGE: &str =
    "usage: megastore replay [--summary] | gen --seed S --count N --nodes K | node --number K --turns T | two --node K --turns T | two --node K --turns T --recover GID | backup --number K --group HEX --at P | restore --at Q\n";

/// Runs the program on its words, with the handlers that the store brings, and gives the status with which it ends: 0 where the input was read
/// to its end and every line was an event that happened, where all lines were drawn, where a node made all its turns, where a change was driven, or where a
/// backup or the lines of its rows were written; 2 where the words are no form; 3 where the header breaks a rule; 4 where a line is no event or no change, or its event is
/// refused; 5 and 6 where the source or the sink failed; 7 where a node's device failed; 8 for want of memory; 9 where its link was not bound;
/// 10 where a line, or the call of a node, starts one that started 4,294,967,295 times, or a node's log would pass 2^40 bytes; 12 where a line is
/// none of a backup; 13 where a log or a backup has too few entries; 14 where the put of a row would be too large; and 16 where a record of a
/// node's log is none of the format.
/// A transcript grows with the lines that are done, a summary comes behind the last one. With 0 all of the report was written; with
/// 3, 4 and 10 what there was of it before, and then the last line, which 10 has not; with 5 what there is of it after exactly the lines that
/// the bytes before the fault spell, where the sink took it; with 6 and 8 a front of such a text. Of the record of a node a front is written at
/// every end but 0, where it is whole, and 3, where the last line alone is. Only a node and a change use link and clock, and only a node and a backup its devices.
pub fn run<I: Source, O: Sink, D: Disk + Drop, L: Link, C: Clock>(
    alloc: Global,
    words: &[Text],
    input: &mut I,
    out: &mut O,
    devices: Pair<D>,
    link: &mut L,
    clock: &mut C,
) -> Ended<D>
    ensures unformed { result.status ≡ 2 → command_of words.now ≡ None }
    ensures usage { command_of words.now ≡ None → HasToldUsage (O.held out.old) (O.held out.new) (Rose (O.faults out.old) (O.faults out.new)) result.status }
    ensures drawn { (seed count nodes : ℕ) → command_of words.now ≡ Some (Gen seed count nodes) → HasDrawn seed count nodes (O.held out.old) (O.held out.new) result.status }
    ensures unread { (seed count nodes : ℕ) → command_of words.now ≡ Some (Gen seed count nodes) → input.new ≡ input.old }
    ensures replayed { (report : Report) → command_of words.now ≡ Some (Replay report) → HasReplayed report (I.left input.old) (I.left input.new) (O.held out.old) (O.held out.new) (Rose (O.faults out.old) (O.faults out.new)) result.status }
    ensures node { (number turns : ℕ) → command_of words.now ≡ Some (Node number turns) → HasRunNode D.Disk built_in number turns (I.left input.old) (I.left input.new) devices result.devices (told_by L.Link C.Clock O.Sink link.old clock.old out.old) (told_by L.Link C.Clock O.Sink link.new clock.new out.new) result.status }
    ensures backup { (number at : ℕ) (group : Group) → command_of words.now ≡ Some (Backup number group at) → HasBackedUp D.Disk number group at (I.left input.old) devices result.devices (O.held out.old) (O.held out.new) result.status }
    ensures restore { (at : ℕ) → command_of words.now ≡ Some (Restore at) → HasRestored at (I.left input.old) (O.held out.old) (O.held out.new) result.status }
    ensures two { (number turns : ℕ) (recover : Option (List ℕ)) → command_of words.now ≡ Some (Two number turns recover) → HasDriven number turns recover (I.left input.old) (told_by L.Link C.Clock O.Sink link.old clock.old out.old) (told_by L.Link C.Clock O.Sink link.new clock.new out.new) result.status }
    ensures source { result.status ≡ 5 → Rose (I.faults input.old) (I.faults input.new) }
    ensures sink { result.status ≡ 6 → Rose (O.faults out.old) (O.faults out.new) }
    ensures link { result.status ≡ 9 → Rose (L.faults link.old) (L.faults link.new) }
    ensures offline { IsOffline (command_of words.now) → (link.new ≡ link.old) × (clock.new ≡ clock.old) }
    ensures untouched { UsesNoDevice (command_of words.now) → result.devices ≡ Some devices }
    ensures only { IsStatusOf (command_of words.now) result.status }
    ensures inputs { I.faults input.old ≤ I.faults input.new }
    ensures outs { O.faults out.old ≤ O.faults out.new }
{
    match command_of(alloc, words) {
        Err(NoMemory) => Ended {
            status: 8,
            devices: Some(devices),
        },
        Ok(None) => Ended {
            status: tell_usage(out),
            devices: Some(devices),
        },
        Ok(Some(Command::Gen { seed, count, nodes })) => Ended {
            status: draw(alloc, seed, count, nodes, out),
            devices: Some(devices),
        },
        Ok(Some(Command::Replay { report })) => Ended {
            status: replay_all(alloc, report, input, out),
            devices: Some(devices),
        },
        Ok(Some(Command::Node { number, turns })) => {
            let number = Number::new(number);
            serve_node(alloc, number, turns, input, out, devices, link, clock)
        }
        Ok(Some(Command::Backup { number, group, at })) => {
            back_up(alloc, number, &group, Position(at), input, out, devices)
        }
        Ok(
            Some(
                Command::Two {
                    node,
                    turns,
                    recover,
                },
            ),
        ) => Ended {
            status: run_two(
                alloc,
                node,
                turns,
                recover.as_ref(),
                input,
                out,
                link,
                clock,
            ),
            devices: Some(devices),
        },
        Ok(Some(Command::Restore { at })) => Ended {
            status: run_restore(alloc, Position(at), input, out),
            devices: Some(devices),
        },
    }
}

/// Writes the schedule that is drawn from a seed, and gives the status with which the program then ends.
fn draw<O: Sink>(alloc: Global, seed: u64, count: u64, nodes: u8, out: &mut O) -> u8
    requires first { 1 ≤ nodes }
    requires last { nodes ≤ 9 }
    ensures whole { result ≡ 0 → Appends (O.held out.old) (O.held out.new) (generated seed count nodes) }
    ensures front { AppendsFront (O.held out.old) (O.held out.new) (generated seed count nodes) }
    ensures only { IsDrawn result }
    ensures sink { result ≡ 6 → Rose (O.faults out.old) (O.faults out.new) }
    ensures count { O.faults out.old ≤ O.faults out.new }
{
    match generate(alloc, seed, count, nodes, out) {
        Ok(()) => 0,
        Err(SinkError::Failed) => 6,
        Err(SinkError::NoMemory) => 8,
    }
}

/// Writes how the program is used, and gives the status with which it then ends.
fn tell_usage<O: Sink>(out: &mut O) -> u8
    ensures status { (result ≡ 2) ⊎ (result ≡ 8) }
    ensures used { result ≡ 2 → Appends (O.held out.old) (O.held out.new) usage_line ⊎ Rose (O.faults out.old) (O.faults out.new) }
    ensures usage { AppendsFront (O.held out.old) (O.held out.new) usage_line }
    ensures count { O.faults out.old ≤ O.faults out.new }
{
    match put(out, USAGE.as_bytes()) {
        Ok(()) => 2,
        Err(SinkError::Failed) => 2,
        Err(SinkError::NoMemory) => 8,
    }
}
