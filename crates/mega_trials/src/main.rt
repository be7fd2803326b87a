//! Trials: each schedule that `names` lists is replayed, and what is written is compared with the transcript and the summary beside it. Then each call
//! of what a replay and a node are over fails in turn.
#![tactic(auto)]

mod sweep;

use crate::sweep::{Sweep, of_node, of_replay};
use mega_base::Text;
use mega_disk::{MemDisk, Pair};
use mega_io::{MemSink, MemSource};
use mega_link::{MemClock, MemLink};
use mega_replay::run;
use std::{fs, io};

/// What a trial came to.
#[derive(Drop)]
struct Trial {
    status: u8,
    is_same: bool,
}

impl Trial {
    /// Whether what was written is what was wanted.
    fn word(&self) -> &'static str {
        if self.is_same { "same" } else { "other" }
    }
}

/// The words of the program.
fn words(rt: &HostRuntime, all: &[&str]) -> io::Result<Vec<Text>> {
    let alloc = rt.alloc();
    let mut words = Vec::new(alloc);
    for one in all {
        words.push(Text::from_string(format!(in alloc; "{one}")?))?;
    }
    Ok(words)
}

/// Replays one schedule, and compares what is written with the file that has this ending.
fn tried(rt: &HostRuntime, name: &str, words: &[Text], ending: &str) -> io::Result<Trial> {
    let alloc = rt.alloc();
    let schedule = fs::read(rt, format!(in alloc; "{name}.in")?)?;
    let wanted = fs::read(rt, format!(in alloc; "{name}.{ending}")?)?;
    let mut input = MemSource::new(schedule, Vec::new(alloc));
    let mut out = MemSink::new(alloc, Vec::new(alloc));
    let devices = Pair {
        log: MemDisk::new(alloc),
        runs: MemDisk::new(alloc),
    };
    let mut link = MemLink::new(alloc, Vec::new(alloc));
    let mut clock = MemClock::new(Vec::new(alloc));
    let ended = run(
        alloc, words, &mut input, &mut out, devices, &mut link, &mut clock,
    );
    Ok(Trial {
        status: ended.status,
        is_same: out.bytes() == wanted.as_slice(),
    })
}

/// A replay of a schedule with queues, crashes and fuses.
fn a_replay(rt: &HostRuntime) -> io::Result<Sweep> {
    let alloc = rt.alloc();
    Ok(Sweep {
        words: words(rt, &["replay"])?,
        input: fs::read(rt, "queue-8.in")?,
        asked: Vec::new(alloc),
        own: Vec::new(alloc),
    })
}

/// A node that is all of its cluster, of which a client asks for one put.
fn a_node(rt: &HostRuntime) -> io::Result<Sweep> {
    let alloc = rt.alloc();
    Ok(Sweep {
        words: words(rt, &["node", "--number", "1", "--turns", "9"])?,
        input: fs::read(rt, "one-node.header")?,
        asked: fs::read(rt, "put.datagram")?,
        own: Vec::new(alloc),
    })
}

/// Replays each schedule that is listed, and tells whether what is written is what was wanted.
fn try_all(rt: &HostRuntime) -> io::Result<()> {
    let names = fs::read_to_string(rt, "names")?;
    let transcript = words(rt, &["replay"])?;
    let summary = words(rt, &["replay", "--summary"])?;
    for name in names.lines() {
        let whole = tried(rt, name, transcript.as_slice(), "out")?;
        let counts = tried(rt, name, summary.as_slice(), "summary")?;
        println!(rt;
            "{name}: status {}, {}; summary {}, {}",
            whole.status,
            whole.word(),
            counts.status,
            counts.word()
        )?;
    }
    Ok(())
}

fn main(rt: HostRuntime) -> io::Result<()> {
    try_all(&rt)?;
    let replay = a_replay(&rt)?;
    of_replay(&rt, &replay)?;
    let node = a_node(&rt)?;
    of_node(&rt, node)
}
