//! The program: its words, standard input and output, the files, the socket and the clock of a node, handed to the call that does all.
#![tactic(auto)]

use mega_base::Text;
use mega_disk::{FileDisk, Pair};
use mega_io::{StdSink, StdSource};
use mega_link::{StdClock, UdpLink};
use mega_replay::run;
use std::process::ExitCode;
use std::{env, io};

/// The words after the program's name.
fn arguments(rt: &HostRuntime) -> io::Result<Vec<Text>> {
    let mut words = Vec::new(rt.alloc());
    for argument in env::args(rt)?.skip(1) {
        words.push(Text::from_string(argument))?;
    }
    Ok(words)
}

/// The devices of a node: files in the folder in which the program runs, which are opened once a node uses them.
fn devices(rt: &HostRuntime) -> io::Result<Pair<FileDisk<HostRuntime>>> {
    let alloc = rt.alloc();
    let log = String::from_str(alloc, "mega.log")?;
    let runs = String::from_str(alloc, "mega.data")?;
    Ok(Pair {
        log: FileDisk::new(rt.clone()?, log),
        runs: FileDisk::new(rt.clone()?, runs),
    })
}

fn main(rt: HostRuntime) -> ExitCode {
    let mut clock = StdClock::new(&rt);
    let mut link = UdpLink::new(rt.alloc(), &rt);
    let mut input = StdSource::new(rt.reader());
    let mut out = StdSink::new(io::writer(&rt));
    let words = match arguments(&rt) {
        Ok(words) => words,
        Err(_) => Vec::new(rt.alloc()),
    };
    let Ok(devices) = devices(&rt) else {
        return ExitCode::from(8);
    };
    let ended = run(
        rt.alloc(),
        words.as_slice(),
        &mut input,
        &mut out,
        devices,
        &mut link,
        &mut clock,
    );
    ExitCode::from(ended.status)
}
