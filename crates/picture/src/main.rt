//! The program: reads the header of a cluster and a transcript, and writes one page of SVG.
#![tactic(auto)]

mod drawing;
mod header;
mod items;
mod lines;
mod refusal;
mod run;
mod source;
mod stop;
mod words;

use mega_base::{Bytes, Text};
use mega_io::{StdSink, StdSource, put};
use std::process::ExitCode;
use std::{env, io};

/// The words after the program's name.
fn arguments(rt: &HostRuntime) -> io::Result<Vec<Text>> {
    let mut words = Vec::new(rt.alloc());
    for argument in env::args(rt)?.skip(1) {
        words.push(Text::from_string(argument))?;
    }
    Ok(words)
}

fn main(rt: HostRuntime) -> ExitCode {
    let Ok(words) = arguments(&rt) else {
        return ExitCode::from(8);
    };
    let mut input = StdSource::new(rt.reader());
    let mut out = StdSink::new(io::writer(&rt));
    let mut aside = Bytes::new(rt.alloc());
    let status = run::run(
        rt.alloc(),
        words.as_slice(),
        &mut input,
        &mut out,
        &mut aside,
    );
    let mut errors = StdSink::new(rt.stderr());
    let _ = put(&mut errors, aside.as_slice());
    ExitCode::from(status)
}
