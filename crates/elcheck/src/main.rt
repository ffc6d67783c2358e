//! The program `elcheck`: checks what was said of an ontology, with nothing of the engine that found it.
#![tactic(auto)]

use device::WriterSink;
use receiving::{Startup, start};
use std::hash::RandomState;
use std::process::ExitCode;
use std::{env, io};
use system_files::SystemFiles;

fn words(rt: &HostRuntime) -> io::Result<Vec<String>> {
    Ok(env::args(rt)?.collect(rt.alloc())?)
}

fn main(rt: HostRuntime) -> ExitCode {
    let startup = Startup {
        words: words(&rt),
        state: RandomState::new(&rt),
    };
    start(
        rt.alloc(),
        &startup,
        &mut SystemFiles::new(&rt, rt.stdin()),
        &mut WriterSink::new(rt.stdout()),
        &mut WriterSink::new(rt.stderr()),
    )
}
