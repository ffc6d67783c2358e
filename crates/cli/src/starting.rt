//! A run of the program as it is started.
ghost use Rattle.cli.specs.Runs.{Performs};
ghost use Rattle.receiving.specs.Starts.{StartsSeeded};
ghost use Rattle.std.specs.Process.{exit_status};

use crate::run::perform;
use device::Sink;
use receiving::{Startup, begin};
use std::alloc::Global;
use std::process::ExitCode;
use system_files::Files;

/// The whole program, with what it is started with. It ends with the status of the run.
pub fn start<F: Files, O: Sink, E: Sink>(
    alloc: Global,
    startup: &Startup,
    files: &mut F,
    out: &mut O,
    err: &mut E,
) -> ExitCode
    ensures { StartsSeeded E.Sink (Performs F.Files O.Sink E.Sink) startup.now.state startup.now.words (files.old, out.old, err.old) (files.new, out.new, err.new) (exit_status result) }
{
    match begin(alloc, startup, err) {
        Ok(run) => {
            let status = perform(alloc, &run.words, files, out, err, run.means.state);
            ExitCode::from(status)
        }
        Err(status) => ExitCode::from(status),
    }
}
