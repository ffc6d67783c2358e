//! A whole run of the program `elcheck`.
ghost use Rattle.command_line.specs.Receiver.{asks_conversion};
ghost use Rattle.receiving.specs.Receiver.{Receives, ReceivesRequest, ReceivesTask, is_conversion};
ghost use Rattle.receiving.specs.Starts.{StartsSeeded};
ghost use Rattle.std.specs.Prelude.{◌≡◌, false, map};
ghost use Rattle.std.specs.Process.{exit_status};

use crate::asked::{CheckRun, ConversionRun, Means, Reading};
use crate::lines::read_by_lines;
use crate::run::{perform_check, perform_convert};
use crate::starting::{Startup, begin};
use crate::words::refuse;
use command_line::{ReceiverTask, Request, receiver_task};
use device::Sink;
use std::alloc::Global;
use std::process::ExitCode;
use system_files::Files;

/// Does what the task asks for.
fn perform_request<F: Files, O: Sink, E: Sink>(
    means: Means,
    task: &ReceiverTask<'_>,
    files: &mut F,
    out: &mut O,
    err: &mut E,
) -> u8
    ensures performed { ReceivesRequest F.Files O.Sink E.Sink task.now (files.old, out.old, err.old) (files.new, out.new, err.new) result }
    ensures untouched { is_conversion task.now.request ≡ false → files.new ≡ files.old }
{
    let limits = task.limits;
    match task.request {
        Request::Check(paths) => {
            let run = CheckRun {
                means,
                paths,
                limits,
                progress: task.progress,
            };
            perform_check(&run, files, out, err)
        }
        Request::Convert(conversion) => {
            let run = ConversionRun {
                means,
                conversion,
                limits,
            };
            perform_convert(&run, files, out, err)
        }
    }
}

/// Does the task. Where it tells lines, the document is read before, and where it does not read as an ontology no more is done.
fn perform_task<F: Files, O: Sink, E: Sink>(
    means: Means,
    task: &ReceiverTask<'_>,
    files: &mut F,
    out: &mut O,
    err: &mut E,
) -> u8
    ensures performed { ReceivesTask F.Files O.Sink E.Sink task.now (files.old, out.old, err.old) (files.new, out.new, err.new) result }
    ensures untouched { is_conversion task.now.request ≡ false → files.new ≡ files.old }
{
    if task.lines {
        let reading = Reading {
            means,
            path: task.request.document(),
            limits: task.limits,
        };
        if let Err(status) = read_by_lines(&reading, files, err) {
            return status;
        }
    }
    perform_request(means, task, files, out, err)
}

/// Does what the words ask for, the first being the program's name: a check of files, or behind `convert` a conversion. Prints to
/// `out` and `err`, and gives the exit status.
pub fn perform<F: Files, O: Sink, E: Sink>(
    means: Means,
    words: &[&str],
    files: &mut F,
    out: &mut O,
    err: &mut E,
) -> u8
    // What the words ask for, what is said of the files, what is printed, and the status.
    ensures performed { Receives F.Files O.Sink E.Sink (map (λ w. w.now) words.entry.now)
        (files.old, out.old, err.old) (files.new, out.new, err.new) result }
    // Only a conversion writes a file.
    ensures untouched { asks_conversion (map (λ w. w.now) words.entry.now) ≡ false → files.new ≡ files.old }
{
    match receiver_task(means.alloc, words) {
        Ok(task) => perform_task(means, &task, files, out, err),
        Err(fault) => refuse(means.alloc, &fault, err),
    }
}

/// The whole program, with what it is started with. It ends with the status of the run.
pub fn start<F: Files, O: Sink, E: Sink>(
    alloc: Global,
    startup: &Startup,
    files: &mut F,
    out: &mut O,
    err: &mut E,
) -> ExitCode
    ensures { StartsSeeded E.Sink (Receives F.Files O.Sink E.Sink) startup.now.state startup.now.words (files.old, out.old, err.old) (files.new, out.new, err.new) (exit_status result) }
{
    match begin(alloc, startup, err) {
        Ok(run) => ExitCode::from(perform(run.means, &run.words, files, out, err)),
        Err(status) => ExitCode::from(status),
    }
}
