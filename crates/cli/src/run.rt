//! A whole run of the program.
ghost use Rattle.cli.specs.Runs.{AskForNoFiles, Performs, RunsLined, RunsTask, reads_before as before, writes_files};
ghost use Rattle.std.specs.Prelude.{◌≡◌, false, map};

use crate::asking::{perform_ask, perform_query};
use crate::classifying::perform_classify;
use crate::inferring::perform_infer;
use crate::printing::print_version;
use crate::speaking::perform_session;
use crate::tasks::TaskRun;
use command_line::{Command, Invocation, Task, invocation};
use device::Sink;
use receiving::{Means, perform_check, perform_convert, read_by_lines, refuse};
use restricting::perform_restrict;
use std::alloc::Global;
use std::hash::RandomState;
use system_files::Files;

/// Does what the task asks for.
#[tactic(auto, using(telling::proofs::Telling::nothing_told))]
fn perform_command<F: Files, O: Sink, E: Sink>(
    run: &TaskRun<'_>,
    files: &mut F,
    out: &mut O,
    err: &mut E,
) -> u8
    ensures performed { RunsLined F.Files O.Sink E.Sink run.now.task.lines run.now.task.progress run.now.task.command run.now.task.limits
        (files.old, out.old, err.old) (files.new, out.new, err.new) result }
    ensures untouched { writes_files run.now.task.command ≡ false → files.new ≡ files.old }
{
    match run.task.command {
        Command::Classify { paths, format } => {
            perform_classify(&run.classification(paths, format), files, out, err)
        }
        Command::Check(paths) => perform_check(&run.check(paths), files, out, err),
        Command::Convert(conversion) => {
            perform_convert(&run.conversion(conversion), files, out, err)
        }
        Command::Restrict { document, output } => {
            perform_restrict(&run.restriction(document, output), files, out, err)
        }
        Command::Infer { document, output } => {
            perform_infer(&run.inference(document, output), files, out, err)
        }
        Command::Ask {
            document,
            question,
            spelling,
        } => perform_ask(&run.question(document, question, spelling), files, out, err),
        Command::Query {
            document,
            expression,
            spelling,
        } => perform_query(&run.query(document, expression, spelling), files, out, err),
        Command::Session { document } => perform_session(&run.session(document), files, out, err),
    }
}

/// Whether the document is read before the task is done: where lines are asked for, but of a restriction, which tells them itself.
fn reads_before(task: &Task<'_>) -> bool
    ensures { result ≡ before task.now.lines task.now.command }
{
    match task.command {
        Command::Restrict { .. } => false,
        _ => task.lines,
    }
}

/// Does the task. Where the document is read before, and does not read as an ontology, no more is done.
fn perform_task<F: Files, O: Sink, E: Sink>(
    run: &TaskRun<'_>,
    files: &mut F,
    out: &mut O,
    err: &mut E,
) -> u8
    ensures performed { RunsTask F.Files O.Sink E.Sink run.now.task (files.old, out.old, err.old) (files.new, out.new, err.new) result }
    ensures untouched { writes_files run.now.task.command ≡ false → files.new ≡ files.old }
{
    if reads_before(&run.task) {
        let reading = run.reading(run.task.command.document());
        if let Err(status) = read_by_lines(&reading, files, err) {
            return status;
        }
    }
    perform_command(run, files, out, err)
}

/// Does what the words ask for, the first being the program's name: reads and writes the files, prints to `out` and
/// `err`, and gives the exit status.
pub fn perform<F: Files, O: Sink, E: Sink>(
    alloc: Global,
    words: &[&str],
    files: &mut F,
    out: &mut O,
    err: &mut E,
    state: RandomState,
) -> u8
    // What the words ask for, which file holds which text, what is printed, and the status.
    ensures performed { Performs F.Files O.Sink E.Sink (map (λ w. w.now) words.entry.now)
        (files.old, out.old, err.old) (files.new, out.new, err.new) result }
    // Only a classification, a conversion, a restriction, an inference and a session write files.
    ensures untouched { AskForNoFiles (map (λ w. w.now) words.entry.now) → files.new ≡ files.old }
{
    match invocation(alloc, words) {
        Ok(Invocation::Task(task)) => {
            let means = Means { alloc, state };
            perform_task(&TaskRun { means, task }, files, out, err)
        }
        Ok(Invocation::Version) => print_version(out),
        Err(fault) => refuse(alloc, &fault, err),
    }
}
