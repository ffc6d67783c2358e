//! What the words of the program `elcheck` ask for.
ghost use Rattle.clap.specs.Words.{app_of, found_of, rows_of};
ghost use Rattle.command_line.specs.CommandLine.{Finds, IsCommand, document_of};
ghost use Rattle.command_line.specs.Receiver.{IsReceiverTaskOf, IsRuledTask, RefusesReceiver, asks_conversion as asks, command_of as command_with, ruled_words as words_ruled, rules, rules_name};
ghost use Rattle.std.specs.Prelude.{◌≡◌, IfErr, IfOk, map};

use crate::command::{check_command, convert_command};
use crate::tasks::{Command, Conversion, LineFault, Paths};
use crate::words::{conversion, limits, lines, paths, progress};
use clap::ArgMatches;
use clap::error::ErrorKind;
use program::Limits;
use std::alloc::{AllocError, Global};

const ABOUT: &str =
    "Checks the three texts of a classification against the document, or writes a certificate again";

const EXAMPLES: &str = "Examples:
  elcheck food.ofn food.tax food.inst food.cert
  elcheck convert food.ofn food.cert food1.cert --format 1
The second has words of its own: elcheck convert --help";

/// What a receiver asks for.
#[derive(Clone, Copy, PartialEq, Eq)]
pub enum Request<'a> {
    /// Check the three texts against the document.
    Check(Paths<'a>),
    /// Write the certificate again.
    Convert(Conversion<'a>),
}

impl<'a> Request<'a> {
    /// The path of the document.
    pub fn document(&self) -> &'a str
        ensures { result.now ≡ document_of (command_with self.now) }
    {
        match self {
            Request::Check(paths) => paths.document,
            Request::Convert(conversion) => conversion.document,
        }
    }
}

/// What a receiver asks for, within which limits, whether progress is told, and how faults of the document are told.
#[derive(Clone, Copy, PartialEq, Eq)]
pub struct ReceiverTask<'a> {
    pub request: Request<'a>,
    /// No facts are drawn: the limit of them is the greatest.
    pub limits: Limits,
    /// Only a check tells it.
    pub progress: bool,
    /// Whether faults of the document are told with their lines and columns.
    pub lines: bool,
}

/// Whether the word behind the program's name is `convert`.
fn asks_conversion(words: &[&str]) -> bool
    ensures { result ≡ asks (map (λ w. w.now) words.now) }
{
    match words.get(1) {
        Some(word) => *word == "convert",
        None => false,
    }
}

/// The rules of a conversion, or of a check.
fn ruling_command<'a>(alloc: Global, converts: bool) -> Result<clap::Command<'a>, AllocError>
    ensures { IfOk result (λ c. app_of c ≡ rules converts) }
{
    if converts {
        convert_command(alloc)?.bin_name("elcheck convert")
    } else {
        Ok(check_command(alloc)?.about(ABOUT).after_help(EXAMPLES))
    }
}

/// The words that are read by these rules.
fn ruled_words<'a>(words: &'a [&'a str], converts: bool) -> &'a [&'a str]
    ensures { map (λ w. w.now) result.now ≡ words_ruled converts (map (λ w. w.now) words.entry.now) }
{
    let first = if converts { words.len().min(1) } else { 0 };
    &words[first..]
}

/// What the matches ask for by these rules.
fn asked_for<'a>(matches: &ArgMatches<'a>, converts: bool) -> Option<Request<'a>>
    ensures { Finds (λ r. IsCommand (rules_name converts) (rows_of (found_of matches.now)) (command_with r)) result }
{
    if converts {
        Some(Request::Convert(conversion(matches)?))
    } else {
        Some(Request::Check(paths(matches)?))
    }
}

/// What is asked for, as a command of `elc`.
fn command_of<'a>(request: &Request<'a>) -> Command<'a>
    ensures { result ≡ command_with request.now }
{
    match request {
        Request::Check(paths) => Command::Check(*paths),
        Request::Convert(conversion) => Command::Convert(*conversion),
    }
}

/// The task that the matches say by these rules.
fn ruled_task<'a>(matches: &ArgMatches<'a>, converts: bool) -> Option<ReceiverTask<'a>>
    ensures { Finds (IsRuledTask converts (rows_of (found_of matches.now))) result }
{
    let request = asked_for(matches, converts)?;
    let command = command_of(&request);
    let limits = limits(matches, &command)?;
    let progress = progress(matches, &command)?;
    let lines = lines(matches)?;
    Some(ReceiverTask {
        request,
        limits,
        progress,
        lines,
    })
}

/// The task that the words of `elcheck` ask for, the first word being the program's name. Behind `convert` they are those of a
/// conversion, and else those of a check.
///
/// # Errors
///
/// A word that is missing, unknown or one too many, an option that is given twice, a number out of its range and a call
/// for help are `Line`; that memory was refused is `Memory`.
pub fn receiver_task<'a>(alloc: Global, words: &'a [&'a str]) -> Result<ReceiverTask<'a>, LineFault>
    ensures asked { IfOk result (λ t. IsReceiverTaskOf (map (λ w. w.now) words.entry.now) t) }
    ensures refused { IfErr result (RefusesReceiver (map (λ w. w.now) words.entry.now)) }
{
    let converts = asks_conversion(words);
    let Ok(mut command) = ruling_command(alloc, converts) else {
        return Err(LineFault::Memory);
    };
    let matches = match command.try_get_matches_from_mut(ruled_words(words, converts)) {
        Ok(matches) => matches,
        Err(error) => {
            if error.kind() == ErrorKind::OutOfMemory {
                return Err(LineFault::Memory);
            }
            return Err(LineFault::Line(error));
        }
    };
    match ruled_task(&matches, converts) {
        Some(task) => return Ok(task),
        None => return Err(missing_words(&mut command)),
    }
}

/// What to tell of words that name no task.
fn missing_words(command: &mut clap::Command<'_>) -> LineFault {
    match command.error(ErrorKind::MissingRequiredArgument, "no paths") {
        Ok(error) => LineFault::Line(error),
        Err(_) => LineFault::Memory,
    }
}
