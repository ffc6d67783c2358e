//! Reads the program's words.
ghost use Rattle.std.specs.Prelude.{◌≡◌, IfOk, IfErr, codes, map, option_map, true};
ghost use Rattle.clap.specs.Words.{subcommand_rows_of, rows_of, found_of, first_of};
ghost use Rattle.command_line.specs.CommandLine.{AreLimits, ArePaths, IsAsked, IsCommand, IsConversion, IsFlag, IsFormat, IsLining, IsNumber, IsQuestion, IsSpelled, IsTelling, IsToldBy, IsVersion, NamesTask, Finds, Gives, Refuses, draws_facts as draws, tells_progress as tells};

use crate::command::elc_command;
use crate::tasks::{Command, Conversion, FormatNumber, Invocation, LineFault, Paths, Task};
use clap::ArgMatches;
use clap::error::ErrorKind;
use program::{Asked, Limits, MOST_FACTS, Question, Related, Shown, Side, Spelling, Version};
use std::alloc::Global;

/// The word that stands for the argument.
fn word<'a>(inner: &ArgMatches<'a>, id: &str) -> Option<&'a str>
    ensures { option_map (λ s. s.now) result ≡ first_of id.now (rows_of (found_of inner.now)) }
{
    inner.get_str(id)
}

/// The paths, which the command requires.
pub(crate) fn paths<'a>(inner: &ArgMatches<'a>) -> Option<Paths<'a>>
    ensures { Finds (ArePaths (rows_of (found_of inner.now))) result }
{
    Some(Paths {
        document: word(inner, "DOC")?,
        taxonomy: word(inner, "TAX")?,
        instances: word(inner, "INST")?,
        certificate: word(inner, "CERT")?,
    })
}

/// Whether the word of the flag stands.
fn flag(inner: &ArgMatches<'_>, id: &str) -> Option<bool>
    ensures { Finds (IsFlag id.now (rows_of (found_of inner.now))) result }
{
    match word(inner, id)? {
        "true" => Some(true),
        "false" => Some(false),
        _ => None,
    }
}

/// Of what it is asked whether it is in a class.
fn asked<'a>(inner: &ArgMatches<'a>) -> Option<Asked<'a>>
    ensures { Finds (IsAsked (rows_of (found_of inner.now))) result }
{
    let subject = word(inner, "SUB")?;
    if flag(inner, "individual")? {
        Some(Asked::Individual(subject))
    } else {
        Some(Asked::Class(subject))
    }
}

/// The question whether, and why, something is in a class, whose names the command requires.
fn why<'a>(inner: &ArgMatches<'a>) -> Option<Question<'a>>
    ensures { Finds (IsQuestion (codes "explain") (rows_of (found_of inner.now))) result }
{
    let asked = asked(inner)?;
    let class = word(inner, "SUPER")?;
    let shown = Shown {
        graph: flag(inner, "dot")?,
        reached: flag(inner, "reached")?,
        axioms: flag(inner, "axioms")?,
    };
    Some(Question::Why(asked, class, shown))
}

/// The question which conditions something has and lacks, whose names the command requires.
fn lacks<'a>(inner: &ArgMatches<'a>) -> Option<Question<'a>>
    ensures { Finds (IsQuestion (codes "lacks") (rows_of (found_of inner.now))) result }
{
    let asked = asked(inner)?;
    Some(Question::Lacks(asked, word(inner, "SUPER")?))
}

/// The question for the classes of an individual, whose name the command requires.
fn types<'a>(inner: &ArgMatches<'a>) -> Option<Question<'a>>
    ensures { Finds (IsQuestion (codes "types") (rows_of (found_of inner.now))) result }
{
    let individual = word(inner, "INDIVIDUAL")?;
    if flag(inner, "direct")? {
        Some(Question::DirectTypes(individual))
    } else {
        Some(Question::Types(individual))
    }
}

/// The question of the command of that name, where it asks one.
fn question<'a>(name: &str, inner: &ArgMatches<'a>) -> Option<Question<'a>>
    ensures { Finds (IsQuestion name.now (rows_of (found_of inner.now))) result }
{
    match name {
        "explain" => return why(inner),
        "lacks" => return lacks(inner),
        "types" => return types(inner),
        "unsatisfiable" => return Some(Question::Unsatisfiable),
        _ => {}
    }
    if let Some(related) = Related::of_word(name) {
        return Some(Question::Names(related, word(inner, "CLASS")?));
    }
    let side = Side::of_word(name)?;
    Some(Question::Groups(side, word(inner, "CLASS")?))
}

/// How names are spelled in what is printed.
fn spelling(inner: &ArgMatches<'_>) -> Option<Spelling>
    ensures { Finds (IsSpelled (rows_of (found_of inner.now))) result }
{
    if flag(inner, "short")? {
        Some(Spelling::Short)
    } else {
        Some(Spelling::Full)
    }
}

/// The number of an option.
fn number(inner: &ArgMatches<'_>, id: &str) -> Option<u64>
    ensures { Finds (IsNumber id.now (rows_of (found_of inner.now))) result }
{
    inner.get_one::<u64>(id)
}

/// The version of the profile.
fn version(inner: &ArgMatches<'_>) -> Option<Version>
    ensures { Finds (IsVersion (rows_of (found_of inner.now))) result }
{
    match number(inner, "profile")? {
        1 => Some(Version::One),
        2 => Some(Version::Two),
        _ => None,
    }
}

/// The number of the format that the certificate is written in.
fn format(inner: &ArgMatches<'_>) -> Option<FormatNumber>
    ensures { Finds (IsFormat (rows_of (found_of inner.now))) result }
{
    match number(inner, "format")? {
        1 => Some(FormatNumber::One),
        2 => Some(FormatNumber::Two),
        _ => None,
    }
}

/// The conversion, whose names the command requires.
pub(crate) fn conversion<'a>(inner: &ArgMatches<'a>) -> Option<Conversion<'a>>
    ensures { Finds (IsConversion (rows_of (found_of inner.now))) result }
{
    Some(Conversion {
        document: word(inner, "DOC")?,
        certificate: word(inner, "CERT")?,
        output: word(inner, "OUT")?,
        format: format(inner)?,
    })
}

/// Whether the command draws facts, and has an option for how many.
fn draws_facts(command: &Command<'_>) -> bool
    ensures { result ≡ draws command.now }
{
    match command {
        Command::Check(_) | Command::Convert(_) | Command::Restrict { .. } => false,
        _ => true,
    }
}

/// The limits of the command.
pub(crate) fn limits(inner: &ArgMatches<'_>, command: &Command<'_>) -> Option<Limits>
    ensures { Finds (AreLimits (rows_of (found_of inner.now)) command.now) result }
{
    let max_bytes = number(inner, "max-bytes")?;
    let max_facts = if draws_facts(command) {
        number(inner, "max-facts")?
    } else {
        MOST_FACTS
    };
    let version = version(inner)?;
    Limits::new(max_bytes, max_facts, version)
}

/// Whether the command can be asked to tell its progress.
fn tells_progress(command: &Command<'_>) -> bool
    ensures { result ≡ tells command.now }
{
    match command {
        Command::Classify { .. } | Command::Check(_) | Command::Session { .. } => true,
        _ => false,
    }
}

/// Whether the command tells its progress.
pub(crate) fn progress(inner: &ArgMatches<'_>, command: &Command<'_>) -> Option<bool>
    ensures { Finds (IsTelling (tells command.now) (rows_of (found_of inner.now))) result }
{
    if tells_progress(command) {
        flag(inner, "progress")
    } else {
        Some(false)
    }
}

/// Whether faults of the document are told with their lines and columns.
pub(crate) fn lines(inner: &ArgMatches<'_>) -> Option<bool>
    ensures { Finds (IsLining (rows_of (found_of inner.now))) result }
{
    flag(inner, "lines")
}

/// The command of that name.
fn named<'a>(name: &str, inner: &ArgMatches<'a>) -> Option<Command<'a>>
    ensures { Finds (IsCommand name.now (rows_of (found_of inner.now))) result }
{
    match name {
        "classify" => Some(Command::Classify {
            paths: paths(inner)?,
            format: format(inner)?,
        }),
        "check" => Some(Command::Check(paths(inner)?)),
        "convert" => Some(Command::Convert(conversion(inner)?)),
        "restrict" => {
            let document = word(inner, "DOC")?;
            let output = word(inner, "OUT")?;
            Some(Command::Restrict { document, output })
        }
        "infer" => {
            let document = word(inner, "DOC")?;
            let output = word(inner, "OUT")?;
            Some(Command::Infer { document, output })
        }
        "query" => Some(Command::Query {
            document: word(inner, "DOC")?,
            expression: word(inner, "EXPRESSION")?,
            spelling: spelling(inner)?,
        }),
        "session" => Some(Command::Session {
            document: word(inner, "DOC")?,
        }),
        _ => Some(Command::Ask {
            document: word(inner, "DOC")?,
            question: question(name, inner)?,
            spelling: spelling(inner)?,
        }),
    }
}

/// The task of the command that was entered.
fn entered<'a>(matches: &ArgMatches<'a>) -> Option<Task<'a>>
    ensures { Finds (NamesTask (subcommand_rows_of matches.now)) result }
{
    let (name, inner) = matches.subcommand()?;
    let command = named(name, inner)?;
    let limits = limits(inner, &command)?;
    let progress = progress(inner, &command)?;
    let lines = lines(inner)?;
    Some(Task {
        command,
        limits,
        progress,
        lines,
    })
}

/// What words ask for that clap does not take, or why they are refused.
fn untaken<'a>(error: clap::Error) -> Result<Invocation<'a>, LineFault>
    ensures { IsToldBy error result }
{
    let kind = error.kind();
    if kind == ErrorKind::OutOfMemory {
        return Err(LineFault::Memory);
    }
    if kind == ErrorKind::DisplayVersion {
        return Ok(Invocation::Version);
    }
    Err(LineFault::Line(error))
}

/// What the program's words ask for, the first word being the program's name: a task, or with `--version` or `-V` before a command
/// the version.
///
/// # Errors
///
/// A word that is missing, unknown or one too many, an option that is given twice, a number out of its range and a call
/// for help are `Line`; that memory was refused is `Memory`.
pub fn invocation<'a>(alloc: Global, words: &'a [&'a str]) -> Result<Invocation<'a>, LineFault>
    ensures asked { IfOk result (Gives (map (λ w. w.now) words.entry.now)) }
    ensures refused { IfErr result (Refuses (map (λ w. w.now) words.entry.now)) }
{
    let Ok(mut command) = elc_command(alloc) else {
        return Err(LineFault::Memory);
    };
    let matches = match command.try_get_matches_from_mut(words) {
        Ok(matches) => matches,
        Err(error) => return untaken(error),
    };
    match entered(&matches) {
        Some(task) => return Ok(Invocation::Task(task)),
        None => return Err(missing_command(&mut command)),
    }
}

/// What to tell of words that name no command.
fn missing_command(command: &mut clap::Command<'_>) -> LineFault {
    match command.error(ErrorKind::MissingSubcommand, "no command") {
        Ok(error) => LineFault::Line(error),
        Err(_) => LineFault::Memory,
    }
}
