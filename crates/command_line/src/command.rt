//! The commands that the program has.
ghost use Rattle.std.specs.Fmt.{decimal};
ghost use Rattle.std.specs.Prelude.{◌≡◌, ◌||◌, IfOk, IsOkAnd, false};
ghost use Rattle.clap.specs.Words.{app_of, rule_of, with_rule, with_subcommand as app_with_subcommand};
ghost use Rattle.clap.specs.declared.builder.command.Command.TheViews.{out-Command as fields_of};
ghost use Rattle.command_line.specs.CommandLine.{number, path, flag, max_facts, max_bytes, format, with_reading as app_with_reading, with_lines as app_with_lines, with_paths as app_with_paths, with_answer as app_with_answer, with_names as app_with_names, with_flags as app_with_flags, with_progress as app_with_progress, with_limits as app_with_limits, with_conversion as app_with_conversion, with_certificates as app_with_certificates, with_documents as app_with_documents, with_questions as app_with_questions, with_related as app_with_related, with_sides as app_with_sides, with_classes as app_with_classes, with_reasons as app_with_reasons, bare_app, check_app, class_app, classify_app, convert_app, explain_app, infer_app, lacks_app, query_app, restrict_app, session_app, types_app, unsatisfiable_app, elc_app};

use clap::{Arg, ArgAction, Command, value_parser};
use program::{MOST_BYTES, MOST_BYTES_TEXT, MOST_FACTS, MOST_FACTS_TEXT, VERSION};
use std::alloc::{AllocError, Global};

const ABOUT: &str = "Classifies ontologies in OWL 2 EL, and says why";

const EXAMPLES: &str = "Examples:
  elc classify food.ofn food.tax food.inst food.cert
  elc check food.ofn food.tax food.inst food.cert
  elc convert food.ofn food.cert food1.cert --format 1
  elc restrict food.ofn kept.ofn
  elc infer food.ofn inferred.ofn
  elc instances food.ofn http://example.org/Pizza
  elc parents food.ofn http://example.org/Pizza
  elc types food.ofn http://example.org/margherita --direct
  elc unsatisfiable food.ofn
  elc explain food.ofn http://example.org/Pizza http://example.org/Food --axioms --short
  elc explain food.ofn http://example.org/margherita http://example.org/Pizza --individual
  elc lacks food.ofn http://example.org/Pizza http://example.org/NutDish
  elc query food.ofn 'ObjectSomeValuesFrom(:contains :Nut)'
  elc session food.ofn
Names are written in full, without < and >; in an expression as in the document.";

const CLASSIFY_ABOUT: &str = "Writes the taxonomy, the instances and a certificate of both";

const CHECK_ABOUT: &str = "Checks the three texts of a classification against the document";

const CONVERT_ABOUT: &str = "Writes a certificate again in a format, without checking its lines";

const RESTRICT_ABOUT: &str =
    "Writes what of a document is of the profile as a document, and prints what is not";

const INFER_ABOUT: &str = "Writes the inferred axioms of DOC as a document to OUT";

const INSTANCES_ABOUT: &str = "Prints the individuals that belong to a class";

const SUPERS_ABOUT: &str = "Prints the classes above a class";

const SUBS_ABOUT: &str = "Prints the classes below a class";

const EQUIVALENTS_ABOUT: &str = "Prints the classes that are equal to a class";

const PARENTS_ABOUT: &str = "Prints the classes directly above a class, equal ones on one line";

const CHILDREN_ABOUT: &str = "Prints the classes directly below a class, equal ones on one line";

const TYPES_ABOUT: &str = "Prints the classes that an individual belongs to";

const UNSATISFIABLE_ABOUT: &str =
    "Prints the classes that can have no instance, and ends with status 1 where there is one";

const EXPLAIN_ABOUT: &str =
    "Prints whether a class is below another, or an individual is in it, with the proof or a counterexample";

const LACKS_ABOUT: &str =
    "Prints which of the conditions for a class another, or an individual, has and which it lacks";

const QUERY_ABOUT: &str =
    "Prints the classes above and below a class expression, and its individuals";

const SESSION_ABOUT: &str =
    "Keeps a document, and answers commands that it reads: add, run, query and others";

const DOCUMENT_HELP: &str = "The file of the ontology, in functional-style syntax";

const TAXONOMY_HELP: &str = "The file of the taxonomy";

const INSTANCES_HELP: &str = "The file of the instances";

const CERTIFICATE_HELP: &str = "The file of the certificate";

const OUTPUT_HELP: &str = "The file to write, which may be that of the certificate";

const WRITTEN_HELP: &str = "The file to write";

const CLASS_HELP: &str = "The class, by its name in full, as http://example.org/Pizza";

const EXPRESSION_HELP: &str =
    "The class expression, in functional-style syntax, with the prefixes of the document, as 'ObjectSomeValuesFrom(:contains :Nut)'";

const MEMBER_HELP: &str = "The individual, by its name in full";

const SUBJECT_HELP: &str = "The class, or the individual, that is asked about, by its name in full";

const SUPER_HELP: &str =
    "The class of which it is asked whether that is in it, by its name in full";

const INDIVIDUAL_HELP: &str = "SUB is an individual";

const DOT_HELP: &str = "Prints a graph for the program dot";

const REACHED_HELP: &str =
    "Prints of a counterexample what pairs lead to from its element, and how many others there are";

const AXIOMS_HELP: &str = "Prints behind a proof the axioms that it cites";

const DIRECT_HELP: &str = "Prints the lowest of these classes alone, equal ones on one line";

const SHORT_HELP: &str =
    "Prints names with the prefixes of the document, and in full where none fits";

const MAX_FACTS_HELP: &str = "The most facts to draw from the document, from 1 up to the default";

const MAX_BYTES_HELP: &str = "The most bytes to read of the document, from 1 up to the default";

const FORMAT_HELP: &str = "The format that the certificate is written in, 1 or 2";

const PROGRESS_HELP: &str = "Tells on standard error what is being done, and how far it is";

const PROFILE_HELP: &str = "The version of the profile that the document is read in, 1 or 2";

const LINES_HELP: &str = "Tells the line and the column of each fault of the document";

/// The command with one subcommand more, if that was made. If not, the command is let go by this one call, where each way out of the
/// caller would else let each field go.
fn with_subcommand<'a>(
    command: Command<'a>,
    made: Result<Command<'a>, AllocError>,
) -> Result<Command<'a>, AllocError>
    ensures app { IfOk result (λ c. IsOkAnd made.entry (λ s. (fields_of s).has_globals ≡ false → app_of c ≡ app_with_subcommand (app_of command.entry) (app_of s).top)) }
    ensures local { IfOk result (λ c. IsOkAnd made.entry (λ s. (fields_of c).has_globals ≡ ((fields_of command.entry).has_globals || (fields_of s).has_globals))) }
{
    command.subcommand(made?)
}

/// The command with one path or name more.
fn with_path<'a>(
    alloc: Global,
    command: Command<'a>,
    id: &'a str,
    help: &'a str,
) -> Result<Command<'a>, AllocError>
    ensures app { IfOk result (λ c. app_of c ≡ with_rule (app_of command.entry) (path id.entry.now)) }
    ensures local { (fields_of command.entry).has_globals ≡ false → IfOk result (λ c. (fields_of c).has_globals ≡ false) }
{
    command.arg(Arg::new(alloc, id).required(true).help(help))
}

/// The command with the four paths.
fn with_paths<'a>(alloc: Global, command: Command<'a>) -> Result<Command<'a>, AllocError>
    ensures app { IfOk result (λ c. app_of c ≡ app_with_paths (app_of command.entry)) }
    ensures local { (fields_of command.entry).has_globals ≡ false → IfOk result (λ c. (fields_of c).has_globals ≡ false) }
{
    let command = with_path(alloc, command, "DOC", DOCUMENT_HELP)?;
    let command = with_path(alloc, command, "TAX", TAXONOMY_HELP)?;
    let command = with_path(alloc, command, "INST", INSTANCES_HELP)?;
    with_path(alloc, command, "CERT", CERTIFICATE_HELP)
}

fn max_facts_option<'a>(alloc: Global) -> Arg<'a>
    ensures rule { rule_of result ≡ max_facts }
    ensures local { result.global ≡ false }
{
    Arg::new(alloc, "max-facts")
        .long("max-facts")
        .help(MAX_FACTS_HELP)
        .value_parser(value_parser!(u64).range(1..=MOST_FACTS as i64))
        .default_value(MOST_FACTS_TEXT)
}

fn max_bytes_option<'a>(alloc: Global) -> Arg<'a>
    ensures rule { rule_of result ≡ max_bytes }
    ensures local { result.global ≡ false }
{
    Arg::new(alloc, "max-bytes")
        .long("max-bytes")
        .help(MAX_BYTES_HELP)
        .value_parser(value_parser!(u64).range(1..=MOST_BYTES as i64))
        .default_value(MOST_BYTES_TEXT)
}

/// The option of that name, whose number is 1 or 2, and 2 where it is not given.
fn one_or_two<'a>(alloc: Global, id: &'a str, help: &'a str) -> Arg<'a>
    ensures rule { rule_of result ≡ number id.entry.now 2 (decimal 2) }
    ensures local { result.global ≡ false }
{
    Arg::new(alloc, id)
        .long(id)
        .help(help)
        .value_parser(value_parser!(u64).range(1..=2))
        .default_value("2")
}

/// The command with one flag more.
fn with_flag<'a>(
    alloc: Global,
    command: Command<'a>,
    id: &'a str,
    help: &'a str,
) -> Result<Command<'a>, AllocError>
    ensures app { IfOk result (λ c. app_of c ≡ with_rule (app_of command.entry) (flag id.entry.now)) }
    ensures local { (fields_of command.entry).has_globals ≡ false → IfOk result (λ c. (fields_of c).has_globals ≡ false) }
{
    command.arg(
        Arg::new(alloc, id)
            .long(id)
            .action(ArgAction::SetTrue)
            .help(help),
    )
}

/// The command with the options that say how the document is read.
fn with_reading<'a>(alloc: Global, command: Command<'a>) -> Result<Command<'a>, AllocError>
    ensures app { IfOk result (λ c. app_of c ≡ app_with_reading (app_of command.entry)) }
    ensures local { (fields_of command.entry).has_globals ≡ false → IfOk result (λ c. (fields_of c).has_globals ≡ false) }
{
    command
        .arg(max_bytes_option(alloc))?
        .arg(one_or_two(alloc, "profile", PROFILE_HELP))
}

/// The command with the options that say how the document is read, and the flag that says how its faults are told.
fn with_lines<'a>(alloc: Global, command: Command<'a>) -> Result<Command<'a>, AllocError>
    ensures app { IfOk result (λ c. app_of c ≡ app_with_lines (app_of command.entry)) }
    ensures local { (fields_of command.entry).has_globals ≡ false → IfOk result (λ c. (fields_of c).has_globals ≡ false) }
{
    let command = with_reading(alloc, command)?;
    with_flag(alloc, command, "lines", LINES_HELP)
}

/// The command with its limits.
fn with_limits<'a>(alloc: Global, command: Command<'a>) -> Result<Command<'a>, AllocError>
    ensures app { IfOk result (λ c. app_of c ≡ app_with_limits (app_of command.entry)) }
    ensures local { (fields_of command.entry).has_globals ≡ false → IfOk result (λ c. (fields_of c).has_globals ≡ false) }
{
    with_lines(alloc, command.arg(max_facts_option(alloc))?)
}

/// The command with the flag that asks for progress.
fn with_progress<'a>(alloc: Global, command: Command<'a>) -> Result<Command<'a>, AllocError>
    ensures app { IfOk result (λ c. app_of c ≡ app_with_progress (app_of command.entry)) }
    ensures local { (fields_of command.entry).has_globals ≡ false → IfOk result (λ c. (fields_of c).has_globals ≡ false) }
{
    with_flag(alloc, command, "progress", PROGRESS_HELP)
}

/// The command with the option of the format.
fn with_format<'a>(alloc: Global, command: Command<'a>) -> Result<Command<'a>, AllocError>
    ensures app { IfOk result (λ c. app_of c ≡ with_rule (app_of command.entry) format) }
    ensures local { (fields_of command.entry).has_globals ≡ false → IfOk result (λ c. (fields_of c).has_globals ≡ false) }
{
    command.arg(one_or_two(alloc, "format", FORMAT_HELP))
}

fn classify_command<'a>(alloc: Global) -> Result<Command<'a>, AllocError>
    ensures app { IfOk result (λ c. app_of c ≡ classify_app) }
    ensures local { IfOk result (λ c. (fields_of c).has_globals ≡ false) }
{
    let command = Command::new(alloc, "classify").about(CLASSIFY_ABOUT);
    let command = with_paths(alloc, command)?;
    let command = with_format(alloc, command)?;
    let command = with_progress(alloc, command)?;
    with_limits(alloc, command)
}

pub(crate) fn check_command<'a>(alloc: Global) -> Result<Command<'a>, AllocError>
    ensures app { IfOk result (λ c. app_of c ≡ check_app) }
    ensures local { IfOk result (λ c. (fields_of c).has_globals ≡ false) }
{
    let command = Command::new(alloc, "check").about(CHECK_ABOUT);
    let command = with_paths(alloc, command)?;
    let command = with_progress(alloc, command)?;
    with_lines(alloc, command)
}

/// The command with the document, the certificate, the file that is written, and its format.
fn with_conversion<'a>(alloc: Global, command: Command<'a>) -> Result<Command<'a>, AllocError>
    ensures app { IfOk result (λ c. app_of c ≡ app_with_conversion (app_of command.entry)) }
    ensures local { (fields_of command.entry).has_globals ≡ false → IfOk result (λ c. (fields_of c).has_globals ≡ false) }
{
    let command = with_path(alloc, command, "DOC", DOCUMENT_HELP)?;
    let command = with_path(alloc, command, "CERT", CERTIFICATE_HELP)?;
    let command = with_path(alloc, command, "OUT", OUTPUT_HELP)?;
    with_format(alloc, command)
}

pub(crate) fn convert_command<'a>(alloc: Global) -> Result<Command<'a>, AllocError>
    ensures app { IfOk result (λ c. app_of c ≡ convert_app) }
    ensures local { IfOk result (λ c. (fields_of c).has_globals ≡ false) }
{
    let command = Command::new(alloc, "convert").about(CONVERT_ABOUT);
    let command = with_conversion(alloc, command)?;
    with_lines(alloc, command)
}

fn restrict_command<'a>(alloc: Global) -> Result<Command<'a>, AllocError>
    ensures app { IfOk result (λ c. app_of c ≡ restrict_app) }
    ensures local { IfOk result (λ c. (fields_of c).has_globals ≡ false) }
{
    let command = Command::new(alloc, "restrict").about(RESTRICT_ABOUT);
    let command = with_path(alloc, command, "DOC", DOCUMENT_HELP)?;
    let command = with_path(alloc, command, "OUT", WRITTEN_HELP)?;
    with_lines(alloc, command)
}

fn infer_command<'a>(alloc: Global) -> Result<Command<'a>, AllocError>
    ensures app { IfOk result (λ c. app_of c ≡ infer_app) }
    ensures local { IfOk result (λ c. (fields_of c).has_globals ≡ false) }
{
    let command = Command::new(alloc, "infer").about(INFER_ABOUT);
    let command = with_path(alloc, command, "DOC", DOCUMENT_HELP)?;
    let command = with_path(alloc, command, "OUT", WRITTEN_HELP)?;
    with_limits(alloc, command)
}

/// The command with those that write or read certificates.
fn with_certificates<'a>(alloc: Global, command: Command<'a>) -> Result<Command<'a>, AllocError>
    ensures app { IfOk result (λ c. app_of c ≡ app_with_certificates (app_of command.entry)) }
    ensures local { (fields_of command.entry).has_globals ≡ false → IfOk result (λ c. (fields_of c).has_globals ≡ false) }
{
    let command = with_subcommand(command, classify_command(alloc))?;
    let command = with_subcommand(command, check_command(alloc))?;
    with_subcommand(command, convert_command(alloc))
}

/// The command with those that write a document.
fn with_documents<'a>(alloc: Global, command: Command<'a>) -> Result<Command<'a>, AllocError>
    ensures app { IfOk result (λ c. app_of c ≡ app_with_documents (app_of command.entry)) }
    ensures local { (fields_of command.entry).has_globals ≡ false → IfOk result (λ c. (fields_of c).has_globals ≡ false) }
{
    let command = with_subcommand(command, restrict_command(alloc))?;
    with_subcommand(command, infer_command(alloc))
}

/// The command with what all have that answer a question.
fn with_answer<'a>(alloc: Global, command: Command<'a>) -> Result<Command<'a>, AllocError>
    ensures app { IfOk result (λ c. app_of c ≡ app_with_answer (app_of command.entry)) }
    ensures local { (fields_of command.entry).has_globals ≡ false → IfOk result (λ c. (fields_of c).has_globals ≡ false) }
{
    let command = with_flag(alloc, command, "short", SHORT_HELP)?;
    with_limits(alloc, command)
}

/// The command of that word, which asks about a class.
fn class_command<'a>(
    alloc: Global,
    word: &'a str,
    about: &'a str,
) -> Result<Command<'a>, AllocError>
    ensures app { IfOk result (λ c. app_of c ≡ class_app word.entry.now) }
    ensures local { IfOk result (λ c. (fields_of c).has_globals ≡ false) }
{
    let command = Command::new(alloc, word).about(about);
    let command = with_path(alloc, command, "DOC", DOCUMENT_HELP)?;
    let command = with_path(alloc, command, "CLASS", CLASS_HELP)?;
    with_answer(alloc, command)
}

/// The command with those that ask for names that are related to a class.
fn with_related<'a>(alloc: Global, command: Command<'a>) -> Result<Command<'a>, AllocError>
    ensures app { IfOk result (λ c. app_of c ≡ app_with_related (app_of command.entry)) }
    ensures local { (fields_of command.entry).has_globals ≡ false → IfOk result (λ c. (fields_of c).has_globals ≡ false) }
{
    let command = with_subcommand(command, class_command(alloc, "instances", INSTANCES_ABOUT))?;
    let command = with_subcommand(command, class_command(alloc, "supers", SUPERS_ABOUT))?;
    let command = with_subcommand(command, class_command(alloc, "subs", SUBS_ABOUT))?;
    with_subcommand(
        command,
        class_command(alloc, "equivalents", EQUIVALENTS_ABOUT),
    )
}

/// The command with those that ask for the classes directly above and below a class.
fn with_sides<'a>(alloc: Global, command: Command<'a>) -> Result<Command<'a>, AllocError>
    ensures app { IfOk result (λ c. app_of c ≡ app_with_sides (app_of command.entry)) }
    ensures local { (fields_of command.entry).has_globals ≡ false → IfOk result (λ c. (fields_of c).has_globals ≡ false) }
{
    let command = with_subcommand(command, class_command(alloc, "parents", PARENTS_ABOUT))?;
    with_subcommand(command, class_command(alloc, "children", CHILDREN_ABOUT))
}

fn types_command<'a>(alloc: Global) -> Result<Command<'a>, AllocError>
    ensures app { IfOk result (λ c. app_of c ≡ types_app) }
    ensures local { IfOk result (λ c. (fields_of c).has_globals ≡ false) }
{
    let command = Command::new(alloc, "types").about(TYPES_ABOUT);
    let command = with_path(alloc, command, "DOC", DOCUMENT_HELP)?;
    let command = with_path(alloc, command, "INDIVIDUAL", MEMBER_HELP)?;
    let command = with_flag(alloc, command, "direct", DIRECT_HELP)?;
    with_answer(alloc, command)
}

fn unsatisfiable_command<'a>(alloc: Global) -> Result<Command<'a>, AllocError>
    ensures app { IfOk result (λ c. app_of c ≡ unsatisfiable_app) }
    ensures local { IfOk result (λ c. (fields_of c).has_globals ≡ false) }
{
    let command = Command::new(alloc, "unsatisfiable").about(UNSATISFIABLE_ABOUT);
    let command = with_path(alloc, command, "DOC", DOCUMENT_HELP)?;
    with_answer(alloc, command)
}

/// The command with those that ask for classes otherwise.
fn with_classes<'a>(alloc: Global, command: Command<'a>) -> Result<Command<'a>, AllocError>
    ensures app { IfOk result (λ c. app_of c ≡ app_with_classes (app_of command.entry)) }
    ensures local { (fields_of command.entry).has_globals ≡ false → IfOk result (λ c. (fields_of c).has_globals ≡ false) }
{
    let command = with_subcommand(command, types_command(alloc))?;
    with_subcommand(command, unsatisfiable_command(alloc))
}

/// The command with the document, the two names that a question is of, and what the first is.
fn with_names<'a>(alloc: Global, command: Command<'a>) -> Result<Command<'a>, AllocError>
    ensures app { IfOk result (λ c. app_of c ≡ app_with_names (app_of command.entry)) }
    ensures local { (fields_of command.entry).has_globals ≡ false → IfOk result (λ c. (fields_of c).has_globals ≡ false) }
{
    let command = with_path(alloc, command, "DOC", DOCUMENT_HELP)?;
    let command = with_path(alloc, command, "SUB", SUBJECT_HELP)?;
    let command = with_path(alloc, command, "SUPER", SUPER_HELP)?;
    with_flag(alloc, command, "individual", INDIVIDUAL_HELP)
}

/// The command with the flags that say how an explanation is shown.
fn with_flags<'a>(alloc: Global, command: Command<'a>) -> Result<Command<'a>, AllocError>
    ensures app { IfOk result (λ c. app_of c ≡ app_with_flags (app_of command.entry)) }
    ensures local { (fields_of command.entry).has_globals ≡ false → IfOk result (λ c. (fields_of c).has_globals ≡ false) }
{
    let command = with_flag(alloc, command, "dot", DOT_HELP)?;
    let command = with_flag(alloc, command, "reached", REACHED_HELP)?;
    with_flag(alloc, command, "axioms", AXIOMS_HELP)
}

fn explain_command<'a>(alloc: Global) -> Result<Command<'a>, AllocError>
    ensures app { IfOk result (λ c. app_of c ≡ explain_app) }
    ensures local { IfOk result (λ c. (fields_of c).has_globals ≡ false) }
{
    let command = Command::new(alloc, "explain").about(EXPLAIN_ABOUT);
    let command = with_names(alloc, command)?;
    let command = with_flags(alloc, command)?;
    with_answer(alloc, command)
}

fn lacks_command<'a>(alloc: Global) -> Result<Command<'a>, AllocError>
    ensures app { IfOk result (λ c. app_of c ≡ lacks_app) }
    ensures local { IfOk result (λ c. (fields_of c).has_globals ≡ false) }
{
    let command = Command::new(alloc, "lacks").about(LACKS_ABOUT);
    let command = with_names(alloc, command)?;
    with_answer(alloc, command)
}

/// The command with those that ask of two names why, or why not.
fn with_reasons<'a>(alloc: Global, command: Command<'a>) -> Result<Command<'a>, AllocError>
    ensures app { IfOk result (λ c. app_of c ≡ app_with_reasons (app_of command.entry)) }
    ensures local { (fields_of command.entry).has_globals ≡ false → IfOk result (λ c. (fields_of c).has_globals ≡ false) }
{
    let command = with_subcommand(command, explain_command(alloc))?;
    with_subcommand(command, lacks_command(alloc))
}

fn query_command<'a>(alloc: Global) -> Result<Command<'a>, AllocError>
    ensures app { IfOk result (λ c. app_of c ≡ query_app) }
    ensures local { IfOk result (λ c. (fields_of c).has_globals ≡ false) }
{
    let command = Command::new(alloc, "query").about(QUERY_ABOUT);
    let command = with_path(alloc, command, "DOC", DOCUMENT_HELP)?;
    let command = with_path(alloc, command, "EXPRESSION", EXPRESSION_HELP)?;
    with_answer(alloc, command)
}

fn session_command<'a>(alloc: Global) -> Result<Command<'a>, AllocError>
    ensures app { IfOk result (λ c. app_of c ≡ session_app) }
    ensures local { IfOk result (λ c. (fields_of c).has_globals ≡ false) }
{
    let command = Command::new(alloc, "session").about(SESSION_ABOUT);
    let command = with_path(alloc, command, "DOC", DOCUMENT_HELP)?;
    let command = with_progress(alloc, command)?;
    with_limits(alloc, command)
}

/// The command with those that ask about a document.
fn with_questions<'a>(alloc: Global, command: Command<'a>) -> Result<Command<'a>, AllocError>
    ensures app { IfOk result (λ c. app_of c ≡ app_with_questions (app_of command.entry)) }
    ensures local { (fields_of command.entry).has_globals ≡ false → IfOk result (λ c. (fields_of c).has_globals ≡ false) }
{
    let command = with_related(alloc, command)?;
    let command = with_sides(alloc, command)?;
    let command = with_classes(alloc, command)?;
    let command = with_reasons(alloc, command)?;
    with_subcommand(command, query_command(alloc))
}

/// The program without its commands.
fn bare_command<'a>(alloc: Global) -> Command<'a>
    ensures app { app_of result ≡ bare_app }
    ensures local { (fields_of result).has_globals ≡ false }
{
    Command::new(alloc, "elc")
        .about(ABOUT)
        .after_help(EXAMPLES)
        .version(VERSION)
        .subcommand_required(true)
}

/// The program's command line.
pub(crate) fn elc_command<'a>(alloc: Global) -> Result<Command<'a>, AllocError>
    ensures app { IfOk result (λ c. app_of c ≡ elc_app) }
    ensures local { IfOk result (λ c. (fields_of c).has_globals ≡ false) }
{
    let command = bare_command(alloc);
    let command = with_certificates(alloc, command)?;
    let command = with_documents(alloc, command)?;
    let command = with_questions(alloc, command)?;
    with_subcommand(command, session_command(alloc))
}
