//! Lines that are commands.
ghost use Rattle.speech.specs.Commands.{AsksOfTwo, IsCommandAmong, IsCommandOf, IsConditionedOf, IsQuestionOf, IsSubjectOf, Spells, SpellsNothing, option_words, split_words};
ghost use Rattle.std.specs.Prelude.{◌∷◌, [], codes, IfNone, IfSome};

use crate::command::{Command, TextPaths};
use crate::options::{NO_OPTIONS, Options, options_in};
use crate::sizes::{count_of_word, size_of_word};
use crate::words::{Words, words_in};
use program::{Asked, Question, Related, Shown, Side, Spelling};

/// How many bytes a line has at most, before its line feed.
pub const MOST_LINE: usize = 4096;

/// The command of one word.
fn command_alone(verb: &str) -> Option<Command<'static>>
    ensures { IsCommandOf (verb.now ∷ []) result }
{
    match verb {
        "run" => Some(Command::Run),
        "status" => Some(Command::Status),
        "unsatisfiable" => Some(Command::Ask(Question::Unsatisfiable, Spelling::Full)),
        "version" => Some(Command::Version),
        _ => None,
    }
}

/// The question about one name that the verb asks.
fn question_of_name<'l>(verb: &str, name: &'l str) -> Option<Question<'l>>
    ensures { IsQuestionOf (verb.now ∷ name.now ∷ []) result }
{
    if let Some(related) = Related::of_word(verb) {
        return Some(Question::Names(related, name));
    }
    if let Some(side) = Side::of_word(verb) {
        return Some(Question::Groups(side, name));
    }
    match verb {
        "types" => Some(Question::Types(name)),
        "direct-types" => Some(Question::DirectTypes(name)),
        _ => None,
    }
}

/// The command of two words.
fn command_with_word<'l>(verb: &str, word: &'l str) -> Option<Command<'l>>
    ensures { IsCommandOf (verb.now ∷ word.now ∷ []) result }
{
    match verb {
        "add" => Some(Command::Add(size_of_word(word)?)),
        "query" => Some(Command::Query(size_of_word(word)?)),
        "entails" => Some(Command::Entails(size_of_word(word)?)),
        "run" => Some(Command::RunSome(count_of_word(word)?)),
        "axiom" => Some(Command::Axiom(size_of_word(word)?, Spelling::Full)),
        "infer" => Some(Command::Infer(word)),
        "unsatisfiable" if word == "short" => {
            Some(Command::Ask(Question::Unsatisfiable, Spelling::Short))
        }
        _ => Some(Command::Ask(question_of_name(verb, word)?, Spelling::Full)),
    }
}

/// Whether it is asked why a class or an individual is in a class, and whether as a graph, by the verb.
fn subject_of<'l>(verb: &str, subject: &'l str) -> Option<(Asked<'l>, bool)>
    ensures { IsSubjectOf verb.now subject.now result }
{
    match verb {
        "why" => Some((Asked::Class(subject), false)),
        "dot" => Some((Asked::Class(subject), true)),
        "why-individual" => Some((Asked::Individual(subject), false)),
        "dot-individual" => Some((Asked::Individual(subject), true)),
        _ => None,
    }
}

/// Whether the conditions of a class or of an individual are asked for, by the verb.
fn conditioned_of<'l>(verb: &str, subject: &'l str) -> Option<Asked<'l>>
    ensures { IsConditionedOf verb.now subject.now result }
{
    match verb {
        "lacks" => Some(Asked::Class(subject)),
        "lacks-individual" => Some(Asked::Individual(subject)),
        _ => None,
    }
}

/// The command that asks about the subject and the class, with these options.
fn ask_of_two<'l>(
    verb: &str,
    subject: &'l str,
    class: &'l str,
    options: Options,
) -> Option<Command<'l>>
    ensures { IsCommandAmong AsksOfTwo (verb.now ∷ subject.now ∷ class.now ∷ option_words options) result }
{
    let Options {
        reached,
        axioms,
        spelling,
    } = options;
    if let Some((asked, graph)) = subject_of(verb, subject) {
        let shown = Shown {
            graph,
            reached,
            axioms,
        };
        return Some(Command::Ask(Question::Why(asked, class, shown), spelling));
    }
    if reached || axioms {
        return None;
    }
    let asked = conditioned_of(verb, subject)?;
    Some(Command::Ask(Question::Lacks(asked, class), spelling))
}

/// The command of two words and of the word `short` behind them, where these ask no question about a subject and a class.
fn command_in_short<'l>(verb: &str, word: &'l str) -> Option<Command<'l>>
    ensures { IsCommandAmong (λ command. ¬ AsksOfTwo command) (verb.now ∷ word.now ∷ codes "short" ∷ []) result }
{
    if verb == "axiom" {
        Some(Command::Axiom(size_of_word(word)?, Spelling::Short))
    } else {
        Some(Command::Ask(question_of_name(verb, word)?, Spelling::Short))
    }
}

/// The command of three words.
fn command_with_words<'l>(verb: &str, subject: &'l str, class: &'l str) -> Option<Command<'l>>
    ensures { IsCommandOf (verb.now ∷ subject.now ∷ class.now ∷ []) result }
{
    if let Some(command) = ask_of_two(verb, subject, class, NO_OPTIONS) {
        return Some(command);
    }
    if class == "short" {
        command_in_short(verb, subject)
    } else {
        None
    }
}

/// The command to write into the files at these paths, where the last is one word.
fn command_to_write<'l>(taxonomy: &'l str, instances: &'l str, text: &'l str) -> Option<Command<'l>>
    ensures { IsCommandOf (codes "write" ∷ taxonomy.now ∷ instances.now ∷ split_words text.now) result }
{
    match words_in(text) {
        Words::One(certificate) => Some(Command::Write(TextPaths {
            taxonomy,
            instances,
            certificate,
        })),
        _ => None,
    }
}

/// The command of three words and of those of the text behind them.
fn command_with_more<'l>(
    verb: &str,
    subject: &'l str,
    class: &'l str,
    text: &'l str,
) -> Option<Command<'l>>
    ensures { IsCommandOf (verb.now ∷ subject.now ∷ class.now ∷ split_words text.now) result }
{
    if verb == "write" {
        return command_to_write(subject, class, text);
    }
    let options = options_in(text)?;
    ask_of_two(verb, subject, class, options)
}

/// The command that the line is, without its line feed.
pub fn command_of(line: &str) -> Option<Command<'_>>
    ensures some { IfSome result (Spells line.now) }
    ensures none { IfNone result (SpellsNothing line.now) }
{
    if line.len() > MOST_LINE {
        return None;
    }
    match words_in(line) {
        Words::One(verb) => command_alone(verb),
        Words::Two(verb, word) => command_with_word(verb, word),
        Words::Three(verb, subject, class) => command_with_words(verb, subject, class),
        Words::Behind(verb, subject, class, text) => command_with_more(verb, subject, class, text),
    }
}
