//! The words of a line.
ghost use Rattle.speech.specs.Commands.{AreWords, split_words};

/// The words of a line.
#[derive(Clone, Copy)]
pub(crate) enum Words<'l> {
    One(&'l str),
    Two(&'l str, &'l str),
    Three(&'l str, &'l str, &'l str),
    /// Three words, and behind the space that follows them the text of others.
    Behind(&'l str, &'l str, &'l str, &'l str),
}

/// What stands between the spaces of the line.
pub(crate) fn words_in(line: &str) -> Words<'_>
    ensures { AreWords result (split_words line.now) }
{
    let Some((first, others)) = line.split_once(' ') else {
        return Words::One(line);
    };
    let Some((second, others)) = others.split_once(' ') else {
        return Words::Two(first, others);
    };
    match others.split_once(' ') {
        Some((third, rest)) => Words::Behind(first, second, third, rest),
        None => Words::Three(first, second, others),
    }
}
