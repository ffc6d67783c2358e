//! Names, and groups of names, as lines.
ghost use Rattle.answer_texts.specs.Names.{name_text};
ghost use Rattle.answers.specs.Names.{groups_in};
ghost use Rattle.session.specs.TextAnswers.{group_lines, group_text, later_name, name_lines};
ghost use Rattle.std.specs.List.{flat_map};
ghost use Rattle.std.specs.Prelude.{◌≡◌, ◌++◌, [], IfOk, OnOk, map};

use axioms::Memory;
use std::alloc::Global;

/// Adds a line for each name: the word, and behind it the name in angle brackets.
///
/// # Errors
///
/// `Memory` where memory was refused; then some of the lines may be there.
pub(crate) fn push_lines(out: &mut Vec<u8>, word: &[u8], names: &[&str]) -> Result<(), Memory>
    ensures { OnOk result (out.new.items ≡ out.old.items ++ name_lines word.now (map (λ s. s.now) names.now)) }
{
    for name in names {
        out.extend_from_slice(word)?;
        out.extend_from_slice(b"<")?;
        out.extend_from_slice(name.as_bytes())?;
        out.extend_from_slice(b">\n")?;
    }
    Ok(())
}

/// A line for each name, with the name in angle brackets.
///
/// # Errors
///
/// `Memory` where memory was refused.
pub(crate) fn lines_of_names(alloc: Global, names: &[&str]) -> Result<Vec<u8>, Memory>
    ensures { IfOk result (λ v. v.items ≡ name_lines [] (map (λ s. s.now) names.now)) }
{
    let mut out = Vec::new(alloc);
    push_lines(&mut out, b"", names)?;
    Ok(out)
}

/// Adds a name in angle brackets.
fn push_name(out: &mut Vec<u8>, name: &str) -> Result<(), Memory>
    ensures { OnOk result (out.new.items ≡ out.old.items ++ name_text name.now) }
{
    out.extend_from_slice(b"<")?;
    out.extend_from_slice(name.as_bytes())?;
    out.extend_from_slice(b">")?;
    Ok(())
}

/// Adds the names, each behind an equals sign.
fn push_later(out: &mut Vec<u8>, names: &[&str]) -> Result<(), Memory>
    ensures { OnOk result (out.new.items ≡ out.old.items ++ flat_map later_name (map (λ s. s.now) names.now)) }
{
    for name in names {
        out.extend_from_slice(b" = ")?;
        push_name(out, name)?;
    }
    Ok(())
}

/// Adds the names of a group, with an equals sign between two of them.
fn push_group(out: &mut Vec<u8>, group: &[&str]) -> Result<(), Memory>
    ensures { OnOk result (out.new.items ≡ out.old.items ++ group_text (map (λ s. s.now) group.now)) }
{
    match group {
        [] => Ok(()),
        [first, later @ ..] => {
            push_name(out, first)?;
            push_later(out, later)
        }
    }
}

/// A line for each group, with its names in angle brackets and an equals sign between two of them.
///
/// # Errors
///
/// `Memory` where memory was refused.
pub(crate) fn lines_of_groups(alloc: Global, groups: &[Vec<&str>]) -> Result<Vec<u8>, Memory>
    ensures { IfOk result (λ v. v.items ≡ group_lines (groups_in groups.now)) }
{
    let mut out = Vec::new(alloc);
    for group in groups {
        push_group(&mut out, group)?;
        out.push(b'\n')?;
    }
    Ok(out)
}
