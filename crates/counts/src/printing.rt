//! Normal forms as text: `e` and the number of an expression, `n` of a fresh name with its operands, `r` of a property, `c` of a
//! fresh name with its steps, `i` of an individual, and `a` of an axiom.

use axioms::{ExprId, IndId, PropId};
use normal_forms::{Class2, Form, Origin, PropId2};
use normalise::Normal;
use std::alloc::{AllocError, Global};

/// A letter and a number.
fn push_number(
    alloc: Global,
    text: &mut String,
    letter: &str,
    number: usize,
) -> Result<(), AllocError> {
    let word = format!(in alloc; " {letter}{number}")?;
    text.push_str(word.as_str())
}

fn push_operands(alloc: Global, text: &mut String, operands: &[ExprId]) -> Result<(), AllocError> {
    text.push_str("(")?;
    for operand in operands {
        push_number(alloc, text, "e", operand.index())?;
    }
    text.push_str(" )")
}

fn push_steps(alloc: Global, text: &mut String, steps: &[PropId]) -> Result<(), AllocError> {
    text.push_str("(")?;
    for step in steps {
        push_number(alloc, text, "r", step.index())?;
    }
    text.push_str(" )")
}

fn push_class(
    alloc: Global,
    text: &mut String,
    normal: &Normal,
    class: Class2,
) -> Result<(), AllocError> {
    match class {
        Class2::Expr(expr) => push_number(alloc, text, "e", expr.index()),
        Class2::Partial(number) => {
            push_number(alloc, text, "n", number as usize)?;
            push_operands(alloc, text, normal.operands(number as usize).unwrap_or(&[]))
        }
    }
}

fn push_property(
    alloc: Global,
    text: &mut String,
    normal: &Normal,
    property: PropId2,
) -> Result<(), AllocError> {
    match property {
        PropId2::Property(prop) => push_number(alloc, text, "r", prop.index()),
        PropId2::Partial(number) => {
            push_number(alloc, text, "c", number as usize)?;
            push_steps(alloc, text, normal.steps(number as usize).unwrap_or(&[]))
        }
    }
}

/// A form of two individuals.
fn push_individuals(
    alloc: Global,
    text: &mut String,
    form: &str,
    first: IndId,
    second: IndId,
) -> Result<(), AllocError> {
    text.push_str(form)?;
    push_number(alloc, text, "i", first.index())?;
    push_number(alloc, text, "i", second.index())
}

/// A form of two individuals and a property between them.
fn push_pair(
    alloc: Global,
    text: &mut String,
    form: &str,
    (source, property, target): (IndId, PropId, IndId),
) -> Result<(), AllocError> {
    text.push_str(form)?;
    push_number(alloc, text, "i", source.index())?;
    push_number(alloc, text, "r", property.index())?;
    push_number(alloc, text, "i", target.index())
}

/// The forms N1 to N4.
fn push_inclusion(
    alloc: Global,
    text: &mut String,
    normal: &Normal,
    form: Form,
) -> Result<(), AllocError> {
    match form {
        Form::N1(a, b) => {
            text.push_str("N1")?;
            push_class(alloc, text, normal, a)?;
            push_class(alloc, text, normal, b)
        }
        Form::N2(a, b, c) => {
            text.push_str("N2")?;
            push_class(alloc, text, normal, a)?;
            push_class(alloc, text, normal, b)?;
            push_class(alloc, text, normal, c)
        }
        Form::N3(a, prop, filler) => {
            text.push_str("N3")?;
            push_class(alloc, text, normal, a)?;
            push_number(alloc, text, "r", prop.index())?;
            push_number(alloc, text, "e", filler.index())
        }
        Form::N4(prop, a, b) => {
            text.push_str("N4")?;
            push_number(alloc, text, "r", prop.index())?;
            push_class(alloc, text, normal, a)?;
            push_class(alloc, text, normal, b)
        }
        _ => Ok(()),
    }
}

/// The forms N5 to N7.
fn push_of_properties(
    alloc: Global,
    text: &mut String,
    normal: &Normal,
    form: Form,
) -> Result<(), AllocError> {
    match form {
        Form::N5(r, s) => {
            text.push_str("N5")?;
            push_number(alloc, text, "r", r.index())?;
            push_number(alloc, text, "r", s.index())
        }
        Form::N6(r, s, t) => {
            text.push_str("N6")?;
            push_property(alloc, text, normal, r)?;
            push_property(alloc, text, normal, s)?;
            push_property(alloc, text, normal, t)
        }
        Form::N7(r) => {
            text.push_str("N7")?;
            push_number(alloc, text, "r", r.index())
        }
        _ => Ok(()),
    }
}

/// The forms N8 to N10, and N12.
fn push_of_individuals(
    alloc: Global,
    text: &mut String,
    normal: &Normal,
    form: Form,
) -> Result<(), AllocError> {
    match form {
        Form::N8(a, class) => {
            text.push_str("N8")?;
            push_number(alloc, text, "i", a.index())?;
            push_class(alloc, text, normal, class)
        }
        Form::N9(a, r, b) => push_pair(alloc, text, "N9", (a, r, b)),
        Form::N10(a, b) => push_individuals(alloc, text, "N10", a, b),
        Form::N12(a, r, b) => push_pair(alloc, text, "N12", (a, r, b)),
        _ => Ok(()),
    }
}

fn push_origin(alloc: Global, text: &mut String, origin: Option<Origin>) -> Result<(), AllocError> {
    match origin {
        Some(Origin::Axiom(number)) => push_number(alloc, text, "by a", number),
        Some(Origin::Expr(expr)) => push_number(alloc, text, "by e", expr.index()),
        None => text.push_str("?"),
    }
}

/// Each form in a line of its own, with what gave it.
fn push_each(alloc: Global, text: &mut String, normal: &Normal) -> Result<(), AllocError> {
    for number in 0..normal.forms().len() {
        let form = normal.forms().at(number);
        push_inclusion(alloc, text, normal, form)?;
        push_of_properties(alloc, text, normal, form)?;
        push_of_individuals(alloc, text, normal, form)?;
        push_origin(alloc, text, normal.origin(number))?;
        text.push_str("\n")?;
    }
    Ok(())
}

/// N2 of the class and each of those behind it in a list of disjoint classes.
fn push_disjoint_from(
    alloc: Global,
    text: &mut String,
    first: ExprId,
    behind: &[ExprId],
    origin: Option<Origin>,
) -> Result<(), AllocError> {
    for second in behind {
        text.push_str("N2")?;
        push_number(alloc, text, "e", first.index())?;
        push_number(alloc, text, "e", second.index())?;
        push_number(alloc, text, "e", ExprId::NOTHING.index())?;
        push_origin(alloc, text, origin)?;
        text.push_str("\n")?;
    }
    Ok(())
}

/// N2 of each two of a list of disjoint classes.
fn push_disjoint(
    alloc: Global,
    text: &mut String,
    classes: &[ExprId],
    origin: Option<Origin>,
) -> Result<(), AllocError> {
    for place in 0..classes.len() {
        push_disjoint_from(alloc, text, classes[place], &classes[place + 1..], origin)?;
    }
    Ok(())
}

/// N11 of the individual and each of those behind it in a list of different individuals.
fn push_different_from(
    alloc: Global,
    text: &mut String,
    first: IndId,
    behind: &[IndId],
    origin: Option<Origin>,
) -> Result<(), AllocError> {
    for second in behind {
        push_individuals(alloc, text, "N11", first, *second)?;
        push_origin(alloc, text, origin)?;
        text.push_str("\n")?;
    }
    Ok(())
}

/// N11 of each two of a list of different individuals.
fn push_different(
    alloc: Global,
    text: &mut String,
    individuals: &[IndId],
    origin: Option<Origin>,
) -> Result<(), AllocError> {
    for place in 0..individuals.len() {
        let behind = &individuals[place + 1..];
        push_different_from(alloc, text, individuals[place], behind, origin)?;
    }
    Ok(())
}

/// The forms that lists of disjoint classes stand for.
fn push_classes(alloc: Global, text: &mut String, normal: &Normal) -> Result<(), AllocError> {
    let lists = &normal.apart().classes;
    for list in 0..lists.len() {
        let origin = normal.disjoint_axiom(list).map(Origin::Axiom);
        push_disjoint(alloc, text, lists.at(list), origin)?;
    }
    Ok(())
}

/// The forms that lists of different individuals stand for.
fn push_differences(alloc: Global, text: &mut String, normal: &Normal) -> Result<(), AllocError> {
    let lists = &normal.apart().individuals;
    for list in 0..lists.len() {
        let origin = normal.different_axiom(list).map(Origin::Axiom);
        push_different(alloc, text, lists.at(list), origin)?;
    }
    Ok(())
}

/// Each form in a line of its own, with what gave it, those that lists of what is apart stand for behind the others; and then what was
/// asked about.
pub(crate) fn push_forms(
    alloc: Global,
    text: &mut String,
    normal: &Normal,
) -> Result<(), AllocError> {
    push_each(alloc, text, normal)?;
    push_classes(alloc, text, normal)?;
    push_differences(alloc, text, normal)?;
    if normal.asked().is_empty() {
        return Ok(());
    }
    text.push_str("asked ")?;
    push_operands(alloc, text, normal.asked())?;
    text.push_str("\n")
}
