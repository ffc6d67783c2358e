//! The lines of worked closures, as values and as text.
ghost use Rattle.closure.specs.Closure.{Expression, IsRoot};
ghost use Rattle.std.specs.Prelude.{IfSome, List, ℕ};

use crate::asked;
use axioms::{ClassId, ExprId, IndId, Kind, Ontology};
use cert_check::{Conclusion, Line, Rule, Subject, read_certificate};
use certificate::FormatOne;
use certificate_text::LineText;
use classification::is_consistent;
use engine::{Closed, Indexed};
use explain::{contradiction, contradiction_text, line_text, lines, lines_of};
use facts::Context;
use std::alloc::Global;
use std::test::Fail;

/// The classes A and B are the expressions 2 and 3.
const ONE_SUBCLASS: &str = "Ontology(SubClassOf(<x:A> <x:B>))";

/// The individual a is in A, in which nothing is.
const INDIVIDUAL_OF_NOTHING: &str =
    "Prefix(:=<x:>) Ontology(SubClassOf(:A owl:Nothing) ClassAssertion(:A :a))";

/// Which classes lie below which by one subclass axiom.
const BELOW: &[(u32, u32)] = &[
    (0, 0),
    (1, 0),
    (1, 1),
    (2, 0),
    (2, 2),
    (2, 3),
    (3, 0),
    (3, 3),
];

/// Whether a line says that the one class lies below the other.
fn is_said(lines: &[Line], below: u32, above: u32) -> bool {
    let said = Conclusion::Sub(Subject::Expr(ExprId(below)), ExprId(above));
    lines.iter().any(|line| line.conclusion == said)
}

/// Whether the lines say which classes lie below which by one subclass axiom, and no more.
fn say_one_subclass(lines: &[Line]) -> bool {
    for row in BELOW {
        let (below, above) = *row;
        if !is_said(lines, below, above) {
            return false;
        }
    }
    lines.len() == BELOW.len()
}

/// Whether there are such lines.
fn has_lines(closed: &Closed<'_>) -> bool {
    match lines(closed) {
        Ok(lines) => say_one_subclass(&lines),
        Err(_) => false,
    }
}

/// Whether the text, read as that of a certificate of its lines alone, has such lines.
fn reads_as_lines(alloc: Global, ontology: &Ontology, text: &LineText<FormatOne>) -> bool {
    let Ok(bytes) = text.alone(alloc) else {
        return false;
    };
    match read_certificate(alloc, ontology, &bytes) {
        Ok(certificate) => say_one_subclass(certificate.lines()),
        Err(_) => false,
    }
}

/// Whether there is a text of such lines.
fn has_text(closed: &Closed<'_>) -> bool {
    match line_text::<FormatOne>(closed) {
        Ok(text) => {
            text.len() == BELOW.len()
                && reads_as_lines(closed.allocator(), closed.ontology(), &text)
        }
        Err(_) => false,
    }
}

/// A line that puts a subject into a class.
#[derive(Clone, Copy)]
struct Step {
    class: u32,
    rule: Rule,
    axiom: Option<usize>,
    premises: &'static [u64],
}

/// Whether the line is the step of the subject.
fn is_step(line: &Line, subject: Subject, step: &Step) -> bool {
    line.conclusion == Conclusion::Sub(subject, ExprId(step.class))
        && line.rule == step.rule
        && line.axiom == step.axiom
        && line.premises.as_slice() == step.premises
}

/// Whether the lines are these steps of the subject, in this order.
fn are_steps(lines: &[Line], subject: Subject, steps: &[Step]) -> bool {
    for (line, step) in lines.iter().zip(steps) {
        if !is_step(line, subject, step) {
            return false;
        }
    }
    lines.len() == steps.len()
}

/// a is in A by its assertion, and so in `owl:Nothing` by the other axiom.
const TO_NOTHING: &[Step] = &[
    Step {
        class: 2,
        rule: Rule::K15,
        axiom: Some(2),
        premises: &[],
    },
    Step {
        class: 1,
        rule: Rule::K4,
        axiom: Some(1),
        premises: &[1],
    },
];

/// Whether these lines are the contradiction.
fn has_contradiction(indexed: &Indexed<'_>) -> bool {
    if is_consistent(indexed) {
        return false;
    }
    match contradiction(indexed.closed()) {
        Ok(lines) => are_steps(&lines, Subject::Individual(IndId(0)), TO_NOTHING),
        Err(_) => false,
    }
}

/// The certificate of the contradiction.
const TWO_STEPS: &[u8] = b"elcert 1 inconsistent\nsub i0 e2 K15 a2\nsub i0 e1 K4 a1 1\nend\n";

/// Whether the text is that of the certificate.
fn is_two_steps(alloc: Global, text: &LineText<FormatOne>) -> bool {
    match text.alone(alloc) {
        Ok(bytes) => bytes.as_slice() == TWO_STEPS,
        Err(_) => false,
    }
}

/// Whether the text of the contradiction is that of the certificate.
fn has_contradiction_text(indexed: &Indexed<'_>) -> bool {
    if is_consistent(indexed) {
        return false;
    }
    match contradiction_text::<FormatOne>(indexed.closed()) {
        Ok(text) => is_two_steps(indexed.closed().allocator(), &text),
        Err(_) => false,
    }
}

/// A lies below D, and below C by way of B. These are the expressions 2, 3, 5 and 4.
const BRANCHES: &str =
    "Prefix(:=<x:>) Ontology(SubClassOf(:A :D) SubClassOf(:A :B) SubClassOf(:B :C))";

/// Why A lies below C: each class lies below itself, and the second axiom and the third lead from A to C.
const A_BELOW_C: &[Step] = &[
    Step {
        class: 2,
        rule: Rule::K1,
        axiom: None,
        premises: &[],
    },
    Step {
        class: 4,
        rule: Rule::K4,
        axiom: Some(2),
        premises: &[1],
    },
    Step {
        class: 5,
        rule: Rule::K4,
        axiom: Some(3),
        premises: &[2],
    },
];

/// The class of that name, as an expression, which is a context whatever is asked about.
fn class_named(ontology: &Ontology, name: &str) -> Option<ExprId>
    ensures { (asked : List ℕ) → IfSome result (λ e. IsRoot ontology.now asked (Expression e.0)) }
{
    let number = ontology.number_of(Kind::Class, name)?;
    ontology.class_expr(ClassId(number))
}

/// Whether A lies below C by these lines and no others.
fn has_lines_of(indexed: &Indexed<'_>) -> bool {
    let ontology = indexed.closed().ontology();
    let (Some(below), Some(above)) = (class_named(ontology, "x:A"), class_named(ontology, "x:C"))
    else {
        return false;
    };
    match lines_of(indexed, Context::Expr(below), above) {
        Ok(Some(lines)) => are_steps(&lines, Subject::Expr(ExprId(2)), A_BELOW_C),
        _ => false,
    }
}

/// Whether that C lies below A is found to be no fact.
fn has_no_lines(indexed: &Indexed<'_>) -> bool {
    let ontology = indexed.closed().ontology();
    let (Some(below), Some(above)) = (class_named(ontology, "x:C"), class_named(ontology, "x:A"))
    else {
        return false;
    };
    matches!(lines_of(indexed, Context::Expr(below), above), Ok(None))
}

/// What is asked of a saturation: whether it is what was worked out for its document.
#[derive(Clone, Copy)]
pub(crate) enum Asked {
    Lines,
    Text,
    Contradiction,
    ContradictionText,
    LinesOfFact,
    LinesOfNoFact,
}

/// The answer.
pub(crate) fn answer(indexed: &Indexed<'_>, asked: Asked) -> bool {
    match asked {
        Asked::Lines => has_lines(indexed.closed()),
        Asked::Text => has_text(indexed.closed()),
        Asked::Contradiction => has_contradiction(indexed),
        Asked::ContradictionText => has_contradiction_text(indexed),
        Asked::LinesOfFact => has_lines_of(indexed),
        Asked::LinesOfNoFact => has_no_lines(indexed),
    }
}

/// Documents, and what is asked of each.
const ROWS: &[(&str, asked::Asked)] = &[
    (ONE_SUBCLASS, asked::Asked::Derivation(Asked::Lines)),
    (ONE_SUBCLASS, asked::Asked::Derivation(Asked::Text)),
    (
        INDIVIDUAL_OF_NOTHING,
        asked::Asked::Derivation(Asked::Contradiction),
    ),
    (
        INDIVIDUAL_OF_NOTHING,
        asked::Asked::Derivation(Asked::ContradictionText),
    ),
    (BRANCHES, asked::Asked::Derivation(Asked::LinesOfFact)),
    (BRANCHES, asked::Asked::Derivation(Asked::LinesOfNoFact)),
];

#[test]
fn lines_of_worked_documents(rt: HostRuntime) -> Result<(), Fail> {
    asked::assert_rows(&rt, ROWS)
}
