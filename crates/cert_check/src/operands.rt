//! Operands of axioms and of intersections, and walks along properties.
ghost use Rattle.axioms.specs.Ontology.{AtTwoPlaces};
ghost use Rattle.axioms.specs.View.{expr_numbers, ind_numbers, prop_numbers};
ghost use Rattle.cert_check.specs.Lines.{IsWalk};
ghost use Rattle.cert_check.specs.View.{IsFirstEdge, IsFirstIn, StandsBeside};
ghost use Rattle.certificate.specs.Certificate as certificate;
ghost use Rattle.certificate.specs.View.{conclusion_of, subject_of};
ghost use Rattle.std.specs.Prelude.{◌↔◌, ◌≡◌, ◌∷◌, [], Contains, IsTrue, MatchOption, map};

use axioms::{ExprId, IndId, PropId};
use certificate::{Conclusion, Subject};

pub(crate) fn has_expression(operands: &[ExprId], expression: ExprId) -> bool
    ensures { IsTrue result ↔ Contains (expr_numbers operands.now) expression.0 }
{
    operands.contains(&expression)
}

pub(crate) fn has_property(operands: &[PropId], property: PropId) -> bool
    ensures { IsTrue result ↔ Contains (prop_numbers operands.now) property.0 }
{
    operands.contains(&property)
}

/// Whether the property stands alone.
pub(crate) fn is_only(chain: &[PropId], property: PropId) -> bool
    ensures { IsTrue result ↔ (prop_numbers chain.now ≡ property.0 ∷ []) }
{
    match chain {
        [only] => *only == property,
        _ => false,
    }
}

// Whether the expression stands at another place.
fn stands_beside(operands: &[ExprId], place: usize, expression: ExprId) -> bool
    ensures { IsTrue result ↔ StandsBeside (expr_numbers operands.now) place expression.0 }
{
    for (i, operand) in operands.iter().enumerate() {
        if i != place && *operand == expression {
            return true;
        }
    }
    false
}

/// Whether the two stand at different places.
pub(crate) fn at_two_places(operands: &[ExprId], first: ExprId, second: ExprId) -> bool
    ensures { IsTrue result ↔ AtTwoPlaces (expr_numbers operands.now) first.0 second.0 }
{
    for (i, operand) in operands.iter().enumerate() {
        if *operand == first && stands_beside(operands, i, second) {
            return true;
        }
    }
    false
}

// Whether the individual stands at another place.
fn individual_stands_beside(operands: &[IndId], place: usize, individual: IndId) -> bool
    ensures { IsTrue result ↔ StandsBeside (ind_numbers operands.now) place individual.0 }
{
    for (i, operand) in operands.iter().enumerate() {
        if i != place && *operand == individual {
            return true;
        }
    }
    false
}

/// Whether the two individuals stand at different places.
pub(crate) fn individuals_at_two_places(operands: &[IndId], first: IndId, second: IndId) -> bool
    ensures { IsTrue result ↔ AtTwoPlaces (ind_numbers operands.now) first.0 second.0 }
{
    for (i, operand) in operands.iter().enumerate() {
        if *operand == first && individual_stands_beside(operands, i, second) {
            return true;
        }
    }
    false
}

// Where the first premise says that the subject lies in the expression: the other premises.
fn after_first_in(
    premises: &[Conclusion],
    subject: Subject,
    expression: ExprId,
) -> Option<&[Conclusion]>
    ensures { MatchOption result (IsFirstIn premises.now subject expression → ⊥)
        (λ others. map conclusion_of premises.now ≡ certificate.Sub (subject_of subject) expression.0 ∷ map conclusion_of others.now) }
{
    match premises {
        [Conclusion::Sub(x, c), others @ ..] if *x == subject && *c == expression => Some(others),
        _ => None,
    }
}

fn is_empty(premises: &[Conclusion]) -> bool
    ensures { IsTrue result ↔ (map conclusion_of premises.now ≡ []) }
{
    match premises {
        [] => true,
        _ => false,
    }
}

/// Whether the premises say of the subject that it lies in each operand, in their order.
pub(crate) fn are_in_each(premises: &[Conclusion], subject: Subject, operands: &[ExprId]) -> bool
    ensures { IsTrue result ↔ (map conclusion_of premises.now ≡ map (certificate.Sub (subject_of subject)) (expr_numbers operands.now)) }
{
    let mut left = premises;
    for operand in operands {
        let Some(others) = after_first_in(left, subject, *operand) else {
            return false;
        };
        left = others;
    }
    is_empty(left)
}

// Where the first premise is an edge from the subject by the property: its end, and the other premises.
fn first_edge(
    premises: &[Conclusion],
    source: Subject,
    property: PropId,
) -> Option<(Subject, &[Conclusion])>
    ensures { MatchOption result (IsFirstEdge premises.now source property → ⊥)
        (λ r. map conclusion_of premises.now ≡ certificate.Edge (subject_of source) property.0 (subject_of r.0) ∷ map conclusion_of r.1.now) }
{
    match premises {
        [Conclusion::Edge(x, r, y), others @ ..] if *x == source && *r == property => Some((
            *y, others,
        )),
        _ => None,
    }
}

// Whether a walk that has reached a subject is at its end, and no premise is left.
fn is_at_end(reached: Subject, target: Subject, premises: &[Conclusion]) -> bool
    ensures { IsTrue result ↔ IsWalk (subject_of reached) [] (subject_of target) (map conclusion_of premises.now) }
{
    match premises {
        [] => reached == target,
        _ => false,
    }
}

/// Whether the premises are edges from one subject to the other along the properties, in their order.
pub fn is_walk(source: Subject, chain: &[PropId], target: Subject, premises: &[Conclusion]) -> bool
    ensures { IsTrue result ↔ IsWalk (subject_of source) (prop_numbers chain.now) (subject_of target) (map conclusion_of premises.now) }
{
    let mut reached = source;
    let mut left = premises;
    for property in chain {
        let Some((end, others)) = first_edge(left, reached, *property) else {
            return false;
        };
        reached = end;
        left = others;
    }
    is_at_end(reached, target, left)
}
