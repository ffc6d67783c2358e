//! The rules of derivation lines.
ghost use Rattle.axioms.specs.Ontology as numbered;
ghost use Rattle.axioms.specs.View.{axiom_of};
ghost use Rattle.cert_check.specs.Lines.{IsMovedEdge};
ghost use Rattle.cert_check.specs.View.{FollowsFrom};
ghost use Rattle.certificate.specs.Certificate as certificate;
ghost use Rattle.certificate.specs.declared.line.Rule.TheVariants as rules;
ghost use Rattle.certificate.specs.View.{conclusion_of, subject_of};
ghost use Rattle.std.specs.Prelude.{◌↔◌, ◌≡◌, IsTrue, List, Some, map, option_map, slice_get, ℕ};

use crate::operands::{
    are_in_each, at_two_places, has_expression, has_property, individuals_at_two_places, is_only,
    is_walk,
};
use axioms::{Axiom, Expr, ExprId, IndId, Ontology};
use certificate::{Conclusion, Rule, Subject};

/// Whether the conclusion follows by the rule from the premises, in their order, and the stated axiom, if there is one.
pub(crate) fn follows(
    ontology: &Ontology,
    rule: Rule,
    premises: &[Conclusion],
    stated: Option<&Axiom>,
    conclusion: Conclusion,
) -> bool
    ensures { IsTrue result ↔ FollowsFrom ontology.now rule premises.now (option_map (λ a. axiom_of a.now) stated.entry) conclusion }
{
    match rule {
        Rule::K1 => by_k1(ontology, premises, stated, conclusion),
        Rule::K2 => by_k2(ontology, premises, stated, conclusion),
        Rule::K3 => by_k3(ontology, premises, stated, conclusion),
        Rule::K4 => by_k4(ontology, premises, stated, conclusion),
        Rule::K5 => by_k5(ontology, premises, stated, conclusion),
        Rule::K6 => by_k6(ontology, premises, stated, conclusion),
        Rule::K7 => by_k7(ontology, premises, stated, conclusion),
        Rule::K8 => by_k8(ontology, premises, stated, conclusion),
        Rule::K9 => by_k9(ontology, premises, stated, conclusion),
        Rule::K10 => by_k10(ontology, premises, stated, conclusion),
        Rule::K11 => by_k11(ontology, premises, stated, conclusion),
        Rule::K12 => by_k12(ontology, premises, stated, conclusion),
        Rule::K13 => by_k13(ontology, premises, stated, conclusion),
        Rule::K14 => by_k14(ontology, premises, stated, conclusion),
        Rule::K15 => by_k15(ontology, premises, stated, conclusion),
        Rule::K16 => by_k16(ontology, premises, stated, conclusion),
        Rule::K17 => by_k17(ontology, premises, stated, conclusion),
        Rule::K18 => by_k18(ontology, premises, stated, conclusion),
        Rule::K19 => by_k19(ontology, premises, stated, conclusion),
        Rule::K20 => by_k20(ontology, premises, stated, conclusion),
    }
}

// Each expression lies in itself.
fn by_k1(
    ontology: &Ontology,
    premises: &[Conclusion],
    stated: Option<&Axiom>,
    conclusion: Conclusion,
) -> bool
    ensures { IsTrue result ↔ FollowsFrom ontology.now rules.K1 premises.now (option_map (λ a. axiom_of a.now) stated.entry) conclusion }
{
    match (premises, stated, conclusion) {
        ([], None, Conclusion::Sub(Subject::Expr(x), c)) => x == c,
        _ => false,
    }
}

// Each subject lies in owl:Thing.
fn by_k2(
    ontology: &Ontology,
    premises: &[Conclusion],
    stated: Option<&Axiom>,
    conclusion: Conclusion,
) -> bool
    ensures { IsTrue result ↔ FollowsFrom ontology.now rules.K2 premises.now (option_map (λ a. axiom_of a.now) stated.entry) conclusion }
{
    match (premises, stated, conclusion) {
        ([], None, Conclusion::Sub(_, c)) => c == ExprId::THING,
        _ => false,
    }
}

// What lies in owl:Nothing lies in each expression.
fn by_k3(
    ontology: &Ontology,
    premises: &[Conclusion],
    stated: Option<&Axiom>,
    conclusion: Conclusion,
) -> bool
    ensures { IsTrue result ↔ FollowsFrom ontology.now rules.K3 premises.now (option_map (λ a. axiom_of a.now) stated.entry) conclusion }
{
    match (premises, stated, conclusion) {
        ([Conclusion::Sub(x, c)], None, Conclusion::Sub(y, _)) => *x == y && *c == ExprId::NOTHING,
        _ => false,
    }
}

// By a subclass axiom, or by two operands of an equivalence.
fn by_k4(
    ontology: &Ontology,
    premises: &[Conclusion],
    stated: Option<&Axiom>,
    conclusion: Conclusion,
) -> bool
    ensures { IsTrue result ↔ FollowsFrom ontology.now rules.K4 premises.now (option_map (λ a. axiom_of a.now) stated.entry) conclusion }
{
    match (premises, stated, conclusion) {
        ([Conclusion::Sub(x, c)], Some(Axiom::SubClass(a, b)), Conclusion::Sub(y, d)) => *x == y
            && c == a
            && d == *b,
        (
            [Conclusion::Sub(x, c)],
            Some(Axiom::EquivalentClasses(operands)),
            Conclusion::Sub(y, d),
        ) => { *x == y && has_expression(operands, *c) && has_expression(operands, d) }
        _ => false,
    }
}

// Whether the premises say of the subject that it lies in each operand of the intersection, in their order.
fn is_in_each_operand(
    ontology: &Ontology,
    premises: &[Conclusion],
    subject: Subject,
    intersection: ExprId,
) -> bool
    ensures { IsTrue result ↔ ((ds : List ℕ) × (slice_get ontology.now.nodes intersection.0 ≡ Some (numbered.And ds))
        × (map conclusion_of premises.now ≡ map (certificate.Sub (subject_of subject)) ds)) }
{
    match ontology.expr(intersection) {
        Some(Expr::And(operands)) => are_in_each(premises, subject, operands),
        _ => false,
    }
}

// What lies in each operand lies in the intersection.
fn by_k5(
    ontology: &Ontology,
    premises: &[Conclusion],
    stated: Option<&Axiom>,
    conclusion: Conclusion,
) -> bool
    ensures { IsTrue result ↔ FollowsFrom ontology.now rules.K5 premises.now (option_map (λ a. axiom_of a.now) stated.entry) conclusion }
{
    match (stated, conclusion) {
        (None, Conclusion::Sub(x, c)) => is_in_each_operand(ontology, premises, x, c),
        _ => false,
    }
}

// What lies in an intersection lies in each operand.
fn by_k6(
    ontology: &Ontology,
    premises: &[Conclusion],
    stated: Option<&Axiom>,
    conclusion: Conclusion,
) -> bool
    ensures { IsTrue result ↔ FollowsFrom ontology.now rules.K6 premises.now (option_map (λ a. axiom_of a.now) stated.entry) conclusion }
{
    match (premises, stated, conclusion) {
        ([Conclusion::Sub(x, c)], None, Conclusion::Sub(y, d)) => match ontology.expr(*c) {
            Some(Expr::And(operands)) => *x == y && has_expression(operands, d),
            _ => false,
        },
        _ => false,
    }
}

// What lies in two disjoint expressions lies in owl:Nothing.
fn by_k7(
    ontology: &Ontology,
    premises: &[Conclusion],
    stated: Option<&Axiom>,
    conclusion: Conclusion,
) -> bool
    ensures { IsTrue result ↔ FollowsFrom ontology.now rules.K7 premises.now (option_map (λ a. axiom_of a.now) stated.entry) conclusion }
{
    match (premises, stated, conclusion) {
        (
            [Conclusion::Sub(x, c), Conclusion::Sub(y, d)],
            Some(Axiom::DisjointClasses(operands)),
            Conclusion::Sub(z, e),
        ) => { x == y && *x == z && at_two_places(operands, *c, *d) && e == ExprId::NOTHING }
        _ => false,
    }
}

// What lies in an existential restriction has a successor in its filler.
fn by_k8(
    ontology: &Ontology,
    premises: &[Conclusion],
    stated: Option<&Axiom>,
    conclusion: Conclusion,
) -> bool
    ensures { IsTrue result ↔ FollowsFrom ontology.now rules.K8 premises.now (option_map (λ a. axiom_of a.now) stated.entry) conclusion }
{
    match (premises, stated, conclusion) {
        ([Conclusion::Sub(x, e)], None, Conclusion::Edge(y, r, Subject::Expr(c))) =>
            match ontology.expr(*e) {
                Some(Expr::Some(s, d)) => *x == y && *s == r && *d == c,
                _ => false,
            },
        _ => false,
    }
}

// What has a successor in an expression lies in the existential restriction.
fn by_k9(
    ontology: &Ontology,
    premises: &[Conclusion],
    stated: Option<&Axiom>,
    conclusion: Conclusion,
) -> bool
    ensures { IsTrue result ↔ FollowsFrom ontology.now rules.K9 premises.now (option_map (λ a. axiom_of a.now) stated.entry) conclusion }
{
    match (premises, stated, conclusion) {
        ([Conclusion::Edge(x, r, y), Conclusion::Sub(z, c)], None, Conclusion::Sub(w, e)) =>
            match ontology.expr(e) {
                Some(Expr::Some(s, d)) => *x == w && y == z && s == r && d == c,
                _ => false,
            },
        _ => false,
    }
}

// What has a successor by a property lies in the property's domain.
fn by_k10(
    ontology: &Ontology,
    premises: &[Conclusion],
    stated: Option<&Axiom>,
    conclusion: Conclusion,
) -> bool
    ensures { IsTrue result ↔ FollowsFrom ontology.now rules.K10 premises.now (option_map (λ a. axiom_of a.now) stated.entry) conclusion }
{
    match (premises, stated, conclusion) {
        ([Conclusion::Edge(x, r, _)], Some(Axiom::Domain(s, c)), Conclusion::Sub(z, d)) => *x == z
            && r == s
            && *c == d,
        _ => false,
    }
}

// What has a successor in owl:Nothing lies in owl:Nothing.
fn by_k11(
    ontology: &Ontology,
    premises: &[Conclusion],
    stated: Option<&Axiom>,
    conclusion: Conclusion,
) -> bool
    ensures { IsTrue result ↔ FollowsFrom ontology.now rules.K11 premises.now (option_map (λ a. axiom_of a.now) stated.entry) conclusion }
{
    match (premises, stated, conclusion) {
        ([Conclusion::Edge(x, _, y), Conclusion::Sub(z, c)], None, Conclusion::Sub(w, d)) => {
            *x == w && y == z && *c == ExprId::NOTHING && d == ExprId::NOTHING
        }
        _ => false,
    }
}

// By a plain subproperty axiom, or by two operands of an equivalence.
fn by_k12(
    ontology: &Ontology,
    premises: &[Conclusion],
    stated: Option<&Axiom>,
    conclusion: Conclusion,
) -> bool
    ensures { IsTrue result ↔ FollowsFrom ontology.now rules.K12 premises.now (option_map (λ a. axiom_of a.now) stated.entry) conclusion }
{
    match (premises, stated, conclusion) {
        (
            [Conclusion::Edge(x, r, y)],
            Some(Axiom::SubProperty(chain, t)),
            Conclusion::Edge(z, s, w),
        ) => { *x == z && *y == w && is_only(chain, *r) && *t == s }
        (
            [Conclusion::Edge(x, r, y)],
            Some(Axiom::EquivalentProperties(operands)),
            Conclusion::Edge(z, s, w),
        ) => { *x == z && *y == w && has_property(operands, *r) && has_property(operands, s) }
        _ => false,
    }
}

// By a property chain axiom, or by a transitive property.
fn by_k13(
    ontology: &Ontology,
    premises: &[Conclusion],
    stated: Option<&Axiom>,
    conclusion: Conclusion,
) -> bool
    ensures { IsTrue result ↔ FollowsFrom ontology.now rules.K13 premises.now (option_map (λ a. axiom_of a.now) stated.entry) conclusion }
{
    match (stated, conclusion) {
        (Some(Axiom::SubProperty(chain, t)), Conclusion::Edge(x, s, y)) => {
            1 < chain.len() && is_walk(x, chain, y, premises) && *t == s
        }
        (Some(Axiom::Transitive(t)), Conclusion::Edge(x, s, y)) => is_walk(
            x,
            &[*t, *t],
            y,
            premises,
        ) && *t == s,
        _ => false,
    }
}

// A reflexive property leads from each subject to itself.
fn by_k14(
    ontology: &Ontology,
    premises: &[Conclusion],
    stated: Option<&Axiom>,
    conclusion: Conclusion,
) -> bool
    ensures { IsTrue result ↔ FollowsFrom ontology.now rules.K14 premises.now (option_map (λ a. axiom_of a.now) stated.entry) conclusion }
{
    match (premises, stated, conclusion) {
        ([], Some(Axiom::Reflexive(r)), Conclusion::Edge(x, s, y)) => x == y && *r == s,
        _ => false,
    }
}

// By a class assertion.
fn by_k15(
    ontology: &Ontology,
    premises: &[Conclusion],
    stated: Option<&Axiom>,
    conclusion: Conclusion,
) -> bool
    ensures { IsTrue result ↔ FollowsFrom ontology.now rules.K15 premises.now (option_map (λ a. axiom_of a.now) stated.entry) conclusion }
{
    match (premises, stated, conclusion) {
        ([], Some(Axiom::ClassAssertion(c, a)), Conclusion::Sub(x, d)) => x
            == Subject::Individual(*a)
            && *c == d,
        _ => false,
    }
}

// By a property assertion.
fn by_k16(
    ontology: &Ontology,
    premises: &[Conclusion],
    stated: Option<&Axiom>,
    conclusion: Conclusion,
) -> bool
    ensures { IsTrue result ↔ FollowsFrom ontology.now rules.K16 premises.now (option_map (λ a. axiom_of a.now) stated.entry) conclusion }
{
    match (premises, stated, conclusion) {
        ([], Some(Axiom::PropertyAssertion(r, a, b)), Conclusion::Edge(x, s, y)) => {
            x == Subject::Individual(*a) && *r == s && y == Subject::Individual(*b)
        }
        _ => false,
    }
}

// By an axiom of individuals that are one.
fn by_k17(
    ontology: &Ontology,
    premises: &[Conclusion],
    stated: Option<&Axiom>,
    conclusion: Conclusion,
) -> bool
    ensures { IsTrue result ↔ FollowsFrom ontology.now rules.K17 premises.now (option_map (λ a. axiom_of a.now) stated.entry) conclusion }
{
    match (premises, stated, conclusion) {
        ([], Some(Axiom::SameIndividuals(operands)), Conclusion::Same(a, b)) => {
            individuals_at_two_places(operands, a, b)
        }
        _ => false,
    }
}

// What is one with what is one with a third is one with the third.
fn by_k18(
    ontology: &Ontology,
    premises: &[Conclusion],
    stated: Option<&Axiom>,
    conclusion: Conclusion,
) -> bool
    ensures { IsTrue result ↔ FollowsFrom ontology.now rules.K18 premises.now (option_map (λ a. axiom_of a.now) stated.entry) conclusion }
{
    match (premises, stated, conclusion) {
        ([Conclusion::Same(a, b), Conclusion::Same(c, d)], None, Conclusion::Same(e, f)) => {
            b == c && *a == e && *d == f
        }
        _ => false,
    }
}

// Whether the first is an edge, and the second that edge with the individual in the place of the other, at its source or at its target.
fn is_moved(individual: IndId, other: IndId, edge: Conclusion, moved: Conclusion) -> bool
    ensures { IsTrue result ↔ IsMovedEdge individual.0 other.0 (conclusion_of edge) (conclusion_of moved) }
{
    let to = Subject::Individual(individual);
    let from = Subject::Individual(other);
    match (edge, moved) {
        (Conclusion::Edge(x, r, y), Conclusion::Edge(z, s, w)) => {
            r == s && ((x == from && z == to && y == w) || (y == from && w == to && x == z))
        }
        _ => false,
    }
}

// What holds of an individual holds of one that is one with it: where it lies, what it leads to, and what leads to it.
fn by_k19(
    ontology: &Ontology,
    premises: &[Conclusion],
    stated: Option<&Axiom>,
    conclusion: Conclusion,
) -> bool
    ensures { IsTrue result ↔ FollowsFrom ontology.now rules.K19 premises.now (option_map (λ a. axiom_of a.now) stated.entry) conclusion }
{
    match (premises, stated, conclusion) {
        ([Conclusion::Same(a, b), Conclusion::Sub(y, c)], None, Conclusion::Sub(x, d)) => {
            *y == Subject::Individual(*b) && x == Subject::Individual(*a) && *c == d
        }
        ([Conclusion::Same(a, b), edge], None, moved) => is_moved(*a, *b, *edge, moved),
        _ => false,
    }
}

// Two individuals that are one and differ lie in owl:Nothing, and so does the source of a pair that is denied.
fn by_k20(
    ontology: &Ontology,
    premises: &[Conclusion],
    stated: Option<&Axiom>,
    conclusion: Conclusion,
) -> bool
    ensures { IsTrue result ↔ FollowsFrom ontology.now rules.K20 premises.now (option_map (λ a. axiom_of a.now) stated.entry) conclusion }
{
    match (premises, stated, conclusion) {
        (
            [Conclusion::Same(a, b)],
            Some(Axiom::DifferentIndividuals(operands)),
            Conclusion::Sub(x, c),
        ) => {
            x == Subject::Individual(*a)
                && c == ExprId::NOTHING
                && individuals_at_two_places(operands, *a, *b)
        }
        (
            [Conclusion::Edge(x, r, y)],
            Some(Axiom::NegativePropertyAssertion(s, a, b)),
            Conclusion::Sub(z, c),
        ) => {
            *x == Subject::Individual(*a)
                && r == s
                && *y == Subject::Individual(*b)
                && z == *x
                && c == ExprId::NOTHING
        }
        _ => false,
    }
}
