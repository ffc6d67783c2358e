//! What forms led to.
ghost use Rattle.axioms.specs.View.{axiom_of};
ghost use Rattle.axioms.specs.declared.ids.IndId.{IndId as Ind};
ghost use Rattle.explain.specs.Conditions.{by_inclusion};
ghost use Rattle.explain.specs.FormRule.{axiom_rule, expression_rule, inclusion_rule, origin_rule, stated_rule};
ghost use Rattle.explain.specs.NextFact.{IsNext, ShowsNext};
ghost use Rattle.explain.specs.Premises.{TakesNoSame};
ghost use Rattle.explain.specs.Uses.{NamesForm};
ghost use Rattle.facts.specs.Births.{reason};
ghost use Rattle.normal_forms.specs.declared.forms.Form.TheVariants.{N10};
ghost use Rattle.normalise.specs.Entries.{origin_in};
ghost use Rattle.std.specs.Prelude.{◌≡◌, IfOk, Some, option_map, slice_get};

use crate::apart::{shown_by_different, shown_by_disjoint};
use crate::basis::Basis;
use crate::conditions::{BY_DIFFERENT, BY_DISJOINT, BY_INCLUSION};
use crate::derivation::Derivation;
use crate::exchange::{Handing, handed_on};
use crate::line::{concluded, fact_of};
use crate::lines_by_fact::LineNumbers;
use crate::next_fact::NextFact;
use crate::older::rests_on;
use crate::paths::PropertyPaths;
use crate::premises::premises;
use crate::sink::LineSink;
use axioms::{Axiom, Memory, Ontology};
use certificate::Rule;
use facts::Older;
use normal_forms::{Form, Origin};
use normalise::Normal;

// The rule for a line of a form that the axiom gave.
fn axiom_rule(stated: &Axiom) -> Rule
    ensures { result ≡ axiom_rule (axiom_of stated.now) }
{
    match stated {
        Axiom::SubClass(..) | Axiom::EquivalentClasses(..) => Rule::K4,
        Axiom::DisjointClasses(..) => Rule::K7,
        Axiom::Domain(..) => Rule::K10,
        Axiom::EquivalentProperties(..) => Rule::K12,
        Axiom::SubProperty(..) | Axiom::Transitive(..) => Rule::K13,
        Axiom::Reflexive(..) => Rule::K14,
        Axiom::ClassAssertion(..) => Rule::K15,
        Axiom::PropertyAssertion(..) => Rule::K16,
        Axiom::SameIndividuals(..) => Rule::K17,
        Axiom::DifferentIndividuals(..) | Axiom::NegativePropertyAssertion(..) => Rule::K20,
    }
}

// The rule for a form that an expression gave.
fn expression_rule(form: &Form) -> Rule
    ensures { result ≡ expression_rule form.now }
{
    match form {
        Form::N1(..) => Rule::K6,
        Form::N2(..) => Rule::K5,
        Form::N3(..) => Rule::K8,
        _ => Rule::K9,
    }
}

// The rule for a fact of the form, by the axiom of that number, where it is stated.
fn stated_rule(stated: Option<&Axiom>, number: usize, form: &Form) -> (Rule, Option<usize>)
    ensures { result ≡ stated_rule (option_map (λ a. axiom_of a.now) stated.entry) number form.now }
{
    match stated {
        Some(stated) => (axiom_rule(stated), Some(number)),
        None => (expression_rule(form), None),
    }
}

// The rule for a fact of the form, which has that number, and the number of the axiom that gave the form, if one did.
fn origin_rule(
    ontology: &Ontology,
    normal: &Normal,
    number: u32,
    form: &Form,
) -> (Rule, Option<usize>)
    ensures { result ≡ origin_rule ontology.now (option_map origin_in (slice_get normal.now.entries number)) form.now }
{
    match normal.origin(number as usize) {
        Some(Origin::Axiom(number)) => stated_rule(ontology.axiom(number), number, form),
        _ => (expression_rule(form), None),
    }
}

// The rule for a fact of a form of two classes, which has that number, and the number of the axiom that gave the form, if one did.
fn inclusion_rule(normal: &Normal, number: u32) -> (Rule, Option<usize>)
    ensures { result ≡ inclusion_rule (option_map origin_in (slice_get normal.now.entries number)) }
{
    match normal.origin(number as usize) {
        Some(Origin::Axiom(number)) => (Rule::K4, Some(number)),
        _ => (Rule::K6, None),
    }
}

// What a form of two classes led to: adds the line of the fact, where it has one, and gives the numbers of the lines that show the fact.
// Neither the form is read nor the axiom that gave it, nor the older fact: where there are many, each is read from another place, which
// takes longest of all.
fn shown_by_inclusion<L: LineSink>(
    basis: &Basis<'_>,
    derivation: &mut Derivation<L>,
    next: &NextFact<'_>,
    form: u32,
) -> Result<LineNumbers, Memory>
    requires next { IsNext basis.now.closed.now.ontology basis.now.closed.now.saturation derivation.old next.now.shown.now next.now.fact.0 (reason next.now.birth.now) }
    requires form { (reason next.now.birth.now).form ≡ Some form }
    requires inclusion { (reason next.now.birth.now).condition ≡ by_inclusion }
    ensures { IfOk result (λ numbers. ShowsNext basis.now.closed.now.ontology basis.now.closed.now.saturation next.now.shown.now next.now.fact.0 derivation.old derivation.new numbers.items) }
{
    basis.closed.well_formed();
    let Older::One(older) = next.birth.older() else {
        // One fact is taken.
        unreachable!()
    };
    let numbers = next.shown.at(basis.alloc, older.0 as usize)?;
    let fact = fact_of(basis.closed, next.fact);
    let (rule, axiom) = inclusion_rule(basis.closed.normal(), form);
    let numbers = concluded(derivation, fact, rule, axiom, numbers)?;
    Ok(numbers)
}

// What a form led to that takes facts alone: adds the line of the fact, where it has one, and gives the numbers of the lines that show
// the fact.
fn shown_by_facts<L: LineSink>(
    basis: &Basis<'_>,
    paths: &mut PropertyPaths<'_>,
    derivation: &mut Derivation<L>,
    next: &NextFact<'_>,
    form: u32,
    step: &Form,
) -> Result<LineNumbers, Memory>
    requires paths { paths.old ≡ basis.now.closed.now.saturation.state.problem.forms }
    requires next { IsNext basis.now.closed.now.ontology basis.now.closed.now.saturation derivation.old next.now.shown.now next.now.fact.0 (reason next.now.birth.now) }
    requires form { (reason next.now.birth.now).form ≡ Some form }
    requires step { slice_get basis.now.closed.now.saturation.state.problem.forms form ≡ Some step.now }
    requires facts { TakesNoSame step.now }
    requires of_form { NamesForm (reason next.now.birth.now).condition }
    ensures paths { paths.new ≡ paths.old }
    ensures shown { IfOk result (λ numbers. ShowsNext basis.now.closed.now.ontology basis.now.closed.now.saturation next.now.shown.now next.now.fact.0 derivation.old derivation.new numbers.items) }
{
    basis.closed.well_formed();
    let normal = basis.closed.normal();
    let older = rests_on(normal, next.birth);
    let numbers = premises(basis, paths, derivation, next.shown, older, step)?;
    let fact = fact_of(basis.closed, next.fact);
    let (rule, axiom) = origin_rule(basis.closed.ontology(), normal, form, step);
    let numbers = concluded(derivation, fact, rule, axiom, numbers)?;
    Ok(numbers)
}

// What a form handed on from one of two individuals to the other: adds its lines, and gives their numbers.
fn shown_by_same<L: LineSink>(
    basis: &Basis<'_>,
    derivation: &mut Derivation<L>,
    next: &NextFact<'_>,
    form: u32,
) -> Result<LineNumbers, Memory>
    requires next { IsNext basis.now.closed.now.ontology basis.now.closed.now.saturation derivation.old next.now.shown.now next.now.fact.0 (reason next.now.birth.now) }
    requires form { (reason next.now.birth.now).form ≡ Some form }
    requires same { (i : Ind) × (j : Ind) × (slice_get basis.now.closed.now.saturation.state.problem.forms form ≡ Some (N10 i j)) }
    requires of_form { NamesForm (reason next.now.birth.now).condition }
    ensures { IfOk result (λ numbers. ShowsNext basis.now.closed.now.ontology basis.now.closed.now.saturation next.now.shown.now next.now.fact.0 derivation.old derivation.new numbers.items) }
{
    basis.closed.well_formed();
    let Older::One(older) = next.birth.older() else {
        // One fact is handed on.
        unreachable!()
    };
    let given = fact_of(basis.closed, older);
    let fact = fact_of(basis.closed, next.fact);
    let known = next.shown.at(basis.alloc, older.0 as usize)?;
    let handing = Handing { form, given, fact };
    let numbers = handed_on(basis, derivation, known.as_slice(), handing)?;
    Ok(numbers)
}

/// What a form led to, or a list of what is apart: adds the line of the fact, where it has one, and gives the numbers of the lines that
/// show the fact. `number` is that of the form or of the list.
///
/// # Errors
///
/// `Memory` where memory was refused.
pub(crate) fn shown_by_form<L: LineSink>(
    basis: &Basis<'_>,
    paths: &mut PropertyPaths<'_>,
    derivation: &mut Derivation<L>,
    next: &NextFact<'_>,
    number: u32,
) -> Result<LineNumbers, Memory>
    requires paths { paths.old ≡ basis.now.closed.now.saturation.state.problem.forms }
    requires next { IsNext basis.now.closed.now.ontology basis.now.closed.now.saturation derivation.old next.now.shown.now next.now.fact.0 (reason next.now.birth.now) }
    requires form { (reason next.now.birth.now).form ≡ Some number }
    ensures paths { paths.new ≡ paths.old }
    ensures shown { IfOk result (λ numbers. ShowsNext basis.now.closed.now.ontology basis.now.closed.now.saturation next.now.shown.now next.now.fact.0 derivation.old derivation.new numbers.items) }
{
    basis.closed.well_formed();
    let condition = next.birth.condition();
    if condition == BY_INCLUSION {
        let numbers = shown_by_inclusion(basis, derivation, next, number)?;
        return Ok(numbers);
    }
    if condition == BY_DISJOINT {
        let numbers = shown_by_disjoint(basis, derivation, next, number)?;
        return Ok(numbers);
    }
    if condition == BY_DIFFERENT {
        let numbers = shown_by_different(basis, derivation, next.fact, number)?;
        return Ok(numbers);
    }
    let step = basis.closed.normal().forms().at(number as usize);
    if let Form::N10(..) = step {
        let numbers = shown_by_same(basis, derivation, next, number)?;
        return Ok(numbers);
    }
    let numbers = shown_by_facts(basis, paths, derivation, next, number, &step)?;
    Ok(numbers)
}
