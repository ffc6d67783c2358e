//! Small ontologies that are built name by name, with their numbers worked out by hand.

use axioms::{
    Axiom, BuildFault, Builder, ClassId, Expr, ExprId, IndId, Kind, Memory, Name, OWL_NOTHING,
    OWL_THING, Ontology, PropId, numbered_expressions, ontology_of_statements,
};
use std::alloc::AllocGlobal;
use std::hash::RandomState;
use std::process::Abort;
use std::random::RandomSource;
use std::test::Fail;

/// A builder of the ontology of no statements.
fn empty<R: AllocGlobal + RandomSource>(rt: &R) -> Result<Builder, Fail> {
    Ok(Builder::new(rt.alloc(), RandomState::new(rt)?)?)
}

/// Whether the class of that number has this IRI, and its own expression.
fn is_standard(ontology: &Ontology, number: u32, iri: &str) -> bool {
    ontology
        .classes()
        .get(ClassId(number).index())
        .map(String::as_str)
        == Some(iri)
        && ontology.class_expr(ClassId(number)) == Some(ExprId(number))
}

/// The two classes of the standard, and nothing else.
fn assert_empty<R: Abort>(rt: &R, ontology: &Ontology) {
    assert!(rt; is_standard(ontology, 0, OWL_THING));
    assert!(rt; is_standard(ontology, 1, OWL_NOTHING));
    assert!(rt; ontology.classes().len() == 2);
    assert!(rt; ontology.expression_count() == 2);
    assert!(rt; ontology.axioms().len() == 0);
}

#[test]
fn empty_ontology(rt: HostRuntime) -> Result<(), Fail> {
    let ontology = empty(&rt)?.finish();
    assert_empty(&rt, &ontology);
    Ok(())
}

/// The name of a class whose expression has the same number.
fn class(number: u32) -> Name {
    Name::Class(ClassId(number), ExprId(number))
}

/// Whether the IRI is declared as that name of its kind.
fn is_declared(builder: &mut Builder, iri: &str, name: Name) -> Result<bool, BuildFault> {
    let kind = match name {
        Name::Class(_, _) => Kind::Class,
        Name::Property(_) => Kind::Property,
        Name::Individual(_) => Kind::Individual,
    };
    Ok(builder.declare(kind, iri)? == name)
}

fn assert_classes<R: Abort>(rt: &R, builder: &mut Builder) -> Result<(), BuildFault> {
    assert!(rt; is_declared(builder, "x:A", class(2))?);
    assert!(rt; is_declared(builder, "x:B", class(3))?);
    assert!(rt; is_declared(builder, "x:A", class(2))?);
    assert!(rt; is_declared(builder, OWL_NOTHING, class(1))?);
    Ok(())
}

fn assert_properties<R: Abort>(rt: &R, builder: &mut Builder) -> Result<(), BuildFault> {
    assert!(rt; is_declared(builder, "x:q", Name::Property(PropId(0)))?);
    assert!(rt; is_declared(builder, "x:A", Name::Property(PropId(1)))?);
    assert!(rt; is_declared(builder, "x:q", Name::Property(PropId(0)))?);
    Ok(())
}

fn assert_individuals<R: Abort>(rt: &R, builder: &mut Builder) -> Result<(), BuildFault> {
    assert!(rt; is_declared(builder, "x:A", Name::Individual(IndId(0)))?);
    assert!(rt; is_declared(builder, "x:a", Name::Individual(IndId(1)))?);
    Ok(())
}

/// The names of each kind have numbers of their own.
fn assert_numbers<R: Abort>(rt: &R, builder: &mut Builder) -> Result<(), Fail> {
    assert_classes(rt, builder)?;
    assert_properties(rt, builder)?;
    assert_individuals(rt, builder)?;
    Ok(())
}

#[test]
fn names_by_first_place(rt: HostRuntime) -> Result<(), Fail> {
    let mut builder = empty(&rt)?;
    assert_numbers(&rt, &mut builder)
}

fn declare_some_names(builder: &mut Builder) -> Result<(), BuildFault> {
    builder.declare(Kind::Class, "x:A")?;
    builder.declare(Kind::Class, "x:B")?;
    builder.declare(Kind::Property, "x:r")?;
    builder.declare(Kind::Individual, "x:a")?;
    Ok(())
}

/// The classes A and B, of numbers 2 and 3, the property r and the individual a.
fn some_names<R: AllocGlobal + RandomSource>(rt: &R) -> Result<Builder, Fail> {
    let mut builder = empty(rt)?;
    declare_some_names(&mut builder)?;
    Ok(builder)
}

/// Whether this is the first of the names.
fn is_first(names: &[String], iri: &str) -> bool {
    names.first().map(String::as_str) == Some(iri)
}

/// What the numbers of some names stand for.
fn assert_names<R: Abort>(rt: &R, ontology: &Ontology) {
    assert!(rt; ontology.classes().len() == 4);
    assert!(rt; is_first(ontology.properties(), "x:r"));
    assert!(rt; is_first(ontology.individuals(), "x:a"));
    assert!(rt; matches!(ontology.expr(ExprId(3)), Some(Expr::Class(ClassId(3)))));
    assert!(rt; ontology.expr(ExprId(4)).is_none());
    assert!(rt; ontology.class_of(ExprId(3)) == Some(ClassId(3)));
    assert!(rt; ontology.class_of(ExprId(4)).is_none());
    assert!(rt; ontology.number_of(Kind::Class, "x:B") == Some(3));
    assert!(rt; ontology.number_of(Kind::Property, "x:r") == Some(0));
    assert!(rt; ontology.number_of(Kind::Individual, "x:B").is_none());
}

#[test]
fn names_of_each_kind(rt: HostRuntime) -> Result<(), Fail> {
    let builder = some_names(&rt)?;
    assert_names(&rt, builder.ontology());
    Ok(())
}

/// The number of what the property joins to something in the expression.
fn add_some<R: Abort>(
    rt: &R,
    builder: &mut Builder,
    property: PropId,
    filler: ExprId,
) -> Result<ExprId, Memory> {
    let ontology = builder.ontology();
    assert!(rt; property.index() < ontology.properties().len());
    assert!(rt; filler.index() < ontology.expression_count());
    builder.add_expr(Expr::Some(property, filler))
}

/// The number of the intersection of the classes A and B.
fn add_both<R: AllocGlobal + Abort>(rt: &R, builder: &mut Builder) -> Result<ExprId, Memory> {
    assert!(rt; builder.ontology().expression_count() > 3);
    let operands = Vec::from_array(rt.alloc(), [ExprId(2), ExprId(3)])?;
    builder.add_expr(Expr::And(operands))
}

/// An expression has one number, and a new one the next.
fn assert_expressions<R: AllocGlobal + Abort>(rt: &R, builder: &mut Builder) -> Result<(), Fail> {
    assert!(rt; add_some(rt, builder, PropId(0), ExprId(2))?.0 == 4);
    assert!(rt; add_both(rt, builder)?.0 == 5);
    assert!(rt; add_some(rt, builder, PropId(0), ExprId(5))?.0 == 6);
    assert!(rt; add_both(rt, builder)?.0 == 5);
    assert!(rt; add_some(rt, builder, PropId(0), ExprId(2))?.0 == 4);
    Ok(())
}

#[test]
fn expressions_by_first_place(rt: HostRuntime) -> Result<(), Fail> {
    let mut builder = some_names(&rt)?;
    assert_expressions(&rt, &mut builder)
}

/// States that the one class is a subclass of the other.
fn state<R: Abort>(
    rt: &R,
    builder: &mut Builder,
    sub: ExprId,
    superclass: ExprId,
) -> Result<(), Memory> {
    let many = builder.ontology().expression_count();
    assert!(rt; sub.index() < many);
    assert!(rt; superclass.index() < many);
    builder.add_axiom(Axiom::SubClass(sub, superclass))
}

/// SubClassOf(A B) SubClassOf(B A)
fn state_cycle<R: Abort>(rt: &R, builder: &mut Builder) -> Result<(), Memory> {
    state(rt, builder, ExprId(2), ExprId(3))?;
    state(rt, builder, ExprId(3), ExprId(2))
}

/// Whether the axiom of that number states that the one class is a subclass of the other.
fn is_stated(ontology: &Ontology, number: usize, sub: ExprId, superclass: ExprId) -> bool {
    match ontology.axiom(number) {
        Some(Axiom::SubClass(c, d)) => *c == sub && *d == superclass,
        _ => false,
    }
}

/// The axioms of that cycle, by number from 1.
fn assert_cycle<R: Abort>(rt: &R, ontology: &Ontology) {
    assert!(rt; is_stated(ontology, 1, ExprId(2), ExprId(3)));
    assert!(rt; is_stated(ontology, 2, ExprId(3), ExprId(2)));
    assert!(rt; ontology.axiom(0).is_none());
    assert!(rt; ontology.axiom(3).is_none());
    assert!(rt; ontology.axiom(2) == ontology.axioms().get(1));
    assert!(rt; ontology.axioms().len() == 2);
}

/// The axioms have numbers in the order in which they come.
fn assert_axioms<R: Abort>(rt: &R, builder: &mut Builder) -> Result<(), Fail> {
    state_cycle(rt, builder)?;
    assert_cycle(rt, builder.ontology());
    Ok(())
}

#[test]
fn axioms_by_number(rt: HostRuntime) -> Result<(), Fail> {
    let mut builder = some_names(&rt)?;
    assert_axioms(&rt, &mut builder)
}

/// How many classes there are with one more.
fn grown(builder: &mut Builder) -> Result<usize, Fail> {
    builder.declare(Kind::Class, "x:C")?;
    Ok(builder.ontology().classes().len())
}

/// How many classes a copy of the ontology has with one more.
fn grown_copy(ontology: &Ontology) -> Result<usize, Fail> {
    let mut copy = Builder::from(ontology.copy()?);
    grown(&mut copy)
}

/// The copy has one class more, and the ontology none.
fn assert_copy<R: Abort>(rt: &R, ontology: &Ontology) -> Result<(), Fail> {
    let many = grown_copy(ontology)?;
    assert!(rt; many == 5);
    assert!(rt; ontology.classes().len() == 4);
    Ok(())
}

#[test]
fn a_copy_grows_alone(rt: HostRuntime) -> Result<(), Fail> {
    let builder = some_names(&rt)?;
    assert_copy(&rt, builder.ontology())
}

#[test]
fn laws() {
    numbered_expressions();
    ontology_of_statements();
}
