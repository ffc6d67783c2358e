//! Rows and interpretations of a few elements, worked out by hand.
ghost use Rattle.std.specs.Prelude.{IfOk};
ghost use Rattle.interpretation_spec.specs.NumberedInterpretation.{IsMadeFor};

use axioms::{Axiom, BuildFault, Builder, ClassId, ExprId, IndId, Kind, Memory, Ontology, PropId};
use interpretation_spec::{
    Interpretation, InterpretationFault, Row, extensions_and_names, members,
};
use std::alloc::Global;
use std::hash::RandomState;
use std::process::Abort;
use std::random::RandomSource;
use std::test::Fail;

/// Adds the numbers to the set.
fn put_all(row: &mut Row, numbers: &[usize]) {
    for number in numbers {
        row.put(*number);
    }
}

/// The set of these numbers, of those below 70.
fn row_of(alloc: Global, members: &[usize]) -> Result<Row, Memory> {
    let mut row = Row::new(alloc, 70)?;
    put_all(&mut row, members);
    Ok(row)
}

/// Whether the number can be put into an empty row of numbers below `n`, and is its only member then.
fn is_taken(alloc: Global, n: usize, number: usize) -> Result<bool, Memory> {
    let mut row = Row::new(alloc, n)?;
    Ok(row.put(number) && row.contains(number) && row.count() == 1)
}

/// Numbers, and whether each is below 70.
const NUMBERS: &[(usize, bool)] = &[(0, true), (63, true), (64, true), (69, true), (70, false)];

#[test]
fn numbers_in_range(rt: HostRuntime) -> Result<(), Fail> {
    for row in NUMBERS {
        let (number, in_range) = *row;
        assert!(rt; is_taken(rt.alloc(), 70, number)? == in_range, "{number}");
    }
    Ok(())
}

#[test]
fn members_of_two_words(rt: HostRuntime) -> Result<(), Fail> {
    let row = row_of(rt.alloc(), &[0, 63, 64, 69, 70])?;
    assert!(rt; row.len() == 70);
    assert!(rt; row.count() == 4);
    assert!(rt; !row.contains(1));
    assert!(rt; !row.contains(70));
    Ok(())
}

#[test]
fn members_ascend(rt: HostRuntime) -> Result<(), Fail> {
    let row = row_of(rt.alloc(), &[64, 0, 69, 63])?;
    let found = members(rt.alloc(), &row)?;
    assert!(rt; found.as_slice() == [0, 63, 64, 69].as_slice());
    Ok(())
}

#[test]
fn all_numbers(rt: HostRuntime) -> Result<(), Fail> {
    let row = Row::full(rt.alloc(), 70)?;
    assert!(rt; row.count() == 70);
    Ok(())
}

/// Whether the set of 0 and 69, of numbers below 70, extended to numbers below `n`, has these two alone, takes `last` and refuses the
/// number behind it.
fn is_extended(alloc: Global, n: usize, last: usize) -> Result<bool, Memory> {
    let mut row = row_of(alloc, &[0, 69])?.extended(alloc, n)?;
    let has_both = row.contains(0) && row.contains(69) && row.count() == 2;
    Ok(has_both && row.put(last) && row.contains(last) && !row.put(last.saturating_add(1)))
}

/// Bounds, and the last number of a set of numbers below 70 that is extended to them.
const BOUNDS: &[(usize, usize)] = &[
    (0, 69),
    (70, 69),
    (71, 70),
    (128, 127),
    (129, 128),
    (1000, 999),
];

#[test]
fn extended_sets(rt: HostRuntime) -> Result<(), Fail> {
    for row in BOUNDS {
        let (bound, last) = *row;
        assert!(rt; is_extended(rt.alloc(), bound, last)?, "{bound}");
    }
    Ok(())
}

/// Whether the one set is within the other, and whether no number is in both.
fn compare<R: Abort>(rt: &R, these: &Row, those: &Row) -> (bool, bool) {
    assert!(rt; these.len() == those.len());
    (these.is_subset(those), these.is_disjoint(those))
}

#[test]
fn subsets(rt: HostRuntime) -> Result<(), Fail> {
    let small = row_of(rt.alloc(), &[3, 65])?;
    let large = row_of(rt.alloc(), &[3, 65, 66])?;
    let other = row_of(rt.alloc(), &[4, 66])?;
    assert!(rt; compare(&rt, &small, &large) == (true, false));
    assert!(rt; compare(&rt, &large, &small) == (false, false));
    assert!(rt; compare(&rt, &small, &other) == (false, true));
    assert!(rt; compare(&rt, &large, &other) == (false, false));
    Ok(())
}

/// Takes a row of two numbers from one with a third, adds it again, and leaves what both have.
fn assert_changes<R: Abort>(rt: &R, row: &mut Row, other: &Row) {
    assert!(rt; row.len() == 70);
    assert!(rt; other.len() == 70);
    row.minus(other);
    assert!(rt; row.contains(66));
    assert!(rt; row.count() == 1);
    row.union(other);
    assert!(rt; row.count() == 3);
    row.intersect(other);
    assert!(rt; row.count() == 2);
}

#[test]
fn changed_rows(rt: HostRuntime) -> Result<(), Fail> {
    let other = row_of(rt.alloc(), &[3, 65])?;
    let mut row = row_of(rt.alloc(), &[3, 65, 66])?.copy(rt.alloc())?;
    assert_changes(&rt, &mut row, &other);
    Ok(())
}

/// A builder of the ontology of no statements.
fn builder<R: AllocGlobal + RandomSource>(rt: &R) -> Result<Builder, Fail> {
    Ok(Builder::new(rt.alloc(), RandomState::new(rt)?)?)
}

/// A name of each kind.
const NAMES: &[(Kind, &str)] = &[
    (Kind::Class, "x:A"),
    (Kind::Property, "x:r"),
    (Kind::Individual, "x:a"),
];

/// Declares the class A, of number 2, the property r and the individual a.
fn declare_names(builder: &mut Builder) -> Result<(), BuildFault> {
    for row in NAMES {
        let (kind, iri) = *row;
        builder.declare(kind, iri)?;
    }
    Ok(())
}

/// The ontology of these names.
fn one_name_of_each_kind<R: AllocGlobal + Abort + RandomSource>(rt: &R) -> Result<Ontology, Fail> {
    let mut builder = builder(rt)?;
    assert!(rt; declare_names(&mut builder).is_ok());
    Ok(builder.finish())
}

/// The interpretation of so many elements whose classes but owl:Thing are empty.
fn empty_interpretation(
    alloc: Global,
    ontology: &Ontology,
    size: usize,
) -> Result<Interpretation, InterpretationFault>
    ensures { IfOk result (IsMadeFor ontology.now.names) }
{
    ontology.well_formed();
    Interpretation::new(alloc, ontology, size)
}

/// The same of an ontology that is not used again.
fn interpretation_of(
    alloc: Global,
    ontology: Ontology,
    size: usize,
) -> Result<Interpretation, InterpretationFault> {
    empty_interpretation(alloc, &ontology, size)
}

/// An interpretation of one name of each kind with so many elements.
fn of_names<R: AllocGlobal + Abort + RandomSource>(
    rt: &R,
    size: usize,
) -> Result<Interpretation, Fail> {
    Ok(interpretation_of(rt.alloc(), one_name_of_each_kind(rt)?, size)?)
}

#[test]
fn members_of_a_class(rt: HostRuntime) -> Result<(), Fail> {
    let mut i = of_names(&rt, 3)?;
    assert!(rt; i.size() == 3);
    assert!(rt; i.put_class(ClassId(2), 1) == Ok(()));
    assert!(rt;
        i.holders(ClassId(2))
            .is_some_and(|row| row.contains(1) && row.count() == 1)
    );
    assert!(rt; i.holders(ClassId(3)).is_none());
    Ok(())
}

#[test]
fn a_class_with_an_element(rt: HostRuntime) -> Result<(), Fail> {
    let mut i = of_names(&rt, 3)?;
    assert!(rt; i.classes_with_elements(rt.alloc())?.is_empty());
    assert!(rt; i.put_class(ClassId(2), 1) == Ok(()));
    assert!(rt; i.classes_with_elements(rt.alloc())?.as_slice() == [2].as_slice());
    Ok(())
}

/// Declares the classes A, of number 2, and B, of number 3.
fn declare_two_classes(builder: &mut Builder) -> Result<(), BuildFault> {
    builder.declare(Kind::Class, "x:A")?;
    builder.declare(Kind::Class, "x:B")?;
    Ok(())
}

/// Puts 69 into A, and 65 and 2 into B.
fn put_elements<R: Abort>(rt: &R, i: &mut Interpretation) {
    for row in [(3, 65), (2, 69), (3, 2)] {
        let (class, element) = row;
        assert!(rt; i.put_class(ClassId(class), element) == Ok(()));
    }
}

/// How many elements the class has, if there is one.
fn count_of(i: &Interpretation, class: u32) -> Option<usize> {
    Some(i.holders(ClassId(class))?.count())
}

/// What was put into each, and not into the others.
fn assert_own_elements<R: Abort>(rt: &R, i: &Interpretation) {
    assert!(rt; i.holders(ClassId(2)).is_some_and(|row| row.contains(69)));
    assert!(rt;
        i.holders(ClassId(3))
            .is_some_and(|row| row.contains(65) && row.contains(2))
    );
    assert!(rt; count_of(i, 0) == Some(70));
    assert!(rt; count_of(i, 1) == Some(0));
    assert!(rt; count_of(i, 2) == Some(1));
    assert!(rt; count_of(i, 3) == Some(2));
}

#[test]
fn classes_have_their_own_elements(rt: HostRuntime) -> Result<(), Fail> {
    let mut builder = builder(&rt)?;
    assert!(rt; declare_two_classes(&mut builder).is_ok());
    let mut i = interpretation_of(rt.alloc(), builder.finish(), 70)?;
    put_elements(&rt, &mut i);
    assert_own_elements(&rt, &i);
    assert!(rt; i.classes_with_elements(rt.alloc())?.as_slice() == [2, 3].as_slice());
    Ok(())
}

/// What is said of a class, an individual and a property, and of what is not there.
fn assert_looked_up<R: Abort>(rt: &R, i: &Interpretation) {
    assert!(rt; i.is_member(ClassId(2), 1));
    assert!(rt; !i.is_member(ClassId(2), 0));
    assert!(rt; !i.is_member(ClassId(3), 1));
    assert!(rt; i.element_at(IndId(0)) == 2);
    assert!(rt; i.element_at(IndId(1)) == 0);
    assert!(rt; i.targets_at(PropId(0), 1) == [2].as_slice());
    assert!(rt; i.targets_at(PropId(0), 2).is_empty());
    assert!(rt; i.targets_at(PropId(1), 1).is_empty());
}

#[test]
fn what_is_looked_up(rt: HostRuntime) -> Result<(), Fail> {
    let mut i = of_names(&rt, 3)?;
    assert!(rt; i.put_class(ClassId(2), 1) == Ok(()));
    assert!(rt; i.put_individual(IndId(0), 2) == Ok(()));
    assert!(rt; i.put_pair(PropId(0), 1, 2) == Ok(()));
    assert_looked_up(&rt, &i);
    Ok(())
}

/// Joins 1 to 2, to 0 and to 2 again.
fn put_pairs<R: Abort>(rt: &R, i: &mut Interpretation) {
    for target in [2, 0, 2] {
        assert!(rt; i.put_pair(PropId(0), 1, target) == Ok(()));
    }
}

/// What 1 was joined to, once and in order, and nothing of what is not there.
fn assert_targets<R: Abort>(rt: &R, i: &Interpretation) {
    assert!(rt; i.targets(PropId(0), 1) == Some([0, 2].as_slice()));
    assert!(rt; i.targets(PropId(0), 3) == None);
    assert!(rt; i.targets(PropId(1), 0) == None);
}

#[test]
fn targets_ascend(rt: HostRuntime) -> Result<(), Fail> {
    let mut i = of_names(&rt, 3)?;
    put_pairs(&rt, &mut i);
    assert_targets(&rt, &i);
    Ok(())
}

#[test]
fn the_element_of_an_individual(rt: HostRuntime) -> Result<(), Fail> {
    let mut i = of_names(&rt, 3)?;
    assert!(rt; i.element(IndId(0)) == Some(0));
    assert!(rt; i.put_individual(IndId(0), 2) == Ok(()));
    assert!(rt; i.element(IndId(0)) == Some(2));
    assert!(rt; i.element(IndId(1)) == None);
    Ok(())
}

/// What an interpretation with two elements refuses.
fn assert_refused<R: Abort>(rt: &R, i: &mut Interpretation) {
    let outside = Err(InterpretationFault::OutOfDomain);
    let fixed = Err(InterpretationFault::FixedClass);
    assert!(rt; i.put_class(ClassId::NOTHING, 0) == fixed);
    assert!(rt; i.put_class(ClassId(2), 2) == outside);
    assert!(rt; i.put_pair(PropId(0), 0, 2) == outside);
    assert!(rt; i.put_individual(IndId(1), 0) == outside);
}

#[test]
fn refused_members(rt: HostRuntime) -> Result<(), Fail> {
    let mut i = of_names(&rt, 2)?;
    assert_refused(&rt, &mut i);
    Ok(())
}

#[test]
fn a_domain_has_an_element(rt: HostRuntime) -> Result<(), Fail> {
    let none = interpretation_of(rt.alloc(), one_name_of_each_kind(&rt)?, 0);
    assert!(rt; none.err() == Some(InterpretationFault::EmptyDomain));
    Ok(())
}

/// States that all things are none, which no interpretation satisfies.
fn state_contradiction<R: Abort>(rt: &R, builder: &mut Builder) {
    assert!(rt; builder.ontology().expression_count() == 2);
    assert!(rt;
        builder
            .add_axiom(Axiom::SubClass(ExprId::THING, ExprId::NOTHING))
            .is_ok()
    );
}

/// The ontology that states this alone.
fn contradiction<R: AllocGlobal + Abort + RandomSource>(rt: &R) -> Result<Ontology, Fail> {
    let mut builder = builder(rt)?;
    state_contradiction(rt, &mut builder);
    Ok(builder.finish())
}

/// How many of 70 elements are in the expression, where all classes but owl:Thing are empty.
fn count<R: AllocGlobal + Abort>(
    rt: &R,
    ontology: &Ontology,
    expression: u32,
) -> Result<usize, Fail> {
    assert!(rt; ExprId(expression).index() < ontology.expression_count());
    let i = empty_interpretation(rt.alloc(), ontology, 70)?;
    Ok(i.extension(ontology, ExprId(expression))?.count())
}

/// Whether the one class is within the other, where all classes but owl:Thing are empty.
fn is_within<R: AllocGlobal + Abort>(
    rt: &R,
    ontology: &Ontology,
    sub: u32,
    superclass: u32,
) -> Result<bool, Fail> {
    let many = ontology.expression_count();
    assert!(rt; ExprId(sub).index() < many);
    assert!(rt; ExprId(superclass).index() < many);
    let i = empty_interpretation(rt.alloc(), ontology, 70)?;
    Ok(i.satisfies(ontology, &Axiom::SubClass(ExprId(sub), ExprId(superclass)))?)
}

/// The first axiom that does not hold where all classes but owl:Thing are empty.
fn first_unsatisfied(alloc: Global, ontology: &Ontology) -> Result<Option<usize>, Fail> {
    let i = empty_interpretation(alloc, ontology, 70)?;
    Ok(i.first_unsatisfied(ontology)?)
}

/// What holds where all classes but owl:Thing are empty, and the one axiom says that so is owl:Thing.
fn assert_contradiction<R: AllocGlobal + Abort>(rt: &R, ontology: &Ontology) -> Result<(), Fail> {
    assert!(rt; count(rt, ontology, 0)? == 70);
    assert!(rt; count(rt, ontology, 1)? == 0);
    assert!(rt; is_within(rt, ontology, 1, 0)?);
    assert!(rt; first_unsatisfied(rt.alloc(), ontology)? == Some(1));
    Ok(())
}

#[test]
fn all_things_and_none(rt: HostRuntime) -> Result<(), Fail> {
    let ontology = contradiction(&rt)?;
    assert_contradiction(&rt, &ontology)
}

#[test]
fn laws() {
    extensions_and_names();
}
