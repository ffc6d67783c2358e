//! Small ontologies, read from documents, with their numbers worked out by hand.

use crate::documents::ontology_of;
use axioms::Ontology;
use std::random::RandomSource;
use std::test::Fail;

/// SubClassOf(A B), of the classes of the numbers 2 and 3.
pub(super) const ONE_SUBCLASS_DOCUMENT: &str = "Ontology(SubClassOf(<x:A> <x:B>))";

/// ClassAssertion(A a), of the class of number 2 and the individual of number 0.
pub(super) const ONE_MEMBER_DOCUMENT: &str = "Ontology(ClassAssertion(<x:A> <x:a>))";

/// DisjointClasses(A B) ClassAssertion(A a) ClassAssertion(B a), of the classes of the numbers 2 and 3 and the individual of
/// number 0.
pub(super) const CONTRADICTION_DOCUMENT: &str =
    "Prefix(:=<x:>) Ontology(DisjointClasses(:A :B) ClassAssertion(:A :a) ClassAssertion(:B :a))";

/// SubClassOf(A B) SubClassOf(B A) SubClassOf(C D) SubClassOf(D owl:Nothing), of the classes of the numbers 2 to 5.
pub(super) const CIRCLE_AND_NOTHING_DOCUMENT: &str =
    "Prefix(:=<x:>) Ontology(SubClassOf(:A :B) SubClassOf(:B :A) SubClassOf(:C :D) SubClassOf(:D owl:Nothing))";

/// The class A of the number 2, the properties r and s of the numbers 0 and 1, the individuals a, b, c and d of the numbers 0 to 3;
/// the axioms
///
/// - 1: SameIndividual(a b c)
/// - 2: DifferentIndividuals(b d a)
/// - 3: NegativeObjectPropertyAssertion(r a b)
/// - 4: ObjectPropertyAssertion(r a c)
/// - 5: ClassAssertion(A c)
/// - 6: SubObjectPropertyOf(r s)
pub(super) fn groups<R: AllocGlobal + RandomSource>(rt: &R) -> Result<Ontology, Fail> {
    ontology_of(
        rt,
        "Prefix(:=<x:>) Ontology(
SameIndividual(:a :b :c) DifferentIndividuals(:b :d :a) NegativeObjectPropertyAssertion(:r :a :b)
ObjectPropertyAssertion(:r :a :c) ClassAssertion(:A :c) SubObjectPropertyOf(:r :s))",
    )
}

/// The classes A, B and C of the numbers 2, 3 and 4, the properties r, s and t of the numbers 0, 1 and 2, the individuals a and
/// b of the numbers 0 and 1; the axioms
///
/// - 1: SubClassOf(A B)
/// - 2: EquivalentClasses(B C)
/// - 3: DisjointClasses(A B)
/// - 4: SubObjectPropertyOf(r s)
/// - 5: SubObjectPropertyOf(ObjectPropertyChain(r s t) s)
/// - 6: EquivalentObjectProperties(s t)
/// - 7: ObjectPropertyDomain(r C)
/// - 8: TransitiveObjectProperty(r)
/// - 9: ReflexiveObjectProperty(r)
/// - 10: ClassAssertion(A a)
/// - 11: ObjectPropertyAssertion(r a b)
///
/// and, each below owl:Thing by an axiom behind these, the expressions
///
/// - 5: ObjectIntersectionOf(A B)
/// - 6: ObjectSomeValuesFrom(r A)
/// - 7: ObjectSomeValuesFrom(r owl:Nothing)
pub(super) fn each_shape<R: AllocGlobal + RandomSource>(rt: &R) -> Result<Ontology, Fail> {
    ontology_of(
        rt,
        "Prefix(:=<x:>) Ontology(
SubClassOf(:A :B) EquivalentClasses(:B :C) DisjointClasses(:A :B)
SubObjectPropertyOf(:r :s) SubObjectPropertyOf(ObjectPropertyChain(:r :s :t) :s) EquivalentObjectProperties(:s :t)
ObjectPropertyDomain(:r :C) TransitiveObjectProperty(:r) ReflexiveObjectProperty(:r)
ClassAssertion(:A :a) ObjectPropertyAssertion(:r :a :b)
SubClassOf(ObjectIntersectionOf(:A :B) owl:Thing) SubClassOf(ObjectSomeValuesFrom(:r :A) owl:Thing)
SubClassOf(ObjectSomeValuesFrom(:r owl:Nothing) owl:Thing))",
    )
}
