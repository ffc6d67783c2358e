//! The names, expressions and axioms in the order of their numbers.

use crate::tables::{Part, Row, assert_documents};
use std::test::Fail;

const NUMBERS_OF_EXPRESSIONS_AND_PROPERTIES: &[Row] = &[
    // A property is numbered where it stands, and an operand before the whole.
    (
        "SubClassOf(:A ObjectSomeValuesFrom(:r ObjectSomeValuesFrom(:s :A)))",
        "classes x:A; properties x:r x:s; individuals\nClass(ClassId(2))\nSome(PropId(1), ExprId(2))\nSome(PropId(0), ExprId(3))\nSubClass(ExprId(2), ExprId(4))\n",
    ),
    (
        "ObjectPropertyDomain(:r ObjectSomeValuesFrom(:s ObjectSomeValuesFrom(:r :A)))",
        "classes x:A; properties x:r x:s; individuals\nClass(ClassId(2))\nSome(PropId(0), ExprId(2))\nSome(PropId(1), ExprId(3))\nDomain(PropId(0), ExprId(4))\n",
    ),
    (
        "EquivalentClasses(:D ObjectIntersectionOf(:B ObjectSomeValuesFrom(:s :A) :D)) ObjectPropertyDomain(:r :C)",
        "classes x:D x:B x:A x:C; properties x:s x:r; individuals\nClass(ClassId(2))\nClass(ClassId(3))\nClass(ClassId(4))\nSome(PropId(0), ExprId(4))\nAnd([ExprId(3), ExprId(5), ExprId(2)])\nClass(ClassId(5))\nEquivalentClasses([ExprId(2), ExprId(6)])\nDomain(PropId(1), ExprId(7))\n",
    ),
    (
        "DisjointClasses(:B ObjectIntersectionOf(:A :B) :A) SubClassOf(ObjectIntersectionOf(:A :B) :C)",
        "classes x:B x:A x:C; properties; individuals\nClass(ClassId(2))\nClass(ClassId(3))\nAnd([ExprId(3), ExprId(2)])\nClass(ClassId(4))\nDisjointClasses([ExprId(2), ExprId(4), ExprId(3)])\nSubClass(ExprId(4), ExprId(5))\n",
    ),
    (
        "SubClassOf(ObjectIntersectionOf(ObjectSomeValuesFrom(:q ObjectSomeValuesFrom(:p :A)) ObjectSomeValuesFrom(:p :A)) :B)",
        "classes x:A x:B; properties x:q x:p; individuals\nClass(ClassId(2))\nSome(PropId(1), ExprId(2))\nSome(PropId(0), ExprId(3))\nAnd([ExprId(4), ExprId(3)])\nClass(ClassId(3))\nSubClass(ExprId(5), ExprId(6))\n",
    ),
];

#[test]
fn numbers_of_expressions_and_properties(rt: HostRuntime) -> Result<(), Fail> {
    assert_documents(&rt, Part::Numbers, NUMBERS_OF_EXPRESSIONS_AND_PROPERTIES)
}

const NUMBERS_OF_DECLARATIONS_AND_PROPERTY_AXIOMS: &[Row] = &[
    (
        "Declaration(Class(:C)) Declaration(Class(:B)) SubClassOf(:A :B) Declaration(ObjectProperty(:s)) SubClassOf(ObjectSomeValuesFrom(:r owl:Thing) ObjectSomeValuesFrom(:s :C))",
        "classes x:C x:B x:A; properties x:s x:r; individuals\nClass(ClassId(2))\nClass(ClassId(3))\nClass(ClassId(4))\nSome(PropId(1), ExprId(0))\nSome(PropId(0), ExprId(2))\nSubClass(ExprId(4), ExprId(3))\nSubClass(ExprId(5), ExprId(6))\n",
    ),
    (
        "Declaration(AnnotationProperty(:p)) Declaration(ObjectProperty(:r)) SubAnnotationPropertyOf(:q :p) TransitiveObjectProperty(:p)",
        "classes; properties x:r x:p; individuals\nTransitive(PropId(1))\n",
    ),
    (
        "SubObjectPropertyOf(ObjectPropertyChain(:t :s :t) :r) TransitiveObjectProperty(:u) ReflexiveObjectProperty(:s) SubObjectPropertyOf(:u :r) EquivalentObjectProperties(:v :t)",
        "classes; properties x:t x:s x:r x:u x:v; individuals\nSubProperty([PropId(0), PropId(1), PropId(0)], PropId(2))\nTransitive(PropId(3))\nReflexive(PropId(1))\nSubProperty([PropId(3)], PropId(2))\nEquivalentProperties([PropId(4), PropId(0)])\n",
    ),
];

#[test]
fn numbers_of_declarations_and_property_axioms(rt: HostRuntime) -> Result<(), Fail> {
    assert_documents(
        &rt,
        Part::Numbers,
        NUMBERS_OF_DECLARATIONS_AND_PROPERTY_AXIOMS,
    )
}

const NUMBERS_OF_ASSERTIONS: &[Row] = &[
    (
        "Declaration(NamedIndividual(:b)) ObjectPropertyAssertion(:r :a :b) ClassAssertion(owl:Nothing :c) Declaration(NamedIndividual(:d)) ClassAssertion(ObjectSomeValuesFrom(:r :B) :a)",
        "classes x:B; properties x:r; individuals x:b x:a x:c x:d\nClass(ClassId(2))\nSome(PropId(0), ExprId(2))\nPropertyAssertion(PropId(0), IndId(1), IndId(0))\nClassAssertion(ExprId(1), IndId(2))\nClassAssertion(ExprId(3), IndId(1))\n",
    ),
    (
        "ClassAssertion(:x :x) ObjectPropertyAssertion(:x :y :x)",
        "classes x:x; properties x:x; individuals x:x x:y\nClass(ClassId(2))\nClassAssertion(ExprId(2), IndId(0))\nPropertyAssertion(PropId(0), IndId(1), IndId(0))\n",
    ),
    (
        "SameIndividual(:b :a) DifferentIndividuals(:c :b :d) NegativeObjectPropertyAssertion(:r :e :a)",
        "classes; properties x:r; individuals x:b x:a x:c x:d x:e\nSameIndividuals([IndId(0), IndId(1)])\nDifferentIndividuals([IndId(2), IndId(0), IndId(3)])\nNegativePropertyAssertion(PropId(0), IndId(4), IndId(1))\n",
    ),
];

#[test]
fn numbers_of_assertions(rt: HostRuntime) -> Result<(), Fail> {
    assert_documents(&rt, Part::Numbers, NUMBERS_OF_ASSERTIONS)
}
