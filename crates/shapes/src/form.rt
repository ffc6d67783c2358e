//! Forms of the profile.

/// What a form is: one for each keyword that has a shape.
#[derive(Clone, Copy, Debug, PartialEq, Eq)]
pub enum Form {
    // axioms
    SubClassOf,
    EquivalentClasses,
    DisjointClasses,
    SubObjectPropertyOf,
    EquivalentObjectProperties,
    ObjectPropertyDomain,
    TransitiveObjectProperty,
    ReflexiveObjectProperty,
    ClassAssertion,
    ObjectPropertyAssertion,
    SameIndividual,
    DifferentIndividuals,
    NegativeObjectPropertyAssertion,
    // declarations, and axioms of annotations
    Declaration,
    AnnotationAssertion,
    SubAnnotationPropertyOf,
    AnnotationPropertyDomain,
    AnnotationPropertyRange,
    Annotation,
    // what is declared
    Class,
    ObjectProperty,
    NamedIndividual,
    AnnotationProperty,
    // class expressions, and chains of properties
    ObjectIntersectionOf,
    ObjectSomeValuesFrom,
    ObjectPropertyChain,
}
