//! The table of shapes, and the keywords that are known or refused.

ghost use Rattle.std.specs.Prelude.{◌≡◌, map, option_map};
ghost use Rattle.shapes.specs.Keywords.{has_shape, is_known, is_refused};
ghost use Rattle.shapes.specs.Shapes.{form_of, operands_of, shapes_of, takes};
ghost use Rattle.shapes.specs.View.{operands_view, shape_view};

use crate::expected::Expected::{
    AnyName, Class, ClassExpression, Entity, Individual, NameOrLiteral, Property, PropertyOrChain,
};
use crate::expected::{Expected, Operands};
use crate::form::Form;
use program::Version;

/// A row of the table: a form, its keyword, the operands that it takes, and the first version that has it.
#[derive(Clone, Copy)]
pub struct Shape {
    pub form: Form,
    pub keyword: &'static str,
    pub operands: Operands<'static>,
    pub since: Version,
}

const DISTINCT_CLASSES: Operands<'static> = Operands::Many {
    distinct: true,
    operand: ClassExpression,
};

const DISTINCT_PROPERTIES: Operands<'static> = Operands::Many {
    distinct: true,
    operand: Property,
};

const DISTINCT_INDIVIDUALS: Operands<'static> = Operands::Many {
    distinct: true,
    operand: Individual,
};

const PROPERTIES: Operands<'static> = Operands::Many {
    distinct: false,
    operand: Property,
};

static AXIOMS: [Shape; 18] = [
    Shape {
        form: Form::SubClassOf,
        keyword: "SubClassOf",
        operands: Operands::Each(&[ClassExpression, ClassExpression]),
        since: Version::One,
    },
    Shape {
        form: Form::EquivalentClasses,
        keyword: "EquivalentClasses",
        operands: DISTINCT_CLASSES,
        since: Version::One,
    },
    Shape {
        form: Form::DisjointClasses,
        keyword: "DisjointClasses",
        operands: DISTINCT_CLASSES,
        since: Version::One,
    },
    Shape {
        form: Form::SubObjectPropertyOf,
        keyword: "SubObjectPropertyOf",
        operands: Operands::Each(&[PropertyOrChain, Property]),
        since: Version::One,
    },
    Shape {
        form: Form::EquivalentObjectProperties,
        keyword: "EquivalentObjectProperties",
        operands: DISTINCT_PROPERTIES,
        since: Version::One,
    },
    Shape {
        form: Form::ObjectPropertyDomain,
        keyword: "ObjectPropertyDomain",
        operands: Operands::Each(&[Property, ClassExpression]),
        since: Version::One,
    },
    Shape {
        form: Form::TransitiveObjectProperty,
        keyword: "TransitiveObjectProperty",
        operands: Operands::Each(&[Property]),
        since: Version::One,
    },
    Shape {
        form: Form::ReflexiveObjectProperty,
        keyword: "ReflexiveObjectProperty",
        operands: Operands::Each(&[Property]),
        since: Version::One,
    },
    Shape {
        form: Form::ClassAssertion,
        keyword: "ClassAssertion",
        operands: Operands::Each(&[ClassExpression, Individual]),
        since: Version::One,
    },
    Shape {
        form: Form::ObjectPropertyAssertion,
        keyword: "ObjectPropertyAssertion",
        operands: Operands::Each(&[Property, Individual, Individual]),
        since: Version::One,
    },
    Shape {
        form: Form::SameIndividual,
        keyword: "SameIndividual",
        operands: DISTINCT_INDIVIDUALS,
        since: Version::Two,
    },
    Shape {
        form: Form::DifferentIndividuals,
        keyword: "DifferentIndividuals",
        operands: DISTINCT_INDIVIDUALS,
        since: Version::Two,
    },
    Shape {
        form: Form::NegativeObjectPropertyAssertion,
        keyword: "NegativeObjectPropertyAssertion",
        operands: Operands::Each(&[Property, Individual, Individual]),
        since: Version::Two,
    },
    Shape {
        form: Form::Declaration,
        keyword: "Declaration",
        operands: Operands::Each(&[Entity]),
        since: Version::One,
    },
    Shape {
        form: Form::AnnotationAssertion,
        keyword: "AnnotationAssertion",
        operands: Operands::Each(&[AnyName, AnyName, NameOrLiteral]),
        since: Version::One,
    },
    Shape {
        form: Form::SubAnnotationPropertyOf,
        keyword: "SubAnnotationPropertyOf",
        operands: Operands::Each(&[AnyName, AnyName]),
        since: Version::One,
    },
    Shape {
        form: Form::AnnotationPropertyDomain,
        keyword: "AnnotationPropertyDomain",
        operands: Operands::Each(&[AnyName, AnyName]),
        since: Version::One,
    },
    Shape {
        form: Form::AnnotationPropertyRange,
        keyword: "AnnotationPropertyRange",
        operands: Operands::Each(&[AnyName, AnyName]),
        since: Version::One,
    },
];

static ANNOTATIONS: [Shape; 1] = [Shape {
    form: Form::Annotation,
    keyword: "Annotation",
    operands: Operands::Each(&[AnyName, NameOrLiteral]),
    since: Version::One,
}];

static ENTITIES: [Shape; 4] = [
    Shape {
        form: Form::Class,
        keyword: "Class",
        operands: Operands::Each(&[Class]),
        since: Version::One,
    },
    Shape {
        form: Form::ObjectProperty,
        keyword: "ObjectProperty",
        operands: Operands::Each(&[Property]),
        since: Version::One,
    },
    Shape {
        form: Form::NamedIndividual,
        keyword: "NamedIndividual",
        operands: Operands::Each(&[Individual]),
        since: Version::One,
    },
    Shape {
        form: Form::AnnotationProperty,
        keyword: "AnnotationProperty",
        operands: Operands::Each(&[AnyName]),
        since: Version::One,
    },
];

static EXPRESSIONS: [Shape; 2] = [
    Shape {
        form: Form::ObjectIntersectionOf,
        keyword: "ObjectIntersectionOf",
        operands: DISTINCT_CLASSES,
        since: Version::One,
    },
    Shape {
        form: Form::ObjectSomeValuesFrom,
        keyword: "ObjectSomeValuesFrom",
        operands: Operands::Each(&[Property, ClassExpression]),
        since: Version::One,
    },
];

static NONE: [Shape; 0] = [];

static CHAINS: [Shape; 1] = [Shape {
    form: Form::ObjectPropertyChain,
    keyword: "ObjectPropertyChain",
    operands: PROPERTIES,
    since: Version::One,
}];

static REFUSED: [&str; 46] = [
    "Import",
    "ObjectUnionOf",
    "ObjectComplementOf",
    "ObjectOneOf",
    "ObjectAllValuesFrom",
    "ObjectHasValue",
    "ObjectHasSelf",
    "ObjectMinCardinality",
    "ObjectMaxCardinality",
    "ObjectExactCardinality",
    "ObjectInverseOf",
    "DataSomeValuesFrom",
    "DataAllValuesFrom",
    "DataHasValue",
    "DataMinCardinality",
    "DataMaxCardinality",
    "DataExactCardinality",
    "DataIntersectionOf",
    "DataUnionOf",
    "DataComplementOf",
    "DataOneOf",
    "DatatypeRestriction",
    "DisjointUnion",
    "DisjointObjectProperties",
    "InverseObjectProperties",
    "ObjectPropertyRange",
    "FunctionalObjectProperty",
    "InverseFunctionalObjectProperty",
    "IrreflexiveObjectProperty",
    "SymmetricObjectProperty",
    "AsymmetricObjectProperty",
    "SubDataPropertyOf",
    "EquivalentDataProperties",
    "DisjointDataProperties",
    "DataPropertyDomain",
    "DataPropertyRange",
    "FunctionalDataProperty",
    "DatatypeDefinition",
    "HasKey",
    "DataPropertyAssertion",
    "NegativeDataPropertyAssertion",
    "Datatype",
    "DataProperty",
    "SameIndividual",
    "DifferentIndividuals",
    "NegativeObjectPropertyAssertion",
];

/// Whether the version takes what has been taken since that one: each takes what an earlier one does.
fn takes(version: Version, since: Version) -> bool
    ensures { result ≡ takes version since }
{
    match since {
        Version::One => true,
        Version::Two => version == Version::Two,
    }
}

/// The shapes of the forms that may stand where such a tree is expected.
fn shapes_of(expected: Expected) -> &'static [Shape]
    ensures { map shape_view result.now ≡ shapes_of expected }
{
    match expected {
        Expected::Axiom => &AXIOMS,
        Expected::Annotation => &ANNOTATIONS,
        Expected::Entity => &ENTITIES,
        Expected::ClassExpression => &EXPRESSIONS,
        Expected::PropertyOrChain => &CHAINS,
        _ => &NONE,
    }
}

/// The row of this keyword where such a tree is expected, if the version has a form that may stand there.
pub fn shape_of(expected: Expected, keyword: &str, version: Version) -> Option<Shape>
    ensures operands { option_map (λ s. operands_view s.operands) result ≡ operands_of version expected keyword.now }
    ensures form { option_map (λ s. s.form) result ≡ form_of version expected keyword.now }
{
    let shapes = shapes_of(expected);
    for shape in shapes {
        if takes(version, shape.since) && shape.keyword == keyword {
            return Some(*shape);
        }
    }
    None
}

/// Whether the version has a row of this keyword where such a tree is expected.
fn has_shape(expected: Expected, keyword: &str, version: Version) -> bool
    ensures { result ≡ has_shape version expected keyword.now }
{
    shape_of(expected, keyword, version).is_some()
}

/// Whether the keyword is one of documents and of the version.
#[tactic(auto, unfolding(crate::specs::Keywords::is_known))]
pub(crate) fn is_known(keyword: &str, version: Version) -> bool
    ensures { result ≡ is_known version keyword.now }
{
    keyword == "Prefix"
        || keyword == "Ontology"
        || has_shape(Expected::Axiom, keyword, version)
        || has_shape(Expected::Annotation, keyword, version)
        || has_shape(Expected::Entity, keyword, version)
        || has_shape(Expected::ClassExpression, keyword, version)
        || has_shape(Expected::PropertyOrChain, keyword, version)
}

/// Whether the keyword is one of OWL 2 that the version leaves out.
#[tactic(auto, unfolding(crate::specs::Keywords::is_refused))]
pub(crate) fn is_refused(keyword: &str, version: Version) -> bool
    ensures { result ≡ is_refused version keyword.now }
{
    REFUSED.contains(&keyword) && !is_known(keyword, version)
}
