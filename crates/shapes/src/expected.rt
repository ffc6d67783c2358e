//! What may stand where.

ghost use Rattle.std.specs.Prelude.{◌≡◌};
ghost use Rattle.shapes.specs.Names.{kind_of};
ghost use Rattle.shapes.specs.Shapes.{fits_count, later_expected, may_be_annotated, next_expected, wants_distinct};
ghost use Rattle.shapes.specs.View.{operands_view};

use axioms::Kind;

/// What is expected at a place.
#[derive(Clone, Copy, Debug, PartialEq, Eq)]
pub enum Expected {
    /// An axiom, a declaration or an axiom of annotations.
    Axiom,
    Annotation,
    /// What is declared, with its kind.
    Entity,
    ClassExpression,
    /// The name of a class.
    Class,
    Property,
    PropertyOrChain,
    Individual,
    /// The name of whatever an annotation speaks of.
    AnyName,
    /// The value of an annotation.
    NameOrLiteral,
}

impl Expected {
    /// The kind of the names that an ontology has for what is expected, if it has any.
    pub fn kind(self) -> Option<Kind>
        ensures { result ≡ kind_of self }
    {
        match self {
            Expected::ClassExpression | Expected::Class => Some(Kind::Class),
            Expected::Property | Expected::PropertyOrChain => Some(Kind::Property),
            Expected::Individual => Some(Kind::Individual),
            _ => None,
        }
    }

    /// Whether annotations may stand in front of the operands.
    pub fn may_be_annotated(self) -> bool
        ensures { result ≡ may_be_annotated self }
    {
        matches!(self, Expected::Axiom | Expected::Annotation)
    }
}

/// The operands of a form.
#[derive(Clone, Copy)]
pub enum Operands<'a> {
    /// These, in this order.
    Each(&'a [Expected]),
    /// Two or more of one kind, and no two that are equal where they have to be distinct.
    Many { distinct: bool, operand: Expected },
}

impl<'a> Operands<'a> {
    /// Whether a form may have so many operands.
    pub fn fits_count(self, count: usize) -> bool
        ensures { result ≡ fits_count (operands_view self.entry) count }
    {
        match self {
            Operands::Each(each) => count == each.len(),
            Operands::Many { .. } => count > 1,
        }
    }

    /// What is expected of the next operand.
    pub fn next(self) -> Expected
        ensures { result ≡ next_expected (operands_view self.entry) }
    {
        match self {
            Operands::Each([first, ..]) => *first,
            Operands::Each([]) => Expected::AnyName,
            Operands::Many { operand, .. } => operand,
        }
    }

    /// What is expected of the operands behind the next one.
    pub fn later(self) -> Operands<'a>
        ensures { operands_view result ≡ later_expected (operands_view self.entry) }
    {
        match self {
            Operands::Each([_, rest @ ..]) => Operands::Each(rest),
            other => other,
        }
    }

    /// Whether no two operands may be equal.
    pub fn wants_distinct(self) -> bool
        ensures { result ≡ wants_distinct (operands_view self.entry) }
    {
        match self {
            Operands::Each(_) => false,
            Operands::Many { distinct, .. } => distinct,
        }
    }
}
