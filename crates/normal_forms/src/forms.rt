//! Normal forms over numbers.
ghost use Rattle.normal_forms.specs.Properties.{ComesBefore};
ghost use Rattle.std.specs.Prelude.{◌↔◌, IsTrue};

use axioms::{ExprId, IndId, PropId};

/// A class of a normal form: an expression, or the fresh name of a prefix of intersections, of two or more operands, by its
/// number.
#[derive(Clone, Copy, Debug, PartialEq, Eq, Hash)]
pub enum Class2 {
    Expr(ExprId),
    Partial(u32),
}

/// Likewise a property, or the fresh name of a prefix of property chains. Every property comes before every prefix.
#[derive(Clone, Copy, Debug, PartialEq, Eq, PartialOrd, Ord, Hash)]
pub enum PropId2 {
    Property(PropId),
    Partial(u32),
}

impl PropId2 {
    /// Whether it comes before the other.
    pub fn comes_before(self, other: PropId2) -> bool
        ensures { IsTrue result ↔ ComesBefore self other }
    {
        self < other
    }
}

/// The normal forms, but for those that lists of what is apart stand for.
#[derive(Clone, Copy, PartialEq, Eq)]
pub enum Form {
    /// A below B.
    N1(Class2, Class2),
    /// A and B below C.
    N2(Class2, Class2, Class2),
    /// A below some r B.
    N3(Class2, PropId, ExprId),
    /// Some r A below B.
    N4(PropId, Class2, Class2),
    /// r below s.
    N5(PropId, PropId),
    /// r then s below t.
    N6(PropId2, PropId2, PropId2),
    /// r is reflexive.
    N7(PropId),
    /// The individual a is in A.
    N8(IndId, Class2),
    /// a r b.
    N9(IndId, PropId, IndId),
    /// a and b are one.
    N10(IndId, IndId),
    /// Not a r b.
    N12(IndId, PropId, IndId),
}

/// What gave a form: an axiom, by its number from 1 in document order, or an expression that occurs.
#[derive(Clone, Copy, Debug, PartialEq, Eq)]
pub enum Origin {
    Axiom(usize),
    Expr(ExprId),
}
