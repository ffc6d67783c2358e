//! Worked problems, their facts counted by hand.

use crate::numbered::{
    C0, C1, C2, C3, C4, C5, C6, C7, C8, EDGES_R, EDGES_S, EDGES_T, EDGES_U, IN0, IN1, IN2, IN3,
    IN4, IN5, IN7, IND0, IND1, IND2, IND3, IND4, R, S, T, U,
};
use axioms::{ExprId, IndId};
use facts::{Context, Fact};
use normal_forms::Form;

/// A fact, by which condition and form or list it was given, and from how many older facts.
#[derive(Drop)]
pub(crate) struct Born(pub Fact, pub u8, pub u32, pub usize);

/// A problem and the number of its facts.
#[derive(Drop)]
pub(crate) struct Problem {
    pub name: &'static str,
    pub forms: &'static [Form],
    /// Lists of individuals of which each two differ.
    pub different: &'static [&'static [IndId]],
    pub roots: &'static [Context],
    pub facts: u32,
    pub born: Option<Born>,
}

pub(crate) const PROBLEMS: &[Problem] = &[
    // A below B and C, which are disjoint.
    Problem {
        name: "unsatisfiable_class",
        forms: &[Form::N1(C2, C3), Form::N1(C2, C4), Form::N2(C3, C4, C1)],
        different: &[],
        roots: &[IN0, IN1, IN2, IN3, IN4],
        facts: 12,
        born: None,
    },
    // An individual in A and in B, which are disjoint.
    Problem {
        name: "contradiction_by_individual",
        forms: &[
            Form::N2(C2, C3, C1),
            Form::N8(IndId(0), C2),
            Form::N8(IndId(0), C3),
        ],
        different: &[],
        roots: &[IN0, IN1, IN2, IN3, IND0],
        facts: 11,
        born: None,
    },
    // E below some r W, W below some s H, r then s below r, D as some r H.
    Problem {
        name: "chain_into_a_definition",
        forms: &[
            Form::N1(C2, C4),
            Form::N3(C4, R, ExprId(3)),
            Form::N1(C3, C6),
            Form::N3(C6, S, ExprId(5)),
            Form::N6(EDGES_R, EDGES_S, EDGES_R),
            Form::N1(C7, C8),
            Form::N1(C8, C7),
            Form::N3(C8, R, ExprId(5)),
            Form::N4(R, C5, C8),
        ],
        different: &[],
        roots: &[IN0, IN1, IN2, IN3, IN5, IN7],
        facts: 20,
        born: Some(Born(Fact::Edge(IN2, EDGES_R, IN5), 9, 4, 2)),
    },
    // r then s below r, s then r below s, A below some r B, B below some s C, D as some r C.
    Problem {
        name: "irregular_hierarchy",
        forms: &[
            Form::N6(EDGES_R, EDGES_S, EDGES_R),
            Form::N6(EDGES_S, EDGES_R, EDGES_S),
            Form::N1(C2, C4),
            Form::N3(C4, R, ExprId(3)),
            Form::N1(C3, C6),
            Form::N3(C6, S, ExprId(5)),
            Form::N1(C7, C8),
            Form::N1(C8, C7),
            Form::N3(C8, R, ExprId(5)),
            Form::N4(R, C5, C8),
        ],
        different: &[],
        roots: &[IN0, IN1, IN2, IN3, IN5, IN7],
        facts: 20,
        born: Some(Born(Fact::Edge(IN2, EDGES_R, IN5), 9, 0, 2)),
    },
    // r is reflexive and below s, B is some s A.
    Problem {
        name: "reflexive_through_the_hierarchy",
        forms: &[
            Form::N7(R),
            Form::N5(R, S),
            Form::N1(C2, C4),
            Form::N1(C4, C2),
            Form::N3(C4, S, ExprId(3)),
            Form::N4(S, C3, C4),
        ],
        different: &[],
        roots: &[IN0, IN1, IN2, IN3],
        facts: 16,
        born: None,
    },
    // A below some r owl:Nothing.
    Problem {
        name: "bottom_as_filler",
        forms: &[Form::N1(C2, C3), Form::N3(C3, R, ExprId(1))],
        different: &[],
        roots: &[IN0, IN1, IN2],
        facts: 8,
        born: None,
    },
    // A below B, a in A, a r b, the domain of r is C; and c.
    Problem {
        name: "individuals_and_domain",
        forms: &[
            Form::N1(C2, C3),
            Form::N8(IndId(0), C2),
            Form::N9(IndId(0), R, IndId(1)),
            Form::N4(R, C0, C4),
        ],
        different: &[],
        roots: &[IN0, IN1, IN2, IN3, IN4, IND0, IND1, IND2],
        facts: 17,
        born: None,
    },
    // The forms that a property needs come last: r is reflexive and below s.
    Problem {
        name: "reflexivity_comes_last",
        forms: &[
            Form::N1(C2, C4),
            Form::N1(C4, C2),
            Form::N3(C4, S, ExprId(3)),
            Form::N4(S, C3, C4),
            Form::N7(R),
            Form::N5(R, S),
        ],
        different: &[],
        roots: &[IN0, IN1, IN2, IN3],
        facts: 16,
        born: None,
    },
    // .. and the chain.
    Problem {
        name: "the_chain_comes_last",
        forms: &[
            Form::N4(R, C5, C8),
            Form::N3(C8, R, ExprId(5)),
            Form::N1(C8, C7),
            Form::N1(C7, C8),
            Form::N3(C6, S, ExprId(5)),
            Form::N1(C3, C6),
            Form::N3(C4, R, ExprId(3)),
            Form::N1(C2, C4),
            Form::N6(EDGES_R, EDGES_S, EDGES_R),
        ],
        different: &[],
        roots: &[IN7, IN5, IN3, IN2, IN1, IN0],
        facts: 20,
        born: Some(Born(Fact::Edge(IN2, EDGES_R, IN5), 9, 8, 2)),
    },
    // Five individuals, each by a transitive property before the next: 10 edges.
    Problem {
        name: "transitive_chain",
        forms: &[
            Form::N6(EDGES_R, EDGES_R, EDGES_R),
            Form::N9(IndId(0), R, IndId(1)),
            Form::N9(IndId(1), R, IndId(2)),
            Form::N9(IndId(2), R, IndId(3)),
            Form::N9(IndId(3), R, IndId(4)),
        ],
        different: &[],
        roots: &[IN0, IN1, IND0],
        facts: 18,
        born: Some(Born(Fact::Edge(IND0, EDGES_R, IND4), 9, 0, 2)),
    },
    // .. and the form that makes it transitive comes last.
    Problem {
        name: "transitivity_comes_last",
        forms: &[
            Form::N9(IndId(3), R, IndId(4)),
            Form::N9(IndId(1), R, IndId(2)),
            Form::N9(IndId(0), R, IndId(1)),
            Form::N9(IndId(2), R, IndId(3)),
            Form::N6(EDGES_R, EDGES_R, EDGES_R),
        ],
        different: &[],
        roots: &[IND2, IND0, IN1, IN0],
        facts: 18,
        born: Some(Born(Fact::Edge(IND0, EDGES_R, IND4), 9, 4, 2)),
    },
    // Four individuals by s, which is below the transitive r: 3 edges by s, and 3 by r.
    Problem {
        name: "transitive_above_another",
        forms: &[
            Form::N5(S, R),
            Form::N9(IndId(0), S, IndId(1)),
            Form::N9(IndId(1), S, IndId(2)),
            Form::N9(IndId(2), S, IndId(3)),
            Form::N6(EDGES_R, EDGES_R, EDGES_R),
        ],
        different: &[],
        roots: &[IN0, IN1, IND0],
        facts: 13,
        born: None,
    },
    // Four individuals by the transitive r, and r then r below s: 6 edges by r, and 3 by s.
    Problem {
        name: "transitive_and_a_chain",
        forms: &[
            Form::N6(EDGES_R, EDGES_R, EDGES_R),
            Form::N9(IndId(0), R, IndId(1)),
            Form::N9(IndId(1), R, IndId(2)),
            Form::N9(IndId(2), R, IndId(3)),
            Form::N6(EDGES_R, EDGES_R, EDGES_S),
        ],
        different: &[],
        roots: &[IN0, IN1, IND0],
        facts: 16,
        born: None,
    },
];

/// Problems in which no edge that a transitive property gave has to be a second premise.
pub(crate) const ALL_GO_ON: &[Problem] = &[
    // Twelve individuals, each by a transitive property before the next: 66 edges.
    Problem {
        name: "transitive_among_twelve",
        forms: &[
            Form::N6(EDGES_R, EDGES_R, EDGES_R),
            Form::N9(IndId(0), R, IndId(1)),
            Form::N9(IndId(1), R, IndId(2)),
            Form::N9(IndId(2), R, IndId(3)),
            Form::N9(IndId(3), R, IndId(4)),
            Form::N9(IndId(4), R, IndId(5)),
            Form::N9(IndId(5), R, IndId(6)),
            Form::N9(IndId(6), R, IndId(7)),
            Form::N9(IndId(7), R, IndId(8)),
            Form::N9(IndId(8), R, IndId(9)),
            Form::N9(IndId(9), R, IndId(10)),
            Form::N9(IndId(10), R, IndId(11)),
        ],
        different: &[],
        roots: &[IND0],
        facts: 78,
        born: None,
    },
    // Five individuals by the transitive s, which is below the transitive r: 10 edges by s, and 6 by r.
    Problem {
        name: "transitive_below_another",
        forms: &[
            Form::N6(EDGES_S, EDGES_S, EDGES_S),
            Form::N5(S, R),
            Form::N9(IndId(0), S, IndId(1)),
            Form::N9(IndId(1), S, IndId(2)),
            Form::N9(IndId(2), S, IndId(3)),
            Form::N9(IndId(3), S, IndId(4)),
            Form::N6(EDGES_R, EDGES_R, EDGES_R),
        ],
        different: &[],
        roots: &[IND0],
        facts: 21,
        born: None,
    },
    // An edge by s to the first of four individuals by the transitive r, and s then r below s: 6 edges by r, and 4 by s.
    Problem {
        name: "transitive_behind_another",
        forms: &[
            Form::N6(EDGES_R, EDGES_R, EDGES_R),
            Form::N9(IndId(0), R, IndId(1)),
            Form::N9(IndId(1), R, IndId(2)),
            Form::N9(IndId(2), R, IndId(3)),
            Form::N9(IndId(4), S, IndId(0)),
            Form::N6(EDGES_S, EDGES_R, EDGES_S),
        ],
        different: &[],
        roots: &[IND4],
        facts: 15,
        born: None,
    },
    // Four individuals, by s, r and s each before the next; s is below the transitive r, r then s below s, and s then r below r: that is
    // 3 edges as stated, 0 to 2 by r, and 1 to 3 and 0 to 3 by both. What s then r gives leads on by r, which is transitive.
    Problem {
        name: "transitive_and_chained_with_what_is_below",
        forms: &[
            Form::N6(EDGES_R, EDGES_R, EDGES_R),
            Form::N5(S, R),
            Form::N9(IndId(0), S, IndId(1)),
            Form::N9(IndId(1), R, IndId(2)),
            Form::N9(IndId(2), S, IndId(3)),
            Form::N6(EDGES_R, EDGES_S, EDGES_S),
            Form::N6(EDGES_S, EDGES_R, EDGES_R),
        ],
        different: &[],
        roots: &[IND0],
        facts: 12,
        born: None,
    },
];

/// Problems in which such an edge has to.
pub(crate) const ONE_ENDS: &[Problem] = &[
    // .. and s then r below t, of which none goes on: 6 edges by r, 1 by s, and 3 by t.
    Problem {
        name: "chain_that_ends_with_a_transitive_property",
        forms: &[
            Form::N6(EDGES_R, EDGES_R, EDGES_R),
            Form::N9(IndId(0), R, IndId(1)),
            Form::N9(IndId(1), R, IndId(2)),
            Form::N9(IndId(2), R, IndId(3)),
            Form::N9(IndId(4), S, IndId(0)),
            Form::N6(EDGES_S, EDGES_R, EDGES_T),
        ],
        different: &[],
        roots: &[IND4],
        facts: 15,
        born: None,
    },
    // .. with s then u below t, where u is above r.
    Problem {
        name: "chain_that_ends_above_a_transitive_property",
        forms: &[
            Form::N6(EDGES_R, EDGES_R, EDGES_R),
            Form::N9(IndId(0), R, IndId(1)),
            Form::N9(IndId(1), R, IndId(2)),
            Form::N9(IndId(2), R, IndId(3)),
            Form::N9(IndId(4), S, IndId(0)),
            Form::N6(EDGES_S, EDGES_U, EDGES_T),
            Form::N5(R, U),
        ],
        different: &[],
        roots: &[IND4],
        facts: 15,
        born: None,
    },
];

/// A below B, and then C below D.
pub(crate) const TWO_SUBCLASSES: Problem = Problem {
    name: "two_subclasses",
    forms: &[Form::N1(C2, C3), Form::N1(C4, C5)],
    different: &[],
    roots: &[IN0, IN1, IN2, IN3, IN4, IN5],
    facts: 13,
    born: None,
};

/// Four individuals by s, and the transitive r; and then s below r: 3 edges by s, and 3 by r.
pub(crate) const SUBPROPERTY_COMES_LAST: Problem = Problem {
    name: "subproperty_comes_last",
    forms: &[
        Form::N6(EDGES_R, EDGES_R, EDGES_R),
        Form::N9(IndId(0), S, IndId(1)),
        Form::N9(IndId(1), S, IndId(2)),
        Form::N9(IndId(2), S, IndId(3)),
        Form::N5(S, R),
    ],
    different: &[],
    roots: &[IN0, IN1, IND0],
    facts: 13,
    born: None,
};

/// Three individuals by the transitive r; then t below s and s below r, where no form spoke of s or t; and then a fourth individual by t:
/// 5 edges by r, and one by t.
pub(crate) const FRESH_SUBPROPERTIES_COME_LAST: Problem = Problem {
    name: "fresh_subproperties_come_last",
    forms: &[
        Form::N6(EDGES_R, EDGES_R, EDGES_R),
        Form::N9(IndId(0), R, IndId(1)),
        Form::N9(IndId(1), R, IndId(2)),
        Form::N5(T, S),
        Form::N5(S, R),
        Form::N9(IndId(2), T, IndId(3)),
    ],
    different: &[],
    roots: &[IN0, IN1, IND0],
    facts: 13,
    born: Some(Born(Fact::Edge(IND0, EDGES_R, IND3), 9, 0, 2)),
};

/// A below B, and then B below A.
pub(crate) const SUBCLASSES_IN_A_CIRCLE: Problem = Problem {
    name: "subclasses_in_a_circle",
    forms: &[Form::N1(C2, C3), Form::N1(C3, C2)],
    different: &[],
    roots: &[IN0, IN1, IN2, IN3],
    facts: 9,
    born: None,
};

/// A below B, and then the two are disjoint.
pub(crate) const CLASSES_MADE_DISJOINT: Problem = Problem {
    name: "classes_made_disjoint",
    forms: &[Form::N1(C2, C3), Form::N2(C2, C3, C1)],
    different: &[],
    roots: &[IN0, IN1, IN2, IN3],
    facts: 9,
    born: None,
};

/// A below B, and then the same again.
pub(crate) const SUBCLASS_STATED_AGAIN: Problem = Problem {
    name: "subclass_stated_again",
    forms: &[Form::N1(C2, C3), Form::N1(C2, C3)],
    different: &[],
    roots: &[IN0, IN1, IN2, IN3],
    facts: 8,
    born: None,
};
