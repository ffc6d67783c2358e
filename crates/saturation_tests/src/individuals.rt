//! Worked problems of individuals that are one, that differ, and of pairs that are denied, their facts counted by hand.

use crate::numbered::{
    C0, C1, C2, C3, C4, C5, C6, EDGES_P, EDGES_R, EDGES_S, EDGES_T, EDGES_U, IN0, IN1, IN2, IN3,
    IN4, IN6, IND0, IND1, IND2, IND3, IND4, P, R, S, T, U,
};
use crate::problems::{Born, Problem};
use axioms::{ExprId, IndId};
use facts::Fact;
use normal_forms::Form;

pub(crate) const INDIVIDUALS: &[Problem] = &[
    // a is b, a is in A and b in B.
    Problem {
        name: "same_individuals",
        forms: &[
            Form::N10(IndId(0), IndId(1)),
            Form::N8(IndId(0), C2),
            Form::N8(IndId(1), C3),
        ],
        different: &[],
        roots: &[IN0, IN1, IN2, IN3, IND0, IND1],
        facts: 13,
        born: Some(Born(Fact::In(C3, IND0), 11, 0, 1)),
    },
    // a is b, and b is another than a.
    Problem {
        name: "same_and_different",
        forms: &[Form::N10(IndId(0), IndId(1))],
        different: &[&[IndId(1), IndId(0)]],
        roots: &[IN0, IN1, IND0, IND1],
        facts: 7,
        born: Some(Born(Fact::In(C1, IND1), 12, 0, 0)),
    },
    DENIED_BY_WAY_OF_SAME,
    // a and b differ, and a r b is denied.
    Problem {
        name: "different_and_denied",
        forms: &[Form::N12(IndId(0), R, IndId(1))],
        different: &[&[IndId(0), IndId(1)]],
        roots: &[IN0, IN1, IND0, IND1],
        facts: 5,
        born: None,
    },
    // a is b.
    Problem {
        name: "same_alone",
        forms: &[Form::N10(IndId(0), IndId(1))],
        different: &[],
        roots: &[IN0, IN1, IND0, IND1],
        facts: 5,
        born: None,
    },
    // a is b, and b is a.
    Problem {
        name: "same_twice",
        forms: &[Form::N10(IndId(0), IndId(1)), Form::N10(IndId(1), IndId(0))],
        different: &[],
        roots: &[IN0, IN1, IND0, IND1],
        facts: 5,
        born: None,
    },
    // a is b, b is c, and c is in A.
    Problem {
        name: "three_in_one_axiom",
        forms: &[
            Form::N10(IndId(0), IndId(1)),
            Form::N10(IndId(1), IndId(2)),
            Form::N8(IndId(2), C2),
        ],
        different: &[],
        roots: &[IN0, IN1, IN2, IND0, IND1, IND2],
        facts: 11,
        born: None,
    },
    // c is d, a is b, d is a, and b is in A.
    Problem {
        name: "two_axioms_join",
        forms: &[
            Form::N10(IndId(0), IndId(1)),
            Form::N10(IndId(2), IndId(3)),
            Form::N10(IndId(1), IndId(2)),
            Form::N8(IndId(3), C2),
        ],
        different: &[],
        roots: &[IN0, IN1, IN2, IND0, IND1, IND2, IND3],
        facts: 13,
        born: None,
    },
    // a is b, b is c, and d, a and c differ.
    Problem {
        name: "different_by_way_of_a_third",
        forms: &[Form::N10(IndId(0), IndId(1)), Form::N10(IndId(1), IndId(2))],
        different: &[&[IndId(3), IndId(0), IndId(2)]],
        roots: &[IN0, IN1, IND0, IND1, IND2, IND3],
        facts: 10,
        born: Some(Born(Fact::In(C1, IND0), 12, 0, 0)),
    },
    // a, b and c differ.
    Problem {
        name: "different_alone",
        forms: &[],
        different: &[&[IndId(0), IndId(1), IndId(2)]],
        roots: &[IN0, IN1, IND0, IND1, IND2],
        facts: 6,
        born: None,
    },
    // a, b and a differ.
    Problem {
        name: "different_from_itself",
        forms: &[],
        different: &[&[IndId(0), IndId(1), IndId(0)]],
        roots: &[IN0, IN1, IND0, IND1],
        facts: 6,
        born: Some(Born(Fact::In(C1, IND0), 12, 0, 0)),
    },
    // a is b, c is d; a, c, e and b differ, and so do e, c and d.
    Problem {
        name: "different_in_two_lists",
        forms: &[Form::N10(IndId(0), IndId(1)), Form::N10(IndId(2), IndId(3))],
        different: &[
            &[IndId(0), IndId(2), IndId(4), IndId(1)],
            &[IndId(4), IndId(2), IndId(3)],
        ],
        roots: &[IN0, IN1, IND0, IND1, IND2, IND3, IND4],
        facts: 12,
        born: Some(Born(Fact::In(C1, IND2), 12, 1, 0)),
    },
    // a is b, and a r b.
    Problem {
        name: "edge_inside_a_group",
        forms: &[
            Form::N10(IndId(0), IndId(1)),
            Form::N9(IndId(0), R, IndId(1)),
        ],
        different: &[],
        roots: &[IN0, IN1, IND0, IND1],
        facts: 9,
        born: None,
    },
    // a is b, c is d, a r c, and a and c differ.
    Problem {
        name: "two_groups",
        forms: &[
            Form::N10(IndId(0), IndId(1)),
            Form::N10(IndId(2), IndId(3)),
            Form::N9(IndId(0), R, IndId(2)),
        ],
        different: &[&[IndId(0), IndId(2)]],
        roots: &[IN0, IN1, IND0, IND1, IND2, IND3],
        facts: 11,
        born: None,
    },
    // b is c, a r b, c s d, r then s below t, and the domain of t is A.
    Problem {
        name: "chain_through_a_group",
        forms: &[
            Form::N10(IndId(0), IndId(1)),
            Form::N9(IndId(2), R, IndId(0)),
            Form::N9(IndId(1), S, IndId(3)),
            Form::N6(EDGES_R, EDGES_S, EDGES_T),
            Form::N4(T, C0, C2),
        ],
        different: &[],
        roots: &[IN0, IN1, IN2, IND0, IND1, IND2, IND3],
        facts: 15,
        born: Some(Born(Fact::Edge(IND2, EDGES_R, IND1), 11, 0, 1)),
    },
    // .. with d u e, and r then s then u below t.
    Problem {
        name: "long_chain_through_a_group",
        forms: &[
            Form::N10(IndId(0), IndId(1)),
            Form::N9(IndId(2), R, IndId(0)),
            Form::N9(IndId(1), S, IndId(3)),
            Form::N9(IndId(3), U, IndId(4)),
            Form::N6(EDGES_R, EDGES_S, EDGES_P),
            Form::N6(EDGES_P, EDGES_U, EDGES_T),
            Form::N4(T, C0, C2),
        ],
        different: &[],
        roots: &[IN0, IN1, IN2, IND0, IND1, IND2, IND3, IND4],
        facts: 18,
        born: None,
    },
    // a is b, a is in A and C, b is in B, and A and B and C is below D.
    Problem {
        name: "intersection_in_a_group",
        forms: &[
            Form::N10(IndId(0), IndId(1)),
            Form::N8(IndId(0), C2),
            Form::N8(IndId(1), C3),
            Form::N8(IndId(0), C4),
            Form::N2(C2, C3, P),
            Form::N2(P, C4, C5),
            Form::N1(C5, C6),
        ],
        different: &[],
        roots: &[IN0, IN1, IN2, IN3, IN4, IN6, IND0, IND1],
        facts: 25,
        born: Some(Born(Fact::In(C3, IND0), 11, 0, 1)),
    },
    // a is b, c r a, b is in A, and D as some r A.
    Problem {
        name: "definition_over_a_group",
        forms: &[
            Form::N10(IndId(0), IndId(1)),
            Form::N9(IndId(2), R, IndId(0)),
            Form::N8(IndId(1), C2),
            Form::N1(C3, C4),
            Form::N1(C4, C3),
            Form::N3(C4, R, ExprId(2)),
            Form::N4(R, C2, C4),
        ],
        different: &[],
        roots: &[IN0, IN1, IN2, IN3, IND0, IND1, IND2],
        facts: 19,
        born: None,
    },
    // a is b, A and B are disjoint, a is in A and b in B, and C is below A.
    Problem {
        name: "nothing_in_a_group",
        forms: &[
            Form::N10(IndId(0), IndId(1)),
            Form::N2(C2, C3, C1),
            Form::N8(IndId(0), C2),
            Form::N8(IndId(1), C3),
            Form::N1(C4, C2),
        ],
        different: &[],
        roots: &[IN0, IN1, IN2, IN3, IN4, IND0, IND1],
        facts: 18,
        born: None,
    },
    // r is reflexive, a is b, and a r b is denied.
    Problem {
        name: "reflexive_in_a_group",
        forms: &[
            Form::N7(R),
            Form::N10(IndId(0), IndId(1)),
            Form::N12(IndId(0), R, IndId(1)),
        ],
        different: &[],
        roots: &[IN0, IN1, IND0, IND1],
        facts: 13,
        born: Some(Born(Fact::Edge(IND0, EDGES_R, IND1), 11, 1, 1)),
    },
    // r then r below s, a r b, b r c, and a s c is denied.
    Problem {
        name: "denied_by_a_chain",
        forms: &[
            Form::N6(EDGES_R, EDGES_R, EDGES_S),
            Form::N9(IndId(0), R, IndId(1)),
            Form::N9(IndId(1), R, IndId(2)),
            Form::N12(IndId(0), S, IndId(2)),
        ],
        different: &[],
        roots: &[IN0, IN1, IND0, IND1, IND2],
        facts: 10,
        born: Some(Born(Fact::In(C1, IND0), 13, 3, 1)),
    },
    // r is below s, a s b, and a r b is denied.
    Problem {
        name: "denied_below",
        forms: &[
            Form::N5(R, S),
            Form::N9(IndId(0), S, IndId(1)),
            Form::N12(IndId(0), R, IndId(1)),
        ],
        different: &[],
        roots: &[IN0, IN1, IND0, IND1],
        facts: 6,
        born: None,
    },
    // r is transitive, b is c, a r b, c r d, and a r d is denied.
    Problem {
        name: "denied_by_a_transitive_property",
        forms: &[
            Form::N6(EDGES_R, EDGES_R, EDGES_R),
            Form::N10(IndId(0), IndId(1)),
            Form::N9(IndId(2), R, IndId(0)),
            Form::N9(IndId(1), R, IndId(3)),
            Form::N12(IndId(2), R, IndId(3)),
        ],
        different: &[],
        roots: &[IN0, IN1, IND0, IND1, IND2, IND3],
        facts: 13,
        born: None,
    },
];

/// a is in A and b in B, and then a is b.
pub(crate) const SAME_ADDED: Problem = Problem {
    name: "same_added",
    forms: &[
        Form::N8(IndId(0), C2),
        Form::N8(IndId(1), C3),
        Form::N10(IndId(0), IndId(1)),
    ],
    different: &[],
    roots: &[IN0, IN1, IN2, IN3, IND0, IND1],
    facts: 13,
    born: Some(Born(Fact::In(C3, IND0), 11, 2, 1)),
};

/// c is d, a is b, and b is in A, and then d is a.
pub(crate) const GROUPS_JOINED: Problem = Problem {
    name: "groups_joined",
    forms: &[
        Form::N10(IndId(0), IndId(1)),
        Form::N10(IndId(2), IndId(3)),
        Form::N8(IndId(3), C2),
        Form::N10(IndId(1), IndId(2)),
    ],
    different: &[],
    roots: &[IN0, IN1, IN2, IND0, IND1, IND2, IND3],
    facts: 13,
    born: None,
};

/// a r b, and then a is b.
pub(crate) const EDGE_IN_A_NEW_GROUP: Problem = Problem {
    name: "edge_in_a_new_group",
    forms: &[
        Form::N9(IndId(0), R, IndId(1)),
        Form::N10(IndId(0), IndId(1)),
    ],
    different: &[],
    roots: &[IN0, IN1, IND0, IND1],
    facts: 9,
    born: None,
};

/// a is b, and a is in A, and then the first again.
pub(crate) const SAME_STATED_AGAIN: Problem = Problem {
    name: "same_stated_again",
    forms: &[
        Form::N10(IndId(0), IndId(1)),
        Form::N8(IndId(0), C2),
        Form::N10(IndId(0), IndId(1)),
    ],
    different: &[],
    roots: &[IN0, IN1, IN2, IND0, IND1],
    facts: 9,
    born: None,
};

/// a is b, b is c, and c is in A, and then a and c differ.
pub(crate) const DIFFERENT_ADDED: Problem = Problem {
    name: "different_added",
    forms: &[
        Form::N10(IndId(0), IndId(1)),
        Form::N10(IndId(1), IndId(2)),
        Form::N8(IndId(2), C2),
    ],
    different: &[&[IndId(0), IndId(2)]],
    roots: &[IN0, IN1, IN2, IND0, IND1, IND2],
    facts: 14,
    born: Some(Born(Fact::In(C1, IND0), 12, 0, 0)),
};

/// a and c differ, and a is b, and then b is c.
pub(crate) const DIFFERENT_MADE_SAME: Problem = Problem {
    name: "different_made_same",
    forms: &[Form::N10(IndId(0), IndId(1)), Form::N10(IndId(1), IndId(2))],
    different: &[&[IndId(0), IndId(2)]],
    roots: &[IN0, IN1, IND0, IND1, IND2],
    facts: 9,
    born: Some(Born(Fact::In(C1, IND0), 12, 0, 0)),
};

/// b is c, a r b, and r is below s, and a s c is denied, at once or then.
pub(crate) const DENIED_BY_WAY_OF_SAME: Problem = Problem {
    name: "denied_by_way_of_same",
    forms: &[
        Form::N10(IndId(0), IndId(1)),
        Form::N9(IndId(2), R, IndId(0)),
        Form::N5(R, S),
        Form::N12(IndId(2), S, IndId(1)),
    ],
    different: &[],
    roots: &[IN0, IN1, IND0, IND1, IND2],
    facts: 9,
    born: Some(Born(Fact::In(C1, IND2), 13, 3, 1)),
};

/// b is c, a r b, and a s c is denied, and then r is below s.
pub(crate) const DENIED_FROM_BELOW: Problem = Problem {
    name: "denied_from_below",
    forms: &[
        Form::N10(IndId(0), IndId(1)),
        Form::N9(IndId(2), R, IndId(0)),
        Form::N12(IndId(2), S, IndId(1)),
        Form::N5(R, S),
    ],
    different: &[],
    roots: &[IN0, IN1, IND0, IND1, IND2],
    facts: 9,
    born: Some(Born(Fact::In(C1, IND2), 13, 2, 1)),
};
