//! What is left of listed interpretations where they are narrowed.

use axioms::{ExprId, Memory, PropId};
use cert_check::narrow;
use certificate::{Claim, ClassRow, Listed, PairRow, Targets};
use std::alloc::Global;
use std::test::Fail;

/// The members of a listed interpretation: for each class its elements, for each property and source its targets.
#[derive(Clone, Copy)]
struct Members {
    domain: u32,
    classes: &'static [(u32, &'static [u32])],
    pairs: &'static [(u32, u32, &'static [u32])],
    individuals: &'static [u32],
    claims: &'static [(u32, u32)],
}

/// One element of no class.
const ONE_ELEMENT: Members = Members {
    domain: 1,
    classes: &[],
    pairs: &[],
    individuals: &[],
    claims: &[],
};

/// Five elements: one in a class, a source, a target, one of an individual, and one that stands in a claim alone.
const EACH_KIND: Members = Members {
    domain: 5,
    classes: &[(2, &[0])],
    pairs: &[(0, 1, &[2])],
    individuals: &[3],
    claims: &[(0, 4)],
};

/// What the certificate of SubClassOf(A B) lists.
const ONE_SUBCLASS: Members = Members {
    domain: 3,
    classes: &[(2, &[1]), (3, &[1, 2])],
    pairs: &[],
    individuals: &[],
    claims: &[(0, 0), (2, 1), (3, 2)],
};

/// What is narrowed, its members, and those of the outcome.
const NARROWED: &[(&str, Members, Members)] = &[
    ("each kind of line, no other element", EACH_KIND, EACH_KIND),
    (
        "each kind of line, one other element",
        Members {
            domain: 6,
            ..EACH_KIND
        },
        Members {
            domain: 6,
            ..EACH_KIND
        },
    ),
    (
        "each kind of line, many other elements",
        Members {
            domain: 4294967295,
            ..EACH_KIND
        },
        Members {
            domain: 6,
            ..EACH_KIND
        },
    ),
    ("one subclass", ONE_SUBCLASS, ONE_SUBCLASS),
    (
        "one subclass in a huge domain",
        Members {
            domain: 4294967295,
            ..ONE_SUBCLASS
        },
        Members {
            domain: 4,
            ..ONE_SUBCLASS
        },
    ),
    ("no line, one element", ONE_ELEMENT, ONE_ELEMENT),
    (
        "no line, many elements",
        Members {
            domain: 4294967295,
            ..ONE_ELEMENT
        },
        ONE_ELEMENT,
    ),
    (
        "elements in other orders than that of their numbers",
        Members {
            domain: 4294967295,
            classes: &[(2, &[9, 4000000000]), (3, &[7])],
            pairs: &[(0, 7, &[9, 4000000000]), (1, 4000000000, &[7])],
            individuals: &[4000000000, 7, 7],
            claims: &[(2, 9), (3, 7)],
        },
        Members {
            domain: 4,
            classes: &[(2, &[1, 2]), (3, &[0])],
            pairs: &[(0, 0, &[1, 2]), (1, 2, &[0])],
            individuals: &[2, 0, 0],
            claims: &[(2, 1), (3, 0)],
        },
    ),
    (
        "a class alone",
        Members {
            domain: 4294967295,
            classes: &[(2, &[5, 4294967294])],
            ..ONE_ELEMENT
        },
        Members {
            domain: 3,
            classes: &[(2, &[0, 1])],
            ..ONE_ELEMENT
        },
    ),
    (
        "a source that is no target, and a target that is no source",
        Members {
            domain: 4294967295,
            pairs: &[(0, 5, &[4294967294])],
            ..ONE_ELEMENT
        },
        Members {
            domain: 3,
            pairs: &[(0, 0, &[1])],
            ..ONE_ELEMENT
        },
    ),
    (
        "an individual alone",
        Members {
            domain: 4294967295,
            individuals: &[4294967294],
            ..ONE_ELEMENT
        },
        Members {
            domain: 2,
            individuals: &[0],
            ..ONE_ELEMENT
        },
    ),
    (
        "a claim alone",
        Members {
            domain: 4294967295,
            claims: &[(0, 4294967294)],
            ..ONE_ELEMENT
        },
        Members {
            domain: 2,
            claims: &[(0, 0)],
            ..ONE_ELEMENT
        },
    ),
];

fn class_rows(alloc: Global, members: Members) -> Result<Vec<ClassRow>, Memory> {
    let mut rows = Vec::new(alloc);
    for (class, elements) in members.classes {
        rows.push(ClassRow {
            class: ExprId(*class),
            elements: Vec::from_slice(alloc, elements)?,
        })?;
    }
    Ok(rows)
}

fn pair_rows(alloc: Global, members: Members) -> Result<Vec<PairRow>, Memory> {
    let mut rows = Vec::new(alloc);
    for (property, source, targets) in members.pairs {
        rows.push(PairRow {
            property: PropId(*property),
            source: *source,
            targets: Targets::from_slice(alloc, targets)?,
        })?;
    }
    Ok(rows)
}

fn claims(alloc: Global, members: Members) -> Result<Vec<Claim>, Memory> {
    let mut claims = Vec::new(alloc);
    for (class, element) in members.claims {
        claims.push(Claim {
            class: ExprId(*class),
            element: *element,
        })?;
    }
    Ok(claims)
}

/// The listed interpretation of the members.
fn listed(alloc: Global, members: Members) -> Result<Listed, Memory> {
    Ok(Listed {
        domain: members.domain,
        classes: class_rows(alloc, members)?,
        pairs: pair_rows(alloc, members)?,
        individuals: Vec::from_slice(alloc, members.individuals)?,
        claims: claims(alloc, members)?,
    })
}

/// Whether the outcome is that of narrowing the members.
fn are_narrowed_to(alloc: Global, members: Members, outcome: Members) -> Result<bool, Memory> {
    let found = narrow(alloc, &listed(alloc, members)?)?;
    let expected = listed(alloc, outcome)?;
    Ok(found == expected)
}

/// Whether the outcome is that of narrowing the members, and stays as it is where it is narrowed.
fn are_narrowed(alloc: Global, members: Members, outcome: Members) -> Result<bool, Memory> {
    Ok(are_narrowed_to(alloc, members, outcome)? && are_narrowed_to(alloc, outcome, outcome)?)
}

#[test]
fn narrowed_members(rt: HostRuntime) -> Result<(), Fail> {
    for (what, members, outcome) in NARROWED {
        assert!(rt; are_narrowed(rt.alloc(), *members, *outcome)?, "{what}");
    }
    Ok(())
}
