//! What sessions infer, as documents worked out by hand.

use crate::documents::session_of;
use session::{Limits, Session, Version, WritingFault};
use std::alloc::Global;
use std::hash::RandomState;
use std::test::Fail;

/// A document, how many facts its closure has, and what is inferred of it.
struct Case {
    document: &'static str,
    facts: u64,
    text: &'static str,
}

const CASES: &[Case] = &[
    Case {
        document: "Prefix(:=<x:>) Ontology(SubClassOf(:A :B) ClassAssertion(:A :a) ObjectPropertyAssertion(:r :a :b) ObjectPropertyDomain(:r :C) Declaration(NamedIndividual(:c)))",
        facts: 17,
        text: "Ontology(\nDeclaration(Class(<x:A>))\nDeclaration(Class(<x:B>))\nDeclaration(Class(<x:C>))\nDeclaration(ObjectProperty(<x:r>))\nDeclaration(NamedIndividual(<x:a>))\nDeclaration(NamedIndividual(<x:b>))\nDeclaration(NamedIndividual(<x:c>))\nSubClassOf(<x:A> <x:B>)\nClassAssertion(<x:A> <x:a>)\nClassAssertion(<x:C> <x:a>)\n)\n",
    },
    Case {
        document: "Prefix(:=<x:>) Ontology(SubClassOf(:A :B) SubClassOf(:A :C) DisjointClasses(:B :C))",
        facts: 12,
        text: "Ontology(\nDeclaration(Class(<x:A>))\nDeclaration(Class(<x:B>))\nDeclaration(Class(<x:C>))\nEquivalentClasses(<http://www.w3.org/2002/07/owl#Nothing> <x:A>)\n)\n",
    },
    Case {
        document: "Prefix(:=<x:>) Ontology(DisjointClasses(:A :B) ClassAssertion(:A :a) ClassAssertion(:B :a))",
        facts: 11,
        text: "Ontology(\nDeclaration(Class(<x:A>))\nDeclaration(Class(<x:B>))\nDeclaration(NamedIndividual(<x:a>))\nSubClassOf(<http://www.w3.org/2002/07/owl#Thing> <http://www.w3.org/2002/07/owl#Nothing>)\n)\n",
    },
    Case {
        document: "Prefix(:=<x:>) Ontology(SubClassOf(:A :B) SubClassOf(<x:B> <x:A>))",
        facts: 9,
        text: "Ontology(\nDeclaration(Class(<x:A>))\nDeclaration(Class(<x:B>))\nEquivalentClasses(<x:A> <x:B>)\n)\n",
    },
    Case {
        document: "Ontology(SubClassOf(<x:A> <x:B>) SubClassOf(<x:B> <x:D>) SubClassOf(<x:A> <x:C>) SubClassOf(<x:C> <x:D>))",
        facts: 16,
        text: "Ontology(\nDeclaration(Class(<x:A>))\nDeclaration(Class(<x:B>))\nDeclaration(Class(<x:C>))\nDeclaration(Class(<x:D>))\nSubClassOf(<x:A> <x:B>)\nSubClassOf(<x:A> <x:C>)\nSubClassOf(<x:B> <x:D>)\nSubClassOf(<x:C> <x:D>)\n)\n",
    },
];

/// Whether the session infers the text, with so many facts.
fn is_inferred(session: &Session, case: &Case) -> bool {
    match session.inferred() {
        Ok(inferred) => {
            inferred.summary.facts == case.facts && inferred.text.as_slice() == case.text.as_bytes()
        }
        Err(_) => false,
    }
}

/// Whether the session, of which nothing was run, infers nothing before it is run, and the text behind that.
fn infers(session: &mut Session, case: &Case) -> bool {
    let unfinished = match session.inferred() {
        Ok(_) => false,
        Err(fault) => fault == WritingFault::Unfinished,
    };
    session.resume(100) == Ok(()) && unfinished && is_inferred(session, case)
}

/// Whether a session over the document of the case infers what it says.
fn is_case(alloc: Global, state: RandomState, limits: &Limits, case: &Case) -> bool {
    let Some(mut session) = session_of(alloc, state, limits, case.document) else {
        return false;
    };
    let right = infers(&mut session, case);
    drop(session);
    right
}

#[test]
fn what_is_inferred(rt: HostRuntime) -> Result<(), Fail> {
    let limits = Limits::new(1000, 100, Version::Two).ok_or("limits")?;
    let state = RandomState::new(&rt)?;
    for case in CASES {
        let document = case.document;
        assert!(rt; is_case(rt.alloc(), state, &limits, case), "{document}");
    }
    Ok(())
}
