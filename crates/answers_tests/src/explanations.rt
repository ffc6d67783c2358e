//! Explanations of questions about small ontologies, as they are written for people, and as others judge them.

mod judged;

ghost use Rattle.engine.specs.Saturations.{IsUnasked};
ghost use Rattle.answers.specs.Explanations.{Explains};
ghost use Rattle.program.specs.declared.question.Asked.{Asked as Asked2};
ghost use Rattle.certificate.specs.Writability.{IsLineOf};
ghost use Rattle.certificate.specs.View.{lines_of};
ghost use Rattle.interpretation_spec.specs.NumberedInterpretation.{IsMadeFor};
ghost use Rattle.std.specs.Prelude.{All, IfOk, IfSome, List, ℕ};

use crate::documents::saturated;
use answer_texts::{proof_bytes, refutation_bytes};
use answers::{Answer, Explanation, ask};
use axioms::{Memory, Ontology};
use certificate::Line;
use engine::Indexed;
use interpretation_spec::Interpretation;
use judged::is_right_of;
use profile::{Version, read_bytes};
use program::{Asked, Shown};
use std::alloc::Global;
use std::hash::RandomState;
use std::test::Fail;

/// A lies below B, and nothing else.
const ONE_SUBCLASS: &str = "Prefix(:=<x:>) Ontology(SubClassOf(:A :B))";

/// B is what has something of A behind p, and all things have themselves behind q, below p.
const REFLEXIVE_HIERARCHY: &str =
    "Prefix(:=<x:>) Ontology(ReflexiveObjectProperty(:q) SubObjectPropertyOf(:q :p) EquivalentClasses(:B ObjectSomeValuesFrom(:p :A)))";

/// The individual a is in two classes that are apart.
const APART: &str =
    "Prefix(:=<x:>) Ontology(DisjointClasses(:A :B) ClassAssertion(:A :a) ClassAssertion(:B :a))";

/// E has something of W behind loc, W of H behind part, what part leads on from is reached by loc too, and D is what has something
/// of H behind loc.
const CHAIN_INTO_A_DEFINITION: &str =
    "Prefix(:=<x:>) Ontology(SubClassOf(:E ObjectSomeValuesFrom(:loc :W)) SubClassOf(:W ObjectSomeValuesFrom(:part :H)) SubObjectPropertyOf(ObjectPropertyChain(:loc :part) :loc) EquivalentClasses(:D ObjectSomeValuesFrom(:loc :H)))";

/// A is in all three operands of what D is.
const INTERSECTION: &str =
    "Prefix(:=<x:>) Ontology(SubClassOf(:A :B) SubClassOf(:A :C) EquivalentClasses(:D ObjectIntersectionOf(:B :C :E)) SubClassOf(:A :E))";

/// D is what has something of B behind r, as a has b.
const FILLER_OF_AN_INDIVIDUAL: &str =
    "Prefix(:=<x:>) Ontology(ClassAssertion(:B :b) ObjectPropertyAssertion(:r :a :b) EquivalentClasses(:D ObjectSomeValuesFrom(:r :B)))";

/// What r leads on from is in C, as a is.
const DOMAIN: &str =
    "Prefix(:=<x:>) Ontology(SubClassOf(:A :B) ClassAssertion(:A :a) ObjectPropertyAssertion(:r :a :b) ObjectPropertyDomain(:r :C) Declaration(NamedIndividual(:c)))";

/// Nothing is in A.
const UNSATISFIABLE: &str = "Prefix(:=<x:>) Ontology(SubClassOf(:A owl:Nothing) SubClassOf(:B :C))";

/// Nothing is in A, but the individual a is.
const INDIVIDUAL_OF_NOTHING: &str =
    "Prefix(:=<x:>) Ontology(SubClassOf(:A owl:Nothing) ClassAssertion(:A :a))";

/// The individuals a and b are one, a in A and b in B.
const SAME_INDIVIDUALS: &str =
    "Prefix(:=<x:>) Ontology(SameIndividual(:a :b) ClassAssertion(:A :a) ClassAssertion(:B :b))";

/// The individuals a and b are one, as c and d are, and a has c, which is another. Nothing is in A.
const TWO_GROUPS: &str =
    "Prefix(:=<x:>) Ontology(SameIndividual(:a :b) SameIndividual(:c :d) ObjectPropertyAssertion(:r :a :c) DifferentIndividuals(:a :c) Declaration(Class(:A)))";

/// The individuals b and c are one, and what r leads on from b is reached by s.
const CHAIN_THROUGH_A_GROUP: &str =
    "Prefix(:=<x:>) Ontology(SameIndividual(:b :c) ObjectPropertyAssertion(:r :a :b) ObjectPropertyAssertion(:s :c :d) SubObjectPropertyOf(ObjectPropertyChain(:r :s) :t) ObjectPropertyDomain(:t :A))";

/// The individuals a and c are one by way of b, and differ.
const DIFFERENT_BY_WAY_OF_A_THIRD: &str =
    "Prefix(:=<x:>) Ontology(SameIndividual(:a :b) SameIndividual(:b :c) DifferentIndividuals(:d :a :c))";

/// The pair of a and c is denied, and a has b, which is c.
const DENIED_BY_WAY_OF_SAME: &str =
    "Prefix(:=<x:>) Ontology(SameIndividual(:b :c) ObjectPropertyAssertion(:r :a :b) SubObjectPropertyOf(:r :s) NegativeObjectPropertyAssertion(:s :a :c))";

/// X is in the third and in the sixth of eight classes that are apart, by way of the third.
const EIGHT_APART: &str =
    "Prefix(:=<x:>) Ontology(SubClassOf(:X :C) SubClassOf(:C :F) DisjointClasses(:A :B :C :D :E :F :G :H))";

/// X is in the last and in the second of nine classes that are apart, by way of the last.
const NINE_APART: &str =
    "Prefix(:=<x:>) Ontology(SubClassOf(:X :I) SubClassOf(:I :B) DisjointClasses(:A :B :C :D :E :F :G :H :I))";

/// As lines, all of them.
const LINES: Shown = Shown {
    graph: false,
    reached: false,
    axioms: false,
};

/// Which explanation is wanted, by its text.
#[derive(Clone, Copy)]
enum Wanted {
    Yes(&'static str),
    /// By the last line, where some of the others may stand in another order.
    YesByLast(&'static str),
    No(&'static str),
    Contradictory(&'static str),
    ContradictoryInSomeOrder,
    Unknown,
}

/// A question about the ontology of a document.
#[derive(Clone, Copy)]
struct Question {
    case: &'static str,
    document: &'static str,
    asked: Asked<'static>,
    class: &'static str,
    wanted: Wanted,
}

const QUESTIONS: &[Question] = &[
    Question {
        case: "B is not below A",
        document: ONE_SUBCLASS,
        asked: Asked::Class("x:B"),
        class: "x:A",
        wanted: Wanted::No("no\ndomain 1\nclass <x:B> 0\nelement 0\n"),
    },
    Question {
        case: "A is below B, by the axiom from that A is below A",
        document: ONE_SUBCLASS,
        asked: Asked::Class("x:A"),
        class: "x:B",
        wanted: Wanted::Yes("1. sub <x:A> <x:A> by K1\n2. sub <x:A> <x:B> by K4 axiom 1 from 1\n"),
    },
    Question {
        case: "there is no individual A",
        document: ONE_SUBCLASS,
        asked: Asked::Individual("x:A"),
        class: "x:B",
        wanted: Wanted::Unknown,
    },
    Question {
        case: "of two elements the one that is in B alone refutes",
        document: REFLEXIVE_HIERARCHY,
        asked: Asked::Class("x:B"),
        class: "x:A",
        wanted: Wanted::No(
            "no\ndomain 2\nclass <x:B> 0 1\nclass <x:A> 1\npair <x:q> 0 0\npair <x:q> 1 1\npair <x:p> 0 0\npair <x:p> 0 1\npair <x:p> 1 1\nelement 0\n",
        ),
    },
    Question {
        case: "a is in A and B",
        document: APART,
        asked: Asked::Individual("x:a"),
        class: "x:A",
        wanted: Wanted::ContradictoryInSomeOrder,
    },
    Question {
        case: "E is in D, by a chain into a definition",
        document: CHAIN_INTO_A_DEFINITION,
        asked: Asked::Class("x:E"),
        class: "x:D",
        wanted: Wanted::YesByLast("\n10. sub <x:E> <x:D> by K4 axiom 4 from 9\n"),
    },
    Question {
        case: "A is in D, by the prefixes of an intersection",
        document: INTERSECTION,
        asked: Asked::Class("x:A"),
        class: "x:D",
        wanted: Wanted::YesByLast("\n6. sub <x:A> <x:D> by K4 axiom 3 from 5\n"),
    },
    Question {
        case: "a is in D, by what b is",
        document: FILLER_OF_AN_INDIVIDUAL,
        asked: Asked::Individual("x:a"),
        class: "x:D",
        wanted: Wanted::YesByLast("\n4. sub individual <x:a> <x:D> by K4 axiom 3 from 3\n"),
    },
    Question {
        case: "a is in C, by its edge and a domain",
        document: DOMAIN,
        asked: Asked::Individual("x:a"),
        class: "x:C",
        wanted: Wanted::Yes(
            "1. edge individual <x:a> <x:r> individual <x:b> by K16 axiom 3\n2. sub individual <x:a> <x:C> by K10 axiom 4 from 1\n",
        ),
    },
    Question {
        case: "b is not in B: three individuals and no more",
        document: DOMAIN,
        asked: Asked::Individual("x:b"),
        class: "x:B",
        wanted: Wanted::No(
            "no\ndomain 3\nclass <x:A> 0\nclass <x:B> 0\nclass <x:C> 0\npair <x:r> 0 1\nindividual <x:a> 0\nindividual <x:b> 1\nindividual <x:c> 2\nelement 1\n",
        ),
    },
    Question {
        case: "there is no class Q",
        document: DOMAIN,
        asked: Asked::Individual("x:b"),
        class: "x:Q",
        wanted: Wanted::Unknown,
    },
    Question {
        case: "what lies below owl:Nothing lies below every class",
        document: UNSATISFIABLE,
        asked: Asked::Class("x:A"),
        class: "x:B",
        wanted: Wanted::Yes(
            "1. sub <x:A> <x:A> by K1\n2. sub <x:A> <http://www.w3.org/2002/07/owl#Nothing> by K4 axiom 1 from 1\n3. sub <x:A> <x:B> by K3 from 2\n",
        ),
    },
    Question {
        case: "B lies below owl:Thing, by no axiom",
        document: UNSATISFIABLE,
        asked: Asked::Class("x:B"),
        class: "http://www.w3.org/2002/07/owl#Thing",
        wanted: Wanted::Yes("1. sub <x:B> <http://www.w3.org/2002/07/owl#Thing> by K2\n"),
    },
    Question {
        case: "an individual in owl:Nothing, whatever is asked",
        document: INDIVIDUAL_OF_NOTHING,
        asked: Asked::Class("x:A"),
        class: "x:A",
        wanted: Wanted::Contradictory(
            "1. sub individual <x:a> <x:A> by K15 axiom 2\n2. sub individual <x:a> <http://www.w3.org/2002/07/owl#Nothing> by K4 axiom 1 from 1\n",
        ),
    },
    Question {
        case: "b is in A, as a is, which it is",
        document: SAME_INDIVIDUALS,
        asked: Asked::Individual("x:b"),
        class: "x:A",
        wanted: Wanted::Yes(
            "1. sub individual <x:a> <x:A> by K15 axiom 2\n2. same individual <x:b> individual <x:a> by K17 axiom 1\n3. sub individual <x:b> <x:A> by K19 from 2, 1\n",
        ),
    },
    Question {
        case: "d is not in A: individuals that are one have one element",
        document: TWO_GROUPS,
        asked: Asked::Individual("x:d"),
        class: "x:A",
        wanted: Wanted::No(
            "no\ndomain 2\npair <x:r> 0 1\nindividual <x:a> 0\nindividual <x:b> 0\nindividual <x:c> 1\nindividual <x:d> 1\nelement 1\n",
        ),
    },
    Question {
        case: "a is in A, by a chain that goes on from what b is",
        document: CHAIN_THROUGH_A_GROUP,
        asked: Asked::Individual("x:a"),
        class: "x:A",
        wanted: Wanted::YesByLast("\n6. sub individual <x:a> <x:A> by K10 axiom 5 from 5\n"),
    },
    Question {
        case: "a differs from what it is",
        document: DIFFERENT_BY_WAY_OF_A_THIRD,
        asked: Asked::Individual("x:d"),
        class: "http://www.w3.org/2002/07/owl#Thing",
        wanted: Wanted::Contradictory(
            "1. same individual <x:a> individual <x:b> by K17 axiom 1\n2. same individual <x:b> individual <x:c> by K17 axiom 2\n3. same individual <x:a> individual <x:c> by K18 from 1, 2\n4. sub individual <x:a> <http://www.w3.org/2002/07/owl#Nothing> by K20 axiom 3 from 3\n",
        ),
    },
    Question {
        case: "a has what it is denied",
        document: DENIED_BY_WAY_OF_SAME,
        asked: Asked::Individual("x:b"),
        class: "http://www.w3.org/2002/07/owl#Thing",
        wanted: Wanted::Contradictory(
            "1. edge individual <x:a> <x:r> individual <x:b> by K16 axiom 2\n2. same individual <x:c> individual <x:b> by K17 axiom 1\n3. edge individual <x:a> <x:r> individual <x:c> by K19 from 2, 1\n4. edge individual <x:a> <x:s> individual <x:c> by K12 axiom 3 from 3\n5. sub individual <x:a> <http://www.w3.org/2002/07/owl#Nothing> by K20 axiom 4 from 4\n",
        ),
    },
    Question {
        case: "nothing is in X, by two of eight classes",
        document: EIGHT_APART,
        asked: Asked::Class("x:X"),
        class: "http://www.w3.org/2002/07/owl#Nothing",
        wanted: Wanted::Yes(
            "1. sub <x:X> <x:X> by K1\n2. sub <x:X> <x:C> by K4 axiom 1 from 1\n3. sub <x:X> <x:F> by K4 axiom 2 from 2\n4. sub <x:X> <http://www.w3.org/2002/07/owl#Nothing> by K7 axiom 3 from 2, 3\n",
        ),
    },
    Question {
        case: "nothing is in X, by two of nine classes, the later one first",
        document: NINE_APART,
        asked: Asked::Class("x:X"),
        class: "http://www.w3.org/2002/07/owl#Nothing",
        wanted: Wanted::Yes(
            "1. sub <x:X> <x:X> by K1\n2. sub <x:X> <x:I> by K4 axiom 1 from 1\n3. sub <x:X> <x:B> by K4 axiom 2 from 2\n4. sub <x:X> <http://www.w3.org/2002/07/owl#Nothing> by K7 axiom 3 from 3, 2\n",
        ),
    },
    Question {
        case: "A is not below H, though eight classes are apart",
        document: EIGHT_APART,
        asked: Asked::Class("x:A"),
        class: "x:H",
        wanted: Wanted::No("no\ndomain 1\nclass <x:A> 0\nelement 0\n"),
    },
];

/// Whether this is the text.
fn is_derivation(alloc: Global, ontology: &Ontology, lines: &[Line], text: &str) -> bool
    requires { All (IsLineOf ontology.now) (lines_of lines.now) }
{
    match proof_bytes(alloc, ontology, lines) {
        Ok(written) => written.as_slice() == text.as_bytes(),
        Err(_) => false,
    }
}

/// Whether the text ends so.
fn is_derivation_to(alloc: Global, ontology: &Ontology, lines: &[Line], last: &str) -> bool
    requires { All (IsLineOf ontology.now) (lines_of lines.now) }
{
    match proof_bytes(alloc, ontology, lines) {
        Ok(written) => written.as_slice().ends_with(last.as_bytes()),
        Err(_) => false,
    }
}

/// Whether this is the text.
fn is_refutation(
    alloc: Global,
    ontology: &Ontology,
    part: &Interpretation,
    element: usize,
    text: &str,
) -> bool
    requires { IsMadeFor ontology.now.names part.now }
{
    match refutation_bytes(alloc, ontology, part, element) {
        Ok(written) => written.as_slice() == text.as_bytes(),
        Err(_) => false,
    }
}

/// Whether the explanation is the one that is wanted.
fn is_wanted(alloc: Global, ontology: &Ontology, found: &Explanation, wanted: Wanted) -> bool
    requires { (asked : Asked2) × (class : List ℕ) × Explains ontology.now asked class found.now }
{
    match (found, wanted) {
        (Explanation::Yes(lines), Wanted::Yes(text)) => is_derivation(alloc, ontology, lines, text),
        (Explanation::No(part, element), Wanted::No(text)) => {
            is_refutation(alloc, ontology, part, *element, text)
        }
        (Explanation::Yes(lines), Wanted::YesByLast(last)) => {
            is_derivation_to(alloc, ontology, lines, last)
        }
        (Explanation::Contradictory(lines), Wanted::Contradictory(text)) => {
            is_derivation(alloc, ontology, lines, text)
        }
        (Explanation::Contradictory(lines), Wanted::ContradictoryInSomeOrder) => !lines.is_empty(),
        _ => false,
    }
}

/// What explains the question, where the ontology has its names.
fn explained(indexed: &Indexed<'_>, question: &Question) -> Result<Option<Explanation>, Memory>
    requires { IsUnasked indexed.now.saturation }
    ensures { IfOk result (λ answer. IfSome answer (Explains indexed.now.ontology question.now.asked question.now.class.now)) }
{
    match ask(
        indexed,
        program::Question::Why(question.asked, question.class, LINES),
    ) {
        Ok(Some(Answer::Why(found))) => Ok(Some(found)),
        Ok(Some(Answer::Names(_) | Answer::Groups(_) | Answer::Lacks(_))) => unreachable!(),
        Ok(None) => Ok(None),
        Err(fault) => Err(fault),
    }
}

/// Whether the question is explained as it is wanted.
fn is_explained(indexed: &Indexed<'_>, question: &Question) -> bool
    requires { IsUnasked indexed.now.saturation }
{
    let closed = indexed.closed();
    let ontology = closed.ontology();
    let alloc = closed.allocator();
    match explained(indexed, question) {
        Ok(Some(found)) => is_wanted(alloc, ontology, &found, question.wanted),
        Ok(None) => matches!(question.wanted, Wanted::Unknown),
        Err(_) => false,
    }
}

/// Whether what explains the question is judged right.
fn is_found_right(indexed: &Indexed<'_>, question: &Question) -> bool
    requires { IsUnasked indexed.now.saturation }
{
    let closed = indexed.closed();
    let ontology = closed.ontology();
    let alloc = closed.allocator();
    match explained(indexed, question) {
        Ok(Some(found)) => is_right_of(alloc, ontology, found, question.asked, question.class),
        Ok(None) => matches!(question.wanted, Wanted::Unknown),
        Err(_) => false,
    }
}

/// Whether what explains the question is judged right. Here alone a saturation is alive.
fn is_judged(alloc: Global, state: RandomState, ontology: &Ontology, question: &Question) -> bool {
    let Ok(saturation) = saturated(alloc, state, ontology) else {
        return false;
    };
    let right = match saturation.indexed(ontology) {
        Some(indexed) => is_found_right(&indexed, question),
        None => false,
    };
    drop(saturation);
    right
}

/// Whether what explains the question is judged right. Here alone an ontology is alive.
fn is_judged_right(alloc: Global, state: RandomState, question: &Question) -> bool {
    let Ok(ontology) = read_bytes(alloc, question.document.as_bytes(), Version::Two, state) else {
        return false;
    };
    let right = is_judged(alloc, state, &ontology, question);
    drop(ontology);
    right
}

/// Whether the question about the ontology is explained as it is wanted. Here alone a saturation is alive.
fn is_answered(
    alloc: Global,
    state: RandomState,
    ontology: &Ontology,
    question: &Question,
) -> bool {
    let Ok(saturation) = saturated(alloc, state, ontology) else {
        return false;
    };
    let right = match saturation.indexed(ontology) {
        Some(indexed) => is_explained(&indexed, question),
        None => false,
    };
    drop(saturation);
    right
}

/// Whether the question is explained as it is wanted. Here alone an ontology is alive.
fn is_right(alloc: Global, state: RandomState, question: &Question) -> bool {
    let Ok(ontology) = read_bytes(alloc, question.document.as_bytes(), Version::Two, state) else {
        return false;
    };
    let right = is_answered(alloc, state, &ontology, question);
    drop(ontology);
    right
}

#[test]
fn explanations_are_judged_right(rt: HostRuntime) -> Result<(), Fail> {
    let state = RandomState::new(&rt)?;
    for question in QUESTIONS {
        assert!(rt;
            is_judged_right(rt.alloc(), state, question),
            "{}",
            question.case
        );
    }
    Ok(())
}

#[test]
fn questions_and_explanations(rt: HostRuntime) -> Result<(), Fail> {
    let state = RandomState::new(&rt)?;
    for question in QUESTIONS {
        assert!(rt; is_right(rt.alloc(), state, question), "{}", question.case);
    }
    Ok(())
}
