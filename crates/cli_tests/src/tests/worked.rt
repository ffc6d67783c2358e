//! Documents of every part of the profile, worked out by hand: what is written and printed of each, and what is told of
//! those that are refused.

use super::*;

/// Whether the document is classified to these texts, given in short, and counts, where they are given; the checker accepts
/// what was written, and rejects what is written of the other document.
fn is_worked<R: AllocGlobal + RandomSource>(
    rt: &R,
    document: &str,
    (taxonomy, instances, counts): (&str, &str, &str),
    other: &str,
) -> Result<bool, Fail> {
    let taxonomy = text_of(rt.alloc(), taxonomy)?;
    let instances = text_of(rt.alloc(), instances)?;
    let document = document.as_bytes();
    let is_given = gives(rt, document, taxonomy.as_str(), instances.as_str(), counts)?;
    Ok(is_given && are_rejected(rt, document, other.as_bytes())?)
}

/// Whether the checker rejects the texts of the other document.
fn are_rejected<R: AllocGlobal + RandomSource>(
    rt: &R,
    document: &[u8],
    other: &[u8],
) -> Result<bool, Fail> {
    let texts = texts_by(rt, CLASSIFY, other)?;
    let run = check(rt, document, &texts)?;
    Ok(run.status == 1 && run.out.starts_with(b"rejected: ".as_slice()) && run.err.is_empty())
}

/// What the row shows, the document, its taxonomy, its instances, and what is printed, where the facts were counted. `T`
/// stands for the name of Thing, `N` for that of Nothing, and `/` for a line feed.
const WORKED: &[(&str, &str, (&str, &str, &str))] = &[
    (
        "empty_ontology",
        "Ontology()",
        (
            "eltax 1 consistent/T/bottom N/",
            "elinst 1 consistent/",
            "consistent classes 2 individuals 0 facts 3\n",
        ),
    ),
    (
        "one_subclass",
        "Ontology(SubClassOf(<x:A> <x:B>))",
        (
            "eltax 1 consistent/T/<x:A> < <x:B>/<x:B> < T/bottom N/",
            "elinst 1 consistent/",
            "consistent classes 4 individuals 0 facts 8\n",
        ),
    ),
    (
        "two_spellings_in_a_cycle",
        "Prefix(:=<x:>) Ontology(SubClassOf(:A :B) SubClassOf(<x:B> <x:A>))",
        (
            "eltax 1 consistent/T/<x:A> = <x:B> < T/bottom N/",
            "elinst 1 consistent/",
            "consistent classes 4 individuals 0 facts 9\n",
        ),
    ),
    (
        "contradiction_without_individual",
        "Ontology(SubClassOf(owl:Thing owl:Nothing))",
        (
            "eltax 1 inconsistent/",
            "elinst 1 inconsistent/",
            "inconsistent classes 2 individuals 0 facts 4\n",
        ),
    ),
    (
        "contradiction_by_individual",
        "Prefix(:=<x:>) Ontology(DisjointClasses(:A :B) ClassAssertion(:A :a) ClassAssertion(:B :a))",
        (
            "eltax 1 inconsistent/",
            "elinst 1 inconsistent/",
            "inconsistent classes 4 individuals 1 facts 11\n",
        ),
    ),
    (
        "unsatisfiable_class",
        "Prefix(:=<x:>) Ontology(SubClassOf(:A :B) SubClassOf(:A :C) DisjointClasses(:B :C))",
        (
            "eltax 1 consistent/T/<x:B> < T/<x:C> < T/bottom N = <x:A>/",
            "elinst 1 consistent/",
            "consistent classes 5 individuals 0 facts 12\n",
        ),
    ),
    (
        "chain_into_a_definition",
        "Prefix(:=<x:>) Ontology(SubClassOf(:E ObjectSomeValuesFrom(:loc :W)) SubClassOf(:W ObjectSomeValuesFrom(:part :H)) SubObjectPropertyOf(ObjectPropertyChain(:loc :part) :loc) EquivalentClasses(:D ObjectSomeValuesFrom(:loc :H)))",
        (
            "eltax 1 consistent/T/<x:D> < T/<x:E> < <x:D>/<x:H> < T/<x:W> < T/bottom N/",
            "elinst 1 consistent/",
            "consistent classes 6 individuals 0 facts 20\n",
        ),
    ),
    (
        "reflexive_through_the_hierarchy",
        "Prefix(:=<x:>) Ontology(ReflexiveObjectProperty(:q) SubObjectPropertyOf(:q :p) EquivalentClasses(:B ObjectSomeValuesFrom(:p :A)))",
        (
            "eltax 1 consistent/T/<x:A> < <x:B>/<x:B> < T/bottom N/",
            "elinst 1 consistent/",
            "consistent classes 4 individuals 0 facts 16\n",
        ),
    ),
    (
        "irregular_hierarchy",
        "Prefix(:=<x:>) Ontology(SubObjectPropertyOf(ObjectPropertyChain(:r :s) :r) SubObjectPropertyOf(ObjectPropertyChain(:s :r) :s) SubClassOf(:A ObjectSomeValuesFrom(:r :B)) SubClassOf(:B ObjectSomeValuesFrom(:s :C)) EquivalentClasses(:D ObjectSomeValuesFrom(:r :C)))",
        (
            "eltax 1 consistent/T/<x:A> < <x:D>/<x:B> < T/<x:C> < T/<x:D> < T/bottom N/",
            "elinst 1 consistent/",
            "",
        ),
    ),
    (
        "bottom_as_filler",
        "Prefix(:=<x:>) Ontology(SubClassOf(:A ObjectSomeValuesFrom(:r owl:Nothing)))",
        (
            "eltax 1 consistent/T/bottom N = <x:A>/",
            "elinst 1 consistent/",
            "consistent classes 3 individuals 0 facts 8\n",
        ),
    ),
    (
        "individuals_and_domain",
        "Prefix(:=<x:>) Ontology(SubClassOf(:A :B) ClassAssertion(:A :a) ObjectPropertyAssertion(:r :a :b) ObjectPropertyDomain(:r :C) Declaration(NamedIndividual(:c)))",
        (
            "eltax 1 consistent/T/<x:A> < <x:B>/<x:B> < T/<x:C> < T/bottom N/",
            "elinst 1 consistent/<x:a> : <x:A> , <x:C>/<x:b> : T/<x:c> : T/",
            "consistent classes 5 individuals 3 facts 17\n",
        ),
    ),
    (
        "class_equal_to_top",
        "Prefix(:=<x:>) Ontology(SubClassOf(owl:Thing :A))",
        (
            "eltax 1 consistent/T = <x:A>/bottom N/",
            "elinst 1 consistent/",
            "consistent classes 3 individuals 0 facts 7\n",
        ),
    ),
    (
        "hash_in_iri_and_comment_at_end",
        "Ontology(SubClassOf(<x:A#b> <x:B>)) # end",
        (
            "eltax 1 consistent/T/<x:A#b> < <x:B>/<x:B> < T/bottom N/",
            "elinst 1 consistent/",
            "consistent classes 4 individuals 0 facts 8\n",
        ),
    ),
    (
        "intersection_of_three",
        "Prefix(:=<x:>) Ontology(EquivalentClasses(:D ObjectIntersectionOf(:A :B :C)) SubClassOf(:E :A) SubClassOf(:E :B) SubClassOf(:E :C))",
        (
            "eltax 1 consistent/T/<x:A> < T/<x:B> < T/<x:C> < T/<x:D> < <x:A> , <x:B> , <x:C>/<x:E> < <x:D>/bottom N/",
            "elinst 1 consistent/",
            "",
        ),
    ),
    (
        "disjoint_with_an_intersection",
        "Prefix(:=<x:>) Ontology(DisjointClasses(:A ObjectIntersectionOf(:A :B)) SubClassOf(:C :A) SubClassOf(:C :B))",
        (
            "eltax 1 consistent/T/<x:A> < T/<x:B> < T/bottom N = <x:C>/",
            "elinst 1 consistent/",
            "",
        ),
    ),
    (
        "domain_of_a_restriction",
        "Prefix(:=<x:>) Ontology(ObjectPropertyDomain(:r :B) SubClassOf(:A ObjectSomeValuesFrom(:r :C)))",
        (
            "eltax 1 consistent/T/<x:A> < <x:B>/<x:B> < T/<x:C> < T/bottom N/",
            "elinst 1 consistent/",
            "",
        ),
    ),
    (
        "chain_of_three",
        "Prefix(:=<x:>) Ontology(SubObjectPropertyOf(ObjectPropertyChain(:r :s :t) :u) SubClassOf(:A ObjectSomeValuesFrom(:r :B)) SubClassOf(:B ObjectSomeValuesFrom(:s :C)) SubClassOf(:C ObjectSomeValuesFrom(:t :D)) SubClassOf(ObjectSomeValuesFrom(:u :D) :E))",
        (
            "eltax 1 consistent/T/<x:A> < <x:E>/<x:B> < T/<x:C> < T/<x:D> < T/<x:E> < T/bottom N/",
            "elinst 1 consistent/",
            "",
        ),
    ),
    (
        "chain_with_a_reflexive_end",
        "Prefix(:=<x:>) Ontology(ReflexiveObjectProperty(:q) SubObjectPropertyOf(ObjectPropertyChain(:r :q) :s) SubClassOf(:A ObjectSomeValuesFrom(:r :B)) SubClassOf(ObjectSomeValuesFrom(:s :B) :C))",
        (
            "eltax 1 consistent/T/<x:A> < <x:C>/<x:B> < T/<x:C> < T/bottom N/",
            "elinst 1 consistent/",
            "",
        ),
    ),
    (
        "contradiction_through_a_class",
        "Ontology(SubClassOf(owl:Thing <x:A>) SubClassOf(<x:A> owl:Nothing))",
        (
            "eltax 1 inconsistent/",
            "elinst 1 inconsistent/",
            "inconsistent classes 3 individuals 0 facts 9\n",
        ),
    ),
    (
        "contradiction_beside_a_class",
        "Ontology(SubClassOf(<x:A> <x:B>) SubClassOf(owl:Thing owl:Nothing))",
        (
            "eltax 1 inconsistent/",
            "elinst 1 inconsistent/",
            "inconsistent classes 4 individuals 0 facts 11\n",
        ),
    ),
    (
        "same_individuals",
        "Prefix(:=<x:>) Ontology(SameIndividual(:a :b) ClassAssertion(:A :a) ClassAssertion(:B :b))",
        (
            "eltax 1 consistent/T/<x:A> < T/<x:B> < T/bottom N/",
            "elinst 1 consistent/<x:a> : <x:A> , <x:B>/<x:b> : <x:A> , <x:B>/",
            "consistent classes 4 individuals 2 facts 13\n",
        ),
    ),
    (
        "same_and_different",
        "Prefix(:=<x:>) Ontology(SameIndividual(:a :b) DifferentIndividuals(:b :a))",
        (
            "eltax 1 inconsistent/",
            "elinst 1 inconsistent/",
            "inconsistent classes 2 individuals 2 facts 7\n",
        ),
    ),
    (
        "denied_by_way_of_same",
        "Prefix(:=<x:>) Ontology(SameIndividual(:b :c) ObjectPropertyAssertion(:r :a :b) SubObjectPropertyOf(:r :s) NegativeObjectPropertyAssertion(:s :a :c))",
        (
            "eltax 1 inconsistent/",
            "elinst 1 inconsistent/",
            "inconsistent classes 2 individuals 3 facts 9\n",
        ),
    ),
    (
        "different_and_denied",
        "Prefix(:=<x:>) Ontology(DifferentIndividuals(:a :b) NegativeObjectPropertyAssertion(:r :a :b))",
        (
            "eltax 1 consistent/T/bottom N/",
            "elinst 1 consistent/<x:a> : T/<x:b> : T/",
            "consistent classes 2 individuals 2 facts 5\n",
        ),
    ),
];

#[test]
fn classified_documents(rt: HostRuntime) -> Result<(), Fail> {
    // The last row's texts are tried on the first one's document, and so on.
    let mut other = "Ontology(SubClassOf(<x:A> <x:B>) SubClassOf(owl:Thing owl:Nothing))";
    for row in WORKED {
        let (name, document, expected) = *row;
        assert!(rt; is_worked(&rt, document, expected, other)?, "{name}");
        other = document;
    }
    Ok(())
}
