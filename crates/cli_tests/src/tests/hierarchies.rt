//! Small hierarchies of classes, whose taxonomies and counts of facts were worked out by hand.

use super::*;

/// The document of these axioms.
fn document_of(alloc: Global, axioms: &str) -> Result<String, AllocError> {
    let axioms = text_of(alloc, axioms)?;
    format!(in alloc; "Prefix(:=<x:>) Ontology({axioms})")
}

/// The taxonomy whose lines behind the first are these.
fn taxonomy_of(alloc: Global, lines: &str) -> Result<String, AllocError> {
    let lines = text_of(alloc, lines)?;
    format!(in alloc; "eltax 1 consistent\n{lines}\n")
}

/// Whether the axioms are classified to these lines, with these counts, and the checker accepts the texts.
fn is_classified_to<R: AllocGlobal + RandomSource>(
    rt: &R,
    axioms: &str,
    lines: &str,
    classes: u32,
    facts: u32,
) -> Result<bool, Fail> {
    let alloc = rt.alloc();
    let document = document_of(alloc, axioms)?;
    let taxonomy = taxonomy_of(alloc, lines)?;
    let counts = format!(in alloc; "consistent classes {classes} individuals 0 facts {facts}\n")?;
    gives(
        rt,
        document.as_bytes(),
        taxonomy.as_str(),
        NO_INSTANCES,
        counts.as_str(),
    )
}

/// What the row shows, the axioms, the lines between the first and the last line feed, the classes with Thing and
/// Nothing, and the facts: for each class itself, Thing, and all that axioms lead to from the two.
const HIERARCHIES: &[(&str, &str, &str, u32, u32)] = &[
    (
        "a class below itself",
        "SubClassOf(:A :A)",
        "T/<x:A> < T/bottom N",
        3,
        5,
    ),
    (
        "an axiom three times",
        "SubClassOf(:A :B) SubClassOf(<x:A> :B) SubClassOf(:A <x:B>)",
        "T/<x:A> < <x:B>/<x:B> < T/bottom N",
        4,
        8,
    ),
    (
        "a cycle of three",
        "SubClassOf(:A :B) SubClassOf(:B :C) SubClassOf(:C :A)",
        "T/<x:A> = <x:B> = <x:C> < T/bottom N",
        5,
        15,
    ),
    (
        "a cycle of two below a class",
        "SubClassOf(:A :B) SubClassOf(:B :A) SubClassOf(:B :C)",
        "T/<x:A> = <x:B> < <x:C>/<x:C> < T/bottom N",
        5,
        13,
    ),
    (
        "a cycle above a class is named by its least member",
        "SubClassOf(:A :C) SubClassOf(:C :B) SubClassOf(:B :C)",
        "T/<x:A> < <x:B>/<x:B> = <x:C> < T/bottom N",
        5,
        13,
    ),
    (
        "a cycle of two below a cycle of two",
        "SubClassOf(:A :B) SubClassOf(:B :A) SubClassOf(:B :C) SubClassOf(:C :D) SubClassOf(:D :C)",
        "T/<x:A> = <x:B> < <x:C>/<x:C> = <x:D> < T/bottom N",
        6,
        19,
    ),
    (
        "a superclass that is not direct",
        "SubClassOf(:A :C) SubClassOf(:A :B) SubClassOf(:B :C)",
        "T/<x:A> < <x:B>/<x:B> < <x:C>/<x:C> < T/bottom N",
        5,
        12,
    ),
    (
        "two direct superclasses",
        "SubClassOf(:A :C) SubClassOf(:A :B)",
        "T/<x:A> < <x:B> , <x:C>/<x:B> < T/<x:C> < T/bottom N",
        5,
        11,
    ),
    (
        "a diamond",
        "SubClassOf(:A :B) SubClassOf(:A :C) SubClassOf(:B :D) SubClassOf(:C :D)",
        "T/<x:A> < <x:B> , <x:C>/<x:B> < <x:D>/<x:C> < <x:D>/<x:D> < T/bottom N",
        6,
        16,
    ),
    (
        "a diamond whose sides are equal",
        "SubClassOf(:A :B) SubClassOf(:A :C) SubClassOf(:B :C) SubClassOf(:C :B)",
        "T/<x:A> < <x:B>/<x:B> = <x:C> < T/bottom N",
        5,
        13,
    ),
    (
        "a diamond that is a cycle",
        "SubClassOf(:A :B) SubClassOf(:A :C) SubClassOf(:B :D) SubClassOf(:C :D) SubClassOf(:D :A)",
        "T/<x:A> = <x:B> = <x:C> = <x:D> < T/bottom N",
        6,
        23,
    ),
    (
        "two pieces, from the last name to the first",
        "SubClassOf(:D :C) SubClassOf(:B :A)",
        "T/<x:A> < T/<x:B> < <x:A>/<x:C> < T/<x:D> < <x:C>/bottom N",
        6,
        13,
    ),
    (
        "a class below Thing",
        "SubClassOf(:A T)",
        "T/<x:A> < T/bottom N",
        3,
        5,
    ),
    (
        "Thing below two classes",
        "SubClassOf(T :A) SubClassOf(:A :B)",
        "T = <x:A> = <x:B>/bottom N",
        4,
        13,
    ),
    (
        "a class below one that is equal to Thing",
        "SubClassOf(T :A) SubClassOf(:C :A)",
        "T = <x:A>/<x:C> < T/bottom N",
        4,
        10,
    ),
    (
        "a class below Nothing",
        "SubClassOf(:A N)",
        "T/bottom N = <x:A>",
        3,
        6,
    ),
    (
        "Nothing below a class",
        "SubClassOf(N :A)",
        "T/<x:A> < T/bottom N",
        3,
        6,
    ),
    (
        "Nothing in a cycle",
        "SubClassOf(:A N) SubClassOf(N :A)",
        "T/bottom N = <x:A>",
        3,
        7,
    ),
    (
        "Nothing between two classes",
        "SubClassOf(:A N) SubClassOf(N :B)",
        "T/<x:B> < T/bottom N = <x:A>",
        4,
        10,
    ),
    (
        "a chain into Nothing",
        "SubClassOf(:A :B) SubClassOf(:B :C) SubClassOf(:C N)",
        "T/bottom N = <x:A> = <x:B> = <x:C>",
        5,
        15,
    ),
    (
        "a superclass of an empty class",
        "SubClassOf(:A :B) SubClassOf(:A N)",
        "T/<x:B> < T/bottom N = <x:A>",
        4,
        9,
    ),
    (
        "names in the order of bytes",
        "SubClassOf(<x:A#b> <x:A>) SubClassOf(<x:A!> <x:A>)",
        "T/<x:A> < T/<x:A!> < <x:A>/<x:A#b> < <x:A>/bottom N",
        5,
        11,
    ),
    (
        "names of characters with one to four bytes",
        "SubClassOf(<x:𝄞> <x:é>) SubClassOf(<x:Ａ> <x:é>) SubClassOf(<x:é> <x:z>)",
        "T/<x:z> < T/<x:é> < <x:z>/<x:Ａ> < <x:é>/<x:𝄞> < <x:é>/bottom N",
        6,
        16,
    ),
    (
        "names before that of Thing",
        "SubClassOf(<a:B> <a:C>)",
        "<a:B> < <a:C>/<a:C> < T/T/bottom N",
        4,
        8,
    ),
    (
        "a name before that of Thing for the same group",
        "SubClassOf(T <a:B>) SubClassOf(:C T)",
        "<a:B> = T/<x:C> < <a:B>/bottom N",
        4,
        10,
    ),
    (
        "a name before that of Nothing for the same group",
        "SubClassOf(<a:B> N)",
        "T/bottom <a:B> = N",
        3,
        6,
    ),
];

#[test]
fn hierarchies(rt: HostRuntime) -> Result<(), Fail> {
    for row in HIERARCHIES {
        let (name, axioms, lines, classes, facts) = *row;
        assert!(rt;
            is_classified_to(&rt, axioms, lines, classes, facts)?,
            "{name}"
        );
    }
    Ok(())
}
