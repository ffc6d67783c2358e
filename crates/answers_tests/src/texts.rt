//! What is left of the certificate of one subclass axiom for one of its lines, and a refutation, as text and as graphs.

ghost use Rattle.answers_tests.specs.OneSubclass.{seven_lines, sub_line};
ghost use Rattle.certificate.specs.declared.line.Rule.TheVariants.{K4};
ghost use Rattle.certificate.specs.Writability.{HasText};
ghost use Rattle.certificate.specs.View.{line_of, lines_of};
ghost use Rattle.interpretation_spec.specs.NumberedInterpretation.{IsMadeFor};
ghost use Rattle.std.specs.Prelude.{[], ◌∷◌, ◌++◌, ◌≡◌, IfOk, None, OnOk, Some};

use crate::documents::{listed_in, ontology_of};
use answer_texts::{
    proof_bytes, proof_graph_bytes, reached_refutation_bytes, reached_refutation_graph_bytes,
    refutation_bytes, refutation_graph_bytes, write_proof,
};
use axioms::{ExprId, Memory, Ontology};
use certificate::{Certificate, Conclusion, Format, Line, Rule, Subject, read_certificate};
use device::BufferSink;
use explain::trimmed;
use interpretation_spec::Interpretation;
use std::alloc::Global;
use std::random::RandomSource;
use std::rt::HostRuntime;
use std::test::Fail;

/// A line without an axiom and without premises.
fn by_rule(alloc: Global, sub: u32, sup: u32, rule: Rule) -> Line
    ensures { line_of result ≡ sub_line sub sup rule None [] }
{
    Line {
        conclusion: Conclusion::Sub(Subject::Expr(ExprId(sub)), ExprId(sup)),
        rule,
        axiom: None,
        premises: Vec::new(alloc),
    }
}

/// A line by the first axiom, from one line.
fn by_axiom(alloc: Global, premise: u64) -> Result<Line, Memory>
    ensures { IfOk result (λ l. line_of l ≡ sub_line 2 3 K4 (Some 1) (premise ∷ [])) }
{
    let mut premises = Vec::new(alloc);
    premises.push(premise)?;
    Ok(Line {
        conclusion: Conclusion::Sub(Subject::Expr(ExprId(2)), ExprId(3)),
        rule: Rule::K4,
        axiom: Some(1),
        premises,
    })
}

/// Adds a line by a rule.
fn push_rule(
    alloc: Global,
    lines: &mut Vec<Line>,
    sub: u32,
    sup: u32,
    rule: Rule,
) -> Result<(), Memory>
    ensures { OnOk result (lines_of lines.new.items ≡ lines_of lines.old.items ++ sub_line sub sup rule None [] ∷ []) }
{
    lines.push(by_rule(alloc, sub, sup, rule))?;
    Ok(())
}

/// Adds the line by the axiom.
fn push_axiom(alloc: Global, lines: &mut Vec<Line>) -> Result<(), Memory>
    ensures { OnOk result (lines_of lines.new.items ≡ lines_of lines.old.items ++ sub_line 2 3 K4 (Some 1) (3 ∷ []) ∷ []) }
{
    lines.push(by_axiom(alloc, 3)?)?;
    Ok(())
}

/// Adds the seven lines of the certificate of SubClassOf(A B).
fn push_seven(alloc: Global, lines: &mut Vec<Line>) -> Result<(), Memory>
    requires { lines.old.items ≡ [] }
    ensures { OnOk result (lines_of lines.new.items ≡ seven_lines) }
{
    push_rule(alloc, lines, 0, 0, Rule::K1)?;
    push_rule(alloc, lines, 1, 1, Rule::K1)?;
    push_rule(alloc, lines, 2, 2, Rule::K1)?;
    push_rule(alloc, lines, 2, 0, Rule::K2)?;
    push_axiom(alloc, lines)?;
    push_rule(alloc, lines, 3, 3, Rule::K1)?;
    push_rule(alloc, lines, 3, 0, Rule::K2)
}

/// The seven lines.
fn all_lines(alloc: Global) -> Result<Vec<Line>, Memory>
    ensures { IfOk result (λ v. lines_of v.items ≡ seven_lines) }
{
    let mut lines = Vec::new(alloc);
    push_seven(alloc, &mut lines)?;
    Ok(lines)
}

/// What the fifth line rests on.
fn left_of(alloc: Global, lines: &[Line]) -> Result<Vec<Line>, Memory>
    requires { lines_of lines.now ≡ seven_lines }
{
    trimmed(alloc, lines, 5)
}

/// Whether these are the two lines.
fn are_two_lines(alloc: Global, lines: &[Line]) -> Result<bool, Memory> {
    let first = by_rule(alloc, 2, 2, Rule::K1);
    let second = by_axiom(alloc, 1)?;
    Ok(lines.len() == 2 && lines[0] == first && lines[1] == second)
}

/// The text of the certificate's lines, in memory and through a sink, and their graph.
fn are_texts(
    alloc: Global,
    ontology: &Ontology,
    certificate: &Certificate,
    text: &[u8],
    graph: &[u8],
) -> Result<bool, Fail>
    requires { HasText ontology.now Format.One certificate.now }
{
    let lines = certificate.lines();
    let mut texts = BufferSink::new(alloc);
    write_proof(alloc, ontology, lines, &mut texts)?;
    let text_in_memory = proof_bytes(alloc, ontology, lines)?;
    let graph_in_memory = proof_graph_bytes(alloc, ontology, lines)?;
    Ok(
        texts.bytes() == text
            && text_in_memory.as_slice() == text
            && graph_in_memory.as_slice() == graph,
    )
}

/// Whether the lines are written so.
fn are_written(
    alloc: Global,
    ontology: &Ontology,
    lines: Vec<Line>,
    text: &[u8],
    graph: &[u8],
) -> Result<bool, Fail> {
    match Certificate::new(ontology, lines, None) {
        Ok(certificate) => are_texts(alloc, ontology, &certificate, text, graph),
        Err(_) => Ok(false),
    }
}

/// What is left for the fifth line.
fn left(alloc: Global) -> Result<Vec<Line>, Memory> {
    let lines = all_lines(alloc)?;
    left_of(alloc, &lines)
}

/// Whether the two lines are left.
fn leaves_two(alloc: Global) -> Result<bool, Memory> {
    let left = left(alloc)?;
    are_two_lines(alloc, &left)
}

/// Whether what is left is written so.
fn is_left_written(
    alloc: Global,
    ontology: &Ontology,
    text: &[u8],
    graph: &[u8],
) -> Result<bool, Fail> {
    let left = left(alloc)?;
    are_written(alloc, ontology, left, text, graph)
}

#[test]
fn two_lines_are_left(rt: HostRuntime) -> Result<(), Fail> {
    let leaves_two = leaves_two(rt.alloc())?;
    assert!(rt; leaves_two, "two lines");
    Ok(())
}

#[test]
fn what_is_left_is_written(rt: HostRuntime) -> Result<(), Fail> {
    let ontology = ontology_of(&rt, "Ontology(SubClassOf(<x:A> <x:B>))")?;
    let text = b"1. sub <x:A> <x:A> by K1\n2. sub <x:A> <x:B> by K4 axiom 1 from 1\n";
    let graph =
        b"digraph derivation {\n  node [shape=box];\n  1 [label=\"1. sub <x:A> <x:A> by K1\"];\n  2 [label=\"2. sub <x:A> <x:B> by K4 axiom 1 from 1\"];\n  1 -> 2;\n}\n";
    let is_written = is_left_written(rt.alloc(), &ontology, text, graph);
    drop(ontology);
    assert!(rt; is_written?, "as text and as a graph");
    Ok(())
}

/// The text and the graph.
fn is_written(
    alloc: Global,
    ontology: &Ontology,
    interpretation: &Interpretation,
    text: &[u8],
    graph: &[u8],
) -> Result<bool, Fail>
    requires { IsMadeFor ontology.now.names interpretation.now }
{
    let written = refutation_bytes(alloc, ontology, interpretation, 0)?;
    let drawn = refutation_graph_bytes(alloc, ontology, interpretation, 0)?;
    Ok(written.as_slice() == text && drawn.as_slice() == graph)
}

/// Whether the interpretation that the certificate lists is written so.
fn is_listed_written(
    alloc: Global,
    ontology: &Ontology,
    certificate: &[u8],
    text: &[u8],
    graph: &[u8],
) -> Result<bool, Fail> {
    match listed_in(alloc, ontology, certificate) {
        Some(interpretation) => is_written(alloc, ontology, &interpretation, text, graph),
        None => Ok(false),
    }
}

/// Whether the lines of the certificate are written so.
fn are_lines_written(
    alloc: Global,
    ontology: &Ontology,
    certificate: &[u8],
    text: &[u8],
    graph: &[u8],
) -> Result<bool, Fail> {
    let certificate = read_certificate(alloc, ontology, certificate)?;
    are_texts(alloc, ontology, &certificate, text, graph)
}

#[test]
fn two_elements_refute_reflexive_through_the_hierarchy(rt: HostRuntime) -> Result<(), Fail> {
    let ontology = ontology_of(
        &rt,
        "Prefix(:=<x:>) Ontology(ReflexiveObjectProperty(:q) SubObjectPropertyOf(:q :p) EquivalentClasses(:B ObjectSomeValuesFrom(:p :A)))",
    )?;
    let listed =
        b"elcert 1 consistent\ndomain 2\nclass e2 0 1\nclass e3 1\nsucc p0 0 0\nsucc p0 1 1\nsucc p1 0 0 1\nsucc p1 1 1\nend\n";
    let text =
        b"no\ndomain 2\nclass <x:B> 0 1\nclass <x:A> 1\npair <x:q> 0 0\npair <x:q> 1 1\npair <x:p> 0 0\npair <x:p> 0 1\npair <x:p> 1 1\nelement 0\n";
    let graph =
        b"digraph refutation {\n  node [shape=ellipse];\n  0 [label=\"0\\n<x:B>\", peripheries=2];\n  1 [label=\"1\\n<x:B>\\n<x:A>\"];\n  0 -> 0 [label=\"<x:q>\"];\n  1 -> 1 [label=\"<x:q>\"];\n  0 -> 0 [label=\"<x:p>\"];\n  0 -> 1 [label=\"<x:p>\"];\n  1 -> 1 [label=\"<x:p>\"];\n}\n";
    let is_written = is_listed_written(rt.alloc(), &ontology, listed, text, graph);
    drop(ontology);
    assert!(rt; is_written?, "as text and as a graph");
    Ok(())
}

/// A class whose name has a mark of its own in graphs, an intersection of three and an individual.
fn of_an_individual<R: AllocGlobal + RandomSource>(rt: &R) -> Result<Ontology, Fail> {
    ontology_of(
        rt,
        "Ontology(ClassAssertion(ObjectIntersectionOf(<x:A&b> <x:B> ObjectSomeValuesFrom(<x:r> <x:B>)) <x:a>) ObjectPropertyAssertion(<x:r> <x:a> <x:a>))",
    )
}

#[test]
fn lines_of_an_individual_are_written(rt: HostRuntime) -> Result<(), Fail> {
    let ontology = of_an_individual(&rt)?;
    let lines =
        b"elcert 1 inconsistent\nsub i0 e5 K15 a1\nedge i0 p0 i0 K16 a2\nsub i0 e4 K9 2 1\nend\n";
    let text =
        b"1. sub individual <x:a> ObjectIntersectionOf(<x:A&b> <x:B> ObjectSomeValuesFrom(<x:r> <x:B>)) by K15 axiom 1\n2. edge individual <x:a> <x:r> individual <x:a> by K16 axiom 2\n3. sub individual <x:a> ObjectSomeValuesFrom(<x:r> <x:B>) by K9 from 2, 1\n";
    let graph =
        b"digraph derivation {\n  node [shape=box];\n  1 [label=\"1. sub individual <x:a> ObjectIntersectionOf(<x:A&amp;b> <x:B> ObjectSomeValuesFrom(<x:r> <x:B>)) by K15 axiom 1\"];\n  2 [label=\"2. edge individual <x:a> <x:r> individual <x:a> by K16 axiom 2\"];\n  3 [label=\"3. sub individual <x:a> ObjectSomeValuesFrom(<x:r> <x:B>) by K9 from 2, 1\"];\n  2 -> 3;\n  1 -> 3;\n}\n";
    let are_written = are_lines_written(rt.alloc(), &ontology, lines, text, graph);
    drop(ontology);
    assert!(rt; are_written?, "as text and as a graph");
    Ok(())
}

#[test]
fn an_individual_is_written(rt: HostRuntime) -> Result<(), Fail> {
    let ontology = of_an_individual(&rt)?;
    let listed = b"elcert 1 consistent\ndomain 1\nclass e2 0\nsucc p0 0 0\nind i0 0\nend\n";
    let text = b"no\ndomain 1\nclass <x:A&b> 0\npair <x:r> 0 0\nindividual <x:a> 0\nelement 0\n";
    let graph =
        b"digraph refutation {\n  node [shape=ellipse];\n  0 [label=\"0\\n<x:A&amp;b>\\nindividual <x:a>\", peripheries=2];\n  0 -> 0 [label=\"<x:r>\"];\n}\n";
    let is_written = is_listed_written(rt.alloc(), &ontology, listed, text, graph);
    drop(ontology);
    assert!(rt; is_written?, "as text and as a graph");
    Ok(())
}

/// The text and the graph of what is reached from the element.
fn are_reached(
    alloc: Global,
    ontology: &Ontology,
    interpretation: &Interpretation,
    element: usize,
    text: &[u8],
    graph: &[u8],
) -> Result<bool, Fail>
    requires { IsMadeFor ontology.now.names interpretation.now }
{
    let reached = reached_refutation_bytes(alloc, ontology, interpretation, element)?;
    let drawn = reached_refutation_graph_bytes(alloc, ontology, interpretation, element)?;
    Ok(reached.as_slice() == text && drawn.as_slice() == graph)
}

/// Whether of the interpretation that the certificate lists what is reached from the element is written so.
fn are_listed_reached(
    alloc: Global,
    ontology: &Ontology,
    certificate: &[u8],
    element: usize,
    text: &[u8],
    graph: &[u8],
) -> Result<bool, Fail> {
    match listed_in(alloc, ontology, certificate) {
        Some(interpretation) => {
            are_reached(alloc, ontology, &interpretation, element, text, graph)
        }
        None => Ok(false),
    }
}

/// Two pairs behind one another, and an individual to which no pair leads.
const FOUR_INDIVIDUALS: &str =
    "Ontology(ObjectPropertyAssertion(<x:r> <x:a> <x:b>) ObjectPropertyAssertion(<x:s> <x:b> <x:c>) ClassAssertion(<x:A> <x:d>))";

const FOUR_ELEMENTS: &[u8] =
    b"elcert 1 consistent\ndomain 4\nclass e2 2 3\nsucc p0 0 1\nsucc p0 3 2\nsucc p1 1 2\nind i0 0\nind i1 1\nind i2 2\nind i3 3\nend\n";

#[test]
fn three_of_four_are_reached(rt: HostRuntime) -> Result<(), Fail> {
    let ontology = ontology_of(&rt, FOUR_INDIVIDUALS)?;
    let text =
        b"no\ndomain 4\nclass <x:A> 2\npair <x:r> 0 1\npair <x:s> 1 2\nindividual <x:a> 0\nindividual <x:b> 1\nindividual <x:c> 2\nelement 0\nothers 1\n";
    let graph =
        b"digraph refutation {\n  node [shape=ellipse];\n  label=\"others 1\";\n  0 [label=\"0\\nindividual <x:a>\", peripheries=2];\n  1 [label=\"1\\nindividual <x:b>\"];\n  2 [label=\"2\\n<x:A>\\nindividual <x:c>\"];\n  0 -> 1 [label=\"<x:r>\"];\n  1 -> 2 [label=\"<x:s>\"];\n}\n";
    let are_so = are_listed_reached(rt.alloc(), &ontology, FOUR_ELEMENTS, 0, text, graph);
    drop(ontology);
    assert!(rt; are_so?, "from the first");
    Ok(())
}

#[test]
fn two_of_four_are_reached(rt: HostRuntime) -> Result<(), Fail> {
    let ontology = ontology_of(&rt, FOUR_INDIVIDUALS)?;
    let text =
        b"no\ndomain 4\nclass <x:A> 2 3\npair <x:r> 3 2\nindividual <x:c> 2\nindividual <x:d> 3\nelement 3\nothers 2\n";
    let graph =
        b"digraph refutation {\n  node [shape=ellipse];\n  label=\"others 2\";\n  2 [label=\"2\\n<x:A>\\nindividual <x:c>\"];\n  3 [label=\"3\\n<x:A>\\nindividual <x:d>\", peripheries=2];\n  3 -> 2 [label=\"<x:r>\"];\n}\n";
    let are_so = are_listed_reached(rt.alloc(), &ontology, FOUR_ELEMENTS, 3, text, graph);
    drop(ontology);
    assert!(rt; are_so?, "from the last");
    Ok(())
}
