//! Listed interpretations in which an axiom holds, or does not: one axiom of each shape, over the elements 0, 1 and 2.

use super::{ONE_SUBCLASS, axiom_fails, claim_missing, has_verdict, with_lines};
use crate::documents::ontology_of;
use axioms::Ontology;
use cert_check::Verdict;
use std::alloc::Global;
use std::random::RandomSource;
use std::test::Fail;

/// A row is an axiom and then, behind `|`, members of an interpretation as a certificate has them, each with `;` behind it. The
/// axiom holds there behind `+`, and does not behind `-`.
const MODELS: &str = "+ TransitiveObjectProperty(:r) | succ p0 0 1 2;succ p0 1 2;
- TransitiveObjectProperty(:r) | succ p0 0 1;succ p0 1 2;
- TransitiveObjectProperty(:r) | succ p0 0 1 2;succ p0 1 2;succ p0 2 1;
+ TransitiveObjectProperty(:r) | succ p0 0 0 1;succ p0 1 0 1;
- TransitiveObjectProperty(:r) | succ p0 0 0;succ p0 1 2;succ p0 2 0;
+ TransitiveObjectProperty(:r) | succ p0 0 2;succ p0 1 2;succ p0 2 2;
+ SubObjectPropertyOf(ObjectPropertyChain(:r :s) :t) | succ p0 0 1;succ p1 1 2;succ p2 0 2;
- SubObjectPropertyOf(ObjectPropertyChain(:r :s) :t) | succ p0 0 1;succ p1 1 2;succ p2 0 1;
+ SubObjectPropertyOf(ObjectPropertyChain(:r :s) :t) | succ p0 0 1;succ p1 0 2;
- SubObjectPropertyOf(ObjectPropertyChain(:r :s) :t) | succ p0 0 0;succ p0 1 1;succ p1 1 2;
+ SubObjectPropertyOf(ObjectPropertyChain(:r :s) :t) | succ p0 0 1;succ p0 1 1;succ p1 1 2;succ p2 0 2;succ p2 1 2;
- SubObjectPropertyOf(ObjectPropertyChain(:r :s) :t) | succ p0 0 1;succ p0 1 1;succ p1 1 2;succ p2 0 2;
- SubClassOf(ObjectSomeValuesFrom(:r :A) :B) | class e2 1;succ p0 0 1;
+ SubClassOf(ObjectSomeValuesFrom(:r :A) :B) | class e2 1;class e4 0;succ p0 0 1;
+ SubClassOf(ObjectSomeValuesFrom(:r :A) :B) | class e2 2;succ p0 0 1;
- SubClassOf(ObjectSomeValuesFrom(:r :A) :B) | class e2 0 1 2;class e4 0;succ p0 0 1;succ p0 2 1;
- SubClassOf(ObjectSomeValuesFrom(:r :A) :B) | class e2 0 2;succ p0 0 1 2;
+ SubClassOf(ObjectSomeValuesFrom(:r :A) :B) | class e2 0 2;succ p0 0 1;
- SubClassOf(ObjectSomeValuesFrom(:r :A) :B) | class e2 0 1;class e4 0 1;succ p0 0 0 1;succ p0 1 0 1;succ p0 2 0 1;
+ SubClassOf(ObjectSomeValuesFrom(:r :A) :B) | class e2 0 1;class e4 0 1 2;succ p0 0 0 1;succ p0 1 0 1;succ p0 2 0 1;
+ EquivalentClasses(:A ObjectIntersectionOf(:B :C)) | class e2 1;class e3 1 2;class e4 1;
- EquivalentClasses(:A ObjectIntersectionOf(:B :C)) | class e2 2;class e3 1 2;class e4 1;
+ SubClassOf(:A ObjectSomeValuesFrom(:r :B)) | class e2 0;class e3 1;succ p0 0 1;
- SubClassOf(:A ObjectSomeValuesFrom(:r :B)) | class e2 0 2;class e3 1;succ p0 0 1;
- SubClassOf(:A ObjectSomeValuesFrom(:r :B)) | class e2 0;class e3 2;succ p0 0 1;
+ SubClassOf(:A ObjectSomeValuesFrom(:r owl:Thing)) | class e2 0;succ p0 0 2;
- SubClassOf(:A ObjectSomeValuesFrom(:r owl:Thing)) | class e2 0 1;succ p0 0 2;
- SubClassOf(:A owl:Nothing) | class e2 1;
+ SubClassOf(:A ObjectIntersectionOf(:B ObjectSomeValuesFrom(:r :C))) | class e2 0;class e3 0;class e4 1;succ p0 0 1;
- SubClassOf(:A ObjectIntersectionOf(:B ObjectSomeValuesFrom(:r :C))) | class e2 0;class e4 1;succ p0 0 1;
- SubClassOf(:A ObjectIntersectionOf(:B ObjectSomeValuesFrom(:r :C))) | class e2 0;class e3 0;class e4 2;succ p0 0 1;
+ SubClassOf(:A ObjectSomeValuesFrom(:r ObjectIntersectionOf(:B ObjectSomeValuesFrom(:s :C)))) | class e2 0;class e3 1 2;class e4 0;succ p0 0 1 2;succ p1 2 0;
- SubClassOf(:A ObjectSomeValuesFrom(:r ObjectIntersectionOf(:B ObjectSomeValuesFrom(:s :C)))) | class e2 0;class e3 1;class e4 0;succ p0 0 1 2;succ p1 2 0;
- SubClassOf(:A ObjectSomeValuesFrom(:r ObjectIntersectionOf(:B ObjectSomeValuesFrom(:s :C)))) | class e2 0 1;class e3 2;class e4 0;succ p0 0 2;succ p1 2 0;
+ SubClassOf(ObjectIntersectionOf(ObjectSomeValuesFrom(:r :A) ObjectSomeValuesFrom(:s :B)) :C) | class e2 1;class e4 2;succ p0 0 1;succ p1 1 2;
- SubClassOf(ObjectIntersectionOf(ObjectSomeValuesFrom(:r :A) ObjectSomeValuesFrom(:s :B)) :C) | class e2 1;class e4 2;succ p0 0 1;succ p1 0 2;
+ SubClassOf(ObjectIntersectionOf(ObjectSomeValuesFrom(:r :A) ObjectSomeValuesFrom(:s :B)) :C) | class e2 1;class e4 2;class e7 0;succ p0 0 1;succ p1 0 2;
+ EquivalentClasses(ObjectSomeValuesFrom(:r :A) ObjectSomeValuesFrom(:r :B)) | class e2 1;class e4 2;succ p0 0 1 2;
- EquivalentClasses(ObjectSomeValuesFrom(:r :A) ObjectSomeValuesFrom(:r :B)) | class e2 1;class e4 2;succ p0 0 1 2;succ p0 1 2;
+ DisjointClasses(:A ObjectSomeValuesFrom(:r :B)) | class e2 1;class e3 2;succ p0 0 2;
- DisjointClasses(:A ObjectSomeValuesFrom(:r :B)) | class e2 0;class e3 2;succ p0 0 2;
+ DisjointClasses(:A :B) | class e2 1;class e3 2;
- DisjointClasses(:A :B) | class e2 1;class e3 1 2;
+ EquivalentObjectProperties(:r :s) | succ p0 0 1;succ p1 0 1;
- EquivalentObjectProperties(:r :s) | succ p0 0 1;
- EquivalentObjectProperties(:r :s) | succ p1 0 1;
+ SubObjectPropertyOf(:r :s) | succ p1 0 1;
- SubObjectPropertyOf(:r :s) | succ p0 0 1;succ p1 0 2;
+ ObjectPropertyDomain(:r :A) | class e2 0;succ p0 0 1;
- ObjectPropertyDomain(:r :A) | class e2 1;succ p0 0 1;
+ ObjectPropertyDomain(:r ObjectSomeValuesFrom(:s :A)) | class e2 2;succ p0 0 1;succ p1 0 2;
- ObjectPropertyDomain(:r ObjectSomeValuesFrom(:s :A)) | class e2 2;succ p0 0 1;succ p1 1 2;
+ ReflexiveObjectProperty(:r) | succ p0 0 0;succ p0 1 1;succ p0 2 2;
- ReflexiveObjectProperty(:r) | succ p0 0 0;succ p0 1 1;
+ ClassAssertion(:A :a) | class e2 1;ind i0 1;
- ClassAssertion(:A :a) | class e2 1;ind i0 2;
+ ClassAssertion(ObjectSomeValuesFrom(:r :A) :a) | class e2 1;succ p0 2 1;ind i0 2;
- ClassAssertion(ObjectSomeValuesFrom(:r :A) :a) | class e2 1;succ p0 2 1;ind i0 1;
+ ObjectPropertyAssertion(:r :a :b) | succ p0 0 1;ind i0 0;ind i1 1;
- ObjectPropertyAssertion(:r :a :b) | succ p0 0 1;ind i0 1;ind i1 0;
+ SameIndividual(:a :b :c) | ind i0 1;ind i1 1;ind i2 1;
- SameIndividual(:a :b :c) | ind i0 1;ind i1 1;ind i2 2;
- SameIndividual(:a :b :c) | ind i0 2;ind i1 1;ind i2 1;
+ DifferentIndividuals(:a :b :c) | ind i0 1;ind i1 0;ind i2 2;
- DifferentIndividuals(:a :b :c) | ind i0 1;ind i1 2;ind i2 1;
- DifferentIndividuals(:a :b :c) | ind i0 1;ind i1 2;ind i2 2;
+ NegativeObjectPropertyAssertion(:r :a :b) | succ p0 1 0;ind i0 0;ind i1 1;
- NegativeObjectPropertyAssertion(:r :a :b) | succ p0 0 1;ind i0 0;ind i1 1;
+ NegativeObjectPropertyAssertion(:r :a :a) | succ p0 0 1 2;ind i0 0;
- NegativeObjectPropertyAssertion(:r :a :a) | succ p0 0 0 1 2;ind i0 0;";

/// The verdict that the sign of a row asks for: where its axiom holds, the claim for owl:Thing is missed next.
fn expected(sign: &str) -> Verdict {
    if sign == "+" {
        claim_missing(0)
    } else {
        axiom_fails(1)
    }
}

/// Whether the members have this verdict.
fn are_members(alloc: Global, ontology: &Ontology, members: &str, expected: Verdict) -> bool {
    match with_lines(alloc, "elcert 1 consistent\ndomain 3\n", members, "end\n") {
        Ok(certificate) => has_verdict(alloc, ontology, ONE_SUBCLASS, &certificate, expected),
        Err(_) => false,
    }
}

/// Whether the members have the verdict of the sign over the ontology of the axiom.
fn is_judged<R: AllocGlobal + RandomSource>(
    rt: &R,
    sign: &str,
    axiom: &str,
    members: &str,
) -> Result<bool, Fail> {
    let document = format!(in rt.alloc(); "Prefix(:=<x:>) Ontology({axiom})")?;
    let ontology = ontology_of(rt, &document)?;
    Ok(are_members(rt.alloc(), &ontology, members, expected(sign)))
}

/// The same of a row.
fn is_row_judged<R: AllocGlobal + RandomSource>(rt: &R, row: &str) -> Result<bool, Fail> {
    let (sign, rest) = row.split_once(" ").ok_or("a sign")?;
    let (axiom, members) = rest.split_once(" | ").ok_or("an axiom and members")?;
    is_judged(rt, sign, axiom, members)
}

#[test]
fn axioms_in_interpretations(rt: HostRuntime) -> Result<(), Fail> {
    for row in MODELS.split('\n') {
        assert!(rt; is_row_judged(&rt, row)?, "{row}");
    }
    Ok(())
}
