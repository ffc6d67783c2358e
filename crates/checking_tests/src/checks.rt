//! Verdicts on small certificates that were worked out by hand: right ones, cut ones and ones that were changed.

mod conversions;
mod domains;
mod format_two;
mod individuals;
mod lines;
mod models;
mod one_subclass;
mod ontologies;
mod order;
mod other_texts;
mod reading;
mod rules;
mod wide_rows;

use crate::documents::ontology_of;
use crate::sources::Pieces;
use axioms::{ClassId, Ontology};
use cert_check::{
    Reason, Verdict, check, check_from, narrowed_listings, soundness, worked_certificates,
};
use device::{SliceSource, Source};
use ontologies::{ONE_MEMBER_DOCUMENT, ONE_SUBCLASS_DOCUMENT};
use std::alloc::{AllocError, Global};
use std::process::Abort;
use std::random::RandomSource;
use std::test::Fail;

/// A taxonomy text, an instances text and a certificate.
#[derive(Clone, Copy)]
struct Texts<'a> {
    taxonomy: &'a str,
    instances: &'a str,
    certificate: &'a str,
}

/// The right certificate of SubClassOf(A B).
const ONE_SUBCLASS_CERTIFICATE: &str =
    "elcert 1 consistent\nsub e0 e0 K1\nsub e1 e1 K1\nsub e2 e2 K1\nsub e2 e0 K2\nsub e2 e3 K4 a1 3\nsub e3 e3 K1\nsub e3 e0 K2\ndomain 3\nclass e2 1\nclass e3 1 2\nclaim e0 0\nclaim e2 1\nclaim e3 2\nend\n";

/// The right texts of SubClassOf(A B).
const ONE_SUBCLASS: Texts<'static> = Texts {
    taxonomy: "eltax 1 consistent\n<http://www.w3.org/2002/07/owl#Thing>\n<x:A> < <x:B>\n<x:B> < <http://www.w3.org/2002/07/owl#Thing>\nbottom <http://www.w3.org/2002/07/owl#Nothing>\n",
    instances: "elinst 1 consistent\n",
    certificate: ONE_SUBCLASS_CERTIFICATE,
};

/// The right texts of ClassAssertion(A a).
const ONE_MEMBER: Texts<'static> = Texts {
    taxonomy: "eltax 1 consistent\n<http://www.w3.org/2002/07/owl#Thing>\n<x:A> < <http://www.w3.org/2002/07/owl#Thing>\nbottom <http://www.w3.org/2002/07/owl#Nothing>\n",
    instances: "elinst 1 consistent\n<x:a> : <x:A>\n",
    certificate: "elcert 1 consistent\nsub e0 e0 K1\nsub e1 e1 K1\nsub e2 e2 K1\nsub e2 e0 K2\nsub i0 e2 K15 a1\nsub i0 e0 K2\ndomain 3\nclass e2 1 2\nind i0 2\nclaim e0 0\nclaim e2 1\nend\n",
};

/// The right texts of SubClassOf(A B) SubClassOf(B A) SubClassOf(C D) SubClassOf(D owl:Nothing).
const CIRCLE_AND_NOTHING: Texts<'static> = Texts {
    taxonomy: "eltax 1 consistent\n<http://www.w3.org/2002/07/owl#Thing>\n<x:A> = <x:B> < <http://www.w3.org/2002/07/owl#Thing>\nbottom <http://www.w3.org/2002/07/owl#Nothing> = <x:C> = <x:D>\n",
    instances: "elinst 1 consistent\n",
    certificate: "elcert 1 consistent\nsub e0 e0 K1\nsub e1 e1 K1\nsub e5 e5 K1\nsub e5 e1 K4 a4 3\nsub e4 e4 K1\nsub e4 e5 K4 a3 5\nsub e4 e1 K4 a4 6\nsub e2 e2 K1\nsub e2 e0 K2\nsub e2 e3 K4 a1 8\nsub e3 e3 K1\nsub e3 e0 K2\nsub e3 e2 K4 a2 11\ndomain 2\nclass e2 1\nclass e3 1\nclaim e0 0\nclaim e2 1\nclaim e3 1\nend\n",
};

/// The right texts of DisjointClasses(A B) ClassAssertion(A a) ClassAssertion(B a).
const CONTRADICTION: Texts<'static> = Texts {
    taxonomy: "eltax 1 inconsistent\n",
    instances: "elinst 1 inconsistent\n",
    certificate: "elcert 1 inconsistent\nsub i0 e2 K15 a2\nsub i0 e3 K15 a3\nsub i0 e1 K7 a1 1 2\nend\n",
};

/// The text between the two with each `;` as the end of a line.
fn with_lines(alloc: Global, front: &str, lines: &str, back: &str) -> Result<String, AllocError> {
    let mut text = String::from_str(alloc, front)?;
    for character in lines.chars() {
        text.push(if character == ';' { '\n' } else { character })?;
    }
    text.push_str(back)?;
    Ok(text)
}

/// Whether this is the verdict on the texts with the certificate in place of theirs.
fn is_judged_whole(
    alloc: Global,
    ontology: &Ontology,
    texts: Texts<'_>,
    certificate: &str,
    expected: Verdict,
) -> bool {
    let taxonomy = texts.taxonomy.as_bytes();
    let instances = texts.instances.as_bytes();
    check(alloc, ontology, taxonomy, instances, certificate.as_bytes()) == Ok(expected)
}

/// Whether this is the verdict on the texts with what the source gives in place of their certificate.
fn is_judged_from<S: Source>(
    alloc: Global,
    ontology: &Ontology,
    texts: Texts<'_>,
    source: &mut S,
    expected: Verdict,
) -> bool {
    let taxonomy = texts.taxonomy.as_bytes();
    let instances = texts.instances.as_bytes();
    check_from(alloc, ontology, taxonomy, instances, source) == Ok(expected)
}

/// The same where the source gives the certificate in pieces of at most so many bytes.
fn is_judged_in_pieces(
    alloc: Global,
    ontology: &Ontology,
    texts: Texts<'_>,
    certificate: &str,
    most: usize,
    expected: Verdict,
) -> bool {
    let mut source = Pieces::new(certificate.as_bytes(), most);
    is_judged_from(alloc, ontology, texts, &mut source, expected)
}

/// The sizes of the pieces in which certificates are read.
const SIZES: &[usize] = &[1, 2, 7, 1_000, 4_096, 65_536];

/// Whether this is the verdict on the texts with the certificate in place of theirs, which is lent, given by a source at once, or
/// given in pieces.
fn has_verdict(
    alloc: Global,
    ontology: &Ontology,
    texts: Texts<'_>,
    certificate: &str,
    expected: Verdict,
) -> bool {
    for size in SIZES {
        if !is_judged_in_pieces(alloc, ontology, texts, certificate, *size, expected) {
            return false;
        }
    }
    let mut source = SliceSource::new(certificate.as_bytes());
    is_judged_from(alloc, ontology, texts, &mut source, expected)
        && is_judged_whole(alloc, ontology, texts, certificate, expected)
}

/// A part of a certificate, what stands in its place, and why the certificate is rejected then, if it is.
type Change = (&'static str, &'static str, Option<Reason>);

/// The text with one part of it replaced.
fn changed(alloc: Global, text: &str, old: &str, new: &str) -> Result<String, AllocError> {
    let (front, back) = text
        .split_once(old)
        .unwrap_or(("the part to be replaced: ", old));
    format!(in alloc; "{front}{new}{back}")
}

/// Whether the change has its verdict.
fn is_judged(alloc: Global, ontology: &Ontology, texts: Texts<'_>, change: Change) -> bool {
    let (old, new, reason) = change;
    match changed(alloc, texts.certificate, old, new) {
        Ok(certificate) => has_verdict(alloc, ontology, texts, &certificate, verdict_of(reason)),
        Err(_) => false,
    }
}

/// Each change of a part of the certificate has its verdict.
fn are_judged<R: AllocGlobal + Abort>(
    rt: &R,
    ontology: &Ontology,
    texts: Texts<'_>,
    changes: &[Change],
) {
    for change in changes {
        let (old, new, _) = *change;
        assert!(rt;
            is_judged(rt.alloc(), ontology, texts, *change),
            "{new} in place of {old}"
        );
    }
}

/// The same of the ontology that the document states.
fn judge<R: AllocGlobal + Abort + RandomSource>(
    rt: &R,
    document: &str,
    texts: Texts<'_>,
    changes: &[Change],
) -> Result<(), Fail> {
    let ontology = ontology_of(rt, document)?;
    are_judged(rt, &ontology, texts, changes);
    Ok(())
}

/// The same of SubClassOf(A B) and its right texts.
fn judge_one_subclass<R: AllocGlobal + Abort + RandomSource>(
    rt: &R,
    changes: &[Change],
) -> Result<(), Fail> {
    judge(rt, ONE_SUBCLASS_DOCUMENT, ONE_SUBCLASS, changes)
}

/// The same of ClassAssertion(A a) and its right texts.
fn judge_one_member<R: AllocGlobal + Abort + RandomSource>(
    rt: &R,
    changes: &[Change],
) -> Result<(), Fail> {
    judge(rt, ONE_MEMBER_DOCUMENT, ONE_MEMBER, changes)
}

/// The verdict where this is why the certificate is rejected, if it is.
fn verdict_of(reason: Option<Reason>) -> Verdict {
    match reason {
        Some(reason) => Verdict::Rejected(reason),
        None => Verdict::Accepted,
    }
}

fn bad_text(at: usize) -> Verdict {
    Verdict::Rejected(Reason::BadText { at })
}

fn bad_line(number: usize) -> Verdict {
    Verdict::Rejected(Reason::BadLine { number })
}

fn axiom_fails(number: usize) -> Verdict {
    Verdict::Rejected(Reason::AxiomFails { axiom: number })
}

fn claim_missing(class: u32) -> Verdict {
    Verdict::Rejected(Reason::ClaimMissing {
        class: ClassId(class),
    })
}

#[test]
fn laws() {
    soundness();
    worked_certificates();
    narrowed_listings();
}
