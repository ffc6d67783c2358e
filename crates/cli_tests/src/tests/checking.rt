//! Certificates made by hand, of documents with individuals and disjoint classes, checked through whole runs.

use super::*;
use cli::{CheckFault, Checked, Limits, Verdict, Version, check_document};
use device::SliceSource;

const CONTRADICTION: &[u8] =
    b"Prefix(:=<x:>) Ontology(DisjointClasses(:A :B) ClassAssertion(:A :a) ClassAssertion(:B :a))";

const MEMBER: &[u8] = b"Prefix(:=<x:>) Ontology(ClassAssertion(:A :a))";

const MEMBER_TAXONOMY: &str =
    "eltax 1 consistent\n<http://www.w3.org/2002/07/owl#Thing>\n<x:A> < <http://www.w3.org/2002/07/owl#Thing>\nbottom <http://www.w3.org/2002/07/owl#Nothing>\n";

const MEMBER_INSTANCES: &str = "elinst 1 consistent\n<x:a> : <x:A>\n";

/// The lines of a certificate of `MEMBER`, up to those that are left out or changed below.
const MEMBER_LINES: &str =
    "elcert 1 consistent\nsub e0 e0 K1\nsub e1 e1 K1\nsub e2 e2 K1\nsub e2 e0 K2\nsub i0 e2 K15 a1\n";

const LIMITS: Limits = Limits {
    max_bytes: 1000,
    max_facts: 1,
    version: Version::Two,
};

/// Whether the checker accepts these texts of the document.
fn is_accepted<R: AllocGlobal + RandomSource>(
    rt: &R,
    document: &[u8],
    (taxonomy, instances): (&str, &str),
    certificate: &str,
) -> Result<bool, Fail> {
    let checked: Result<Checked, CheckFault> = check_document(
        rt.alloc(),
        &mut SliceSource::new(document),
        &mut SliceSource::new(taxonomy.as_bytes()),
        &mut SliceSource::new(instances.as_bytes()),
        &mut SliceSource::new(certificate.as_bytes()),
        &LIMITS,
        false,
        &mut BufferSink::new(rt.alloc()),
        RandomState::new(rt)?,
    );
    match checked {
        Ok(checked) => Ok(checked.verdict == Verdict::Accepted),
        Err(_) => Ok(false),
    }
}

/// Puts the texts into the files.
pub(super) fn put_all(
    files: &mut MemoryFiles,
    taxonomy: &str,
    instances: &str,
    certificate: &str,
) -> Result<(), Memory> {
    files.put("tax", taxonomy.as_bytes())?;
    files.put("inst", instances.as_bytes())?;
    files.put("cert", certificate.as_bytes())
}

/// Whether a run that checks these texts of the document prints this, and the checker accepts them where the status is 0.
pub(super) fn is_checked_to<R: AllocGlobal + RandomSource>(
    rt: &R,
    document: &[u8],
    (taxonomy, instances): (&str, &str),
    certificate: &str,
    status: u8,
    printed: &str,
) -> Result<bool, Fail> {
    let is_accepted = is_accepted(rt, document, (taxonomy, instances), certificate)?;
    let mut files = files_with(rt.alloc(), document)?;
    put_all(&mut files, taxonomy, instances, certificate)?;
    let run = run_of(rt, CHECK, &mut files)?;
    Ok(is_run(&run, status, printed, "") && is_accepted == (status == 0))
}

/// A line that ends the derivation, and the status and what is printed with it.
const CONTRADICTING_LINES: &[(&str, u8, &str)] = &[
    ("sub i0 e1 K7 a1 1 2\n", 0, "accepted\n"),
    ("", 1, "rejected: C7\n"),
    ("sub i0 e1 K7 a1 2 1\n", 0, "accepted\n"),
    ("sub i0 e1 K7 a1 1 1\n", 1, "rejected: C2 line 3\n"),
];

#[test]
fn contradiction_by_individual(rt: HostRuntime) -> Result<(), Fail> {
    let texts = ("eltax 1 inconsistent\n", "elinst 1 inconsistent\n");
    for row in CONTRADICTING_LINES {
        let (line, status, printed) = *row;
        let certificate = format!(in rt.alloc();
            "elcert 1 inconsistent\nsub i0 e2 K15 a2\nsub i0 e3 K15 a3\n{line}end\n"
        )?;
        let certificate = certificate.as_str();
        assert!(rt;
            is_checked_to(&rt, CONTRADICTION, texts, certificate, status, printed)?,
            "{line}"
        );
    }
    Ok(())
}

const TOP: &str = "sub i0 e0 K2\n";

/// A line that ends the derivation, what is listed, and the status and what is printed with them.
const MEMBER_ROWS: &[(&str, &str, u8, &str)] = &[
    (TOP, "class e2 1 2\nind i0 2\n", 0, "accepted\n"),
    (TOP, "class e2 1 2\nind i0 1\n", 0, "accepted\n"),
    ("", "class e2 1 2\nind i0 2\n", 1, "rejected: C6 <x:a>\n"),
    (TOP, "class e2 1\nind i0 2\n", 1, "rejected: C3 axiom 1\n"),
];

#[test]
fn a_member_and_changed_certificates(rt: HostRuntime) -> Result<(), Fail> {
    let texts = (MEMBER_TAXONOMY, MEMBER_INSTANCES);
    for row in MEMBER_ROWS {
        let (line, listed, status, printed) = *row;
        let certificate = format!(in rt.alloc();
            "{MEMBER_LINES}{line}domain 3\n{listed}claim e0 0\nclaim e2 1\nend\n"
        )?;
        let certificate = certificate.as_str();
        assert!(rt;
            is_checked_to(&rt, MEMBER, texts, certificate, status, printed)?,
            "{printed}"
        );
    }
    Ok(())
}

#[test]
fn a_member_with_another_instances_text(rt: HostRuntime) -> Result<(), Fail> {
    let texts = (
        MEMBER_TAXONOMY,
        "elinst 1 consistent\n<x:a> : <http://www.w3.org/2002/07/owl#Thing>\n",
    );
    let certificate = format!(in rt.alloc();
        "{MEMBER_LINES}sub i0 e0 K2\ndomain 3\nclass e2 1 2\nind i0 2\nclaim e0 0\nclaim e2 1\nend\n"
    )?;
    let told = "rejected: C9 at byte 29\n";
    assert!(rt; is_checked_to(&rt, MEMBER, texts, certificate.as_str(), 1, told)?);
    Ok(())
}

/// A certificate of the document of one subclass axiom.
pub(super) const ONE_CERTIFICATE: &str =
    "elcert 1 consistent\nsub e0 e0 K1\nsub e1 e1 K1\nsub e2 e2 K1\nsub e2 e0 K2\nsub e2 e3 K4 a1 3\nsub e3 e3 K1\nsub e3 e0 K2\ndomain 3\nclass e2 1\nclass e3 1 2\nclaim e0 0\nclaim e2 1\nclaim e3 2\nend\n";

/// The text with one part of it replaced.
pub(super) fn changed(alloc: Global, text: &str, old: &str, new: &str) -> Result<String, Fail> {
    let (front, back) = text.split_once(old).ok_or("the part to be replaced")?;
    Ok(format!(in alloc; "{front}{new}{back}")?)
}

/// A part of that certificate, what stands in its place, and the status and what is printed then.
const CHANGES: &[(&str, &str, u8, &str)] = &[
    ("end\n", "end\n", 0, "accepted\n"),
    ("claim e2 1", "claim e2 0", 1, "rejected: C5 <x:A>\n"),
    ("sub e2 e3 K4 a1 3\n", "", 1, "rejected: C5 <x:A>\n"),
    ("K4 a1 3", "K4 a1 5", 1, "rejected: C2 line 5\n"),
    ("class e3 1 2", "class e3 2", 1, "rejected: C3 axiom 1\n"),
    ("claim e3 2\n", "", 1, "rejected: C4 <x:B>\n"),
    // cut after 130 bytes, and after 182
    (
        " e2 1\nclass e3 1 2\nclaim e0 0\nclaim e2 1\nclaim e3 2\nend\n",
        "",
        1,
        "rejected: C1 at byte 125\n",
    ),
    ("end\n", "", 1, "rejected: C1 at byte 182\n"),
    ("claim e3 2", "claim e3 3", 1, "rejected: C1 at byte 171\n"),
];

#[test]
fn certificate_of_one_subclass(rt: HostRuntime) -> Result<(), Fail> {
    for row in CHANGES {
        let (old, new, status, printed) = *row;
        let certificate = changed(rt.alloc(), ONE_CERTIFICATE, old, new)?;
        let certificate = certificate.as_str();
        assert!(rt;
            is_checked_to(
                &rt,
                ONE_DOCUMENT,
                (ONE, NO_INSTANCES),
                certificate,
                status,
                printed
            )?,
            "{printed}"
        );
    }
    Ok(())
}

#[test]
fn another_taxonomy_of_one_subclass(rt: HostRuntime) -> Result<(), Fail> {
    let taxonomy = text_of(
        rt.alloc(),
        "eltax 1 consistent/T/<x:A> < T , <x:B>/<x:B> < T/bottom N/",
    )?;
    let texts = (taxonomy.as_str(), NO_INSTANCES);
    let told = "rejected: C8 at byte 66\n";
    assert!(rt; is_checked_to(&rt, ONE_DOCUMENT, texts, ONE_CERTIFICATE, 1, told)?);
    Ok(())
}
