//! Documents that are cut and certificates that are forged, by whole programs.

use super::checking::{ONE_CERTIFICATE, changed, put_all};
use super::starting::{Ended, is_end, owned, run_to_end, started};
use super::*;

/// Whether `classify` refuses the document of one subclass axiom so and writes nothing, cut after each number of bytes from
/// the first to the last, and `check` tells it too, though there are no texts to check.
fn is_cut<R: AllocGlobal + RandomSource>(
    rt: &R,
    first: usize,
    last: usize,
    told: &str,
) -> Result<bool, Fail> {
    let mut is_told = true;
    for k in first..last.saturating_add(1) {
        if let Some(cut) = ONE_DOCUMENT.get(..k) {
            let classified = run_to_end(rt, CLASSIFY, cut, true)?;
            let checked = run_to_end(rt, CHECK, cut, true)?;
            is_told = is_told && is_end(&classified, 3, "", told) && is_end(&checked, 3, "", told);
        }
    }
    Ok(is_told)
}

/// Numbers of bytes, from the first to the last, and what is told of a document that is cut after them.
const CUTS: &[(usize, usize, &str)] = &[
    (0, 0, "P2 at byte 0\n"),
    (1, 7, "P1 at byte 0\n"),
    (21, 24, "X3 at byte 20\n"),
    (25, 26, "P2 at byte 25\n"),
    (27, 30, "X3 at byte 26\n"),
];

#[test]
fn cut_documents(rt: HostRuntime) -> Result<(), Fail> {
    for row in CUTS {
        let (first, last, told) = *row;
        assert!(rt; is_cut(&rt, first, last, told)?, "{told}");
    }
    Ok(())
}

/// Numbers of bytes, from the first to the last, that are told themselves.
const CUTS_TOLD_AT_THEIR_END: &[(usize, usize)] = &[(8, 20), (31, 32)];

#[test]
fn cut_documents_told_at_their_end(rt: HostRuntime) -> Result<(), Fail> {
    for row in CUTS_TOLD_AT_THEIR_END {
        let (first, last) = *row;
        for k in first..last.saturating_add(1) {
            let told = format!(in rt.alloc(); "P2 at byte {k}\n")?;
            assert!(rt; is_cut(&rt, k, k, told.as_str())?, "{k}");
        }
    }
    Ok(())
}

/// The end of a program that checks these texts of the document, without individuals.
fn checked<R: AllocGlobal + RandomSource>(
    rt: &R,
    document: &[u8],
    taxonomy: &str,
    certificate: &str,
) -> Result<Ended, Fail> {
    let mut files = files_with(rt.alloc(), document)?;
    put_all(&mut files, taxonomy, NO_INSTANCES, certificate)?;
    let words = owned(rt.alloc(), CHECK)?;
    Ok(started(rt.alloc(), Ok(words), RandomState::new(rt), &mut files))
}

/// Whether a program that checks this certificate of the document of one subclass axiom ends so.
fn is_checked<R: AllocGlobal + RandomSource>(
    rt: &R,
    certificate: &str,
    status: u8,
    printed: &str,
) -> Result<bool, Fail> {
    let end = checked(rt, ONE_DOCUMENT, ONE, certificate)?;
    Ok(is_end(&end, status, printed, ""))
}

/// A part of the certificate of one subclass axiom, what stands in its place, and the status and what is printed then.
const FORGED: &[(&str, &str, u8, &str)] = &[
    ("K4 a1 3", "K4 a1 6", 1, "rejected: C2 line 5\n"),
    ("K4 a1 3", "K4 a1 99999999999", 1, "rejected: C2 line 5\n"),
    ("K4 a1 3", "K4 a1 0", 1, "rejected: C1 at byte 72\n"),
    (
        "K4 a1 3",
        "K4 a1 18446744073709551616",
        1,
        "rejected: C1 at byte 72\n",
    ),
    ("K4 a1 3", "K4 a2 3", 1, "rejected: C1 at byte 72\n"),
    (
        "domain 3",
        "domain 4294967296",
        1,
        "rejected: C1 at byte 116\n",
    ),
    (
        "class e2 1\n",
        "class e2 1\nclass e2 1\n",
        1,
        "rejected: C1 at byte 136\n",
    ),
    ("domain 3", "domain 4294967295", 0, "accepted\n"),
    // no text, a first line without its line feed, and a first line alone
    (ONE_CERTIFICATE, "", 1, "rejected: C1 at byte 0\n"),
    (
        ONE_CERTIFICATE,
        "elcert 1 consistent",
        1,
        "rejected: C1 at byte 0\n",
    ),
    (
        ONE_CERTIFICATE,
        "elcert 1 consistent\n",
        1,
        "rejected: C1 at byte 20\n",
    ),
    // lines behind the end, an empty line, and a line that stands behind those that it must stand before
    ("end\n", "end\nend\n", 1, "rejected: C1 at byte 186\n"),
    ("end\n", "end\n\n", 1, "rejected: C1 at byte 186\n"),
    (
        "claim e0 0\n",
        "claim e0 0\n\n",
        1,
        "rejected: C1 at byte 160\n",
    ),
    (
        "claim e2 1\n",
        "claim e2 1\ndomain 3\n",
        1,
        "rejected: C1 at byte 171\n",
    ),
];

#[test]
fn forged_certificates(rt: HostRuntime) -> Result<(), Fail> {
    for row in FORGED {
        let (old, new, status, printed) = *row;
        let certificate = changed(rt.alloc(), ONE_CERTIFICATE, old, new)?;
        assert!(rt;
            is_checked(&rt, certificate.as_str(), status, printed)?,
            "{new}"
        );
    }
    Ok(())
}

/// Whether a program that checks the certificate of one subclass axiom, cut after each number of bytes from the first to the
/// last, ends so.
fn is_cut_certificate<R: AllocGlobal + RandomSource>(
    rt: &R,
    first: usize,
    last: usize,
    printed: &str,
) -> Result<bool, Fail> {
    let mut is_printed = true;
    for k in first..last.saturating_add(1) {
        if let Some(cut) = ONE_CERTIFICATE.get(..k) {
            is_printed = is_checked(rt, cut, 1, printed)? && is_printed;
        }
    }
    Ok(is_printed)
}

/// The first and the last place in each line of that certificate.
const LINES: &[(usize, usize)] = &[
    (0, 19),
    (20, 32),
    (33, 45),
    (46, 58),
    (59, 71),
    (72, 89),
    (90, 102),
    (103, 115),
    (116, 124),
    (125, 135),
    (136, 148),
    (149, 159),
    (160, 170),
    (171, 181),
    (182, 185),
];

#[test]
fn cut_certificates(rt: HostRuntime) -> Result<(), Fail> {
    for row in LINES {
        let (first, last) = *row;
        let printed = format!(in rt.alloc(); "rejected: C1 at byte {first}\n")?;
        assert!(rt;
            is_cut_certificate(&rt, first, last, printed.as_str())?,
            "{first}"
        );
    }
    Ok(())
}

/// A part of a certificate of which a premise is bad too, what stands in its place, and what is printed then.
const FORGED_TWICE: &[(&str, &str, &str)] = &[
    ("claim e3 2", "claim e3 3", "rejected: C1 at byte 171\n"),
    ("class e3 1 2", "class e3 2", "rejected: C2 line 5\n"),
    ("end\n", "", "rejected: C1 at byte 182\n"),
];

#[test]
fn certificates_forged_twice(rt: HostRuntime) -> Result<(), Fail> {
    let bad_line = changed(rt.alloc(), ONE_CERTIFICATE, "K4 a1 3", "K4 a1 5")?;
    for row in FORGED_TWICE {
        let (old, new, printed) = *row;
        let certificate = changed(rt.alloc(), bad_line.as_str(), old, new)?;
        assert!(rt;
            is_checked(&rt, certificate.as_str(), 1, printed)?,
            "{printed}"
        );
    }
    Ok(())
}

const RESTRICTION: &[u8] =
    b"Prefix(:=<x:>) Ontology(EquivalentClasses(:A ObjectSomeValuesFrom(:r :B)))";

/// A certificate of that document, in which few elements of a huge domain stand.
const RESTRICTION_CERTIFICATE: &str =
    "elcert 1 consistent\nsub e0 e0 K1\nsub e1 e1 K1\nsub e2 e2 K1\nsub e2 e0 K2\nsub e3 e3 K1\nsub e3 e0 K2\ndomain 4294967295\nclass e2 4294967293\nclass e3 5\nsucc p0 4294967293 5\nclaim e0 0\nclaim e2 4294967293\nclaim e3 5\nend\n";

/// The element that the class is claimed to have, and the status and what is printed then.
const CLAIMED: &[(&str, u8, &str)] = &[
    ("claim e2 4294967293", 0, "accepted\n"),
    ("claim e2 4294967295", 1, "rejected: C1 at byte 179\n"),
];

/// The end of a program that checks that certificate with this claim in it.
fn claimed<R: AllocGlobal + RandomSource>(
    rt: &R,
    taxonomy: &str,
    claim: &str,
) -> Result<Ended, Fail> {
    let old = "claim e2 4294967293";
    let certificate = changed(rt.alloc(), RESTRICTION_CERTIFICATE, old, claim)?;
    checked(rt, RESTRICTION, taxonomy, certificate.as_str())
}

#[test]
fn claims_in_a_huge_domain(rt: HostRuntime) -> Result<(), Fail> {
    let taxonomy = text_of(
        rt.alloc(),
        "eltax 1 consistent/T/<x:A> < T/<x:B> < T/bottom N/",
    )?;
    for row in CLAIMED {
        let (claim, status, printed) = *row;
        let end = claimed(&rt, taxonomy.as_str(), claim)?;
        assert!(rt; is_end(&end, status, printed, ""), "{claim}");
    }
    Ok(())
}

/// Files of which one holds the document with this axiom.
fn files_of_axiom(alloc: Global, axiom: &str) -> Result<MemoryFiles, Fail> {
    let document = format!(in alloc; "Prefix(:=<x:>) Ontology({axiom})")?;
    Ok(files_with(alloc, document.as_bytes())?)
}

/// Puts the certificate of these lines, which are given in short, into the files.
fn put_lines(alloc: Global, files: &mut MemoryFiles, lines: &str) -> Result<(), Fail> {
    let lines = text_of(alloc, lines)?;
    let certificate = format!(in alloc; "elcert 1 consistent\n{lines}end\n")?;
    files.put("cert", certificate.as_bytes())?;
    Ok(())
}

/// The end of a program that checks this certificate, in short, of the document with this axiom, beside the texts that
/// `classify` writes for it.
fn checked_beside<R: AllocGlobal + RandomSource>(
    rt: &R,
    axiom: &str,
    lines: &str,
) -> Result<Ended, Fail> {
    let alloc = rt.alloc();
    let mut files = files_of_axiom(alloc, axiom)?;
    let classify = owned(alloc, CLASSIFY)?;
    started(alloc, Ok(classify), RandomState::new(rt), &mut files);
    put_lines(alloc, &mut files, lines)?;
    let check = owned(alloc, CHECK)?;
    Ok(started(alloc, Ok(check), RandomState::new(rt), &mut files))
}

/// An axiom, the lines of a certificate, the status and what is printed.
const DOMAINS: &[(&str, &str, u8, &str)] = &[
    (
        "ReflexiveObjectProperty(:r)",
        "sub e0 e0 K1/sub e1 e1 K1/domain 1/succ p0 0 0/claim e0 0/",
        0,
        "accepted\n",
    ),
    (
        "ReflexiveObjectProperty(:r)",
        "sub e0 e0 K1/sub e1 e1 K1/domain 2/succ p0 0 0/claim e0 0/",
        1,
        "rejected: C3 axiom 1\n",
    ),
    (
        "ReflexiveObjectProperty(:r)",
        "sub e0 e0 K1/sub e1 e1 K1/domain 4294967295/succ p0 0 0/claim e0 0/",
        1,
        "rejected: C3 axiom 1\n",
    ),
    (
        "SubClassOf(owl:Thing :A)",
        "sub e0 e0 K1/sub e0 e2 K4 a1 1/sub e1 e1 K1/sub e2 e2 K1/sub e2 e0 K2/domain 1/class e2 0/claim e0 0/claim e2 0/",
        0,
        "accepted\n",
    ),
    (
        "SubClassOf(owl:Thing :A)",
        "sub e0 e0 K1/sub e0 e2 K4 a1 1/sub e1 e1 K1/sub e2 e2 K1/sub e2 e0 K2/domain 4294967295/class e2 0/claim e0 0/claim e2 0/",
        1,
        "rejected: C3 axiom 1\n",
    ),
    (
        "TransitiveObjectProperty(:r)",
        "sub e0 e0 K1/sub e1 e1 K1/domain 4294967295/succ p0 7 4000000000/succ p0 4000000000 9/claim e0 4294967294/",
        1,
        "rejected: C3 axiom 1\n",
    ),
    (
        "TransitiveObjectProperty(:r)",
        "sub e0 e0 K1/sub e1 e1 K1/domain 4294967295/succ p0 7 9 4000000000/succ p0 4000000000 9/claim e0 4294967294/",
        0,
        "accepted\n",
    ),
    (
        "EquivalentClasses(:A ObjectSomeValuesFrom(:r :B))",
        "sub e0 e0 K1/sub e1 e1 K1/sub e2 e2 K1/sub e2 e0 K2/sub e3 e3 K1/sub e3 e0 K2/domain 4294967295/class e2 4294967292 4294967293/class e3 5/succ p0 4294967293 5/claim e0 0/claim e2 4294967293/claim e3 5/",
        1,
        "rejected: C3 axiom 1\n",
    ),
    (
        "EquivalentClasses(:A ObjectSomeValuesFrom(:r :B))",
        "sub e0 e0 K1/sub e1 e1 K1/sub e2 e2 K1/sub e2 e0 K2/sub e3 e3 K1/sub e3 e0 K2/domain 4294967295/class e2 4294967293/class e3 5/succ p0 4294967293 5/claim e0 0/claim e2 4294967294/claim e3 5/",
        1,
        "rejected: C5 <x:A>\n",
    ),
    (
        "Declaration(NamedIndividual(:a))",
        "sub e0 e0 K1/sub e1 e1 K1/sub i0 e0 K2/domain 4294967295/ind i0 4294967294/claim e0 0/",
        0,
        "accepted\n",
    ),
    (
        "Declaration(NamedIndividual(:a))",
        "sub e0 e0 K1/sub e1 e1 K1/sub i0 e0 K2/domain 4294967295/claim e0 0/",
        1,
        "rejected: C1 at byte 77\n",
    ),
    (
        "DisjointClasses(:A :B)",
        "sub e0 e0 K1/sub e1 e1 K1/sub e2 e2 K1/sub e2 e0 K2/sub e3 e3 K1/sub e3 e0 K2/domain 4294967295/class e2 10 20/class e3 20 30/claim e0 0/claim e2 10/claim e3 30/",
        1,
        "rejected: C3 axiom 1\n",
    ),
    (
        "DisjointClasses(:A :B)",
        "sub e0 e0 K1/sub e1 e1 K1/sub e2 e2 K1/sub e2 e0 K2/sub e3 e3 K1/sub e3 e0 K2/domain 4294967295/class e2 10 20/class e3 30/claim e0 0/claim e2 10/claim e3 30/",
        0,
        "accepted\n",
    ),
];

#[test]
fn huge_domains(rt: HostRuntime) -> Result<(), Fail> {
    for row in DOMAINS {
        let (axiom, lines, status, printed) = *row;
        let end = checked_beside(&rt, axiom, lines)?;
        assert!(rt; is_end(&end, status, printed, ""), "{lines}");
    }
    Ok(())
}

/// A part of the certificate of one subclass axiom; what begins what stands in its place, what then stands there so many times,
/// and what ends it; another part and what stands in its place; and what is printed then.
#[derive(Clone, Copy)]
struct LongChange {
    part: &'static str,
    front: &'static str,
    repeated: &'static str,
    times: usize,
    back: &'static str,
    other: (&'static str, &'static str),
    printed: &'static str,
}

/// The text that stands in the place of the part.
fn long_part(alloc: Global, change: LongChange) -> Result<String, AllocError> {
    let mut text = String::from_str(alloc, change.front)?;
    for _ in 0..change.times {
        text.push_str(change.repeated)?;
    }
    text.push_str(change.back)?;
    Ok(text)
}

/// The changed certificate.
fn long_certificate(alloc: Global, change: LongChange) -> Result<String, Fail> {
    let (old, new) = change.other;
    let once = changed(alloc, ONE_CERTIFICATE, old, new)?;
    let part = long_part(alloc, change)?;
    changed(alloc, once.as_str(), change.part, part.as_str())
}

/// Whether a program that checks the changed certificate ends so.
fn is_long_change_told<R: AllocGlobal + RandomSource>(
    rt: &R,
    change: LongChange,
) -> Result<bool, Fail> {
    let certificate = long_certificate(rt.alloc(), change)?;
    is_checked(rt, certificate.as_str(), 1, change.printed)
}

/// The certificate with more premises in a line than any rule takes, alone and before a line that cannot follow; with a number of
/// a million digits; and a first line that does not end.
const LONG_LINES: &[LongChange] = &[
    LongChange {
        part: "sub e2 e0 K2",
        front: "sub e2 e0 K2",
        repeated: " 1",
        times: 300_000,
        back: "",
        other: ("end", "end"),
        printed: "rejected: C2 line 4\n",
    },
    LongChange {
        part: "sub e2 e0 K2",
        front: "sub e2 e0 K2",
        repeated: " 1",
        times: 300_000,
        back: "",
        other: ("claim e3 2", "claim e3 3"),
        printed: "rejected: C1 at byte 600171\n",
    },
    LongChange {
        part: "K4 a1 3",
        front: "K4 a1 ",
        repeated: "1",
        times: 1_000_000,
        back: "",
        other: ("end", "end"),
        printed: "rejected: C1 at byte 72\n",
    },
    LongChange {
        part: ONE_CERTIFICATE,
        front: "",
        repeated: "x",
        times: 5_000,
        back: "",
        other: ("end", "end"),
        printed: "rejected: C1 at byte 0\n",
    },
];

#[test]
fn long_lines(rt: HostRuntime) -> Result<(), Fail> {
    for change in LONG_LINES {
        assert!(rt; is_long_change_told(&rt, *change)?, "{}", change.printed);
    }
    Ok(())
}

/// Many equal lines with nothing behind them, and with the beginning of another one.
const MANY_LINES: &[LongChange] = &[
    LongChange {
        part: ONE_CERTIFICATE,
        front: "elcert 1 consistent\n",
        repeated: "sub e0 e0 K1\n",
        times: 200_000,
        back: "",
        other: ("end", "end"),
        printed: "rejected: C1 at byte 2600020\n",
    },
    LongChange {
        part: ONE_CERTIFICATE,
        front: "elcert 1 consistent\n",
        repeated: "sub e0 e0 K1\n",
        times: 200_000,
        back: "sub e0",
        other: ("end", "end"),
        printed: "rejected: C1 at byte 2600020\n",
    },
];

#[test]
fn many_lines(rt: HostRuntime) -> Result<(), Fail> {
    for change in MANY_LINES {
        assert!(rt; is_long_change_told(&rt, *change)?, "{}", change.back);
    }
    Ok(())
}
