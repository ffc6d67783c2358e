//! Certificates that come from a source: reads that fail, and texts that are long.

use super::ontologies::ONE_SUBCLASS_DOCUMENT;
use super::{
    Change, ONE_SUBCLASS, ONE_SUBCLASS_CERTIFICATE, changed, has_verdict, judge_one_subclass,
    verdict_of,
};
use crate::documents::ontology_of;
use crate::sources::Pieces;
use axioms::Ontology;
use cert_check::{Reason, StreamFault, Verdict, check_from};
use std::alloc::{AllocError, Global};
use std::process::Abort;
use std::random::RandomSource;
use std::test::Fail;

/// In pieces of which size the changed certificate of one subclass axiom comes, the change, how many reads are made, and why the
/// certificate is rejected, if it is.
type Reads = (usize, &'static str, &'static str, usize, Option<Reason>);

// The last read finds that nothing stands behind the last line. Behind a line that cannot follow those before it nothing is
// read; behind one that does not follow by its rule all is.
const READS: &[Reads] = &[
    (1, "end", "end", 187, None),
    (7, "end", "end", 28, None),
    (4_096, "end", "end", 2, None),
    (
        1,
        "K4 a1 3",
        "K4 a1 5",
        187,
        Some(Reason::BadLine { number: 5 }),
    ),
    (
        1,
        "class e3 1 2",
        "class e3 2",
        185,
        Some(Reason::AxiomFails { axiom: 1 }),
    ),
    (
        1,
        "elcert 1",
        "elcert 3",
        20,
        Some(Reason::BadText { at: 0 }),
    ),
    (
        1,
        "sub e1 e1 K1",
        "sub e9 e1 K1",
        46,
        Some(Reason::BadText { at: 33 }),
    ),
    (
        1,
        "domain 3",
        "domain 0",
        125,
        Some(Reason::BadText { at: 116 }),
    ),
    (
        7,
        "domain 3",
        "domain 0",
        18,
        Some(Reason::BadText { at: 116 }),
    ),
    (
        4_096,
        "domain 3",
        "domain 0",
        1,
        Some(Reason::BadText { at: 116 }),
    ),
    (
        1,
        "claim e3 2",
        "claim e3 3",
        182,
        Some(Reason::BadText { at: 171 }),
    ),
    (
        1,
        "end\n",
        "end\n\n",
        187,
        Some(Reason::BadText { at: 186 }),
    ),
    (
        1,
        "end\n",
        "end\nend\n",
        190,
        Some(Reason::BadText { at: 186 }),
    ),
    (1, "end\n", "end", 186, Some(Reason::BadText { at: 182 })),
    (1, "end\n", "", 183, Some(Reason::BadText { at: 182 })),
];

/// Whether the checker answers so and reads the certificate so often, where it comes in pieces of that size and behind so many
/// reads one fails.
fn is_answered(
    alloc: Global,
    ontology: &Ontology,
    certificate: &str,
    size: usize,
    failing_behind: usize,
    expected: (Result<Verdict, StreamFault>, usize),
) -> bool {
    let mut source = Pieces::failing_behind(certificate.as_bytes(), size, failing_behind);
    let taxonomy = ONE_SUBCLASS.taxonomy.as_bytes();
    let instances = ONE_SUBCLASS.instances.as_bytes();
    let answer = check_from(alloc, ontology, taxonomy, instances, &mut source);
    (answer, source.reads()) == expected
}

/// Each of the reads that fails is the last and leaves no verdict, and no more reads are made.
fn are_answered<R: AllocGlobal + Abort>(
    rt: &R,
    ontology: &Ontology,
    certificate: &str,
    row: Reads,
) {
    let alloc = rt.alloc();
    let (size, old, new, reads, reason) = row;
    for behind in 0..reads {
        let failed = (Err(StreamFault::Io), behind.saturating_add(1));
        assert!(rt;
            is_answered(alloc, ontology, certificate, size, behind, failed),
            "{new} in place of {old}, behind {behind} reads of {size}"
        );
    }
    let answered = (Ok(verdict_of(reason)), reads);
    assert!(rt;
        is_answered(alloc, ontology, certificate, size, reads, answered),
        "{new} in place of {old}, behind all reads of {size}"
    );
}

#[test]
fn reads_that_fail(rt: HostRuntime) -> Result<(), Fail> {
    let ontology = ontology_of(&rt, ONE_SUBCLASS_DOCUMENT)?;
    for row in READS {
        let (_, old, new, _, _) = *row;
        let certificate = changed(rt.alloc(), ONE_SUBCLASS_CERTIFICATE, old, new)?;
        are_answered(&rt, &ontology, &certificate, *row);
    }
    Ok(())
}

const TEXTS_THAT_END_EARLY_OR_LATE: &[Change] = &[
    (
        ONE_SUBCLASS_CERTIFICATE,
        "",
        Some(Reason::BadText { at: 0 }),
    ),
    (
        ONE_SUBCLASS_CERTIFICATE,
        "elcert 1 consistent",
        Some(Reason::BadText { at: 0 }),
    ),
    (
        ONE_SUBCLASS_CERTIFICATE,
        "elcert 1 consistent\n",
        Some(Reason::BadText { at: 20 }),
    ),
    ("end\n", "end\nend\n", Some(Reason::BadText { at: 186 })),
    ("end\n", "end\n\n", Some(Reason::BadText { at: 186 })),
    (
        "claim e0 0\n",
        "claim e0 0\n\n",
        Some(Reason::BadText { at: 160 }),
    ),
    (
        "claim e2 1\n",
        "claim e2 1\ndomain 3\n",
        Some(Reason::BadText { at: 171 }),
    ),
];

#[test]
fn texts_that_end_early_or_late(rt: HostRuntime) -> Result<(), Fail> {
    judge_one_subclass(&rt, TEXTS_THAT_END_EARLY_OR_LATE)
}

// A bad text is told before the bad line that stands before it; a bad line is told before what comes after all lines are read.
const CHANGES_BEHIND_A_BAD_LINE: &[Change] = &[
    (
        "claim e3 2",
        "claim e3 3",
        Some(Reason::BadText { at: 171 }),
    ),
    (
        "class e3 1 2",
        "class e3 2",
        Some(Reason::BadLine { number: 5 }),
    ),
    ("end\n", "", Some(Reason::BadText { at: 182 })),
];

/// Whether the certificate with a bad line and the change has its verdict.
fn is_judged_behind_a_bad_line(alloc: Global, ontology: &Ontology, change: Change) -> bool {
    let (old, new, reason) = change;
    match changed_twice(alloc, ("K4 a1 3", "K4 a1 5"), (old, new)) {
        Ok(certificate) => {
            has_verdict(
                alloc,
                ontology,
                ONE_SUBCLASS,
                &certificate,
                verdict_of(reason),
            )
        }
        Err(_) => false,
    }
}

#[test]
fn changes_behind_a_bad_line(rt: HostRuntime) -> Result<(), Fail> {
    let ontology = ontology_of(&rt, ONE_SUBCLASS_DOCUMENT)?;
    for change in CHANGES_BEHIND_A_BAD_LINE {
        let (old, new, _) = *change;
        assert!(rt;
            is_judged_behind_a_bad_line(rt.alloc(), &ontology, *change),
            "{new} in place of {old}"
        );
    }
    Ok(())
}

/// The certificate of one subclass axiom with two of its parts replaced.
fn changed_twice(
    alloc: Global,
    first: (&str, &str),
    second: (&str, &str),
) -> Result<String, AllocError> {
    let once = changed(alloc, ONE_SUBCLASS_CERTIFICATE, first.0, first.1)?;
    changed(alloc, &once, second.0, second.1)
}

/// A part of the certificate of one subclass axiom; what begins what stands in its place, what then stands there so many times, and what
/// ends it; and another change.
#[derive(Clone, Copy)]
struct LongChange {
    part: &'static str,
    front: &'static str,
    repeated: &'static str,
    times: usize,
    back: &'static str,
    other: Change,
}

/// The text that stands in the place of the part.
fn long_part(alloc: Global, change: LongChange) -> Result<String, AllocError> {
    let mut text = String::from_str(alloc, change.front)?;
    for _ in 0..change.times {
        text.push_str(change.repeated)?;
    }
    text.push_str(change.back)?;
    Ok(text)
}

/// The changed certificate.
fn long_certificate(alloc: Global, change: LongChange) -> Result<String, AllocError> {
    let part = long_part(alloc, change)?;
    let (old, new, _) = change.other;
    changed_twice(alloc, (change.part, &part), (old, new))
}

// A line of more than 600,000 bytes: it has more premises than any rule takes.
const LONG_LINES: &[LongChange] = &[
    LongChange {
        part: "sub e2 e0 K2",
        front: "sub e2 e0 K2",
        repeated: " 1",
        times: 300_000,
        back: "",
        other: ("end", "end", Some(Reason::BadLine { number: 4 })),
    },
    LongChange {
        part: "sub e2 e0 K2",
        front: "sub e2 e0 K2",
        repeated: " 1",
        times: 300_000,
        back: "",
        other: (
            "claim e3 2",
            "claim e3 3",
            Some(Reason::BadText { at: 600_171 }),
        ),
    },
];

// A number of a million digits, and a first line that does not end.
const LONG_WORDS: &[LongChange] = &[
    LongChange {
        part: "K4 a1 3",
        front: "K4 a1 ",
        repeated: "1",
        times: 1_000_000,
        back: "",
        other: ("end", "end", Some(Reason::BadText { at: 72 })),
    },
    LongChange {
        part: ONE_SUBCLASS_CERTIFICATE,
        front: "",
        repeated: "x",
        times: 5_000,
        back: "",
        other: ("x", "x", Some(Reason::BadText { at: 0 })),
    },
];

const MANY_EQUAL_LINES: &[LongChange] = &[LongChange {
    part: "domain 3",
    front: "",
    repeated: "sub e3 e0 K2\n",
    times: 200_000,
    back: "domain 3",
    other: ("end", "end", None),
}];

const NOTHING_BEHIND_MANY_LINES: &[LongChange] = &[LongChange {
    part: ONE_SUBCLASS_CERTIFICATE,
    front: "elcert 1 consistent\n",
    repeated: "sub e0 e0 K1\n",
    times: 200_000,
    back: "",
    other: ("elcert", "elcert", Some(Reason::BadText { at: 2_600_020 })),
}];

const A_CUT_LINE_BEHIND_MANY_LINES: &[LongChange] = &[LongChange {
    part: ONE_SUBCLASS_CERTIFICATE,
    front: "elcert 1 consistent\n",
    repeated: "sub e0 e0 K1\n",
    times: 200_000,
    back: "sub e0",
    other: ("elcert", "elcert", Some(Reason::BadText { at: 2_600_020 })),
}];

/// Whether the changed certificate has its verdict.
fn is_long_change_judged(alloc: Global, ontology: &Ontology, change: LongChange) -> bool {
    let (_, _, reason) = change.other;
    match long_certificate(alloc, change) {
        Ok(certificate) => {
            has_verdict(
                alloc,
                ontology,
                ONE_SUBCLASS,
                &certificate,
                verdict_of(reason),
            )
        }
        Err(_) => false,
    }
}

/// Each of the changes has its verdict on certificates of SubClassOf(A B).
fn judge_long_changes<R: AllocGlobal + Abort + RandomSource>(
    rt: &R,
    changes: &[LongChange],
) -> Result<(), Fail> {
    let ontology = ontology_of(rt, ONE_SUBCLASS_DOCUMENT)?;
    for change in changes {
        let (_, new, _) = change.other;
        assert!(rt;
            is_long_change_judged(rt.alloc(), &ontology, *change),
            "{} times {} in place of {}, and {new}",
            change.times,
            change.repeated,
            change.part
        );
    }
    Ok(())
}

#[test]
fn long_lines(rt: HostRuntime) -> Result<(), Fail> {
    judge_long_changes(&rt, LONG_LINES)
}

#[test]
fn long_words(rt: HostRuntime) -> Result<(), Fail> {
    judge_long_changes(&rt, LONG_WORDS)
}

#[test]
fn many_equal_lines(rt: HostRuntime) -> Result<(), Fail> {
    judge_long_changes(&rt, MANY_EQUAL_LINES)
}

#[test]
fn nothing_behind_many_lines(rt: HostRuntime) -> Result<(), Fail> {
    judge_long_changes(&rt, NOTHING_BEHIND_MANY_LINES)
}

#[test]
fn a_cut_line_behind_many_lines(rt: HostRuntime) -> Result<(), Fail> {
    judge_long_changes(&rt, A_CUT_LINE_BEHIND_MANY_LINES)
}

/// A certificate whose interpretation has 14,001 elements, all but one of them in B: that row has more than 70,000 bytes.
fn with_long_row(alloc: Global) -> Result<String, AllocError> {
    let mut row = String::from_str(alloc, "class e3")?;
    for element in 1..14_001 {
        row.push_str(&format!(in alloc; " {element}")?)?;
    }
    changed_twice(alloc, ("class e3 1 2", &row), ("domain 3", "domain 14001"))
}

#[test]
fn a_long_row(rt: HostRuntime) -> Result<(), Fail> {
    let ontology = ontology_of(&rt, ONE_SUBCLASS_DOCUMENT)?;
    let certificate = with_long_row(rt.alloc())?;
    assert!(rt; certificate.len() > 70_000);
    assert!(rt;
        has_verdict(
            rt.alloc(),
            &ontology,
            ONE_SUBCLASS,
            &certificate,
            Verdict::Accepted
        )
    );
    Ok(())
}
