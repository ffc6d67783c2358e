//! Certificates in both formats, and from one to the other.

use super::checking::{ONE_CERTIFICATE, changed, is_checked_to};
use super::*;

/// The certificate of one subclass axiom in format 2.
pub(super) fn changed_to_two(alloc: Global) -> Result<String, Fail> {
    let text = changed(alloc, ONE_CERTIFICATE, "elcert 1", "elcert 2")?;
    let text = changed(alloc, text.as_str(), "K4 a1 3", "K4 a1 2")?;
    changed(alloc, text.as_str(), "class e3 1 2", "class e3 1-2")
}

/// The certificate of one subclass axiom in the format.
fn certificate_in(alloc: Global, format: u8) -> Result<String, Fail> {
    match format {
        1 => Ok(String::from_str(alloc, ONE_CERTIFICATE)?),
        _ => changed_to_two(alloc),
    }
}

const CLASSIFY_TO_ONE: &[&str] = &[
    "elc", "classify", "doc", "tax", "inst", "cert", "--format", "1",
];

const CLASSIFY_TO_TWO: &[&str] = &[
    "elc", "classify", "doc", "tax", "inst", "cert", "--format", "2",
];

/// What classifies a document, and the first line of the certificate that it writes.
const CLASSIFYING: &[(&str, &[&str], &str)] = &[
    ("no format", CLASSIFY, "elcert 2 consistent\n"),
    ("format 2", CLASSIFY_TO_TWO, "elcert 2 consistent\n"),
    ("format 1", CLASSIFY_TO_ONE, "elcert 1 consistent\n"),
];

/// Whether the words write the texts of one subclass axiom, the certificate with that first line, which the checker accepts.
fn is_written<R: AllocGlobal + RandomSource>(
    rt: &R,
    words: &[&str],
    first: &str,
) -> Result<bool, Fail> {
    let (run, texts) = written_by(rt, words, ONE_DOCUMENT)?;
    let check = check(rt, ONE_DOCUMENT, &texts)?;
    Ok(
        run.status == 0
            && are_texts(&texts, ONE, NO_INSTANCES)
            && texts.certificate.starts_with(first.as_bytes())
            && is_run(&check, 0, "accepted\n", ""),
    )
}

#[test]
fn certificates_that_are_written(rt: HostRuntime) -> Result<(), Fail> {
    for row in CLASSIFYING {
        let (case, words, first) = *row;
        assert!(rt; is_written(&rt, words, first)?, "{case}");
    }
    Ok(())
}

/// A part of the certificate in format 2, what stands in its place, and the status and what is printed then.
const CHANGES: &[(&str, &str, u8, &str)] = &[
    ("end\n", "end\n", 0, "accepted\n"),
    (
        "class e3 1-2",
        "class e3 1 2",
        1,
        "rejected: C1 at byte 136\n",
    ),
    (
        "class e3 1-2",
        "class e3 1-1",
        1,
        "rejected: C1 at byte 136\n",
    ),
    (
        "class e3 1-2",
        "class e3 2-1",
        1,
        "rejected: C1 at byte 136\n",
    ),
    ("K4 a1 2", "K4 a1 5", 1, "rejected: C1 at byte 72\n"),
    ("K4 a1 2", "K4 a1 1", 1, "rejected: C2 line 5\n"),
    ("elcert 2", "elcert 3", 1, "rejected: C1 at byte 0\n"),
    ("elcert 2", "elcert 1", 1, "rejected: C1 at byte 136\n"),
];

#[test]
fn certificates_in_the_second_format(rt: HostRuntime) -> Result<(), Fail> {
    let certificate = changed_to_two(rt.alloc())?;
    let texts = (ONE, NO_INSTANCES);
    for row in CHANGES {
        let (old, new, status, printed) = *row;
        let certificate = changed(rt.alloc(), certificate.as_str(), old, new)?;
        let certificate = certificate.as_str();
        assert!(rt;
            is_checked_to(&rt, ONE_DOCUMENT, texts, certificate, status, printed)?,
            "{new}"
        );
    }
    Ok(())
}

/// Files of the document of one subclass axiom and of a certificate.
fn files_of(alloc: Global, certificate: &[u8]) -> Result<MemoryFiles, Memory> {
    let mut files = files_with(alloc, ONE_DOCUMENT)?;
    files.put("cert", certificate)?;
    Ok(files)
}

/// Words that convert the certificate to the format.
fn converting(format: u8) -> &'static [&'static str] {
    match format {
        1 => &["elc", "convert", "doc", "cert", "out", "--format", "1"],
        _ => &["elc", "convert", "doc", "cert", "out", "--format", "2"],
    }
}

/// Whether a run that converts the certificate to the format ends with status 0, prints nothing, and writes this.
fn is_converted<R: AllocGlobal + RandomSource>(
    rt: &R,
    certificate: &[u8],
    format: u8,
    wanted: &[u8],
) -> Result<bool, Fail> {
    let mut files = files_of(rt.alloc(), certificate)?;
    let run = run_of(rt, converting(format), &mut files)?;
    Ok(
        is_run(&run, 0, "", "")
            && files.bytes("cert") == Some(certificate)
            && files.bytes("out") == Some(wanted),
    )
}

/// Whether the certificate in format 1 is converted to that in format 2, and back.
fn are_converted<R: AllocGlobal + RandomSource>(
    rt: &R,
    first: &[u8],
    second: &[u8],
) -> Result<bool, Fail> {
    Ok(is_converted(rt, first, 2, second)? && is_converted(rt, second, 1, first)?)
}

/// Whether a run that converts the certificate to the format ends with status 1, prints this, and writes nothing.
fn is_unconverted<R: AllocGlobal + RandomSource>(
    rt: &R,
    certificate: &str,
    format: u8,
    printed: &str,
) -> Result<bool, Fail> {
    let mut files = files_of(rt.alloc(), certificate.as_bytes())?;
    let run = run_of(rt, converting(format), &mut files)?;
    Ok(is_run(&run, 1, printed, "") && files.bytes("out").is_none())
}

/// From which format a certificate is converted, and to which.
const FORMATS: &[(u8, u8)] = &[(1, 1), (1, 2), (2, 1), (2, 2)];

#[test]
fn certificates_there_and_back(rt: HostRuntime) -> Result<(), Fail> {
    for row in FORMATS {
        let (from, to) = *row;
        let text = certificate_in(rt.alloc(), from)?;
        let wanted = certificate_in(rt.alloc(), to)?;
        assert!(rt;
            is_converted(&rt, text.as_bytes(), to, wanted.as_bytes())?,
            "{from} {to}"
        );
    }
    Ok(())
}

#[test]
fn what_is_written_in_one_format_is_converted_to_the_other(rt: HostRuntime) -> Result<(), Fail> {
    let first = texts_by(&rt, CLASSIFY_TO_ONE, ONE_DOCUMENT)?;
    let second = texts_by(&rt, CLASSIFY, ONE_DOCUMENT)?;
    assert!(rt; are_converted(&rt, &first.certificate, &second.certificate)?);
    Ok(())
}

/// A part of the certificate in format 1, what stands in its place, and the part of that in format 2 and what stands in its place
/// then. Whether the certificate shows anything is not asked.
const CONVERTED: &[(&str, &str, &str, &str)] = &[
    (
        "domain 3",
        "domain 4294967295",
        "domain 3",
        "domain 4294967295",
    ),
    (
        "class e3 1 2",
        "class e3 0 1 2",
        "class e3 1-2",
        "class e3 0-2",
    ),
    ("K4 a1 3", "K4 a1 1 4", "K4 a1 2", "K4 a1 4 1"),
];

#[test]
fn changed_certificates_are_converted(rt: HostRuntime) -> Result<(), Fail> {
    let second = changed_to_two(rt.alloc())?;
    for row in CONVERTED {
        let (old, new, old_second, new_second) = *row;
        let text = changed(rt.alloc(), ONE_CERTIFICATE, old, new)?;
        let wanted = changed(rt.alloc(), second.as_str(), old_second, new_second)?;
        assert!(rt;
            are_converted(&rt, text.as_bytes(), wanted.as_bytes())?,
            "{new}"
        );
    }
    Ok(())
}

/// A part of the certificate in format 1, and what stands in its place so that a premise is not earlier.
const LATER: &[(&str, &str, &str)] = &[
    (
        "sub e0 e0 K1\n",
        "sub e0 e0 K1 1\n",
        "cannot convert line 1\n",
    ),
    ("K4 a1 3", "K4 a1 99", "cannot convert line 5\n"),
];

/// Whether the certificate in format 1 is converted to format 1, as it is, and not to format 2, for the reason that is printed.
fn is_converted_to_one<R: AllocGlobal + RandomSource>(
    rt: &R,
    certificate: &str,
    printed: &str,
) -> Result<bool, Fail> {
    let bytes = certificate.as_bytes();
    Ok(is_unconverted(rt, certificate, 2, printed)? && is_converted(rt, bytes, 1, bytes)?)
}

#[test]
fn certificates_with_later_premises(rt: HostRuntime) -> Result<(), Fail> {
    for row in LATER {
        let (old, new, printed) = *row;
        let text = changed(rt.alloc(), ONE_CERTIFICATE, old, new)?;
        assert!(rt; is_converted_to_one(&rt, text.as_str(), printed)?, "{new}");
    }
    Ok(())
}

/// The certificate with two lines whose premises are not earlier.
fn with_later_premises(alloc: Global) -> Result<String, Fail> {
    let text = changed(alloc, ONE_CERTIFICATE, "K4 a1 3", "K4 a1 99")?;
    changed(alloc, text.as_str(), "sub e3 e0 K2", "sub e3 e0 K2 1")
}

/// Whether the certificate is converted to neither format, for the reason that is printed.
fn is_unconverted_to_both<R: AllocGlobal + RandomSource>(
    rt: &R,
    certificate: &str,
    printed: &str,
) -> Result<bool, Fail> {
    Ok(is_unconverted(rt, certificate, 1, printed)? && is_unconverted(rt, certificate, 2, printed)?)
}

#[test]
fn certificates_without_an_end(rt: HostRuntime) -> Result<(), Fail> {
    let text = with_later_premises(rt.alloc())?;
    assert!(rt; is_unconverted(&rt, text.as_str(), 2, "cannot convert line 5\n")?);
    let cut = changed(rt.alloc(), text.as_str(), "end\n", "")?;
    assert!(rt; is_unconverted_to_both(&rt, cut.as_str(), "rejected: C1 at byte 185\n")?);
    Ok(())
}

const IN_PLACE: &[&str] = &["elc", "convert", "doc", "cert", "cert"];

#[test]
fn a_certificate_in_its_own_place(rt: HostRuntime) -> Result<(), Fail> {
    let wanted = changed_to_two(rt.alloc())?;
    let mut files = files_of(rt.alloc(), ONE_CERTIFICATE.as_bytes())?;
    let run = run_of(&rt, IN_PLACE, &mut files)?;
    assert!(rt; is_run(&run, 0, "", ""));
    assert!(rt; files.bytes("cert") == Some(wanted.as_bytes()));
    Ok(())
}

/// Words that convert, a document, what is held at `cert`, and the status and what is told, where nothing can be written.
const STOPPED: &[(&[&str], &[u8], &str, u8, &str)] = &[
    (
        &["elc", "convert", "none", "cert", "out"],
        ONE_DOCUMENT,
        "",
        6,
        "cannot read none\n",
    ),
    (
        &["elc", "convert", "doc", "none", "out"],
        ONE_DOCUMENT,
        "",
        6,
        "cannot read none\n",
    ),
    (
        &["elc", "convert", "doc", "none", "out"],
        b"Ontology(",
        "",
        3,
        "P2 at byte 9\n",
    ),
    (
        &["elc", "convert", "doc", "cert", "out", "--max-bytes", "32"],
        ONE_DOCUMENT,
        "",
        5,
        "limit: more than 32 bytes\n",
    ),
    (
        &["elc", "convert", "doc", "cert", "out"],
        ONE_DOCUMENT,
        ONE_CERTIFICATE,
        6,
        "cannot write out\n",
    ),
];

/// A run over the document and what is held at `cert`, where nothing can be written.
fn stopped<R: AllocGlobal + RandomSource>(
    rt: &R,
    words: &[&str],
    document: &[u8],
    certificate: &str,
) -> Result<Run, Fail> {
    let mut files = files_with(rt.alloc(), document)?;
    files.put("cert", certificate.as_bytes())?;
    files.lock();
    run_of(rt, words, &mut files)
}

#[test]
fn conversions_that_are_stopped(rt: HostRuntime) -> Result<(), Fail> {
    for row in STOPPED {
        let (words, document, certificate, status, told) = *row;
        let run = stopped(&rt, words, document, certificate)?;
        assert!(rt; is_run(&run, status, "", told), "{told}");
    }
    Ok(())
}
