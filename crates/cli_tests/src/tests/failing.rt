//! Runs over devices that are slow, and of which one fails at each of its calls in turn.

mod devices;

use super::checking::{ONE_CERTIFICATE, changed};
use super::formats::changed_to_two;
use super::speaking::{ASKED_UNWRITTEN, SESSION, files_asked};
use super::*;
use cli::{
    CheckFault, Checked, ClassifyFault, ConversionFault, ConvertFault, DocumentFault, Format,
    Limits, Reason, Summary, Verdict, Version, check_document, classify_document,
    convert_certificate,
};
use device::SliceSource;
use devices::FailingFiles;
use failing_devices::{FailingSink, FailingSource};
use std::process::Abort;

/// How many calls the device at a place answers, where that at another fails after so many.
fn calls_at(place: usize, failing: usize, calls: usize) -> usize {
    if place == failing { calls } else { usize::MAX }
}

fn sink_at(alloc: Global, place: usize, failing: usize, writes: usize) -> FailingSink<BufferSink> {
    let writes = calls_at(place, failing, writes);
    FailingSink::new(BufferSink::new(alloc), writes, 1)
}

fn source_at<'a>(
    bytes: &'a [u8],
    place: usize,
    failing: usize,
    reads: usize,
) -> FailingSource<SliceSource<'a>> {
    let reads = calls_at(place, failing, reads);
    FailingSource::new(SliceSource::new(bytes), reads, 7)
}

const LIMITS: Limits = Limits {
    max_bytes: 33,
    max_facts: 8,
    version: Version::Two,
};

/// The place of no device.
const NOWHERE: usize = 9;

/// What a classification of the document answers where the device at a place fails after some calls, and what its sinks
/// have taken. A fault is given as the place of the device that it names: 0 is the document's, 1 to 3 are the sinks'.
fn classified<R: AllocGlobal + RandomSource>(
    rt: &R,
    failing: usize,
    calls: usize,
) -> Result<(Result<Summary, usize>, Texts), Fail> {
    let alloc = rt.alloc();
    let state = RandomState::new(rt)?;
    let mut document = source_at(ONE_DOCUMENT, 0, failing, calls);
    let mut taxonomy = sink_at(alloc, 1, failing, calls);
    let mut instances = sink_at(alloc, 2, failing, calls);
    let mut certificate = sink_at(alloc, 3, failing, calls);
    let classified = classify_document(
        alloc,
        &mut document,
        &mut taxonomy,
        &mut instances,
        &mut certificate,
        &LIMITS,
        Format::Two,
        false,
        &mut BufferSink::new(alloc),
        state,
    );
    let answer = match classified {
        Ok(summary) => Ok(summary),
        Err(ClassifyFault::Document(DocumentFault::Io)) => Err(0),
        Err(ClassifyFault::Io(number)) => Err(number),
        Err(_) => Err(NOWHERE),
    };
    let texts = Texts {
        taxonomy: taxonomy.inner.into_bytes(),
        instances: instances.inner.into_bytes(),
        certificate: certificate.inner.into_bytes(),
    };
    Ok((answer, texts))
}

/// The verdict of a check, without the ontology that it is on.
fn verdict_of(checked: Result<Checked, CheckFault>) -> Result<Verdict, CheckFault> {
    match checked {
        Ok(checked) => Ok(checked.verdict),
        Err(fault) => Err(fault),
    }
}

/// What a check of the texts answers where the source at a place fails after some reads, and whether the three sources
/// of the texts are unread. A fault is given as the place of the source that it names: 1 is the document's.
fn checked<R: AllocGlobal + RandomSource>(
    rt: &R,
    texts: &Texts,
    failing: usize,
    reads: usize,
) -> Result<(Result<Verdict, usize>, [bool; 3]), Fail> {
    let alloc = rt.alloc();
    let state = RandomState::new(rt)?;
    let mut document = source_at(ONE_DOCUMENT, 1, failing, reads);
    let mut taxonomy = source_at(&texts.taxonomy, 2, failing, reads);
    let mut instances = source_at(&texts.instances, 3, failing, reads);
    let mut certificate = source_at(&texts.certificate, 4, failing, reads);
    let checked = check_document(
        alloc,
        &mut document,
        &mut taxonomy,
        &mut instances,
        &mut certificate,
        &LIMITS,
        false,
        &mut BufferSink::new(alloc),
        state,
    );
    let answer = match verdict_of(checked) {
        Ok(verdict) => Ok(verdict),
        Err(CheckFault::Document(DocumentFault::Io)) => Err(1),
        Err(CheckFault::Io(number)) => Err(number),
        Err(_) => Err(NOWHERE),
    };
    let unread = [
        taxonomy.reads == usize::MAX,
        instances.reads == usize::MAX,
        certificate.reads == usize::MAX,
    ];
    Ok((answer, unread))
}

/// A run over the files, where that at the path fails after some calls, and what the files then hold.
fn run_failing<R: AllocGlobal + RandomSource>(
    rt: &R,
    words: &[&str],
    inner: MemoryFiles,
    path: &'static str,
    calls: usize,
) -> Result<(Run, Texts), Fail> {
    let mut files = FailingFiles {
        inner,
        path,
        calls,
        failed_writes: 0,
    };
    let run = run_of(rt, words, &mut files)?;
    let texts = texts_in(rt.alloc(), &files.inner)?;
    Ok((run, texts))
}

/// Whether the sinks have taken the whole texts before the place, there so many bytes, and nothing behind it.
fn are_cut(texts: &Texts, whole: &Texts, place: usize, bytes: usize) -> bool {
    is_cut(&texts.taxonomy, &whole.taxonomy, 1, place, bytes)
        && is_cut(&texts.instances, &whole.instances, 2, place, bytes)
        && is_cut(&texts.certificate, &whole.certificate, 3, place, bytes)
}

fn is_cut(taken: &[u8], whole: &[u8], sink: usize, place: usize, bytes: usize) -> bool {
    let most = if sink < place {
        whole.len()
    } else if sink == place {
        bytes.min(whole.len())
    } else {
        0
    };
    taken == &whole[..most]
}

/// Whether a classification is stopped so by the device at the place, which fails after so many calls.
fn is_stopped<R: AllocGlobal + RandomSource>(
    rt: &R,
    whole: &Texts,
    place: usize,
    calls: usize,
) -> Result<bool, Fail> {
    let (answer, texts) = classified(rt, place, calls)?;
    Ok(answer == Err(place) && are_cut(&texts, whole, place, calls))
}

/// Whether a classifying run is stopped so by the file at the path that fails after some calls, the file being that of the
/// sink at the place, or at place 0 the document.
fn is_run_stopped<R: AllocGlobal + RandomSource>(
    rt: &R,
    whole: &Texts,
    place: usize,
    path: &'static str,
    told: &str,
    calls: usize,
) -> Result<bool, Fail> {
    let files = files_with(rt.alloc(), ONE_DOCUMENT)?;
    let (run, texts) = run_failing(rt, CLASSIFY, files, path, calls)?;
    Ok(is_run(&run, 6, "", told) && are_cut(&texts, whole, place, calls))
}

/// A run that checks the texts, where the file at the path fails after some reads.
fn checking_run<R: AllocGlobal + RandomSource>(
    rt: &R,
    texts: &Texts,
    path: &'static str,
    reads: usize,
) -> Result<Run, Fail> {
    let mut files = files_with(rt.alloc(), ONE_DOCUMENT)?;
    put_texts(&mut files, texts)?;
    let (run, _texts) = run_failing(rt, CHECK, files, path, reads)?;
    Ok(run)
}

/// Whether a checking run is stopped so by the file at the path that fails after some reads.
fn is_checking_run_stopped<R: AllocGlobal + RandomSource>(
    rt: &R,
    texts: &Texts,
    path: &'static str,
    told: &str,
    reads: usize,
) -> Result<bool, Fail> {
    let run = checking_run(rt, texts, path, reads)?;
    Ok(is_run(&run, 6, "", told))
}

/// How many bytes the text of the sink at the place has.
fn length_at(texts: &Texts, place: usize) -> usize {
    match place {
        1 => texts.taxonomy.len(),
        2 => texts.instances.len(),
        _ => texts.certificate.len(),
    }
}

/// The place of each sink, the path of its file, and what is told where it fails.
const SINKS: &[(usize, &str, &str)] = &[
    (1, "tax", "cannot write tax\n"),
    (2, "inst", "cannot write inst\n"),
    (3, "cert", "cannot write cert\n"),
];

/// Fails each sink after each number of bytes that is less than its text.
fn fail_each_write<R: AllocGlobal + Abort + RandomSource>(
    rt: &R,
    whole: &Texts,
) -> Result<(), Fail> {
    for row in SINKS {
        let (place, path, told) = *row;
        for bytes in 0..length_at(whole, place) {
            assert!(rt; is_stopped(rt, whole, place, bytes)?, "{path} at {bytes}");
            assert!(rt;
                is_run_stopped(rt, whole, place, path, told, bytes)?,
                "{path} at {bytes}"
            );
        }
    }
    Ok(())
}

/// Whether a check is stopped so by the source that fails after so many reads.
fn is_check_stopped<R: AllocGlobal + RandomSource>(
    rt: &R,
    texts: &Texts,
    place: usize,
    reads: usize,
) -> Result<bool, Fail> {
    let (answer, unread) = checked(rt, texts, place, reads)?;
    Ok(answer == Err(place) && unread == [place < 2, place < 3, place < 4])
}

/// How many bytes the source of a check at the place has.
fn source_length(texts: &Texts, place: usize) -> usize {
    match place {
        1 => ONE_DOCUMENT.len(),
        2 => texts.taxonomy.len(),
        3 => texts.instances.len(),
        _ => texts.certificate.len(),
    }
}

/// The place of each source of a check, the path of its file, and what is told where it fails.
const SOURCES: &[(usize, &str, &str)] = &[
    (1, "doc", "cannot read doc\n"),
    (2, "tax", "cannot read tax\n"),
    (3, "inst", "cannot read inst\n"),
    (4, "cert", "cannot read cert\n"),
];

/// Fails each source of a check at each of its reads.
fn fail_each_read<R: AllocGlobal + Abort + RandomSource>(
    rt: &R,
    texts: &Texts,
) -> Result<(), Fail> {
    for row in SOURCES {
        let (place, path, told) = *row;
        // One read more, at the end, gives nothing.
        for reads in 0..=source_length(texts, place).div_ceil(7) {
            assert!(rt;
                is_check_stopped(rt, texts, place, reads)?,
                "{path} at {reads}"
            );
            assert!(rt;
                is_checking_run_stopped(rt, texts, path, told, reads)?,
                "{path} at {reads}"
            );
        }
    }
    Ok(())
}

#[test]
fn a_sink_that_fails(rt: HostRuntime) -> Result<(), Fail> {
    let (answer, whole) = classified(&rt, NOWHERE, 0)?;
    let counts = Summary {
        consistent: true,
        classes: 4,
        individuals: 0,
        facts: 8,
    };
    assert!(rt; answer == Ok(counts));
    assert!(rt; are_texts(&whole, ONE, NO_INSTANCES));
    fail_each_write(&rt, &whole)
}

#[test]
fn a_source_that_fails(rt: HostRuntime) -> Result<(), Fail> {
    let (_answer, texts) = classified(&rt, NOWHERE, 0)?;
    let (verdict, unread) = checked(&rt, &texts, NOWHERE, 0)?;
    assert!(rt; verdict == Ok(Verdict::Accepted));
    assert!(rt; unread == [false; 3]);
    fail_each_read(&rt, &texts)
}

/// Whether a check of the texts is stopped by the certificate's source that fails after one read less than so many, and answers
/// that the text is bad there where it fails after so many.
fn is_told_before_the_failure<R: AllocGlobal + RandomSource>(
    rt: &R,
    texts: &Texts,
    reads: usize,
    at: usize,
) -> Result<bool, Fail> {
    let (in_the_line, _unread) = checked(rt, texts, 4, reads.saturating_sub(1))?;
    let (behind_the_line, _unread) = checked(rt, texts, 4, reads)?;
    Ok(in_the_line == Err(4) && behind_the_line == Ok(Verdict::Rejected(Reason::BadText { at })))
}

/// The same of runs.
fn is_run_told_before_the_failure<R: AllocGlobal + RandomSource>(
    rt: &R,
    texts: &Texts,
    reads: usize,
    at: usize,
) -> Result<bool, Fail> {
    let printed = format!(in rt.alloc(); "rejected: C1 at byte {at}\n")?;
    let in_the_line = checking_run(rt, texts, "cert", reads.saturating_sub(1))?;
    let behind_the_line = checking_run(rt, texts, "cert", reads)?;
    Ok(
        is_run(&in_the_line, 6, "", "cannot read cert\n")
            && is_run(&behind_the_line, 1, printed.as_str(), ""),
    )
}

/// The same of both.
fn are_told_before_the_failure<R: AllocGlobal + RandomSource>(
    rt: &R,
    texts: &Texts,
    reads: usize,
    at: usize,
) -> Result<bool, Fail> {
    Ok(
        is_told_before_the_failure(rt, texts, reads, at)?
            && is_run_told_before_the_failure(rt, texts, reads, at)?,
    )
}

/// A part of the certificate of one subclass axiom, what stands in its place so that its line cannot follow those before it, in how
/// many reads the bytes up to the end of this line are given, and where it begins.
const BAD_LINES: &[(&str, &str, usize, usize)] = &[
    ("elcert 1", "elcert 3", 3, 0),
    ("claim e3 2", "claim e3 3", 26, 171),
];

#[test]
fn a_bad_certificate_whose_source_fails(rt: HostRuntime) -> Result<(), Fail> {
    let (_answer, mut texts) = classified(&rt, NOWHERE, 0)?;
    for row in BAD_LINES {
        let (old, new, reads, at) = *row;
        let certificate = changed(rt.alloc(), ONE_CERTIFICATE, old, new)?;
        texts.certificate = certificate.into_bytes();
        assert!(rt;
            are_told_before_the_failure(&rt, &texts, reads, at)?,
            "{new}"
        );
    }
    Ok(())
}

/// Fails the document of a classification at each of its reads.
fn fail_each_read_of_the_document<R: AllocGlobal + Abort + RandomSource>(
    rt: &R,
    whole: &Texts,
) -> Result<(), Fail> {
    let told = "cannot read doc\n";
    for reads in 0..=ONE_DOCUMENT.len().div_ceil(7) {
        assert!(rt; is_stopped(rt, whole, 0, reads)?, "at {reads}");
        assert!(rt;
            is_run_stopped(rt, whole, 0, "doc", told, reads)?,
            "at {reads}"
        );
    }
    Ok(())
}

#[test]
fn a_document_that_fails(rt: HostRuntime) -> Result<(), Fail> {
    let (_answer, whole) = classified(&rt, NOWHERE, 0)?;
    fail_each_read_of_the_document(&rt, &whole)
}

/// What a conversion of that certificate to format 2 answers where the device at a place fails after some calls, and what its
/// sink has taken. A fault is given as the place of the device that it names: 0 is the document's, 1 the certificate's, 2 the sink's.
fn converted<R: AllocGlobal + RandomSource>(
    rt: &R,
    failing: usize,
    calls: usize,
) -> Result<(Result<(), usize>, Vec<u8>), Fail> {
    let mut document = source_at(ONE_DOCUMENT, 0, failing, calls);
    let mut certificate = source_at(ONE_CERTIFICATE.as_bytes(), 1, failing, calls);
    let mut sink = sink_at(rt.alloc(), 2, failing, calls);
    let converted = convert_certificate(
        rt.alloc(),
        &mut document,
        &mut certificate,
        &mut sink,
        &LIMITS,
        Format::Two,
        RandomState::new(rt)?,
    );
    let answer = match converted {
        Ok(()) => Ok(()),
        Err(ConversionFault::Document(DocumentFault::Io)) => Err(0),
        Err(ConversionFault::Unread) => Err(1),
        Err(ConversionFault::Certificate(ConvertFault::Io)) => Err(2),
        Err(_) => Err(NOWHERE),
    };
    Ok((answer, sink.inner.into_bytes()))
}

/// Places, how many calls the device there answers in a conversion, and how many bytes are written then.
const CONVERTING: &[(usize, usize, usize)] = &[
    (0, 0, 0),
    (0, 5, 0),
    (1, 0, 0),
    (1, 27, 0),
    (2, 0, 0),
    (2, 185, 185),
];

/// Whether a conversion whose device at the place fails after so many calls answers so, and so many bytes of the whole text are
/// written then.
fn is_conversion<R: AllocGlobal + RandomSource>(
    rt: &R,
    whole: &[u8],
    (place, calls, written): (usize, usize, usize),
    wanted: Result<(), usize>,
) -> Result<bool, Fail> {
    let (answer, taken) = converted(rt, place, calls)?;
    Ok(answer == wanted && taken.len() == written && whole.starts_with(&taken))
}

#[test]
fn a_conversion_whose_devices_fail(rt: HostRuntime) -> Result<(), Fail> {
    let whole = changed_to_two(rt.alloc())?;
    let whole = whole.as_bytes();
    assert!(rt; is_conversion(&rt, whole, (NOWHERE, 0, whole.len()), Ok(()))?);
    for row in CONVERTING {
        let (place, calls, _written) = *row;
        assert!(rt;
            is_conversion(&rt, whole, *row, Err(place))?,
            "{place} at {calls}"
        );
    }
    Ok(())
}

#[test]
fn a_session_writes_the_files_before_one_that_fails(rt: HostRuntime) -> Result<(), Fail> {
    let files = files_asked(rt.alloc(), ASKED_UNWRITTEN)?;
    let (run, texts) = run_failing(&rt, SESSION, files, "inst", 0)?;
    let told =
        "ok 19\nfacts 8\nconsistent\nno 6 18\ncannot write inst\nok 43\nconsistent classes 4 individuals 0 facts 8\nok 26\nfacts 8 served 8 bytes 33\n";
    assert!(rt; is_run(&run, 0, told, ""));
    assert!(rt; are_texts(&texts, ONE, ""));
    assert!(rt; texts.certificate.is_empty());
    Ok(())
}
