//! Runs of `elcheck`, beside those of `elc` with the same words.

use super::checking::{ONE_CERTIFICATE, put_all};
use super::formats::changed_to_two;
use super::*;
use receiving::Means;

/// A run of `elcheck`.
pub(super) fn received<R: AllocGlobal + RandomSource, F: Files>(
    rt: &R,
    words: &[&str],
    files: &mut F,
) -> Result<Run, Fail> {
    let alloc = rt.alloc();
    let state = RandomState::new(rt)?;
    let mut out = BufferSink::new(alloc);
    let mut err = BufferSink::new(alloc);
    let means = Means { alloc, state };
    let status = receiving::perform(means, words, files, &mut out, &mut err);
    Ok(Run {
        status,
        out: out.into_bytes(),
        err: err.into_bytes(),
    })
}

/// Words of both programs, the status, what is printed, and what is told.
struct Row {
    elcheck: &'static [&'static str],
    elc: &'static [&'static str],
    status: u8,
    out: &'static str,
    err: &'static str,
}

/// The texts that are checked are those of one subclass axiom.
const ROWS: &[Row] = &[
    Row {
        elcheck: &["elcheck", "doc", "tax", "inst", "cert"],
        elc: CHECK,
        status: 0,
        out: "accepted\n",
        err: "",
    },
    Row {
        elcheck: &["elcheck", "doc", "tax", "inst", "doc"],
        elc: &["elc", "check", "doc", "tax", "inst", "doc"],
        status: 1,
        out: "rejected: C1 at byte 0\n",
        err: "",
    },
    Row {
        elcheck: &["elcheck", "doc", "none", "inst", "cert"],
        elc: &["elc", "check", "doc", "none", "inst", "cert"],
        status: 6,
        out: "",
        err: "cannot read none\n",
    },
    Row {
        elcheck: &["elcheck", "tax", "tax", "inst", "cert", "--max-bytes", "4"],
        elc: &[
            "elc",
            "check",
            "tax",
            "tax",
            "inst",
            "cert",
            "--max-bytes",
            "4",
        ],
        status: 5,
        out: "",
        err: "limit: more than 4 bytes\n",
    },
    Row {
        elcheck: &["elcheck", "doc", "tax", "inst", "cert", "--progress"],
        elc: &["elc", "check", "doc", "tax", "inst", "cert", "--progress"],
        status: 0,
        out: "accepted\n",
        err: "read: bytes 33 axioms 1\nread: taxonomy bytes 164 instances bytes 20\n",
    },
    Row {
        elcheck: &["elcheck", "convert", "doc", "tax", "out"],
        elc: &["elc", "convert", "doc", "tax", "out"],
        status: 1,
        out: "rejected: C1 at byte 0\n",
        err: "",
    },
];

/// Whether both programs end so, on the same files, and write nothing.
fn are_runs<R: AllocGlobal + RandomSource>(rt: &R, row: &Row) -> Result<bool, Fail> {
    let mut files = files_with(rt.alloc(), ONE_DOCUMENT)?;
    put_all(&mut files, ONE, NO_INSTANCES, ONE_CERTIFICATE)?;
    files.lock();
    let received = received(rt, row.elcheck, &mut files)?;
    let run = run_of(rt, row.elc, &mut files)?;
    Ok(
        is_run(&received, row.status, row.out, row.err)
            && is_run(&run, row.status, row.out, row.err),
    )
}

#[test]
fn the_same_as_elc(rt: HostRuntime) -> Result<(), Fail> {
    for row in ROWS {
        assert!(rt; are_runs(&rt, row)?, "{}", row.elcheck.len());
    }
    Ok(())
}

#[test]
fn converted_by_the_receiver(rt: HostRuntime) -> Result<(), Fail> {
    let mut files = files_with(rt.alloc(), ONE_DOCUMENT)?;
    files.put("cert", ONE_CERTIFICATE.as_bytes())?;
    let wanted = changed_to_two(rt.alloc())?;
    let words = &["elcheck", "convert", "doc", "cert", "out", "--format", "2"];
    let run = received(&rt, words.as_slice(), &mut files)?;
    assert!(rt; is_run(&run, 0, "", ""));
    assert!(rt; files.bytes("out") == Some(wanted.as_bytes()));
    Ok(())
}

#[test]
fn words_without_a_task(rt: HostRuntime) -> Result<(), Fail> {
    let mut files = files_with(rt.alloc(), ONE_DOCUMENT)?;
    let run = received(&rt, ["elcheck", "doc"].as_slice(), &mut files)?;
    assert!(rt; run.status == 2 && run.out.is_empty() && run.err.starts_with(b"error:"));
    Ok(())
}
