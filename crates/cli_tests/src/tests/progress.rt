//! Runs that tell their progress.

use super::*;

/// It has 44 bytes and one axiom, and as many facts as the first of the hierarchies.
const DOCUMENT: &str = "Prefix(:=<x:>) Ontology(SubClassOf(:A :A) )\n";

const TELLING: &[&str] = &[
    "elc",
    "classify",
    "doc",
    "tax",
    "inst",
    "cert",
    "--progress",
];

const TELLING_CHECK: &[&str] = &["elc", "check", "doc", "tax", "inst", "cert", "--progress"];

/// How many line feeds the text has.
fn line_feeds(text: &[u8]) -> usize {
    let mut lines: usize = 0;
    for byte in text {
        if *byte == b'\n' {
            lines = lines.saturating_add(1);
        }
    }
    lines
}

#[test]
fn a_classification_tells_its_stages(rt: HostRuntime) -> Result<(), Fail> {
    let document = DOCUMENT.as_bytes();
    let (run, texts) = written_by(&rt, TELLING, document)?;
    let taxonomy = texts.taxonomy.len();
    let certificate = texts.certificate.len();
    let lines = line_feeds(&texts.certificate);
    let told = format!(in rt.alloc();
        "read: bytes 44 axioms 1\ndrawn: facts 5 pending 0\nmade: certificate lines {lines} bytes {certificate}\nwritten: taxonomy bytes {taxonomy} certificate bytes {certificate}\n"
    )?;
    assert!(rt;
        is_run(
            &run,
            0,
            "consistent classes 3 individuals 0 facts 5\n",
            told.as_str()
        )
    );
    Ok(())
}

#[test]
fn what_is_written_is_that_without_progress(rt: HostRuntime) -> Result<(), Fail> {
    let document = DOCUMENT.as_bytes();
    let telling = texts_by(&rt, TELLING, document)?;
    let (run, texts) = written_by(&rt, CLASSIFY, document)?;
    assert!(rt; run.err.is_empty());
    assert!(rt; are_same(&texts, &telling));
    Ok(())
}

#[test]
fn a_check_tells_what_it_read(rt: HostRuntime) -> Result<(), Fail> {
    let mut files = files_with(rt.alloc(), DOCUMENT.as_bytes())?;
    let _ = run_of(&rt, CLASSIFY, &mut files)?;
    let run = run_of(&rt, TELLING_CHECK, &mut files)?;
    let texts = texts_in(rt.alloc(), &files)?;
    let taxonomy = texts.taxonomy.len();
    let instances = texts.instances.len();
    let told = format!(in rt.alloc();
        "read: bytes 44 axioms 1\nread: taxonomy bytes {taxonomy} instances bytes {instances}\n"
    )?;
    assert!(rt; is_run(&run, 0, "accepted\n", told.as_str()));
    Ok(())
}

const TELLING_SESSION: &[&str] = &["elc", "session", "doc", "--progress"];

/// A run, one of which nothing is left, and a question.
const ASKED: &str = "run\nrun\nsupers x:A\n";

const REPLIED: &str = "ok 19
facts 5
consistent
ok 19
facts 5
consistent
ok 44
<http://www.w3.org/2002/07/owl#Thing>
<x:A>
";

#[test]
fn a_session_tells_how_far_its_runs_are(rt: HostRuntime) -> Result<(), Fail> {
    let mut files = files_with(rt.alloc(), DOCUMENT.as_bytes())?;
    files.put("/dev/stdin", ASKED.as_bytes())?;
    let run = run_of(&rt, TELLING_SESSION, &mut files)?;
    let told = "read: bytes 44 axioms 1\ndrawn: facts 5 pending 0\ndrawn: facts 5 pending 0\n";
    assert!(rt; is_run(&run, 0, REPLIED, told));
    Ok(())
}
