//! Sessions over files in memory, into which they write their texts.

use super::*;

pub(super) const SESSION: &[&str] = &["elc", "session", "doc"];

/// Files of which one holds the document, and one what is asked.
pub(super) fn files_asked(alloc: Global, asked: &str) -> Result<MemoryFiles, Memory> {
    let mut files = files_with(alloc, ONE_DOCUMENT)?;
    files.put("/dev/stdin", asked.as_bytes())?;
    Ok(files)
}

/// Texts are asked for before the run, and behind it, and what is inferred.
const ASKED: &str = "write tax inst cert
infer out
run
write tax inst cert
infer out
";

const REPLIED: &str = "no 2 19
not run to its end
no 2 19
not run to its end
ok 19
facts 8
consistent
ok 43
consistent classes 4 individuals 0 facts 8
ok 43
consistent classes 4 individuals 0 facts 8
";

/// What is inferred of the document.
const INFERRED: &[u8] =
    b"Ontology(\nDeclaration(Class(<x:A>))\nDeclaration(Class(<x:B>))\nSubClassOf(<x:A> <x:B>)\n)\n";

/// What a session over files replies to what is asked, and the texts that it wrote, where it wrote what is inferred, too.
fn spoken<R: AllocGlobal + RandomSource>(rt: &R, asked: &str) -> Result<(Run, Texts), Fail> {
    let mut files = files_asked(rt.alloc(), asked)?;
    let run = run_of(rt, SESSION, &mut files)?;
    if files.bytes("out") != Some(INFERRED) {
        return Err(Fail::from("other inferred axioms"));
    }
    let texts = texts_in(rt.alloc(), &files)?;
    Ok((run, texts))
}

#[test]
fn a_session_writes_what_a_classification_does(rt: HostRuntime) -> Result<(), Fail> {
    let others = texts_by(&rt, CLASSIFY, ONE_DOCUMENT)?;
    let (run, texts) = spoken(&rt, ASKED)?;
    assert!(rt; is_run(&run, 0, REPLIED, ""));
    assert!(rt; are_texts(&texts, ONE, NO_INSTANCES));
    assert!(rt; are_same(&texts, &others));
    Ok(())
}

/// An axiom is added, and texts are written twice, once to files in another order.
const ASKED_ADDED: &str = "run
add 23
SubClassOf(<x:B> <x:C>)
write tax inst cert
run
write a b c
write inst cert tax
write tax inst cert
";

const REPLIED_ADDED: &str = "ok 19
facts 8
consistent
ok 0
no 2 19
not run to its end
ok 20
facts 12
consistent
ok 44
consistent classes 5 individuals 0 facts 12
ok 44
consistent classes 5 individuals 0 facts 12
ok 44
consistent classes 5 individuals 0 facts 12
";

/// The document with what is added.
const WHOLE: &[u8] = b"Ontology(SubClassOf(<x:A> <x:B>) SubClassOf(<x:B> <x:C>))";

const TWO: &str =
    "eltax 1 consistent\n<http://www.w3.org/2002/07/owl#Thing>\n<x:A> < <x:B>\n<x:B> < <x:C>\n<x:C> < <http://www.w3.org/2002/07/owl#Thing>\nbottom <http://www.w3.org/2002/07/owl#Nothing>\n";

/// Whether the files hold the texts of all that was added, twice each.
fn hold_all(files: &MemoryFiles) -> bool {
    hold_texts(files, TWO, NO_INSTANCES)
        && files.bytes("a") == Some(TWO.as_bytes())
        && files.bytes("c").is_some()
        && files.bytes("c") == files.bytes("cert")
}

/// The texts of the session, where its replies and its files are those.
fn all_added<R: AllocGlobal + RandomSource>(rt: &R) -> Result<Texts, Fail> {
    let mut files = files_asked(rt.alloc(), ASKED_ADDED)?;
    let run = run_of(rt, SESSION, &mut files)?;
    if !is_run(&run, 0, REPLIED_ADDED, "") || !hold_all(&files) {
        return Err(Fail::from("other replies or texts"));
    }
    Ok(texts_in(rt.alloc(), &files)?)
}

#[test]
fn texts_are_those_of_all_that_was_added(rt: HostRuntime) -> Result<(), Fail> {
    let texts = all_added(&rt)?;
    let check = check(&rt, WHOLE, &texts)?;
    assert!(rt; is_run(&check, 0, "accepted\n", ""));
    Ok(())
}

/// Texts are asked for in files that can not be written, and the session goes on.
pub(super) const ASKED_UNWRITTEN: &str = "run
write tax inst cert
infer out
status
";

#[test]
fn a_file_that_is_not_written_is_named(rt: HostRuntime) -> Result<(), Fail> {
    let mut files = files_asked(rt.alloc(), ASKED_UNWRITTEN)?;
    files.lock();
    let run = run_of(&rt, SESSION, &mut files)?;
    let texts = texts_in(rt.alloc(), &files)?;
    let told =
        "ok 19\nfacts 8\nconsistent\nno 6 17\ncannot write tax\nno 6 17\ncannot write out\nok 26\nfacts 8 served 8 bytes 33\n";
    assert!(rt; is_run(&run, 0, told, ""));
    assert!(rt; are_same(&texts, &no_texts(rt.alloc())));
    Ok(())
}
