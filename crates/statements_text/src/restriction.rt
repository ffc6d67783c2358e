//! What of a document is of the profile, as a document.
ghost use Rattle.fs_parser.specs.View.{tree_of, trees_of};
ghost use Rattle.shapes.specs.View.{fault_of, faults_of};
ghost use Rattle.statements_text.specs.Restricting.{IsBegun, IsWhole, IsWholeOf, KeepsTree, TakesAll, TakesTree};
ghost use Rattle.statements_text.specs.Restrictions.{AreRestricted, IsNotRestricted, report_text};
ghost use Rattle.std.specs.Prelude.{◌≡◌, ◌++◌, ◌-◌, ◌<◌, ◌^◌, ℕ, IfErr, IfOk, IfSome, List, OnOk, codes, map, string_bytes};

use crate::tree_text::write_tree_line;
use axioms::Memory;
use fs_parser::{Tree, TreeReader};
use profile::{DocumentFault, OntologyReader, Version, listed_document};
use shapes::{Fault, Place, part_faults};
use std::alloc::{AllocError, Global};
use std::hash::RandomState;
use std::str;

/// What of a document is of the profile.
#[derive(Drop)]
pub struct Restriction {
    /// The text of the statements without faults: a document, too.
    pub text: Vec<u8>,
    /// A line for each fault of the document, in the order of the text, and one of how many statements are kept and how many trees
    /// with faults are left out.
    pub report: String,
}

/// What was made of the trees of a document so far.
#[derive(Drop)]
struct Restricting {
    alloc: Global,
    version: Version,
    state: RandomState,
    /// Where the next tree stands.
    place: Place,
    /// All faults, in the order of the text.
    faults: Vec<Fault>,
    /// A line for each tree that is kept.
    lines: Vec<u8>,
    /// The ontology of those that are kept.
    reader: OntologyReader,
    kept: usize,
    left_out: usize,
}

impl Restricting {
    /// Before the first tree.
    fn start(alloc: Global, version: Version, state: RandomState) -> Result<Restricting, Memory>
        ensures { IfOk result (λ r. IsBegun version r) }
    {
        let reader = OntologyReader::start(alloc, version, state)?;
        Ok(Restricting {
            alloc,
            version,
            state,
            place: Place::first(),
            faults: Vec::new(alloc),
            lines: Vec::new(alloc),
            reader,
            kept: 0,
            left_out: 0,
        })
    }

    /// Keeps the tree.
    fn keep(&mut self, tree: &Tree<'_>) -> Result<(), Memory>
        requires { self.old.kept < 2 ^ 64 - 1 }
        ensures kept { OnOk result (KeepsTree (tree_of tree.now) self.old self.new) }
    {
        self.reader.take(tree)?;
        write_tree_line(&mut self.lines, tree)?;
        self.kept += 1;
        Ok(())
    }

    /// Takes the next tree: keeps it where it has no fault and states something.
    fn take(&mut self, tree: &Tree<'_>) -> Result<(), Memory>
        requires kept { self.old.kept < 2 ^ 64 - 1 }
        requires left_out { self.old.left_out < 2 ^ 64 - 1 }
        ensures { OnOk result (TakesTree (tree_of tree.now) self.old self.new) }
    {
        let before = self.faults.len();
        let (place, statement) = part_faults(
            self.alloc,
            &mut self.faults,
            self.place,
            tree,
            self.version,
            self.state,
        )?;
        self.place = place;
        if self.faults.len() > before {
            self.left_out += 1;
            return Ok(());
        }
        if statement.is_some() {
            self.keep(tree)?;
        }
        Ok(())
    }
}

/// What is made of all the trees of a document.
fn taken(
    alloc: Global,
    trees: &[Tree<'_>],
    version: Version,
    state: RandomState,
) -> Result<Restricting, Memory>
    ensures { IfOk result (IsWhole version (trees_of trees.now)) }
{
    let mut restricting = Restricting::start(alloc, version, state)?;
    for tree in trees {
        restricting.take(tree)?;
    }
    Ok(restricting)
}

/// What is made of the document that the text is, by the list of its trees.
fn listed(
    alloc: Global,
    text: &str,
    version: Version,
    state: RandomState,
) -> Result<Restricting, DocumentFault>
    ensures whole { IfOk result (IsWholeOf version text.now) }
    ensures refused { IfErr result (λ e. IsNotRestricted version e text.now) }
{
    let document = match listed_document(alloc, text) {
        Ok(document) => document,
        Err(fault) => return Err(fault),
    };
    match taken(alloc, &document.trees, version, state) {
        Ok(made) => Ok(made),
        Err(_) => Err(DocumentFault::Memory),
    }
}

/// Takes all trees that are left, each of which goes before the next one is read.
fn take_all(trees: &mut TreeReader<'_>, restricting: &mut Restricting) -> Option<()>
    requires { IsBegun restricting.old.version restricting.old }
    ensures { IfSome result (λ _. TakesAll restricting.old.version trees.old restricting.new) }
{
    loop {
        match trees.next() {
            Ok(Some(tree)) => {
                let taken = restricting.take(&tree);
                drop(tree);
                match taken {
                    Ok(()) => {}
                    Err(_) => return None,
                }
            }
            Ok(None) => return Some(()),
            Err(_) => return None,
        }
    }
}

/// What is made of the document that the text is. None where it is no document, and where memory was refused.
fn streamed(alloc: Global, text: &str, version: Version, state: RandomState) -> Option<Restricting>
    ensures { IfSome result (IsWholeOf version text.now) }
{
    let mut trees = TreeReader::start(alloc, text)?;
    let Ok(mut made) = Restricting::start(alloc, version, state) else {
        return None;
    };
    take_all(&mut trees, &mut made)?;
    Some(made)
}

/// A line for each fault, and one of the counts.
fn report_of(
    alloc: Global,
    faults: &[Fault],
    kept: usize,
    left_out: usize,
) -> Result<String, AllocError>
    ensures { IfOk result (λ s. string_bytes s ≡ report_text (map fault_of faults.now) kept left_out) }
{
    let mut report = String::new(alloc);
    for fault in faults {
        let line = format!(in alloc; "{fault}\n")?;
        report.push_str(&line)?;
    }
    let counts = format!(in alloc; "kept {kept} left out {left_out}\n")?;
    report.push_str(&counts)?;
    Ok(report)
}

/// The text of what is kept: a document of these lines.
fn text_of(alloc: Global, lines: &[u8]) -> Result<Vec<u8>, AllocError>
    ensures { IfOk result (λ v. v.items ≡ codes "Ontology(\n" ++ (lines.now ++ codes ")\n")) }
{
    let mut out = Vec::new(alloc);
    out.extend_from_slice(b"Ontology(\n")?;
    out.extend_from_slice(lines)?;
    out.extend_from_slice(b")\n")?;
    Ok(out)
}

/// The text of what is kept, and the report.
fn written(
    alloc: Global,
    lines: &[u8],
    faults: &[Fault],
    kept: usize,
    left_out: usize,
) -> Result<Restriction, AllocError>
    ensures text { IfOk result (λ r. r.text.items ≡ codes "Ontology(\n" ++ (lines.now ++ codes ")\n")) }
    ensures report { IfOk result (λ r. string_bytes r.report ≡ report_text (faults_of faults.now) kept left_out) }
{
    let text = text_of(alloc, lines)?;
    let report = report_of(alloc, faults, kept, left_out)?;
    Ok(Restriction { text, report })
}

/// What of a document is of the profile, by what was made of all its trees; or why what is kept of it states no ontology. The ontology
/// is let go before the text is made.
fn restriction_of(alloc: Global, made: Restricting) -> Result<Restriction, DocumentFault>
    ensures restricted { IfOk result (λ r. (version : Version) (bytes : List ℕ) → IsWholeOf version bytes made → AreRestricted version bytes r) }
    ensures refused { IfErr result (λ e. (version : Version) (bytes : List ℕ) → IsWholeOf version bytes made → IsNotRestricted version e bytes) }
{
    let Restricting {
        reader,
        lines,
        faults,
        kept,
        left_out,
        ..
    } = made;
    match reader.finish() {
        Ok(ontology) => ontology.well_formed(),
        Err(refusal) => return Err(DocumentFault::from(refusal)),
    }
    match written(alloc, &lines, &faults, kept, left_out) {
        Ok(restriction) => Ok(restriction),
        Err(_) => Err(DocumentFault::Memory),
    }
}

/// What of the document that the text is is of the profile. Its trees are read one by one; the lists of all tokens and of all
/// trees are made only where it is no document, for the fault.
fn restricted_text(
    alloc: Global,
    text: &str,
    version: Version,
    state: RandomState,
) -> Result<Restriction, DocumentFault>
    ensures restricted { IfOk result (AreRestricted version text.now) }
    ensures refused { IfErr result (λ e. IsNotRestricted version e text.now) }
{
    if let Some(made) = streamed(alloc, text, version, state) {
        return restriction_of(alloc, made);
    }
    match listed(alloc, text, version, state) {
        Ok(made) => restriction_of(alloc, made),
        Err(fault) => Err(fault),
    }
}

/// What of the document whose text the bytes are is of the profile, in this version.
///
/// # Errors
///
/// `NotUtf8`, `Lex` or `Parse` where the bytes are no document; `TooManyNames` where what is kept of it has of a kind more than
/// 1,000,000 names; `Memory` where memory was refused before the answer was there. Faults of the document are no error.
pub fn restricted(
    alloc: Global,
    bytes: &[u8],
    version: Version,
    state: RandomState,
) -> Result<Restriction, DocumentFault>
    ensures restricted { IfOk result (AreRestricted version bytes.now) }
    ensures refused { IfErr result (λ e. IsNotRestricted version e bytes.now) }
{
    match str::from_utf8(bytes) {
        Ok(text) => restricted_text(alloc, text, version, state),
        Err(error) => Err(DocumentFault::NotUtf8 {
            at: error.valid_up_to(),
        }),
    }
}
