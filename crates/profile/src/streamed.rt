//! Reading a text without all its trees at once.
ghost use Rattle.profile.specs.Documents.{IsTaken, OpensAs};
ghost use Rattle.profile.specs.Faults.{Refuses};
ghost use Rattle.profile.specs.Streams.{AllTaken, IsAnswerTo};
ghost use Rattle.std.specs.Prelude.{IfErr, IfOk, IfSome};

use crate::acceptance::Refusal;
use crate::fault::DocumentFault;
use crate::ontology_reader::OntologyReader;
use crate::opened::Opened;
use axioms::Ontology;
use fs_parser::TreeReader;
use program::Version;
use std::alloc::Global;
use std::hash::RandomState;

/// Takes all trees that are left, each of which goes before the next one is read.
fn take_all(trees: &mut TreeReader<'_>, reader: &mut OntologyReader) -> Option<()>
    ensures { IfSome result (λ _. AllTaken trees.old reader.old reader.new) }
{
    loop {
        match trees.next() {
            Ok(Some(tree)) => {
                let taken = reader.take(&tree);
                drop(tree);
                match taken {
                    Ok(()) => {}
                    Err(_) => return None,
                }
            }
            Ok(None) => return Some(()),
            Err(_) => return None,
        }
    }
}

/// The ontology that the trees that are left state, or why they state none.
fn answer_to(
    alloc: Global,
    trees: &mut TreeReader<'_>,
    version: Version,
    state: RandomState,
) -> Option<Result<Ontology, Refusal>>
    ensures { IfSome result (IsAnswerTo version trees.old) }
{
    let mut reader = match OntologyReader::start(alloc, version, state) {
        Ok(reader) => reader,
        Err(_) => return None,
    };
    match take_all(trees, &mut reader) {
        Some(()) => Some(reader.finish()),
        None => {
            drop(reader);
            None
        }
    }
}

/// What a text reads as, or the faults of its trees. None where it is no document, and where memory was refused.
pub(crate) fn streamed(
    alloc: Global,
    text: &str,
    version: Version,
    state: RandomState,
) -> Option<Result<Opened, DocumentFault>>
    ensures read { IfSome result (λ r. IfOk r (OpensAs version text.now)) }
    ensures taken { IfSome result (λ r. IfOk r (λ d. IsTaken d.ontology)) }
    ensures refused { IfSome result (λ r. IfErr r (λ e. Refuses version e text.now)) }
{
    let mut trees = TreeReader::start(alloc, text)?;
    let prefixes = match trees.prefixes(alloc) {
        Ok(prefixes) => prefixes,
        Err(_) => return None,
    };
    let answer = answer_to(alloc, &mut trees, version, state);
    drop(trees);
    match answer? {
        Ok(ontology) => {
            ontology.well_formed();
            Some(Ok(Opened {
                ontology,
                prefixes,
                version,
                bytes: text.len(),
            }))
        }
        Err(refusal) => Some(Err(DocumentFault::from(refusal))),
    }
}
