//! From trees, taken one by one, to an ontology.
ghost use Rattle.axioms.specs.Fronts.{Extends};
ghost use Rattle.fs_parser.specs.View.{tree_of};
ghost use Rattle.profile.specs.Finishing.{IsGrown, IsNotGrown, IsRead, IsRefused};
ghost use Rattle.profile.specs.Operands.{IsFitting};
ghost use Rattle.profile.specs.Intake.{AreStated, AreTaken, AreTakenBehind, of_document, of_growth};
ghost use Rattle.shapes.specs.TreeStatements.{meaning, stated};
ghost use Rattle.std.specs.Prelude.{◌≡◌, ◌∷◌, [], IfErr, IfOk, OnOk, option_map};

use crate::acceptance::Refusal;
use crate::name_builder::NameBuilder;
use crate::statement::add_statement;
use axioms::{BuildFault, Memory, Ontology};
use fs_parser::Tree;
use shapes::{Fault, Place, Statement, Version, part_faults};
use std::alloc::Global;
use std::hash::RandomState;
use std::marker::Model;

/// A reader of a document's trees that keeps none of them: it has their faults, and where they have none the ontology that they
/// state. Or a reader of axioms and declarations, and it has the ontology that has grown by them.
#[derive(Drop)]
pub struct OntologyReader {
    alloc: Global,
    version: Version,
    state: RandomState,
    found: Vec<Fault>,
    place: Place,
    is_full: bool,
    builder: NameBuilder,
}

impl Model for OntologyReader {
    ghost use Rattle.profile.specs.Intake.{Taken, taken};

    ghost Value = { Taken };

    ghost use Rattle.shapes.specs.View.{faults_of};

    ghost view = { λ r. taken r.version (faults_of r.found.items) r.place r.is_full r.builder };
}

/// Adds what is stated, if anything is. Whether of a kind there would be too many names.
fn overflows(
    alloc: Global,
    builder: &mut NameBuilder,
    statement: Option<Statement<'_, '_>>,
) -> Result<bool, Memory>
    requires { IsFitting (option_map stated statement) }
    ensures stated { IfOk result (λ is_full. AreStated builder.old (meaning (option_map stated statement.entry)) is_full builder.new) }
    ensures kept { Extends builder.old builder.new }
{
    builder.well_formed();
    let Some(statement) = statement else {
        return Ok(false);
    };
    match add_statement(alloc, builder, statement) {
        Ok(()) => Ok(false),
        Err(fault) => match fault {
            BuildFault::TooManyNames => Ok(true),
            BuildFault::Memory => Err(Memory),
        },
    }
}

impl OntologyReader {
    /// A reader of a document that has taken no tree. Its tables hash by `state`.
    ///
    /// # Errors
    ///
    /// `Memory` where memory was refused.
    pub fn start(
        alloc: Global,
        version: Version,
        state: RandomState,
    ) -> Result<OntologyReader, Memory>
        ensures { IfOk result (AreTaken (of_document version) []) }
    {
        let builder = NameBuilder::new(alloc, state)?;
        builder.well_formed();
        Ok(OntologyReader {
            alloc,
            version,
            state,
            found: Vec::new(alloc),
            place: Place::first(),
            is_full: false,
            builder,
        })
    }

    /// A reader of axioms and declarations by which the ontology is to grow, and which has taken none.
    pub(crate) fn of_growth(
        alloc: Global,
        ontology: Ontology,
        version: Version,
        state: RandomState,
    ) -> OntologyReader
        ensures none { AreTaken (of_growth version ontology) [] result }
        ensures same { result.ontology ≡ ontology }
    {
        ontology.well_formed();
        OntologyReader {
            alloc,
            version,
            state,
            found: Vec::new(alloc),
            place: Place::Axioms,
            is_full: false,
            builder: NameBuilder::from(alloc, ontology),
        }
    }

    /// Takes the next tree: its faults are found, and what it states is added where none were found so far.
    ///
    /// # Errors
    ///
    /// `Memory` where memory was refused. The reader is of no more use then.
    pub fn take(&mut self, tree: &Tree<'_>) -> Result<(), Memory>
        ensures taken { OnOk result (AreTakenBehind (tree_of tree.now ∷ []) self.old self.new) }
        // Whatever comes of it, what was there stays in front.
        ensures kept { Extends self.old.ontology self.new.ontology }
    {
        let (place, statement) = part_faults(
            self.alloc,
            &mut self.found,
            self.place,
            tree,
            self.version,
            self.state,
        )?;
        self.place = place;
        if !self.found.is_empty() || self.is_full {
            return Ok(());
        }
        self.is_full = overflows(self.alloc, &mut self.builder, statement)?;
        Ok(())
    }

    /// Whether the trees state an ontology, or one has grown by them, and the ontology as far as it came.
    pub(crate) fn end(self) -> (Result<(), Refusal>, Ontology)
        ensures ontology { result.1 ≡ self.ontology }
        ensures read { OnOk result.0 (IsRead self result.1) }
        ensures refused { IfErr result.0 (IsRefused self) }
        ensures added { OnOk result.0 (IsGrown self result.1) }
        ensures not_added { IfErr result.0 (IsNotGrown self) }
    {
        let ontology = self.builder.finish();
        ontology.bounded();
        if !self.found.is_empty() {
            return (Err(Refusal::Faults(self.found)), ontology);
        }
        if self.is_full {
            return (Err(Refusal::TooManyNames), ontology);
        }
        (Ok(()), ontology)
    }

    /// The ontology that the trees state, or the one that has grown by them.
    ///
    /// # Errors
    ///
    /// Every fault of the trees, in the order of the text; `TooManyNames` where they have none, and of a kind more than
    /// 1,000,000 names.
    pub fn finish(self) -> Result<Ontology, Refusal>
        ensures read { IfOk result (IsRead self) }
        ensures refused { IfErr result (IsRefused self) }
        ensures added { IfOk result (IsGrown self) }
        ensures not_added { IfErr result (IsNotGrown self) }
    {
        let (answer, ontology) = self.end();
        match answer {
            Ok(()) => Ok(ontology),
            Err(refusal) => {
                drop(ontology);
                Err(refusal)
            }
        }
    }
}
