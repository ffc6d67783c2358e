//! A finite interpretation of an ontology's names.
ghost use Rattle.std.specs.Prelude.{◌≡◌, ◌<◌, ◌↔◌, IfOk, IfErr, IsOk, OnOk, if◌then◌else◌, ◌==◌, length, slice_get, option_map, option_and_then, false, ◌-◌};
ghost use Rattle.interpretation_spec.specs.declared.fault.InterpretationFault.TheVariants as faults;
ghost use Rattle.interpretation_spec.specs.Members.{has_elements};
ghost use Rattle.interpretation_spec.specs.NumberedInterpretation.{IsNumberedInterpretation, element_of, empty_interpretation, members_of, targets_of, with_individual, with_member, with_pair};
ghost use Rattle.number_sets.specs.Members.{has};
ghost use Rattle.std.specs.List.{filter, range_with_len};
ghost use Rattle.interpretation_spec.specs.Refusals.{class_refusal, pair_refusal};

use crate::class_rows::ClassRows;
use crate::fault::InterpretationFault;
use crate::pairs::{put_target, targets_in, without_pairs};
use axioms::{ClassId, IndId, Memory, Ontology, PropId};
use number_sets::Row;
use std::alloc::Global;
use std::collections::BTreeMap;
use std::marker::Model;

/// A set of elements for each class of an ontology, a set of pairs of elements for each property, an element for each
/// individual (OWL 2 Direct Semantics, section 2.2, with a finite domain). The elements are the numbers below `size`.
pub struct Interpretation {
    pub(crate) alloc: Global,
    pub(crate) size: usize,
    pub(crate) classes: ClassRows,
    // the targets of each source, ascending, by property
    pub(crate) pairs: Vec<BTreeMap<usize, Vec<usize>>>,
    pub(crate) individuals: Vec<usize>,
}

// A value is let go by one call, where each way out would else let each field go.
impl Drop for Interpretation {
    fn drop(self) {
        let Interpretation {
            alloc: _,
            size: _,
            classes: _,
            pairs: _,
            individuals: _,
        } = self;
    }
}

impl Model for Interpretation {
    ghost use Rattle.interpretation_spec.specs.NumberedInterpretation.{NumberedInterpretation};

    ghost Value = { NumberedInterpretation };

    ghost use Rattle.interpretation_spec.specs.NumberedInterpretation.{IsNumberedInterpretation};
    ghost use Rattle.interpretation_spec.specs.Fields.{kept_interpretation};

    ghost view = { kept_interpretation };

    ghost invariant = { λ i. IsNumberedInterpretation (kept_interpretation i) };
}

impl Interpretation {
    /// All properties and all classes but `owl:Thing` are empty, each individual is element 0.
    pub fn new(
        alloc: Global,
        ontology: &Ontology,
        size: usize,
    ) -> Result<Interpretation, InterpretationFault>
        ensures made { IfOk result (λ i. (0 < size) × (i ≡ empty_interpretation ontology.now.names size)) }
        ensures refused { IfErr result (λ e. e ≡ (if size == 0 then faults.EmptyDomain else faults.Memory)) }
    {
        if size == 0 {
            return Err(InterpretationFault::EmptyDomain);
        }
        // Owl:Thing is among its classes.
        ontology.well_formed();
        Ok(Interpretation {
            alloc,
            size,
            classes: ClassRows::new(alloc, ontology.classes().len(), size)?,
            pairs: without_pairs(alloc, ontology.properties().len())?,
            individuals: vec![in alloc; 0; ontology.individuals().len()]?,
        })
    }

    /// How many elements there are.
    pub fn size(&self) -> usize
        ensures value { result ≡ self.now.size }
        // Every interpretation is well formed.
        ensures valid { IsNumberedInterpretation self.now }
    {
        self.size
    }

    /// Every interpretation is well formed: it has elements, all of them in `owl:Thing`, none in `owl:Nothing`. This runs nothing.
    pub fn well_formed(&self)
        ensures { IsNumberedInterpretation self.now }
    {
        let _ = &self.alloc;
    }

    /// The elements of the class: all of `owl:Thing`, none of `owl:Nothing`. `None` where there is no such class.
    pub fn holders(&self, class: ClassId) -> Option<&Row>
        ensures { option_map (λ row. row.now) result ≡ slice_get self.now.classes class.0 }
    {
        self.classes.get(class.index())
    }

    /// The numbers of the classes but `owl:Thing` that have elements, ascending. Of each other class only its place is looked at.
    ///
    /// # Errors
    ///
    /// `Memory` where memory was refused.
    pub fn classes_with_elements(&self, alloc: Global) -> Result<Vec<usize>, Memory>
        ensures { IfOk result
            (λ v. v.items ≡ filter (has_elements self.now) (range_with_len 1 (length self.now.classes - 1))) }
    {
        self.classes.with_elements(alloc)
    }

    /// The element of the individual. `None` where there is no such individual.
    pub fn element(&self, individual: IndId) -> Option<usize>
        ensures { result ≡ slice_get self.now.individuals individual.0 }
    {
        self.individuals.get(individual.0 as usize).copied()
    }

    /// Whether the element is in the class: not where there is no such class or element.
    pub fn is_member(&self, class: ClassId, element: usize) -> bool
        ensures { result ≡ has (members_of self.now class.0) element }
    {
        match self.holders(class) {
            Some(row) => row.contains(element),
            None => false,
        }
    }

    /// The element of the individual, and the first one where there is no such individual.
    pub fn element_at(&self, individual: IndId) -> usize
        ensures value { result ≡ element_of self.now individual.0 }
        ensures inside { result < self.now.size }
    {
        match self.individuals.get(individual.index()) {
            Some(element) => *element,
            None => 0,
        }
    }

    /// The elements that the property joins `source` to, ascending: none where there is no such property or element.
    pub fn targets_at(&self, property: PropId, source: usize) -> &[usize]
        ensures { result.now ≡ targets_of self.now property.0 source }
    {
        match self.targets(property, source) {
            Some(targets) => targets,
            None => &[],
        }
    }

    /// The elements that the property joins `source` to, ascending. `None` where there is no such property or element.
    pub fn targets(&self, property: PropId, source: usize) -> Option<&[usize]>
        ensures { option_map (λ targets. targets.now) result
            ≡ option_and_then (λ sources. slice_get sources source) (slice_get self.now.pairs property.0) }
    {
        let pairs = self.pairs.get(property.0 as usize)?;
        if source >= self.size {
            return None;
        }
        Some(targets_in(pairs, source))
    }

    /// The individual is the element.
    pub fn put_individual(
        &mut self,
        individual: IndId,
        element: usize,
    ) -> Result<(), InterpretationFault>
        ensures taken { IsOk result ↔ ((individual.0 < length self.old.individuals) × (element < self.old.size)) }
        ensures after { OnOk result (self.new ≡ with_individual self.old individual.0 element) }
        ensures refused { IfErr result (λ e. (e ≡ faults.OutOfDomain) × (self.new ≡ self.old)) }
    {
        if individual.0 as usize >= self.individuals.len() || element >= self.size {
            return Err(InterpretationFault::OutOfDomain);
        }
        self.individuals[individual.0 as usize] = element;
        Ok(())
    }

    /// The element is in the class. Memory is asked for where the class has no element yet.
    pub fn put_class(&mut self, class: ClassId, element: usize) -> Result<(), InterpretationFault>
        ensures taken { OnOk result ((1 < class.0) × (class.0 < length self.old.classes) × (element < self.old.size)) }
        ensures after { OnOk result (self.new ≡ with_member self.old class.0 element) }
        ensures refused { IfErr result (λ e. (self.new ≡ self.old) × (e ≡ class_refusal self.old class.0 element)) }
        ensures asked { IfErr result (λ e. e ≡ faults.Memory → has_elements self.old class.0 ≡ false) }
    {
        if class.index() >= self.classes.len() || element >= self.size {
            return Err(InterpretationFault::OutOfDomain);
        }
        if class.0 <= ClassId::NOTHING.0 {
            return Err(InterpretationFault::FixedClass);
        }
        self.classes.put(self.alloc, class.index(), element)?;
        Ok(())
    }

    /// The property joins `source` to `target`.
    pub fn put_pair(
        &mut self,
        property: PropId,
        source: usize,
        target: usize,
    ) -> Result<(), InterpretationFault>
        ensures taken { OnOk result ((property.0 < length self.old.pairs) × (source < self.old.size) × (target < self.old.size)) }
        ensures after { OnOk result (self.new ≡ with_pair self.old property.0 source target) }
        ensures refused { IfErr result (λ e. (self.new ≡ self.old) × (e ≡ pair_refusal self.old property.0 source target)) }
    {
        if property.0 as usize >= self.pairs.len() || source >= self.size || target >= self.size {
            return Err(InterpretationFault::OutOfDomain);
        }
        put_target(
            self.alloc,
            &mut self.pairs[property.0 as usize],
            source,
            target,
        )?;
        Ok(())
    }
}
