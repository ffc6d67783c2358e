//! Listed interpretations.
ghost use Rattle.certificate.specs.View.{targets_in};
ghost use Rattle.std.specs.Prelude.{◌≡◌, ◌++◌, ◌∷◌, [], IfOk, OnErr, OnOk};

use axioms::{ExprId, PropId};
use std::alloc::{AllocError, Global};
use std::slice;

/// How many elements the runs of a listing may be written out to, all together. Where they have more, `Memory` is answered before room
/// for these is asked for. Format 1 writes each element out, so its rows have no such bound.
pub const MOST_ELEMENTS: usize = 268_435_456;

/// A class other than owl:Thing and owl:Nothing that is not empty, with its elements, ascending.
#[derive(Debug, PartialEq, Eq, Drop)]
pub struct ClassRow {
    pub class: ExprId,
    pub elements: Vec<u32>,
}

/// The elements that an element leads to by a property. In many rows there is one: it takes no memory of its own.
#[derive(Debug, PartialEq, Eq, Drop)]
pub enum Targets {
    One(u32),
    /// None, or two and more.
    Many(Vec<u32>),
}

impl Targets {
    /// These elements, in order. Fails where memory is refused; one element needs none.
    pub fn from_slice(alloc: Global, elements: &[u32]) -> Result<Self, AllocError>
        ensures { IfOk result (λ targets. targets_in targets ≡ elements.now) }
    {
        match elements {
            [element] => Ok(Targets::One(*element)),
            _ => Ok(Targets::Many(Vec::from_slice(alloc, elements)?)),
        }
    }

    /// The elements in order.
    pub fn as_slice(&self) -> &[u32]
        ensures { result.now ≡ targets_in self.now }
    {
        match self {
            Targets::One(element) => slice::from_ref(element),
            Targets::Many(elements) => elements.as_slice(),
        }
    }

    /// Adds the element at the end. Fails where memory is refused; then they are what they were.
    pub fn push(&mut self, alloc: Global, element: u32) -> Result<(), AllocError>
        ensures ok { OnOk result (targets_in self.new ≡ targets_in self.old ++ element ∷ []) }
        ensures err { OnErr result (targets_in self.new ≡ targets_in self.old) }
    {
        match self {
            Targets::One(first) => {
                let elements = vec![in alloc; *first, element]?;
                *self = Targets::Many(elements);
            }
            Targets::Many(elements) => elements.push(element)?,
        }
        Ok(())
    }
}

/// The elements, ascending, that an element leads to by a property; there is at least one.
#[derive(Debug, PartialEq, Eq, Drop)]
pub struct PairRow {
    pub property: PropId,
    pub source: u32,
    pub targets: Targets,
}

/// An element that is said to be in the class and in no more classes than it must.
#[derive(Clone, Copy, Debug, PartialEq, Eq)]
pub struct Claim {
    pub class: ExprId,
    pub element: u32,
}

/// An interpretation by its members: the elements are the numbers below `domain`.
#[derive(Debug, PartialEq, Eq)]
pub struct Listed {
    pub domain: u32,
    /// Ascending by class.
    pub classes: Vec<ClassRow>,
    /// Ascending by property and then by source.
    pub pairs: Vec<PairRow>,
    /// The element of each individual, by the individual's number.
    pub individuals: Vec<u32>,
    /// Ascending by class.
    pub claims: Vec<Claim>,
}

// A value is let go by one call, where each way out would else let each field go.
impl Drop for Listed {
    fn drop(self) {
        let Listed {
            domain: _,
            classes: _,
            pairs: _,
            individuals: _,
            claims: _,
        } = self;
    }
}
