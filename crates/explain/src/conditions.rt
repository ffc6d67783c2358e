//! The conditions of the closure by which births are told apart here, by their numbers.

/// A context lies in owl:Thing, and in itself.
pub(crate) const OF_CONTEXT: u8 = 1;

/// A form of two classes.
pub(crate) const BY_INCLUSION: u8 = 4;

/// An edge to what lies in a class, or a domain.
pub(crate) const BY_EDGE: u8 = 7;

/// A reflexive property.
pub(crate) const BY_LOOP: u8 = 10;

/// Two individuals differ and are one.
pub(crate) const BY_DIFFERENT: u8 = 12;

/// Two classes have nothing in common.
pub(crate) const BY_DISJOINT: u8 = 14;
