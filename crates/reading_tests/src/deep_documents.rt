//! Documents of deep expressions.

use std::alloc::{AllocError, Global};

/// A document that begins so, with a subclass axiom whose superclass has so many expressions, each inside of the one before it,
/// around the inmost.
pub(crate) fn deep(
    alloc: Global,
    front: &str,
    levels: usize,
    inmost: &str,
) -> Result<String, AllocError> {
    let mut text = String::from_str(alloc, front)?;
    text.push_str("Ontology(SubClassOf(<x:A> ")?;
    for _ in 0..levels {
        text.push_str("ObjectSomeValuesFrom(<x:r> ")?;
    }
    text.push_str(inmost)?;
    for _ in 0..levels {
        text.push_str(")")?;
    }
    text.push_str("))")?;
    Ok(text)
}
