//! What there is for each of the keys of a form.

/// One of a kind for each role that a key has to a form.
#[derive(Drop)]
pub(crate) struct ByRole<T> {
    /// By 0 where the form gives a fact from none, 1 where it makes a property reflexive.
    pub kinds: T,
    /// By the class that the form needs alone.
    pub alone: T,
    /// By the first class of an intersection.
    pub first: T,
    /// By its second class.
    pub second: T,
    /// By the class that a restriction needs at the target of an edge.
    pub fillers: T,
    /// By the first property of a chain.
    pub chains: T,
    /// By the second property of a chain.
    pub ends: T,
    /// By the property that the form puts below another, and no chain.
    pub plain: T,
    /// By the first of the individuals that the form makes one.
    pub linked_first: T,
    /// By the second of them.
    pub linked_second: T,
    /// By the source of the pair that the form denies.
    pub denied: T,
}
