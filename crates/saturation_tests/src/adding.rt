//! Adding to a state.

use axioms::{IndId, Memory};
use facts::Context;
use normal_forms::{ApartLists, FormList};
use saturate::State;
use std::alloc::{AllocError, Global};
use work_list::WorkList;

/// Adds forms behind those of the state, lists of what is apart behind its lists, and contexts.
pub(crate) fn add_with_lists<W: WorkList>(
    state: &mut State<W>,
    alloc: Global,
    forms: &FormList,
    apart: &ApartLists,
    roots: &[Context],
) -> Result<(), Memory> {
    let from = state.normal().len();
    let all = state.normal().joined(forms.copy()?)?;
    let lists = state.apart().joined(alloc, apart)?;
    state.extend(&all, from, &lists, roots)
}

/// Adds forms behind those of the state, and contexts.
pub(crate) fn add<W: WorkList>(
    state: &mut State<W>,
    alloc: Global,
    forms: &FormList,
    roots: &[Context],
) -> Result<(), Memory> {
    add_with_lists(state, alloc, forms, &ApartLists::new(alloc), roots)
}

/// Adds lists of what is apart behind those of the state.
pub(crate) fn add_lists<W: WorkList>(
    state: &mut State<W>,
    alloc: Global,
    apart: &ApartLists,
) -> Result<(), Memory> {
    add_with_lists(state, alloc, &FormList::new(alloc), apart, &[])
}

/// These lists of individuals of which each two differ.
pub(crate) fn different(alloc: Global, lists: &[&[IndId]]) -> Result<ApartLists, AllocError> {
    let mut apart = ApartLists::new(alloc);
    for list in lists {
        apart.individuals.push_list(*list)?;
    }
    Ok(apart)
}
