//! Rows and their normal forms, as text.

use crate::printing::push_forms;
use crate::rows::forms_of;
use std::alloc::{AllocError, Global};
use std::hash::RandomState;

/// The forms of a row, or that it has none.
fn push_row(
    alloc: Global,
    state: RandomState,
    text: &mut String,
    row: &str,
) -> Result<(), AllocError> {
    text.push_str(row)?;
    text.push_str("\n")?;
    match forms_of(alloc, state, row) {
        Some(normal) => push_forms(alloc, text, &normal),
        None => text.push_str("none\n"),
    }
}

/// What is printed for these rows.
pub(crate) fn listed(alloc: Global, state: RandomState, rows: &str) -> Result<String, AllocError> {
    let mut text = String::new(alloc);
    for row in rows.lines() {
        push_row(alloc, state, &mut text, row)?;
    }
    Ok(text)
}
