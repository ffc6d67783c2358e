//! What is answered.

use crate::condition::Lacking;
use crate::explanation::Explanation;

/// The answer to a question. Names are IRIs without brackets, in byte order.
#[derive(Drop)]
pub enum Answer<'a> {
    /// The names that were asked for.
    Names(Vec<&'a str>),
    /// The classes that were asked for, in groups of those that are the same, which are in the order of their first names.
    Groups(Vec<Vec<&'a str>>),
    /// Whether what was asked of is in the class, and why.
    Why(Explanation),
    /// What what was asked of lacks to be in the class.
    Lacks(Lacking),
}
