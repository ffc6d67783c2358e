//! What runs stand on, and what they are asked for.

use command_line::{Conversion, Paths};
use profile::Limits;
use std::alloc::Global;
use std::hash::RandomState;

/// What gives a run its memory, and the seed of its maps.
#[derive(Clone, Copy)]
pub struct Means {
    pub alloc: Global,
    pub state: RandomState,
}

/// How the document at a path is read: by these means, and within these limits.
#[derive(Clone, Copy)]
pub struct Reading<'a> {
    pub means: Means,
    pub path: &'a str,
    pub limits: Limits,
}

/// A check of the texts of a document in files.
#[derive(Clone, Copy)]
pub struct CheckRun<'a> {
    pub means: Means,
    pub paths: Paths<'a>,
    pub limits: Limits,
    /// Whether it tells how far it is.
    pub progress: bool,
}

/// A certificate in a file that is written again.
#[derive(Clone, Copy)]
pub struct ConversionRun<'a> {
    pub means: Means,
    pub conversion: Conversion<'a>,
    pub limits: Limits,
}
