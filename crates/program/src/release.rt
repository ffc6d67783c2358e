//! The version of the program.

/// The version of the program, as it tells it.
pub const VERSION: &str = "0.9.0";
