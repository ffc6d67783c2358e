//! Tests of the commands over files in memory.
#![tactic(auto)]

#[cfg(test)]
mod tests;
