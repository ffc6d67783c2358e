//! Lemmas on lists, bools and options, which two crates or more cite. There is no code.
#![tactic(auto)]
