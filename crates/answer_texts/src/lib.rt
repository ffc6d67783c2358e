//! The texts of answers for people: derivations and refutations, as lines and as graphs, and conditions for a class.
#![tactic(auto)]

mod answers;
mod axiom;
mod cited;
mod condition;
mod expression;
mod graph_of_proof;
mod graph_of_refutation;
mod labels;
mod looking;
mod names;
mod pairs;
mod proof;
mod reach;
mod refutation;

pub use answers::{
    proof_bytes, proof_graph_bytes, reached_refutation_bytes, reached_refutation_graph_bytes,
    refutation_bytes, refutation_graph_bytes, write_proof,
};
pub use axiom::{axiom_bytes, write_axiom};
pub use cited::cited_bytes;
pub use condition::{push_axiom_number, push_part};
pub use graph_of_proof::push_escaped;
