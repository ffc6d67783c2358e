//! Tests of sessions: additions, questions, queries, what is refused, and conversations.
#![tactic(auto)]

#[cfg(test)]
mod additions;
#[cfg(test)]
mod axiom_texts;
#[cfg(test)]
mod conditions_asked;
#[cfg(test)]
mod conversations;
#[cfg(test)]
mod documents;
#[cfg(test)]
mod endings;
#[cfg(test)]
mod entailments;
#[cfg(test)]
mod individuals;
#[cfg(test)]
mod inferences;
#[cfg(test)]
mod queries;
#[cfg(test)]
mod questions_asked;
#[cfg(test)]
mod refusals;
#[cfg(test)]
mod refused_memory;
#[cfg(test)]
mod session_explanations;
#[cfg(test)]
mod sessions;
#[cfg(test)]
mod short_texts;
#[cfg(test)]
mod talking;
#[cfg(test)]
mod types;
