//! Tests of answers: what follows, why and why not, and their texts.
#![tactic(auto)]

#[cfg(test)]
mod asked;
#[cfg(test)]
mod derivations;
#[cfg(test)]
mod documents;
#[cfg(test)]
mod explanations;
#[cfg(test)]
mod generated_parts;
#[cfg(test)]
mod listings;
#[cfg(test)]
mod names;
#[cfg(test)]
mod reached_parts;
#[cfg(test)]
mod texts;
