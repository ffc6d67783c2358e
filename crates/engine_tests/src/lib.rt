//! Tests of the engine: the facts of whole ontologies, what is asked of them, and classifications.
#![tactic(auto)]

#[cfg(test)]
mod asked;
#[cfg(test)]
mod classifications;
#[cfg(test)]
mod classified_individuals;
#[cfg(test)]
mod extended;
#[cfg(test)]
mod found;
#[cfg(test)]
mod ontologies;
#[cfg(test)]
mod paths;
