//! Tests of names and meaning: hashers, sets of numbered members, ontologies and interpretations.
#![tactic(auto)]

#[cfg(test)]
mod hashers;
#[cfg(test)]
mod interpretations;
#[cfg(test)]
mod lengths;
#[cfg(test)]
mod ontologies;
#[cfg(test)]
mod sets;
