//! Tests of the texts and of the checker.
#![tactic(auto)]

#[cfg(test)]
mod certificates;
#[cfg(test)]
mod checks;
#[cfg(test)]
mod documents;
#[cfg(test)]
mod groups;
#[cfg(test)]
mod narrowed_listings;
#[cfg(test)]
mod relations;
#[cfg(test)]
mod sources;
#[cfg(test)]
mod taxonomies;
