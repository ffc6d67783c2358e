//! Tests of what a saturation is made of: sets, lists of forms and facts, and closures of properties.
#![tactic(auto)]

#[cfg(test)]
mod apart_lists;
#[cfg(test)]
mod form_lists;
#[cfg(test)]
mod forms;
#[cfg(test)]
mod listed_copies;
#[cfg(test)]
mod numbers;
#[cfg(test)]
mod owned_facts;
#[cfg(test)]
mod properties;
#[cfg(test)]
mod sets;
#[cfg(test)]
mod shared_lists;
#[cfg(test)]
mod stored_facts;
#[cfg(test)]
mod taken_out;
