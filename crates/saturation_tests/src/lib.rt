//! Tests of saturations: work lists, the index of forms, states as they run and grow, and their facts.
#![tactic(auto)]

#[cfg(test)]
mod adding;
#[cfg(test)]
mod disjoint;
#[cfg(test)]
mod fillers;
#[cfg(test)]
mod growing;
#[cfg(test)]
mod individuals;
#[cfg(test)]
mod intersections;
#[cfg(test)]
mod large;
#[cfg(test)]
mod led;
#[cfg(test)]
mod listed_facts;
#[cfg(test)]
mod listed_forms;
#[cfg(test)]
mod lists;
#[cfg(test)]
mod loops;
#[cfg(test)]
mod many_added;
#[cfg(test)]
mod numbered;
#[cfg(test)]
mod orders;
#[cfg(test)]
mod predicates;
#[cfg(test)]
mod problems;
#[cfg(test)]
mod refused_pushes;
#[cfg(test)]
mod second_premises;
#[cfg(test)]
mod steps;
#[cfg(test)]
mod targets;
#[cfg(test)]
mod two_keys;
