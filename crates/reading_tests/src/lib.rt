//! Tests of reading: tokens, trees, keywords, documents of the profile and their faults.
#![tactic(auto)]

#[cfg(test)]
mod additions;
#[cfg(test)]
mod deep_documents;
#[cfg(test)]
mod documents;
#[cfg(test)]
mod faults;
#[cfg(test)]
mod growth;
#[cfg(test)]
mod keywords;
#[cfg(test)]
mod lexer;
#[cfg(test)]
mod one_by_one;
#[cfg(test)]
mod parser;
#[cfg(test)]
mod parts;
#[cfg(test)]
mod restrictions;
#[cfg(test)]
mod sources;
#[cfg(test)]
mod stream;
#[cfg(test)]
mod tables;
#[cfg(test)]
mod tree_texts;
