//! Tests of what stands at the edge: devices, files, limits and the words of the command line.
#![tactic(auto)]

#[cfg(test)]
mod devices;
#[cfg(test)]
mod files;
#[cfg(test)]
mod limits;
#[cfg(test)]
mod receiver_words;
#[cfg(test)]
mod words;
