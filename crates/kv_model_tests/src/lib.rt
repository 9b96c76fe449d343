//! Tests of the lower crates, a module for each of them, and the worked examples of the definitions.
#![tactic(auto)]

#[cfg(test)]
mod base;
#[cfg(test)]
mod fold;
#[cfg(test)]
mod frames;
#[cfg(test)]
mod images;
#[cfg(test)]
mod model;
#[cfg(test)]
mod words;
