//! Tests of the rings between parties and of the stamp counter, which threads draw from.
#![tactic(auto)]

#[cfg(test)]
mod ring;
#[cfg(test)]
mod stamps;
