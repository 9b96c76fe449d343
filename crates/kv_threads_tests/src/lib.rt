//! Tests of parties on threads: they hand on, they meet, and their seats are joined.
#![tactic(auto)]

#[cfg(test)]
mod counted;
#[cfg(test)]
mod meeter;
#[cfg(test)]
mod passer;
#[cfg(test)]
mod runs;
