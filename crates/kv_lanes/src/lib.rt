//! Tests and sums over bytes, many at a time, equal to their plain definitions at every length.
#![tactic(auto)]

mod equal;
mod total;
mod zero;

pub use equal::same;
pub use total::sum_bytes;
pub use zero::is_zero;
