//! Folds over items that are added in any order and in any shares.
#![tactic(auto)]

mod any;
mod first;
mod fold;
mod items;
mod laws;
mod merging;
mod result_bytes;
mod sums;

pub use any::AnyFold;
pub use first::First;
pub use fold::Fold;
pub use laws::{order_is_free, results_are_folds, takes_longest, totals_fit};
pub use sums::{ByteSum, CountItems, ValueLengths};
