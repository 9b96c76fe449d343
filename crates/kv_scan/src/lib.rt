//! Running scans of a worker, which fold an old value before it is overwritten.
#![tactic(auto)]

mod drain;
mod entry;
mod held;
mod laws;
mod refusal;
mod scans;
mod telling;

pub use laws::{
    folds_share, held_is_over, next_key_follows, outlives_quietly, owes_same_map, owes_view,
    pending_is, renews_view, scans_cross_threads,
};
pub use refusal::Refusal;
pub use scans::Scans;
