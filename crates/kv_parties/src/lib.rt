//! What each party promises of its own data, and what the promises of all parties say together.
#![tactic(auto)]

mod laws;

pub use laws::{
    kept_items_begin, numbers_are_few, owes_none, promises_end, promises_join, recovery_joins,
    session_begins, spent_has_cause, stands_once, worker_begins,
};
