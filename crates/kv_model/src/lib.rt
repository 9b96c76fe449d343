//! Definitions that the store is proved against, and the plain program that answers by them.
#![tactic(auto)]

mod batch;
mod class;
mod found;
mod image;
mod item;
mod lasts;
mod latest;
mod laws;
mod lookup;
mod oracle;
mod page;
mod range;
mod slot;
mod stored;
mod write;

pub use image::PlainImage;
pub use item::{Item, ItemList};
pub use laws::{
    acknowledged_writes_read_as_all, answers_agree_with_one_map, classes_are_least,
    failed_answers_agree_with_one_map, failed_writes_are_unsure, groups_hold_requests,
    items_are_one, kept_items_are_given, layouts_rise, net_has_one_write_per_key, net_reads_as_all,
    old_or_new_is_a_prefix, old_or_new_reads_as_all, one_answer, one_grouping, prefixes_stay,
    refusals_agree_with_one_map, refusals_are_silent, stamps_follow_requests, stamps_rise,
    store_follows_history, told_answers_agree_with_one_map,
};
pub use oracle::Oracle;
pub use stored::Stored;
