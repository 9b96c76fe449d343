//! What stands in a slot and on the head page: read from the bytes of a page, and written into
//! them.
#![tactic(auto)]

mod address;
mod class;
mod head;
mod header;
mod large;
mod laws;
mod numbers;
mod overwrite;
mod small;
mod tombstone;

pub use address::spot;
pub use class::class_of;
pub use head::{HeadRead, put_head, read_head};
pub use large::{Large, PageList, put_large, read_first, read_large};
pub use laws::{large_slots_read_again, slots_read_again, slots_stay_in_place};
pub use small::{Slot, put_fitting, put_item, read_fitting, read_slot};
pub use tombstone::{link_of, page_stamp, put_tombstone};
