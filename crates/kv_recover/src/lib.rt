//! Opening a disk: what is kept on it is found, and every other slot is freed.
#![tactic(auto)]

mod entries;
mod fault;
mod find;
mod free;
mod free_large;
mod head;
mod items;
mod kind;
mod large;
mod listing;
mod open;
mod opening;
mod read;
mod reading;
mod see;
mod share;
mod surveying;
mod value;

pub use entries::{Kept, KeptList};
pub use fault::OpenFault;
pub use kind::{ClassCount, Classes, Survey};
pub use listing::kept;
pub use opening::{Opened, open_store};
pub use surveying::survey;
pub use value::read_value;
