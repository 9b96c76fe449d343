//! Where a command takes its disks and its ends from: the trait, one that stands in memory, and one
//! over real files.
#![tactic(auto)]

mod ends;
mod entries;
mod entry;
mod fault;
mod file_disk;
mod file_pages;
mod file_site;
mod folder;
mod memory_site;
mod page_file;
mod page_io;
mod site;
mod take_counter;

pub use ends::{Input, Output};
pub use fault::TakeFault;
pub use file_disk::FileDisk;
pub use file_pages::FilePages;
pub use file_site::FileSite;
pub use memory_site::MemSite;
pub use page_file::PageFile;
pub use site::Site;
