//! The program's commands, from words and bytes to bytes.
#![tactic(auto)]

mod disks;
mod ended;
mod refuse;
mod report;
mod serve;
mod sessions;
mod status;
mod status_text;
mod stores;
mod top;

pub use ended::{Ended, Endings, Refused};
pub use kv_recover::OpenFault;
pub use kv_session::Ending;
pub use kv_words::{Command, WordsFault, read_words};
pub use status_text::status_line;
pub use top::run_words;
