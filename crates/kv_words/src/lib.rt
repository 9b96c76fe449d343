//! The words of the program's commands.
#![tactic(auto)]

mod said;
mod sessions;
mod words;

pub use sessions::{Ends, Sessions};
pub use words::{Command, WordsFault, read_words};
