//! What parties hand to one another, and the rings between each session and each worker.
#![tactic(auto)]

mod end;
mod ends;
mod laws;
mod left;
mod matrix;
mod message;
mod rings;
mod side;
mod task;
mod turn;

pub use ends::{Ends, SessionEnds, WorkerEnds};
pub use laws::ends_cross_threads;
pub use left::left_between;
pub use matrix::mesh;
pub use message::{Answer, Ask};
pub use side::WorkerSide;
pub use task::{Task, Tasks};
pub use turn::Turn;
