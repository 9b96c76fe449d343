//! Tests of a worker over a store that was opened: what it answers, its calls of the disk, each of
//! them failing, and what a crash leaves at each moment, opened again.
#![tactic(auto)]

#[cfg(test)]
mod asked;
#[cfg(test)]
mod cases;
#[cfg(test)]
mod drawn;
#[cfg(test)]
mod faults;
#[cfg(test)]
mod opened;
#[cfg(test)]
mod past;
#[cfg(test)]
mod plain;
#[cfg(test)]
mod refused;
#[cfg(test)]
mod rows;
#[cfg(test)]
mod run;
#[cfg(test)]
mod slots;
#[cfg(test)]
mod stops;
#[cfg(test)]
mod store;
#[cfg(test)]
mod told;
#[cfg(test)]
mod torn;
