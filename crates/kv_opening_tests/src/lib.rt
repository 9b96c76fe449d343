//! Tests of a disk that is opened, surveyed and reported: disks byte by byte, and drawn ones beside
//! the plain reader.
#![tactic(auto)]

#[cfg(test)]
mod beside;
#[cfg(test)]
mod disks;
#[cfg(test)]
mod drawn;
#[cfg(test)]
mod links;
#[cfg(test)]
mod newest;
#[cfg(test)]
mod pieces;
#[cfg(test)]
mod refused;
#[cfg(test)]
mod reports;
#[cfg(test)]
mod rows;
