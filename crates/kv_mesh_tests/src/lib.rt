//! Tests of all parties of a store together: schedules in one thread, threads, and stops.
#![tactic(auto)]

#[cfg(test)]
mod asks;
#[cfg(test)]
mod drawn;
#[cfg(test)]
mod ended;
#[cfg(test)]
mod events;
#[cfg(test)]
mod meeting;
#[cfg(test)]
mod meeting_disk;
#[cfg(test)]
mod meeting_source;
#[cfg(test)]
mod plain;
#[cfg(test)]
mod replies;
#[cfg(test)]
mod rows;
#[cfg(test)]
mod stops;
#[cfg(test)]
mod stores;
#[cfg(test)]
mod threads;
