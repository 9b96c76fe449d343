//! Tests of running scans by the public calls of kv_scan.
#![tactic(auto)]

#[cfg(test)]
mod desk;
#[cfg(test)]
mod ended;
#[cfg(test)]
mod history;
#[cfg(test)]
mod walks;
