//! Tests of the program's commands over a site in memory: what goes out, what stands on the disks
//! afterwards, how a command ended, and what a stop at each call of a disk leaves, opened again.
#![tactic(auto)]

#[cfg(test)]
mod mesh_rows;
#[cfg(test)]
mod refusal_rows;
#[cfg(test)]
mod report_rows;
#[cfg(test)]
mod reuse_rows;
#[cfg(test)]
mod row_run;
#[cfg(test)]
mod session_rows;
#[cfg(test)]
mod size_rows;
#[cfg(test)]
mod status_rows;
#[cfg(test)]
mod stop_tests;
#[cfg(test)]
mod test_run;
