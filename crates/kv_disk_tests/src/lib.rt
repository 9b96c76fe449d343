//! Tests of the disk, the page cache, the site, the slots and the B-tree: what they answer where
//! memory is there, and files of the system.
#![tactic(auto)]

#[cfg(test)]
mod cache;
#[cfg(test)]
mod disk;
#[cfg(test)]
mod site;
#[cfg(test)]
mod slot;
#[cfg(test)]
mod tree;
