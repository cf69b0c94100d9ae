//! The engines: iterators over the groups of a slice, for reading and for writing, over any judge and any way to find where a
//! group ends. A family of groups is such a way (`Way`), in a crate of its own.
#![tactic(auto)]

pub mod boundary;
mod by_equality;
mod by_key;
mod by_predicate;
pub mod debug;
pub mod groups;
pub mod groups_mut;
pub mod searching;
pub mod shards;
pub mod way;
