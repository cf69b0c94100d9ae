//! Linear groups: one scan along the neighbouring pairs.
#![tactic(auto)]

pub mod best;
pub mod linear_group;
mod scan;
