//! Exponential groups: galloping from the outermost element to find where a group ends.
#![tactic(auto)]

pub mod exponential_group;
