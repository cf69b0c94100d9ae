//! Binary groups: halving what remains to find where a group ends.
#![tactic(auto)]

pub mod binary_group;
