//! Users of joins by a comparator: how many parts there are, how many elements are equal, and what has no partner.
#![tactic(auto)]

pub mod alone;
pub mod as_of;
pub mod compaction;
pub mod kinds;
pub mod logs;
pub mod merged;
pub mod names;
pub mod parts;
pub mod sets;
pub mod visits;
pub mod whole;
