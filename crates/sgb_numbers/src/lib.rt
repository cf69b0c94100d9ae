//! Numbers compared by vectors, sixteen at a time, and the judge of equal numbers.
#![tactic(auto)]

pub mod lanes;
pub mod masks;
pub mod number_judge;
pub mod scans;
mod signed;
