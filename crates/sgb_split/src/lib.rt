//! The base of the library: what the groups are, and what decides whether two elements belong together.
//!
//! Read the definitions in `specs/` first:
//!
//! - `Split`: what the groups are, and a list from an end;
//! - `Judges`: what a list of questions does to the state of a judge, and what judges answer;
//! - `Calls`: what a call gives of a list;
//! - `Questions`, `Linear`: what a call asks, and a linear one;
//! - `Seams`: the split of a list that comes in parts.
#![tactic(auto)]

pub mod end;
pub mod judge;
pub mod laws;
