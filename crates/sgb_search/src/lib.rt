//! Searches: halving and galloping over places, and the searches of a slice that stand on them.
//!
//! Read the definitions in `specs/` first:
//!
//! - `Searching`: what a search among places asks, and a binary or exponential call;
//! - `Search`: what the searches of a slice find;
//! - `Ranges`: where a slice parts, and the range of equal elements.
#![tactic(auto)]

pub mod equal_places;
pub mod gallop;
pub mod laws;
pub mod partition;
pub mod search;
