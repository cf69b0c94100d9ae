//! Worked rows: the calls of each, the answers that are wanted, and the questions that may be asked. Each writes its line, or that it
//! differs, and answers whether it gave what is wanted; a fault of the writer ends it.
#![tactic(auto)]

pub mod joins;
pub mod jumps;
pub mod linear;
pub mod lines;
pub mod searches;
pub mod texts;
