//! What a slice ends as, while parts of it are handed out to be written. Nothing here takes a byte.
//!
//! A function that takes a `&mut [T]` apart and hands the parts out cannot say what the slice is in the end: that is known
//! only when the parts have been given up. `Loans` keeps for contracts which parts are out, `Ended` what a part was when it
//! was given up, and `resolve` and `resolve_and_return` turn what they say into a plain fact about the slice.
#![tactic(auto)]

pub mod loans;
pub mod resolve;
