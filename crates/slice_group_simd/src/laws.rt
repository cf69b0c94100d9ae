//! Laws for the proofs of callers: each is a function that does nothing, and its contract is the law.
pub use crate::class_counts::class_counts_add_up;
