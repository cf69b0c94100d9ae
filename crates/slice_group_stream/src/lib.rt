//! Groups of a stream that comes in blocks, any of which may be empty, and whose groups may go on over several.
//!
//! ```
//! let mut stream = StreamGroups::new();
//! let mut parts = stream.parts(&[7, 7, 1]);
//! parts.next(); // Some((true, [7, 7]))
//! parts.next(); // Some((true, [1]))
//! let mut parts = stream.parts(&[1, 4]);
//! parts.next(); // Some((false, [1])): the last group goes on
//! parts.next(); // Some((true, [4]))
//! ```
//!
//! Each block gives its `Parts`: its groups, each with whether a group begins there. They are groups of `slice_group_by`, by
//! `==`, a predicate or a key, or of `slice_group_simd`, by numbers and classes of bytes. The stream keeps the last element, or
//! its key.
//!
//! For proofs: `laws` has what yours cite.
//!
//! Version 1.1.0.
#![tactic(auto)]

mod asking;
pub mod laws;
mod parts;
mod stream;

pub use parts::Parts;
pub use stream::StreamGroups;
