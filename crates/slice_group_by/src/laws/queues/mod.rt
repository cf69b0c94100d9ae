//! The types of this library as queues of groups.
pub mod slices;
pub mod texts;
