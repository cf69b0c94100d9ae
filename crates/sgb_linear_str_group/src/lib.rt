//! Groups of a text by one scan over its neighbouring characters, or over its bytes where these tell the same.
#![tactic(auto)]

pub mod by_equality;
pub mod by_key;
pub mod by_predicate;
mod copies;
mod scan;
pub mod text_groups;
pub mod text_groups_mut;
pub mod text_judge;
