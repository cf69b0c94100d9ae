//! What the library asks of elements, keys, closures and places. Each function here calls it over types that have just that. None runs:
//! if the library demanded more, this crate would not compile.
#![tactic(auto)]

pub mod groups;
pub mod iterators;
pub mod searches;
pub mod streams;
pub mod tokens;
