//! Users of the library who walk: lists of calls and loops over groups of slices and texts, with closures of their own, and
//! slices and texts written through their groups.
#![tactic(auto)]

pub mod capitals;
pub mod closures;
pub mod columns;
pub mod equal_groups;
pub mod families;
pub mod folds;
pub mod keys;
pub mod long_runs;
pub mod loops;
pub mod offsets;
pub mod queries;
pub mod streams;
pub mod texts;
pub mod tokens;
pub mod totals;
pub mod words;
pub mod writers;
