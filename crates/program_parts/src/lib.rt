//! What the programs share: what their `main` does, their files, the blocks of a stream, the records of a table and what is kept of
//! them, rows as they are written, and complaints.
#![tactic(auto)]

pub mod app;
pub mod block;
pub mod blocks;
pub mod columns;
pub mod failure;
pub mod input;
pub mod layout;
pub mod numbers;
pub mod omitted;
pub mod records;
pub mod row;
pub mod rows;
pub mod shown;
pub mod table;
pub mod table_options;
