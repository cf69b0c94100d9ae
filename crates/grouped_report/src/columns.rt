//! The columns of a report.

/// The places of the columns that make the groups, and of those that are added up, among the fields of a row, from zero.
#[derive(Drop)]
pub struct Places {
    pub by: Vec<usize>,
    pub sum: Vec<usize>,
}
