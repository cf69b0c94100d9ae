//! Groups by a key, each with its key.
use slice_group_by::{GroupAdapters, LinearGroupByKey, LinearGroupByKeyMut};
use std::alloc::{AllocError, Global};
use std::io;

/// The groups of rows of one key, each with the key.
pub fn keyed(alloc: Global, rows: &[(u32, u64)]) -> Result<Vec<(u32, &[(u32, u64)])>, AllocError> {
    LinearGroupByKey::new(rows, |row: &(u32, u64)| row.0)
        .with_keys()
        .collect(alloc)
}

/// The mean amount of the rows of each key, with the key.
pub fn means(alloc: Global, rows: &[(u32, u64)]) -> Result<Vec<(u32, u64)>, AllocError> {
    let mut means = Vec::new(alloc);
    for (key, group) in LinearGroupByKey::new(rows, |row: &(u32, u64)| row.0).with_keys() {
        let total = group
            .iter()
            .fold(0u64, |sum, row| sum.saturating_add(row.1));
        means.push((key, total / group.len() as u64))?;
    }
    Ok(means)
}

/// An index of rows that ascend by their keys: each key, the place of its first row, and how many rows it has.
pub fn index_of(
    alloc: Global,
    rows: &[(u32, u64)],
) -> Result<Vec<(u32, usize, usize)>, AllocError> {
    LinearGroupByKey::new(rows, |row: &(u32, u64)| row.0)
        .with_offsets()
        .with_keys()
        .map(|(key, (place, group))| (key, place, group.len()))
        .collect(alloc)
}

/// Writes the hour of each event behind its second: one division a group and a question, and none a row.
pub fn write_hours(events: &mut [(u32, u32)]) {
    for (hour, group) in LinearGroupByKeyMut::new(events, |event| event.0 / 3600).with_keys() {
        for event in group {
            event.1 = hour;
        }
    }
}

/// Prints what these give.
pub fn print_all(rt: &(impl Print + AllocGlobal)) -> io::Result<()> {
    let mut events = [(3599, 0), (3600, 0), (7200, 0), (7201, 0)];
    write_hours(&mut events);
    println!(rt;
        "keys: {:?} {:?} {:?} {events:?}",
        keyed(rt.alloc(), &[(7, 1), (7, 2), (8, 3), (7, 4)])?,
        means(rt.alloc(), &[(7, 1), (7, 3), (8, 5)])?,
        index_of(rt.alloc(), &[(7, 1), (7, 2), (8, 3)])?
    )
}
