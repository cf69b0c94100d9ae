//! Rows of one key in sorted rows.
use slice_group_by::exponential_equal_places_by_key;
use std::io;

/// All rows of the key, and the index at which they begin.
pub fn rows_of(rows: &[(u32, u64)], key: u32) -> (usize, &[(u32, u64)]) {
    let places = exponential_equal_places_by_key(rows, &key, |row| row.0);
    (places.start, &rows[places])
}

/// The rows below the key, those of the key, and those above it.
pub fn around(rows: &[(u32, u64)], key: u32) -> [&[(u32, u64)]; 3] {
    let places = exponential_equal_places_by_key(rows, &key, |row| row.0);
    [
        &rows[..places.start],
        &rows[places.start..places.end],
        &rows[places.end..],
    ]
}

/// Prints what these give.
pub fn print_all(rt: &impl Print) -> io::Result<()> {
    println!(rt;
        "searches: {:?} {:?} {:?}",
        rows_of(&[(1, 5), (2, 6), (2, 7), (4, 8)], 2),
        rows_of(&[(1, 5), (2, 6), (4, 8)], 3),
        around(&[(1, 5), (2, 6), (2, 7), (4, 8)], 2)
    )
}
