//! What groups and searches are good for, each in a few lines.
use slice_group_by::{
    LinearGroup, LinearGroupBy, exponential_equal_places_by, partition_best_by_key,
};
use slice_merge_join::AsOfJoin;
use std::alloc::{AllocError, Global};
use std::cmp::Ordering;
use std::io;

/// The words that begin so, of words that ascend.
pub fn with_prefix<'a>(words: &'a [&'a str], prefix: &str) -> &'a [&'a str] {
    let places = exponential_equal_places_by(words, |word| {
        if word.starts_with(prefix) {
            Ordering::Equal
        } else {
            word.cmp(&prefix)
        }
    });
    &words[places]
}

/// For each time the last row that is not later, of rows and times that ascend: an as-of join.
pub fn as_of<'a>(
    alloc: Global,
    times: &'a [u64],
    rows: &'a [(u64, u64)],
) -> Result<Vec<Option<&'a (u64, u64)>>, AllocError> {
    let join = AsOfJoin::new(times, rows, |time: &u64, row: &(u64, u64)| time.cmp(&row.0));
    join.map(|(_time, row)| row).collect(alloc)
}

/// The spans that overlap, of spans that ascend by their starts, each as one span from the first start to the greatest
/// end.
pub fn merged(alloc: Global, spans: &[(u64, u64)]) -> Result<Vec<(u64, u64)>, AllocError> {
    let mut end = 0u64;
    let groups = LinearGroupBy::new(spans, |earlier: &(u64, u64), later: &(u64, u64)| {
        end = end.max(earlier.1);
        later.0 <= end
    });
    groups
        .map(|group| {
            (
                group[0].0,
                group.iter().fold(0u64, |end, span| end.max(span.1)),
            )
        })
        .collect(alloc)
}

/// The k longest runs of equal numbers, the longest first.
pub fn longest_runs(alloc: Global, slice: &[u32], k: usize) -> Result<Vec<&[u32]>, AllocError> {
    let mut runs: Vec<&[u32]> = LinearGroup::new(slice).collect(alloc)?;
    runs.sort_by_key(|run| usize::MAX - run.len())?;
    runs.truncate(k);
    Ok(runs)
}

/// Keeps the row with the greatest value of each run of rows with one key.
pub fn keep_greatest(rows: &mut Vec<(u32, u64)>) {
    let len = partition_best_by_key(rows, |row: &(u32, u64)| row.0, |kept, row| kept.1 < row.1);
    rows.truncate(len);
}

/// Prints what these give.
pub fn print_all(rt: &(impl Print + AllocGlobal)) -> io::Result<()> {
    let mut rows = vec![in rt.alloc(); (7, 1), (7, 2), (8, 3), (7, 4)]?;
    keep_greatest(&mut rows);
    println!(rt;
        "recipes: {:?} {:?} {:?} {:?} {rows:?}",
        with_prefix(&["also", "group", "grow", "key"], "gr"),
        as_of(rt.alloc(), &[1, 5, 6, 9], &[(2, 20), (5, 50), (5, 51)])?,
        merged(rt.alloc(), &[(0, 5), (1, 2), (4, 7), (8, 9)])?,
        longest_runs(rt.alloc(), &[3, 3, 5, 8, 8, 8], 2)?
    )
}
