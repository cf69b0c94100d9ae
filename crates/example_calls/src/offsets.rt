//! Where groups begin and end in their input.
use slice_group_by::{GroupAdapters, LinearGroup, LinearStrGroupByKey, dedup_with_count};
use slice_group_simd::LinearNumberGroup;
use std::alloc::{AllocError, Global};
use std::io;

/// The bytes of a text at which its runs of letters begin and end.
pub fn words(alloc: Global, text: &str) -> Result<Vec<(usize, usize)>, AllocError> {
    let mut spans = Vec::new(alloc);
    for (start, run) in LinearStrGroupByKey::new(text, |c| c.is_ascii_alphabetic()).with_offsets() {
        if run.starts_with(|c: char| c.is_ascii_alphabetic()) {
            spans.push((start, start + run.len()))?;
        }
    }
    Ok(spans)
}

/// How long each run of a slice is, and its number.
pub fn counts(alloc: Global, slice: &[u32]) -> Result<Vec<(usize, &u32)>, AllocError> {
    dedup_with_count(LinearNumberGroup::new(slice)).collect(alloc)
}

/// Each run of keys with the sum of the values beside it, of two columns of one length.
pub fn sums_beside(
    alloc: Global,
    keys: &[u32],
    values: &[u64],
) -> Result<Vec<(u32, u64)>, AllocError> {
    let mut sums = Vec::new(alloc);
    for (start, run) in LinearGroup::new(keys).with_offsets() {
        let beside = values.get(start..start + run.len()).unwrap_or(&[]);
        sums.push((
            run[0],
            beside.iter().fold(0u64, |sum, n| sum.saturating_add(*n)),
        ))?;
    }
    Ok(sums)
}

/// Prints what these give.
pub fn print_all(rt: &(impl Print + AllocGlobal)) -> io::Result<()> {
    let words = words(rt.alloc(), "to be, or é not")?;
    println!(rt;
        "offsets: {words:?} {:?} {:?}",
        counts(rt.alloc(), &[4, 4, 4, 9])?,
        sums_beside(rt.alloc(), &[7, 7, 9], &[1, 2, 3])?
    )
}
