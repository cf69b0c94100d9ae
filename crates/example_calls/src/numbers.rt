//! Groups of equal numbers, found by vectors.
use slice_group_simd::{Lanes, LinearNumberGroup};
use std::io;

/// How long the longest run of equal numbers is, of bytes or of any other type of numbers.
pub fn longest_equal<T: Lanes>(numbers: &[T]) -> usize {
    LinearNumberGroup::new(numbers).fold(0, |longest, run| longest.max(run.len()))
}

/// Prints what it gives.
pub fn print_all(rt: &impl Print) -> io::Result<()> {
    println!(rt;
        "numbers: {} {}",
        longest_equal(&[2u8, 1, 2, 2, 2, 3]),
        longest_equal(&[0.5f64, 2.5, 2.5])
    )
}
