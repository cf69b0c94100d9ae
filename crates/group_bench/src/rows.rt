//! The rows in the order of their numbers.
use bench_rows::joins::row_19;
use bench_rows::jumps::{row_4, row_5, row_6, row_7, row_11, row_12, row_18};
use bench_rows::linear::{row_1, row_2, row_3, row_13, row_14, row_17};
use bench_rows::searches::{row_8, row_15};
use bench_rows::texts::{row_9, row_10, row_16};
use std::io::{Error, Write};

/// Writes a line for each row, in the order of their numbers, and answers whether each gave what is wanted.
///
/// A row that differs is written as such, and the run goes on. A fault of the writer ends the run at once.
pub fn run<W: Write>(out: &mut W) -> Result<bool, Error> {
    let mut same = true;
    same &= row_1(out)?;
    same &= row_2(out)?;
    same &= row_3(out)?;
    same &= row_4(out)?;
    same &= row_5(out)?;
    same &= row_6(out)?;
    same &= row_7(out)?;
    same &= row_8(out)?;
    same &= row_9(out)?;
    same &= row_10(out)?;
    same &= row_11(out)?;
    same &= row_12(out)?;
    same &= row_13(out)?;
    same &= row_14(out)?;
    same &= row_15(out)?;
    same &= row_16(out)?;
    same &= row_17(out)?;
    same &= row_18(out)?;
    same &= row_19(out)?;
    Ok(same)
}
