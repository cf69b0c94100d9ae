//! The row of the merge join.
use crate::lines::differs;
use slice_group_by::MergeJoin;
use std::io::{Error, Write};

type Pair = Option<(&'static [i32], &'static [i32])>;

const ROW_19: [Pair; 3] = [Some((&[1, 1], &[1])), Some((&[2], &[2, 2])), None];

const LEFT: &[i32] = &[1, 1, 2, 4];

const RIGHT: &[i32] = &[1, 2, 2, 3];

fn three_pairs() -> [Pair; 3] {
    let mut pairs = MergeJoin::new(LEFT, |x| *x, RIGHT, |y| *y);
    [pairs.next(), pairs.next(), pairs.next()]
}

fn write_pair<W: Write>(out: &mut W, pair: Pair) -> Result<(), Error> {
    match pair {
        Some((group, partner)) => write!(out, " {group:?} {partner:?}"),
        None => write!(out, " None"),
    }
}

/// The pairs of groups of two sorted slices with equal elements.
pub fn row_19<W: Write>(out: &mut W) -> Result<bool, Error> {
    let pairs = three_pairs();
    if pairs != ROW_19 {
        return differs(out, 19);
    }
    write!(out, "row 19:")?;
    for pair in pairs {
        write_pair(out, pair)?;
    }
    writeln!(out)?;
    Ok(true)
}
