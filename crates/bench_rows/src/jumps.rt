//! The rows of binary and exponential groups.
use crate::lines::{differs, read, write_groups};
use slice_group_by::{
    BinaryGroup, BinaryGroupBy, End, ExponentialGroup, ExponentialGroupBy, ExponentialGroupByMut,
    GroupBy, GroupByMut, walk,
};
use std::cell::Cell;
use std::io::{Error, Write};

type Group = Option<&'static [i32]>;

/// Nothing, from both ends.
pub fn row_4<W: Write>(out: &mut W) -> Result<bool, Error> {
    let slice: [i32; 0] = [];
    let mut groups = BinaryGroup::new(&slice);
    let mut answers: [Option<&[i32]>; 2] = [None; 2];
    walk(&mut groups, &[End::Back, End::Front], &mut answers);
    write_groups(out, 4, &answers, &[None, None], true)
}

const ROW_5: [Group; 3] = [Some(&[1]), None, None];

/// One element, from both ends: a second iterator, whose questions are counted, gives the same and asks nothing.
pub fn row_5<W: Write>(out: &mut W) -> Result<bool, Error> {
    let slice = [1];
    let ends = [End::Back, End::Back, End::Front];
    let mut answers: [Option<&[i32]>; 3] = [None; 3];
    walk(&mut ExponentialGroup::new(&slice), &ends, &mut answers);
    let mut questions = 0usize;
    let mut counting = ExponentialGroupBy::new(&slice, |a, b| {
        questions = questions.wrapping_add(1);
        a == b
    });
    let mut others: [Option<&[i32]>; 3] = [None; 3];
    walk(&mut counting, &ends, &mut others);
    let counted = others == ROW_5 && questions == 0;
    write_groups(out, 5, &answers, &ROW_5, counted)
}

const ROW_6: [Group; 5] = [
    Some(&[1, 1, 1]),
    Some(&[3, 3]),
    Some(&[2, 2, 2]),
    None,
    None,
];

// The most questions of each call of row 6.
const MOST: [usize; 5] = [3, 3, 2, 0, 0];

/// Groups of a sorted slice by halving, from both ends.
pub fn row_6<W: Write>(out: &mut W) -> Result<bool, Error> {
    let slice = [1, 1, 1, 2, 2, 2, 3, 3];
    let ends = [End::Front, End::Back, End::Front, End::Back, End::Front];
    let mut answers: [Option<&[i32]>; 5] = [None; 5];
    walk(&mut BinaryGroup::new(&slice), &ends, &mut answers);
    let questions = Cell::new(0usize);
    let mut counting = BinaryGroupBy::new(&slice, |a, b| {
        questions.set(questions.get().wrapping_add(1));
        a == b
    });
    let mut counted = true;
    for (i, end) in ends.iter().enumerate() {
        questions.set(0);
        let group = match end {
            End::Front => counting.next(),
            End::Back => counting.next_back(),
        };
        counted &= group == ROW_6[i] && questions.get() <= MOST[i];
    }
    write_groups(out, 6, &answers, &ROW_6, counted)
}

const ROW_7: [Group; 4] = [Some(&[3, 3]), Some(&[2, 2, 2]), Some(&[1, 1, 1]), None];

fn four_in_reverse<'a>(slice: &'a mut &mut [i32]) -> [Option<&'a [i32]>; 4] {
    let mut groups = slice.exponential_group_by_mut(|a, b| a == b).rev();
    [
        read(groups.next()),
        read(groups.next()),
        read(groups.next()),
        read(groups.next()),
    ]
}

/// Groups of a sorted slice for writing by galloping, in reverse: at most five questions a call. They are counted on a
/// second iterator, from the back.
pub fn row_7<W: Write>(out: &mut W) -> Result<bool, Error> {
    let mut slice: &mut [i32] = &mut [1, 1, 1, 2, 2, 2, 3, 3];
    let answers = four_in_reverse(&mut slice);
    let mut other = [1, 1, 1, 2, 2, 2, 3, 3];
    let questions = Cell::new(0usize);
    let mut counting = ExponentialGroupByMut::new(&mut other, |a, b| {
        questions.set(questions.get().wrapping_add(1));
        a == b
    });
    let mut counted = true;
    for wanted in &ROW_7 {
        questions.set(0);
        let group = read(counting.next_back());
        counted &= group == *wanted && questions.get() <= 5;
    }
    write_groups(out, 7, &answers, &ROW_7, counted)
}

// Whether the first group ends at a local boundary.
fn is_local() -> bool {
    let slice = [1, 2, 1];
    matches!(BinaryGroup::new(&slice).next(), Some([1] | [1, 2, 1]))
}

/// A slice that is not grouped: the group ends at a local boundary.
pub fn row_11<W: Write>(out: &mut W) -> Result<bool, Error> {
    if !is_local() {
        return differs(out, 11);
    }
    writeln!(out, "row 11: boundary")?;
    Ok(true)
}

// How many units remain before a call, how many its group has, and whether another gives one.
fn units() -> (usize, usize, bool) {
    const UNITS: &[()] = &[(), (), (), (), ()];
    let mut groups = UNITS.binary_group_by(|a, b| a == b);
    let remaining = groups.remainder_len();
    let len = groups.next().map_or(0, |group| group.len());
    (remaining, len, groups.next().is_some())
}

/// Elements that take no bytes.
pub fn row_12<W: Write>(out: &mut W) -> Result<bool, Error> {
    let (remaining, len, goes_on) = units();
    if remaining != 5 || len != 5 || goes_on {
        return differs(out, 12);
    }
    writeln!(out, "row 12: {remaining} {len} None")?;
    Ok(true)
}

// The group at the back, and how many questions it costs.
fn counted_last<'a>(slice: &'a &[i32]) -> ([Option<&'a [i32]>; 1], usize) {
    let mut questions = 0usize;
    let mut groups = slice.exponential_group_by(|a, b| {
        questions = questions.wrapping_add(1);
        a == b
    });
    let last = [groups.next_back()];
    (last, questions)
}

/// A short group after a long one, from the back: galloping from its own end asks little.
pub fn row_18<W: Write>(out: &mut W) -> Result<bool, Error> {
    let mut array = [0; 1001];
    array[1000] = 1;
    let slice: &[i32] = &array;
    let (last, questions) = counted_last(&slice);
    write_groups(out, 18, &last, &[Some(&[1])], questions <= 3)
}
