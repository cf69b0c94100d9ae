//! The rows over linear groups.
ghost use Rattle.std.specs.Prelude.{◌<ℤ◌};

use crate::lines::{differs, read, write_answers, write_groups};
use slice_group_by::{End, GroupBy, LinearGroup, LinearGroupByKeyMut, rank_groups, walk};
use std::cell::Cell;
use std::io::{Error, Write};

type Group = Option<&'static [i32]>;

const ROW_1: [Group; 4] = [Some(&[1, 1, 1]), Some(&[3, 3]), Some(&[2, 2, 2]), None];

/// Groups by a key, which is called twice a question.
pub fn row_1<W: Write>(out: &mut W) -> Result<bool, Error> {
    let slice: &[i32] = &[1, 1, 1, 3, 3, 2, 2, 2];
    let mut calls = 0usize;
    let mut groups = slice.linear_group_by_key(|x| {
        calls = calls.wrapping_add(1);
        x.wrapping_neg()
    });
    let answers = [groups.next(), groups.next(), groups.next(), groups.next()];
    write_groups(out, 1, &answers, &ROW_1, calls == 14)
}

const ROW_2: [Group; 5] = [
    Some(&[1, 1, 1]),
    Some(&[2, 2, 2]),
    Some(&[3, 3]),
    None,
    None,
];

/// Equal groups of a slice, from both ends.
pub fn row_2<W: Write>(out: &mut W) -> Result<bool, Error> {
    let slice = [1, 1, 1, 3, 3, 2, 2, 2];
    let mut groups = LinearGroup::new(&slice);
    let ends = [End::Front, End::Back, End::Front, End::Back, End::Front];
    let mut answers: [Option<&[i32]>; 5] = [None; 5];
    walk(&mut groups, &ends, &mut answers);
    write_groups(out, 2, &answers, &ROW_2, true)
}

const ROW_3: [Group; 3] = [Some(&[1, 2, 3]), Some(&[2, 3]), None];

/// Groups by a predicate that is not symmetric: three questions for the first, one for the second.
pub fn row_3<W: Write>(out: &mut W) -> Result<bool, Error> {
    let slice: &[i32] = &[1, 2, 3, 2, 3];
    let questions = Cell::new(0usize);
    let mut groups = slice.linear_group_by(|a, b| {
        questions.set(questions.get().wrapping_add(1));
        a < b
    });
    let first = groups.next();
    let for_first = questions.get();
    let second = groups.next();
    let for_both = questions.get();
    let answers = [first, second, groups.next()];
    let counted = for_first == 3 && for_both == 4 && questions.get() == 4;
    write_groups(out, 3, &answers, &ROW_3, counted)
}

const ROW_13: [Group; 3] = [Some(&[7, 8]), Some(&[9, 10]), None];

/// A predicate that refuses its second question alone.
pub fn row_13<W: Write>(out: &mut W) -> Result<bool, Error> {
    let slice: &[i32] = &[7, 8, 9, 10];
    let mut questions = 0usize;
    let mut groups = slice.linear_group_by(|_a, _b| {
        questions = questions.wrapping_add(1);
        questions != 2
    });
    let answers = [groups.next(), groups.next(), groups.next()];
    write_groups(out, 13, &answers, &ROW_13, questions == 3)
}

const RANKS: [usize; 6] = [0, 0, 1, 1, 1, 2];

const ROW_14: [Group; 5] = [
    Some(&[1]),
    Some(&[2, 4]),
    Some(&[5, 7]),
    Some(&[8, 8]),
    None,
];

/// The ranks of a slice, which are written group by group, and groups for writing by a key.
pub fn row_14<W: Write>(out: &mut W) -> Result<bool, Error> {
    let mut ranks = [5usize, 5, 7, 7, 7, 2];
    rank_groups(&mut ranks);
    let mut slice = [1, 2, 4, 5, 7, 8, 8];
    let mut groups = LinearGroupByKeyMut::new(&mut slice, |i| i % 2);
    let answers = [
        read(groups.next()),
        read(groups.next()),
        read(groups.next()),
        read(groups.next()),
        read(groups.next()),
    ];
    if ranks != RANKS || answers != ROW_14 {
        return differs(out, 14);
    }
    write!(out, "row 14: {ranks:?}")?;
    write_answers(out, &answers)?;
    Ok(true)
}

const ROW_17: [Group; 2] = [Some(&[1, 2, 3, 4, 5]), None];

/// A predicate that may be called only where the left element is below the right one, from the back.
pub fn row_17<W: Write>(out: &mut W) -> Result<bool, Error> {
    let slice: &[i32] = &[1, 2, 3, 4, 5];
    let mut questions = 0usize;
    let mut groups = slice.linear_group_by(
        |a: &i32, b: &i32| -> bool
            requires { a.now <ℤ b.now }
        {
            questions = questions.wrapping_add(1);
            true
        },
    );
    let answers = [groups.next_back(), groups.next_back()];
    write_groups(out, 17, &answers, &ROW_17, questions == 4)
}
