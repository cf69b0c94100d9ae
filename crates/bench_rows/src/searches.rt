//! The rows of searches and of plans.
use crate::lines::differs;
use slice_group_by::{
    Plan, exponential_search, exponential_search_by, exponential_search_by_key, refute,
};
use std::io::{Error, Write};

const NUMBERS: [i32; 13] = [0, 1, 1, 1, 1, 2, 3, 5, 8, 13, 21, 34, 55];

const PAIRS: [(i32, i32); 13] = [
    (0, 0),
    (2, 1),
    (4, 1),
    (5, 1),
    (3, 1),
    (1, 2),
    (2, 3),
    (4, 5),
    (5, 8),
    (3, 13),
    (1, 21),
    (2, 34),
    (4, 55),
];

// Where three numbers are, and one in nothing.
fn by_element() -> [Result<usize, usize>; 4] {
    [
        exponential_search(&NUMBERS, &13),
        exponential_search(&NUMBERS, &4),
        exponential_search(&NUMBERS, &100),
        exponential_search(&[], &1),
    ]
}

fn second(pair: &(i32, i32)) -> i32 {
    pair.1
}

// Where pairs of three numbers are.
fn by_key() -> [Result<usize, usize>; 3] {
    [
        exponential_search_by_key(&PAIRS, &13, second),
        exponential_search_by_key(&PAIRS, &4, second),
        exponential_search_by_key(&PAIRS, &100, second),
    ]
}

// Whether one of several is found, both by element and by key.
fn one_of_several_is_found() -> bool {
    matches!(exponential_search(&NUMBERS, &1), Ok(1..=4))
        && matches!(exponential_search_by_key(&PAIRS, &1, second), Ok(1..=4))
}

/// Searches by element, with the questions that a comparator counts, and by key.
pub fn row_8<W: Write>(out: &mut W) -> Result<bool, Error> {
    let (found, keyed) = (by_element(), by_key());
    let counted = count(13) <= 9 && count(4) <= 9 && count(100) <= 9;
    if found != [Ok(9), Err(7), Err(13), Err(0)]
        || keyed != [Ok(9), Err(7), Err(13)]
        || !one_of_several_is_found()
        || !counted
    {
        return differs(out, 8);
    }
    let [a, b, c, d] = found;
    let [e, f, g] = keyed;
    writeln!(
        out,
        "row 8: {a:?} {b:?} {c:?} in 1..=4 {d:?} {e:?} {f:?} {g:?} in 1..=4"
    )?;
    Ok(true)
}

// How many questions the search for a number asks.
fn count(number: i32) -> usize {
    let slice = NUMBERS;
    let mut questions = 0usize;
    let _found = exponential_search_by(&slice, |x| {
        questions = questions.wrapping_add(1);
        x.cmp(&number)
    });
    questions
}

/// A length that refutes a plan which asks nothing.
pub fn row_15<W: Write>(out: &mut W) -> Result<bool, Error> {
    let len = refute(&Plan::Answer(1), 2);
    if len != 2 {
        return differs(out, 15);
    }
    writeln!(out, "row 15: {len}")?;
    Ok(true)
}
