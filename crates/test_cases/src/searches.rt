//! Searches, plans of questions and merge joins, case by case.
use slice_group_by::Plan::{Answer, Ask};
use slice_group_by::{
    MergeJoin, Plan, exponential_search, exponential_search_by, is_sorted_for_groups, refute,
};
use std::alloc::{AllocError, Global};

#[test]
fn short_slices(rt: HostRuntime) {
    for (sought, wanted) in [(0, Err(0)), (1, Ok(0)), (2, Err(1))] {
        assert!(rt; exponential_search(&[1], &sought) == wanted);
    }
    for (sought, wanted) in [(0, Ok(0)), (1, Ok(1)), (2, Ok(2)), (3, Ok(3)), (4, Err(4))] {
        assert!(rt; exponential_search(&[0, 1, 2, 3], &sought) == wanted);
    }
}

#[test]
fn slice_that_is_not_sorted(rt: HostRuntime) {
    assert!(rt; matches!(exponential_search(&[3, 1, 2], &2), Ok(2) | Err(0)));
}

// A search of 13 among these, and the places that it asks about first.
fn asks_places() -> (Result<usize, usize>, [usize; 4]) {
    const NUMBERS: [i32; 13] = [0, 1, 1, 1, 1, 2, 3, 5, 8, 13, 21, 34, 55];
    let mut slice = [(0usize, 0); 13];
    for (place, number) in NUMBERS.iter().enumerate() {
        slice[place] = (place, *number);
    }
    let mut places = [0usize; 4];
    let mut questions = 0usize;
    let found = exponential_search_by(&slice, |x: &(usize, i32)| {
        if questions < 4 {
            places[questions] = x.0;
        }
        questions = questions.wrapping_add(1);
        x.1.cmp(&13)
    });
    (found, places)
}

// It gallops over places 1, 2, 4 and 8.
#[test]
fn places_of_a_search(rt: HostRuntime) {
    assert_eq!(rt; asks_places(), (Ok(9), [1, 2, 4, 8]));
}

#[test]
fn sorted_slices(rt: HostRuntime) {
    let none: [i32; 0] = [];
    assert!(rt; is_sorted_for_groups(&[1, 1, 2]) && is_sorted_for_groups(&none));
    assert!(rt; !is_sorted_for_groups(&[1, 2, 1]) && !is_sorted_for_groups(&[2, 1]));
}

fn ask(alloc: Global, place: usize, yes: Plan, no: Plan) -> Result<Plan, AllocError> {
    let yes = Box::new(alloc, yes)?;
    let no = Box::new(alloc, no)?;
    Ok(Ask(place, yes, no))
}

fn scanning(alloc: Global) -> Result<Plan, AllocError> {
    let plan = ask(alloc, 3, Answer(4), Answer(3))?;
    let plan = ask(alloc, 2, plan, Answer(2))?;
    ask(alloc, 1, plan, Answer(1))
}

fn last_place_first(alloc: Global) -> Result<Plan, AllocError> {
    let plan = ask(alloc, 2, Answer(3), Answer(2))?;
    let plan = ask(alloc, 1, plan, Answer(1))?;
    ask(alloc, 3, Answer(4), plan)
}

fn halving(alloc: Global) -> Result<Plan, AllocError> {
    let upper = ask(alloc, 3, Answer(4), Answer(3))?;
    let lower = ask(alloc, 1, Answer(2), Answer(1))?;
    ask(alloc, 2, upper, lower)
}

// Where plans for up to four elements are refuted.
fn refuted(alloc: Global) -> Result<[usize; 4], AllocError> {
    let short = ask(alloc, 1, Answer(2), Answer(1))?;
    let plans = [
        scanning(alloc)?,
        last_place_first(alloc)?,
        short,
        halving(alloc)?,
    ];
    Ok([
        refute(&plans[0], 4),
        refute(&plans[1], 4),
        refute(&plans[2], 4),
        refute(&plans[3], 4),
    ])
}

#[test]
fn plans_are_refuted(rt: HostRuntime) -> Result<(), AllocError> {
    assert_eq!(rt; refute(&Answer(1), 1), 1);
    assert!(rt; matches!(refuted(rt.alloc())?, [2..=4, 1..=3, 3..=4, 1..=4]));
    Ok(())
}

type Pair = Option<(&'static [i32], &'static [i32])>;

fn itself(x: &i32) -> i32 {
    *x
}

// The first three answers, each element being its own key.
fn three_pairs(left: &'static [i32], right: &'static [i32]) -> [Pair; 3] {
    let mut pairs = MergeJoin::new(left, itself, right, itself);
    [pairs.next(), pairs.next(), pairs.next()]
}

#[test]
fn joins(rt: HostRuntime) {
    assert!(rt; three_pairs(&[], &[1]) == [None, None, None]);
    assert!(rt; three_pairs(&[1], &[]) == [None, None, None]);
    let twos: Pair = Some((&[2], &[2]));
    assert!(rt; three_pairs(&[1, 2], &[2, 3]) == [twos, None, None]);
    let ones: Pair = Some((&[1, 1], &[1]));
    assert!(rt; three_pairs(&[1, 1], &[1]) == [ones, None, None]);
}

// The first two pairs, by the first number of a left element and by the right element.
fn two_pairs<'a>(
    left: &'a [(i32, i32)],
    right: &'a [i32],
) -> [Option<(&'a [(i32, i32)], &'a [i32])>; 2] {
    let mut pairs = MergeJoin::new(left, |x| x.0, right, itself);
    [pairs.next(), pairs.next()]
}

#[test]
fn join_of_different_types(rt: HostRuntime) {
    let left = [(1, 7), (1, 8), (3, 9)];
    let right = [3, 3, 5];
    assert!(rt; two_pairs(&left, &right) == [Some((&left[2..], &right[..2])), None]);
}
