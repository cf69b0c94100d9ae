//! Groups of slices for reading, case by case.
ghost use Rattle.std.specs.Prelude.{◌≤◌};

use crate::calls::{Group, answers, ascend, asks, differ, equal, gives, itself, tens};
use slice_group_by::GroupBy;
use std::alloc::{AllocError, Global};
use std::cell::Cell;

const UNSORTED: &[i32] = &[1, 1, 1, 3, 3, 2, 2, 2];

const SORTED: &[i32] = &[1, 1, 1, 2, 2, 2, 3, 3];

const ASCENDING: &[i32] = &[1, 2, 3];

fn by_tens() -> [Group; 3] {
    const TENS: &[i32] = &[10, 11, 20, 21, 22];
    answers!(TENS.binary_group_by_key(tens); next, next_back, next)
}

// No two elements are equal, so the slice is grouped for `!=`.
#[test]
fn by_closures(rt: HostRuntime) {
    let three: [&[i32]; 3] = [&[1, 1, 1], &[3, 3], &[2, 2, 2]];
    assert!(rt; gives(UNSORTED.linear_group_by(equal), &three));
    assert!(rt; gives(ASCENDING.binary_group_by(differ), &[ASCENDING]));
    let tens: [Group; 3] = [Some(&[10, 11]), Some(&[20, 21, 22]), None];
    assert!(rt; by_tens() == tens);
}

fn binary_ascends() -> [Group; 2] {
    let first = ASCENDING.binary_group_by(ascend).next();
    [first, ASCENDING.binary_group_by(ascend).next_back()]
}

fn linear_ascends() -> [Group; 2] {
    let first = ASCENDING.linear_group_by(ascend).next();
    [first, ASCENDING.linear_group_by(ascend).next_back()]
}

// The slice is not grouped for `<`: the outermost element stands left from both ends, so the ends differ.
#[test]
fn not_grouped_for_less(rt: HostRuntime) {
    let last: Group = Some(&[3]);
    assert!(rt; binary_ascends() == [Some(ASCENDING), last]);
    assert!(rt; linear_ascends() == [Some(ASCENDING), Some(ASCENDING)]);
}

fn shows_each_remainder() -> bool {
    const PAIR_AND_ONE: &[i32] = &[1, 1, 2];
    let mut groups = PAIR_AND_ONE.binary_group_by(equal);
    let hint = groups.size_hint();
    let first = groups.next();
    let between = (groups.size_hint(), groups.remainder(), groups.is_empty());
    let second = groups.next();
    let after = (groups.size_hint(), groups.is_empty());
    hint == (1, Some(3))
        && first == Some(&[1, 1])
        && between == ((1, Some(1)), &[2], false)
        && second == Some(&[2])
        && after == ((0, Some(0)), true)
}

fn shows_the_middle(alloc: Global) -> Result<bool, AllocError> {
    let mut groups = UNSORTED.linear_group_by_key(itself);
    let first = groups.next();
    let last = groups.next_back();
    let len = groups.remainder_len();
    let between = (groups.remainder(), groups.is_empty(), groups.size_hint());
    let text = format!(in alloc; "{groups:?}")?;
    let middle = groups.next();
    let hint = groups.size_hint();
    let after = format!(in alloc; "{groups:?}")?;
    Ok(
        first == Some(&[1, 1, 1])
            && last == Some(&[2, 2, 2])
            && len == 2
            && between == (&[3, 3], false, (1, Some(2)))
            && text.as_str() == "LinearGroupByKey { remainder: [3, 3] }"
            && middle == Some(&[3, 3])
            && hint == (0, Some(0))
            && after.as_str() == "LinearGroupByKey { remainder: [] }",
    )
}

#[test]
fn views_of_the_remainder(rt: HostRuntime) {
    assert!(rt; shows_each_remainder());
    assert!(rt; shows_the_middle(rt.alloc()) == Ok(true));
}

// Yes and no by turns, and how often the predicate was asked.
fn by_turns() -> ([Group; 4], usize) {
    const SIX: &[i32] = &[1, 2, 3, 4, 5, 6];
    let mut questions = 0usize;
    let groups = SIX.linear_group_by(|_a, _b| {
        questions = questions.wrapping_add(1);
        questions % 2 == 1
    });
    let answers = answers!(groups; next, next_back, next, next_back);
    (answers, questions)
}

#[test]
fn answers_that_change(rt: HostRuntime) {
    let (groups, questions) = by_turns();
    let wanted: [Group; 4] = [Some(&[1, 2]), Some(&[5, 6]), Some(&[3, 4]), None];
    assert!(rt; groups == wanted && questions == 5);
}

const ONES: &[i32] = &[1, 1, 1, 1];

// How many binary digits the number has.
fn digits(n: usize) -> u32
    ensures { result ≤ 64 }
{
    usize::BITS - n.leading_zeros()
}

// Whether the groups by yes and no in turn are not empty and make up the slice, and each call asks at most `$few` questions, of the
// group's length and of how many elements remain.
macro_rules! are_parts_for_few {
    ($groups:ident, $few:expr) => {{
        let questions = Cell::new(0u32);
        let mut asked = 0u32;
        let mut rest = ONES;
        for group in ONES.$groups(|_a, _b| {
            questions.set(questions.get().wrapping_add(1));
            questions.get() % 2 == 1
        }) {
            let few: u32 = $few(group.len(), rest.len());
            if group.is_empty() || questions.get().wrapping_sub(asked) > few {
                return false;
            }
            let Some(left) = rest.strip_prefix(group) else {
                return false;
            };
            asked = questions.get();
            rest = left;
        }
        rest.is_empty() && questions.get() == asked
    }};
}

fn few_of_binary(_len: usize, left: usize) -> u32 {
    digits(left.wrapping_sub(1))
}

fn few_of_exponential(len: usize, _left: usize) -> u32 {
    2 * digits(len) + 1
}

fn binary_alternates() -> bool {
    are_parts_for_few!(binary_group_by, few_of_binary)
}

fn exponential_alternates() -> bool {
    are_parts_for_few!(exponential_group_by, few_of_exponential)
}

#[test]
fn answers_that_alternate(rt: HostRuntime) {
    assert!(rt; binary_alternates() && exponential_alternates());
}

const NOT_GROUPED: &[i32] = &[1, 2, 1, 1, 2];

fn first_is_local() -> bool {
    let group = NOT_GROUPED.exponential_group_by(equal).next();
    matches!(group, Some([1] | [1, 2, 1, 1]))
}

fn last_is_local() -> bool {
    let group = NOT_GROUPED.exponential_group_by(equal).next_back();
    matches!(group, Some([2] | [2, 1, 1, 2]))
}

#[test]
fn ends_where_refused(rt: HostRuntime) {
    assert!(rt; first_is_local() && last_is_local());
}

type Counted<'a> = (Option<&'a [i32]>, usize);

// Two groups from the back, with the questions of each call.
fn two_from_the_back<'a>(slice: &'a &[i32]) -> [Counted<'a>; 2] {
    let questions = Cell::new(0usize);
    let mut groups = slice.exponential_group_by(|a, b| asks(&questions, a, b));
    let last = (groups.next_back(), questions.replace(0));
    [last, (groups.next_back(), questions.replace(0))]
}

#[test]
fn thousand_before_one(rt: HostRuntime) {
    let mut array = [0; 1001];
    array[1000] = 1;
    let slice: &[i32] = &array;
    let [last, first] = two_from_the_back(&slice);
    assert!(rt; last.0 == Some([1].as_slice()) && last.1 <= 3);
    assert!(rt; first.0 == Some([0; 1000].as_slice()) && first.1 <= 21);
}

#[test]
fn one_before_a_thousand(rt: HostRuntime) {
    let mut array = [1; 1001];
    array[0] = 0;
    let slice: &[i32] = &array;
    let [last, _] = two_from_the_back(&slice);
    assert!(rt; last.0 == Some([1; 1000].as_slice()) && last.1 <= 21);
}

fn from_both_ends() -> ([Group; 4], [usize; 3]) {
    let questions = Cell::new(0usize);
    let mut groups = SORTED.exponential_group_by(|a, b| asks(&questions, a, b));
    let first = groups.next();
    let of_first = questions.replace(0);
    let second = groups.next_back();
    let of_second = questions.replace(0);
    let third = groups.next();
    let of_third = questions.replace(0);
    (
        [first, second, third, groups.next_back()],
        [of_first, of_second, of_third],
    )
}

#[test]
fn three_groups_from_both_ends(rt: HostRuntime) {
    let (groups, questions) = from_both_ends();
    let wanted: [Group; 4] = [Some(&[1, 1, 1]), Some(&[3, 3]), Some(&[2, 2, 2]), None];
    assert!(rt; groups == wanted);
    assert!(rt; questions[0] <= 5 && questions[1] <= 5 && questions[2] <= 5);
}
