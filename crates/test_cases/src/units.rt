//! Elements of no bytes, up to the longest slice that there is.
use slice_group_by::{GroupBy, GroupByMut, exponential_search_by};
use std::cmp::Ordering;

fn any(_a: &(), _b: &()) -> bool {
    true
}

// What remains, the lengths of the groups of two calls, and what remains then.
fn five_for_writing(mut slice: &mut [()]) -> (usize, [Option<usize>; 2], usize) {
    let mut groups = slice.exponential_group_by_mut(any);
    let before = groups.remainder_len();
    let first = groups.next().map(|group| group.len());
    let second = groups.next().map(|group| group.len());
    (before, [first, second], groups.into_remainder().len())
}

#[test]
fn five_units(rt: HostRuntime) {
    assert_eq!(rt; five_for_writing(&mut [(); 5]), (5, [Some(5), None], 0));
}

type Front = ((usize, Option<usize>), Option<usize>, usize);

// What is left to expect, the length of the first group, and how many questions it takes. The array is of a length that a proof does
// not compute.
macro_rules! front {
    ($groups:ident, $len:ident) => {{
        let array = [(); $len];
        let slice: &[()] = &array;
        let mut questions = 0usize;
        let mut groups = slice.$groups(|_a, _b| {
            questions = questions.wrapping_add(1);
            true
        });
        let hint = groups.size_hint();
        let len = groups.next().map(|group| group.len());
        (hint, len, questions)
    }};
}

fn binary_front<const N: usize>() -> Front {
    front!(binary_group_by, N)
}

fn exponential_front<const N: usize>() -> Front {
    front!(exponential_group_by, N)
}

const LONGEST: usize = usize::MAX;

#[test]
fn longest_slices(rt: HostRuntime) {
    let (hint, len, questions) = binary_front::<LONGEST>();
    assert_eq!(rt; (hint, len), ((1, Some(LONGEST)), Some(LONGEST)));
    assert!(rt; questions <= 64);
    let (hint, len, questions) = exponential_front::<LONGEST>();
    assert_eq!(rt; (hint, len), ((1, Some(LONGEST)), Some(LONGEST)));
    assert!(rt; questions <= 129);
}

fn search<const N: usize>(answer: Ordering) -> Result<usize, usize> {
    let slice = [(); N];
    exponential_search_by(&slice, |_| answer)
}

#[test]
fn longest_searches(rt: HostRuntime) {
    assert_eq!(rt; search::<LONGEST>(Ordering::Less), Err(LONGEST));
    assert_eq!(rt; search::<LONGEST>(Ordering::Greater), Err(0));
}
