//! The places between which the elements stand that are equal to what is sought, found by galloping from the first element.
ghost use Rattle.std.specs.Prelude.{◌≤◌, length, map};
ghost use Rattle.std.specs.Ordering.{is_lt, is_eq};
ghost use Rattle.std.specs.declared.cmp.Ordering.{Ordering};
ghost use Rattle.sgb_search.specs.Search.{IsLessEqualGreater, NeverDescends};
ghost use Rattle.sgb_split.specs.Judges.{IsCallableOn, ComputesOn};
ghost use Rattle.sgb_search.specs.Ranges.{IsRangeAt, IsLocalRangeAt, AsksRangeAt};

use crate::partition::{Equal, EqualKey, Less, LessKey, Test, count_before};
use std::cmp::Ordering;
use std::ops::Range;

// The place up to which elements stand on the one test, and the place up to which those from there on stand on the other.
#[inline]
fn places<T, K, L: Test<K>, E: Test<K>, F: FnMut(&T) -> K>(
    slice: &[T],
    less: &L,
    equal: &E,
    f: &mut F,
) -> Range<usize>
    requires { IsCallableOn F.FnMut slice.now f.old }
    ensures order { result.start ≤ result.end }
    ensures within { result.end ≤ length slice.now }
    ensures questions { AsksRangeAt F.FnMut (λ k. L.passes less.now k) (λ k. E.passes equal.now k)
        slice.now f.old result.start result.end f.new }
    ensures local { (answer : T → K) → ComputesOn F.FnMut slice.now answer f.old
        → IsLocalRangeAt slice.now result.start result.end (λ x. L.passes less.now (answer x)) (λ x. E.passes equal.now (answer x)) }
    ensures callable { IsCallableOn F.FnMut slice.now f.new }
    ensures computes { (answer : T → K) → ComputesOn F.FnMut slice.now answer f.old → ComputesOn F.FnMut slice.now answer f.new }
{
    let start = count_before(slice, less, f);
    let (_, rest) = slice.split_at(start);
    let len = count_before(rest, equal, f);
    start..start + len
}

/// The places of the elements of which the comparator answers `Equal`, as a range: `&slice[places]` has the elements. If none is
/// equal, the range is empty, and begins where an equal element would be inserted.
///
/// The slice is sorted if the comparator answers `Less` of its first elements, then `Equal`, then `Greater`, each perhaps of none.
///
/// It gallops from the front to the first equal element, and from there to the last, so it is cheap where few elements come
/// before the equal ones and few are equal. A call that passes over m elements and finds n asks at
/// most `2 * digits(m + 1) + 2 * digits(n + 1) + 2` questions, whatever the comparator answers.
///
/// ```
/// let rows = [(1, 'a'), (3, 'b'), (3, 'c'), (7, 'd')];
/// let places = exponential_equal_places_by(&rows, |row| row.0.cmp(&3));
/// // 1..3, and of 4 it is 3..3
/// ```
///
/// # Contract
///
/// The comparator must be callable on each element, in whatever state earlier calls left it. It is given up: to call it
/// again, lend it to `exponential_equal_places_by_ref`. On any slice, if it depends only on its argument, its answers show both ends
/// (`local`).
#[must_use]
#[inline]
pub fn exponential_equal_places_by<T, F>(slice: &[T], mut f: F) -> Range<usize>
where
    F: FnMut(&T) -> Ordering,
    requires { IsCallableOn F.FnMut slice.now f }
    ensures order { result.start ≤ result.end }
    ensures within { result.end ≤ length slice.now }
    ensures questions { (t : F) × AsksRangeAt F.FnMut is_lt is_eq slice.now f result.start result.end t }
    ensures local { (ord : T → Ordering) → ComputesOn F.FnMut slice.now ord f
        → IsLocalRangeAt slice.now result.start result.end (λ x. is_lt (ord x)) (λ x. is_eq (ord x)) }
    ensures range { (ord : T → Ordering) → ComputesOn F.FnMut slice.now ord f → IsLessEqualGreater ord slice.now
        → IsRangeAt slice.now result.start result.end ord }
{
    exponential_equal_places_by_ref(slice, &mut f)
}

/// `exponential_equal_places_by` with a borrowed comparator, so that you can call it again, or read what it counted.
///
/// ```
/// let mut asked = 0u32;
/// let mut comparator = |x: &u32| {
///     asked = asked.wrapping_add(1);
///     x.cmp(&3)
/// };
/// let places = exponential_equal_places_by_ref(&[1, 3, 3, 5, 8], &mut comparator);
/// // 1..3, and `asked` is at most 10
/// ```
///
/// May change.
#[must_use]
#[inline]
pub fn exponential_equal_places_by_ref<T, F>(slice: &[T], f: &mut F) -> Range<usize>
where
    F: FnMut(&T) -> Ordering,
    requires { IsCallableOn F.FnMut slice.now f.old }
    ensures order { result.start ≤ result.end }
    ensures within { result.end ≤ length slice.now }
    ensures questions { AsksRangeAt F.FnMut is_lt is_eq slice.now f.old result.start result.end f.new }
    ensures local { (ord : T → Ordering) → ComputesOn F.FnMut slice.now ord f.old
        → IsLocalRangeAt slice.now result.start result.end (λ x. is_lt (ord x)) (λ x. is_eq (ord x)) }
    ensures range { (ord : T → Ordering) → ComputesOn F.FnMut slice.now ord f.old → IsLessEqualGreater ord slice.now
        → IsRangeAt slice.now result.start result.end ord }
    ensures callable { IsCallableOn F.FnMut slice.now f.new }
    ensures computes { (ord : T → Ordering) → ComputesOn F.FnMut slice.now ord f.old → ComputesOn F.FnMut slice.now ord f.new }
{
    places(slice, &Less {}, &Equal {}, f)
}

/// Where the elements stand that are equal to one that is given, in a slice that ascends.
///
/// It compares by `x.cmp(elem)`, as often as `exponential_equal_places_by` asks, and promises what that promises.
///
/// ```
/// let slice = [0, 1, 1, 1, 1, 2, 3, 5, 8];
/// let places = exponential_equal_places(&slice, &1);
/// // 1..5, and `&slice[places]` is [1, 1, 1, 1]
/// ```
#[must_use]
#[inline]
pub fn exponential_equal_places<T: Ord>(slice: &[T], elem: &T) -> Range<usize>
    ensures order { result.start ≤ result.end }
    ensures within { result.end ≤ length slice.now }
    ensures local { IsLocalRangeAt slice.now result.start result.end
        (λ x. is_lt (T.cmp x elem.now)) (λ x. is_eq (T.cmp x elem.now)) }
    ensures range { IsLessEqualGreater (λ x. T.cmp x elem.now) slice.now
        → IsRangeAt slice.now result.start result.end (λ x. T.cmp x elem.now) }
    ensures sorted { NeverDescends T.cmp slice.now → IsRangeAt slice.now result.start result.end (λ x. T.cmp x elem.now) }
{
    exponential_equal_places_by(slice, |x| x.cmp(elem))
}

/// Where the elements with a key stand, which the function gives of each element, in a slice that ascends by the key.
///
/// It compares by `f(x).cmp(b)`, and promises what `exponential_equal_places_by` promises.
///
/// ```
/// let rows = [(1, 'a'), (3, 'b'), (3, 'c'), (7, 'd')];
/// let places = exponential_equal_places_by_key(&rows, &3, |row| row.0);
/// // 1..3
/// ```
#[must_use]
#[inline]
pub fn exponential_equal_places_by_key<T, B, F>(slice: &[T], b: &B, mut f: F) -> Range<usize>
where
    F: FnMut(&T) -> B,
    B: Ord + Drop,
    requires { IsCallableOn F.FnMut slice.now f }
    ensures order { result.start ≤ result.end }
    ensures within { result.end ≤ length slice.now }
    ensures questions { (t : F) × AsksRangeAt F.FnMut (λ k. is_lt (B.cmp k b.now)) (λ k. is_eq (B.cmp k b.now))
        slice.now f result.start result.end t }
    ensures local { (key : T → B) → ComputesOn F.FnMut slice.now key f
        → IsLocalRangeAt slice.now result.start result.end
        (λ x. is_lt (B.cmp (key x) b.now)) (λ x. is_eq (B.cmp (key x) b.now)) }
    ensures range { (key : T → B) → ComputesOn F.FnMut slice.now key f
        → IsLessEqualGreater (λ x. B.cmp (key x) b.now) slice.now
        → IsRangeAt slice.now result.start result.end (λ x. B.cmp (key x) b.now) }
    ensures sorted { (key : T → B) → ComputesOn F.FnMut slice.now key f → NeverDescends B.cmp (map key slice.now)
        → IsRangeAt slice.now result.start result.end (λ x. B.cmp (key x) b.now) }
{
    places(slice, &LessKey { key: b }, &EqualKey { key: b }, &mut f)
}
