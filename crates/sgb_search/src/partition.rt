//! Where a predicate parts a slice, found by galloping from its first element.
ghost use Rattle.std.specs.Prelude.{◌≡◌, ◌≤◌, length, Bool, true, false};
ghost use Rattle.std.specs.List.{count_by};
ghost use Rattle.std.specs.List.Sorted.{IsPartitionedBy, IsPartitionPoint};
ghost use Rattle.std.specs.Ordering.{is_lt, is_eq};
ghost use Rattle.std.specs.Fn.{TakesAt, CalledAt};
ghost use Rattle.sgb_search.specs.Searching.{as_ordering, MayAskAt, AnsweredAt};
ghost use Rattle.sgb_search.specs.Search.{IsLocalBoundary};
ghost use Rattle.sgb_split.specs.Judges.{IsCallableOn, ComputesOn};
ghost use Rattle.sgb_search.specs.Ranges.{AsksPartition};

use crate::gallop::{Places, before_end, bisect};
use std::cmp::Ordering;

// A test of a place in a slice, to which an element belongs by what a function answers of it.
pub(crate) trait Test<K> {
    // Whether an element that is answered so stands before the place.
    ghost passes: { Self → K → Bool };

    fn is_passed(&self, answer: K) -> bool
        ensures { result ≡ passes self.now answer };
}

// Of elements that pass a predicate.
#[derive(Drop)]
struct Passing {}

impl Test<bool> for Passing {
    ghost passes = { λ s b. b };

    #[inline]
    fn is_passed(&self, answer: bool) -> bool {
        answer
    }
}

// Of elements that a comparator finds less than what is sought.
#[derive(Drop)]
pub(crate) struct Less {}

impl Test<Ordering> for Less {
    ghost passes = { λ s o. is_lt o };

    #[inline]
    fn is_passed(&self, answer: Ordering) -> bool {
        answer.is_lt()
    }
}

// Of elements that it finds equal.
#[derive(Drop)]
pub(crate) struct Equal {}

impl Test<Ordering> for Equal {
    ghost passes = { λ s o. is_eq o };

    #[inline]
    fn is_passed(&self, answer: Ordering) -> bool {
        answer.is_eq()
    }
}

// Of elements with keys below the one that is sought.
#[derive(Drop)]
pub(crate) struct LessKey<'a, B> {
    pub(crate) key: &'a B,
}

impl<'a, B: Ord + Drop> Test<B> for LessKey<'a, B> {
    ghost passes = { λ s k. is_lt (B.cmp k s.key.now) };

    #[inline]
    fn is_passed(&self, answer: B) -> bool {
        answer.cmp(self.key).is_lt()
    }
}

// Of elements with that key.
#[derive(Drop)]
pub(crate) struct EqualKey<'a, B> {
    pub(crate) key: &'a B,
}

impl<'a, B: Ord + Drop> Test<B> for EqualKey<'a, B> {
    ghost passes = { λ s k. is_eq (B.cmp k s.key.now) };

    #[inline]
    fn is_passed(&self, answer: B) -> bool {
        answer.cmp(self.key).is_eq()
    }
}

// The elements of a slice, each on its test of the place.
#[derive(Drop)]
struct Tested<'a, T, S> {
    slice: &'a [T],
    test: &'a S,
}

impl<'a, T, K, S: Test<K>, F: FnMut(&T) -> K> Places<F> for Tested<'a, T, S> {
    type Answer = K;

    ghost may_compare = { λ f p i. MayAskAt (TakesAt F.FnMut) (CalledAt F.FnMut) p.slice.now f i };

    ghost compares = { λ f p i k h. AnsweredAt (TakesAt F.FnMut) (CalledAt F.FnMut) p.slice.now f i k h };

    ghost reads = { λ p k. as_ordering (S.passes p.test.now k) };

    #[inline]
    fn compare(&self, asker: &mut F, place: usize) -> Ordering {
        before_end(self.test.is_passed(asker(&self.slice[place])))
    }
}

// How many elements stand before the place that parts a slice, from the first on.
#[inline]
pub(crate) fn count_before<T, K, S: Test<K>, F: FnMut(&T) -> K>(
    slice: &[T],
    test: &S,
    f: &mut F,
) -> usize
    requires { IsCallableOn F.FnMut slice.now f.old }
    ensures within { result ≤ length slice.now }
    ensures questions { AsksPartition F.FnMut (λ k. S.passes test.now k) slice.now f.old result f.new }
    ensures boundary { (answer : T → K) → ComputesOn F.FnMut slice.now answer f.old
        → IsLocalBoundary (λ x. as_ordering (S.passes test.now (answer x))) slice.now result }
    ensures callable { IsCallableOn F.FnMut slice.now f.new }
    ensures computes { (answer : T → K) → ComputesOn F.FnMut slice.now answer f.old → ComputesOn F.FnMut slice.now answer f.new }
{
    bisect(f, &Tested { slice, test }, 0, slice.len())
}

/// How many elements the predicate accepts, from the first on, of a slice that has those it accepts first: what
/// `slice.partition_point(pred)` gives, found by galloping from the first element.
///
/// On any slice, if the predicate depends only on its argument, the element before the place is accepted, and the one at it
/// refused, where there are such elements.
///
/// A call that gives n asks at most `2 * digits(n + 1) + 1` questions, whatever it is answered, and none of an empty slice. The
/// predicate must be callable on each element, in whatever state earlier calls left it. It is given up.
///
/// ```
/// let place = exponential_partition_point(&[1, 2, 3, 5, 8, 13, 21], |&x| x < 5);
/// // 3
/// ```
#[must_use]
#[inline]
pub fn exponential_partition_point<T, P>(slice: &[T], mut pred: P) -> usize
where
    P: FnMut(&T) -> bool,
    requires { IsCallableOn P.FnMut slice.now pred }
    ensures bound { result ≤ length slice.now }
    ensures questions { (t : P) × AsksPartition P.FnMut (λ b. b) slice.now pred result t }
    ensures boundary { (passes : T → Bool) → ComputesOn P.FnMut slice.now passes pred
        → IsLocalBoundary (λ x. as_ordering (passes x)) slice.now result }
    ensures partitioned { (passes : T → Bool) → ComputesOn P.FnMut slice.now passes pred → IsPartitionedBy passes slice.now
        → IsPartitionPoint (λ x. passes x ≡ true) (λ x. passes x ≡ false) slice.now result }
    ensures count { (passes : T → Bool) → ComputesOn P.FnMut slice.now passes pred → IsPartitionedBy passes slice.now
        → result ≡ count_by passes slice.now }
{
    count_before(slice, &Passing {}, &mut pred)
}
