//! Searches of a slice that gallop from its first element.
ghost use Rattle.std.specs.Prelude.{length, map};
ghost use Rattle.std.specs.List.Sorted.{IsSearchInRange};
ghost use Rattle.std.specs.Fn.{TakesAt, CalledAt};
ghost use Rattle.std.specs.declared.cmp.Ordering.{Ordering};
ghost use Rattle.sgb_search.specs.Searching.{MayAskAt, AnsweredAt};
ghost use Rattle.sgb_search.specs.Search.{IsSearch, IsLocalAnswer, IsLessEqualGreater, FindsIn, NeverDescends};
ghost use Rattle.sgb_split.specs.Judges.{IsCallableOn, ComputesOn};

use crate::gallop::{Places, gallop};
use std::cmp::Ordering;

// The places of a slice are its elements, of which a comparator is asked.
impl<'a, T, F: FnMut(&T) -> Ordering> Places<F> for &'a [T] {
    type Answer = Ordering;

    ghost may_compare = { λ f xs i. MayAskAt (TakesAt F.FnMut) (CalledAt F.FnMut) xs.now f i };

    ghost compares = { λ f xs i o h. AnsweredAt (TakesAt F.FnMut) (CalledAt F.FnMut) xs.now f i o h };

    ghost reads = { λ _ o. o };

    #[inline]
    fn compare(&self, asker: &mut F, place: usize) -> Ordering {
        asker(&self[place])
    }
}

// The elements of a slice, and the key with which theirs are compared.
#[derive(Drop)]
pub(crate) struct Keyed<'a, T, B> {
    slice: &'a [T],
    key: &'a B,
}

impl<'a, T, B: Ord + Drop, F: FnMut(&T) -> B> Places<F> for Keyed<'a, T, B> {
    type Answer = B;

    ghost may_compare = { λ f c i. MayAskAt (TakesAt F.FnMut) (CalledAt F.FnMut) c.slice.now f i };

    ghost compares = { λ f c i k h. AnsweredAt (TakesAt F.FnMut) (CalledAt F.FnMut) c.slice.now f i k h };

    ghost reads = { λ c k. B.cmp k c.key.now };

    #[inline]
    fn compare(&self, asker: &mut F, place: usize) -> Ordering {
        asker(&self.slice[place]).cmp(self.key)
    }
}

/// Searches a sorted slice with a comparator, from the front: `Ok` of a place whose element it answers `Equal`, or `Err` of the
/// place where such an element could be inserted.
///
/// The slice is sorted if the comparator answers `Less` of its first elements, then `Equal`, then `Greater`, each perhaps of
/// none. Which of several equal elements is given is left open.
///
/// A search that gives place i asks at most `2 * digits(i + 1) + 1` questions, whatever it is answered (`digits` is the number
/// of binary digits), so it is cheap near the beginning. It asks none of an empty slice.
///
/// ```
/// let slice = [0, 1, 1, 1, 1, 2, 3, 5, 8, 13, 21, 34, 55];
/// let found = exponential_search_by(&slice, |x| x.cmp(&13)); // Ok(9)
/// let found = exponential_search_by(&slice, |x| x.cmp(&4));  // Err(7)
/// ```
///
/// # Contract
///
/// The comparator must be callable on each element, in whatever state earlier calls left it. It is given up, so the contract speaks
/// of the run of calls that found the place; `exponential_search_by_ref` says it of the comparator as it comes back.
///
/// - `boundary`: on any slice, if the comparator depends only on its argument, `Ok` is an `Equal` place, and `Err` a place between
///   `Less` and `Greater`, or at an end.
/// - `questions`: the last one of an `Ok` was answered `Equal`. Of an `Err` the element before the place was answered `Less` and the
///   one at it `Greater`, unless the other of the two was answered in two ways.
#[inline]
pub fn exponential_search_by<T, F>(slice: &[T], mut f: F) -> Result<usize, usize>
where
    F: FnMut(&T) -> Ordering,
    requires { IsCallableOn F.FnMut slice.now f }
    ensures bound { IsSearchInRange result (length slice.now) }
    ensures questions { (t : F) × IsSearch F.FnMut slice.now (λ o. o) f result t }
    ensures boundary { (ord : T → Ordering) → ComputesOn F.FnMut slice.now ord f → IsLocalAnswer ord slice.now result }
    ensures found { (ord : T → Ordering) → ComputesOn F.FnMut slice.now ord f → IsLessEqualGreater ord slice.now
        → FindsIn ord slice.now result }
{
    exponential_search_by_ref(slice, &mut f)
}

/// `exponential_search_by` with a borrowed comparator, so that you can call it again, or read what it counted.
///
/// Where each call raises a number that the comparator captured by one, the number is raised by at most
/// `2 * digits(i + 1) + 1` (`laws::search_counts`).
///
/// ```
/// let mut asked = 0u32;
/// let mut comparator = |x: &u32| {
///     asked = asked.wrapping_add(1);
///     x.cmp(&13)
/// };
/// let found = exponential_search_by_ref(&[1, 2, 3, 5, 8, 13, 21], &mut comparator); // Ok(5), and `asked` is at most 7
/// ```
#[inline]
pub fn exponential_search_by_ref<T, F>(slice: &[T], f: &mut F) -> Result<usize, usize>
where
    F: FnMut(&T) -> Ordering,
    requires { IsCallableOn F.FnMut slice.now f.old }
    ensures bound { IsSearchInRange result (length slice.now) }
    ensures questions { IsSearch F.FnMut slice.now (λ o. o) f.old result f.new }
    ensures boundary { (ord : T → Ordering) → ComputesOn F.FnMut slice.now ord f.old → IsLocalAnswer ord slice.now result }
    ensures found { (ord : T → Ordering) → ComputesOn F.FnMut slice.now ord f.old → IsLessEqualGreater ord slice.now
        → FindsIn ord slice.now result }
    ensures callable { IsCallableOn F.FnMut slice.now f.new }
    ensures computes { (ord : T → Ordering) → ComputesOn F.FnMut slice.now ord f.old → ComputesOn F.FnMut slice.now ord f.new }
{
    gallop(f, &slice, 0, slice.len())
}

/// Searches a slice for an element: `Ok` of a place where an equal element stands, or `Err` of a place where it could be
/// inserted.
///
/// The slice should be sorted, or at least have the lesser elements first, then equal ones, then greater ones. Then there is
/// an `Ok` exactly if an equal element is there, and `Err(i)` has lesser elements before place i and greater ones from i on.
/// On any slice the element at an `Ok` is equal. It compares by `x.cmp(elem)`, as often as `exponential_search_by` asks.
///
/// ```
/// let slice = [0, 1, 1, 1, 1, 2, 3, 5, 8, 13, 21, 34, 55];
/// let found = exponential_search(&slice, &13);  // Ok(9)
/// let found = exponential_search(&slice, &4);   // Err(7)
/// let found = exponential_search(&slice, &100); // Err(13)
/// ```
#[inline]
pub fn exponential_search<T: Ord>(slice: &[T], elem: &T) -> Result<usize, usize>
    ensures bound { IsSearchInRange result (length slice.now) }
    ensures boundary { IsLocalAnswer (λ x. T.cmp x elem.now) slice.now result }
    ensures found { IsLessEqualGreater (λ x. T.cmp x elem.now) slice.now
        → FindsIn (λ x. T.cmp x elem.now) slice.now result }
    ensures sorted { NeverDescends T.cmp slice.now → FindsIn (λ x. T.cmp x elem.now) slice.now result }
{
    exponential_search_by(slice, |x| x.cmp(elem))
}

/// Searches a slice for a key, which the function gives of each element: `Ok` of a place where an element with an equal key
/// stands, or `Err` of a place where one could be inserted.
///
/// The slice should be sorted by the key. It compares by `f(x).cmp(b)`, and promises what `exponential_search_by` promises.
///
/// ```
/// let slice = [(0, 0), (2, 1), (4, 1), (5, 1), (3, 1), (1, 2), (2, 3), (4, 5), (5, 8), (3, 13), (1, 21)];
/// let found = exponential_search_by_key(&slice, &13, |&(_, b)| b); // Ok(9)
/// let found = exponential_search_by_key(&slice, &4, |&(_, b)| b);  // Err(7)
/// ```
#[inline]
pub fn exponential_search_by_key<T, B, F>(slice: &[T], b: &B, mut f: F) -> Result<usize, usize>
where
    F: FnMut(&T) -> B,
    B: Ord + Drop,
    requires { IsCallableOn F.FnMut slice.now f }
    ensures bound { IsSearchInRange result (length slice.now) }
    ensures questions { (t : F) × IsSearch F.FnMut slice.now (λ k. B.cmp k b.now) f result t }
    ensures boundary { (key : T → B) → ComputesOn F.FnMut slice.now key f
        → IsLocalAnswer (λ x. B.cmp (key x) b.now) slice.now result }
    ensures found { (key : T → B) → ComputesOn F.FnMut slice.now key f
        → IsLessEqualGreater (λ x. B.cmp (key x) b.now) slice.now
        → FindsIn (λ x. B.cmp (key x) b.now) slice.now result }
    ensures sorted { (key : T → B) → ComputesOn F.FnMut slice.now key f
        → NeverDescends B.cmp (map key slice.now)
        → FindsIn (λ x. B.cmp (key x) b.now) slice.now result }
{
    exponential_search_by_key_ref(slice, b, &mut f)
}

/// `exponential_search_by_key` with a borrowed key function, so that you can call it again, or read what it counted
/// (`laws::search_counts`).
///
/// ```
/// let mut called = 0u32;
/// let mut key = |row: &(u32, u32)| {
///     called = called.wrapping_add(1);
///     row.1
/// };
/// let found = exponential_search_by_key_ref(&[(0, 1), (4, 2), (2, 3)], &2, &mut key); // Ok(1), and `called` is at most 5
/// ```
#[inline]
pub fn exponential_search_by_key_ref<T, B, F>(slice: &[T], b: &B, f: &mut F) -> Result<usize, usize>
where
    F: FnMut(&T) -> B,
    B: Ord + Drop,
    requires { IsCallableOn F.FnMut slice.now f.old }
    ensures bound { IsSearchInRange result (length slice.now) }
    ensures questions { IsSearch F.FnMut slice.now (λ k. B.cmp k b.now) f.old result f.new }
    ensures boundary { (key : T → B) → ComputesOn F.FnMut slice.now key f.old
        → IsLocalAnswer (λ x. B.cmp (key x) b.now) slice.now result }
    ensures found { (key : T → B) → ComputesOn F.FnMut slice.now key f.old
        → IsLessEqualGreater (λ x. B.cmp (key x) b.now) slice.now
        → FindsIn (λ x. B.cmp (key x) b.now) slice.now result }
    ensures sorted { (key : T → B) → ComputesOn F.FnMut slice.now key f.old → NeverDescends B.cmp (map key slice.now)
        → FindsIn (λ x. B.cmp (key x) b.now) slice.now result }
    ensures callable { IsCallableOn F.FnMut slice.now f.new }
    ensures computes { (key : T → B) → ComputesOn F.FnMut slice.now key f.old → ComputesOn F.FnMut slice.now key f.new }
{
    gallop(f, &Keyed { slice, key: b }, 0, slice.len())
}
