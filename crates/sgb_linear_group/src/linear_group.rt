//! Linear groups, found by a scan along the neighbouring pairs.
ghost use Rattle.std.specs.Prelude.{length};

use crate::scan::scan;
use sgb_groups::debug::{DebugNames, Names};
use sgb_groups::groups::SliceGroups;
use sgb_groups::groups_mut::SliceGroupsMut;
use sgb_groups::way::Way;
use sgb_split::end::End;
use sgb_split::judge::{EqualityJudge, Judge, KeyJudge, PredicateJudge};

/// An iterator over the groups of equal elements of a slice, by `==` of neighbours. A call for a group of g elements compares g
/// pairs, or g - 1 where nothing remains after it.
///
/// ```
/// let mut groups = LinearGroup::new(&[1, 1, 1, 3, 3, 2, 2, 2]);
/// groups.next();      // Some([1, 1, 1])
/// groups.next_back(); // Some([2, 2, 2])
/// groups.next();      // Some([3, 3])
/// groups.next_back(); // None
/// ```
pub type LinearGroup<'a, T> = LinearGroups<'a, T, EqualityJudge>;

/// An iterator over the groups of a slice by a predicate, which is asked about neighbours, the left one first. A call for a group
/// of g elements asks g questions, or g - 1 where nothing remains after it.
///
/// ```
/// let mut groups = LinearGroupBy::new(&[1, 2, 3, 2, 3], |a, b| a < b);
/// groups.next(); // Some([1, 2, 3])
/// groups.next(); // Some([2, 3])
/// groups.next(); // None
/// ```
pub type LinearGroupBy<'a, T, P> = LinearGroups<'a, T, PredicateJudge<P>>;

/// An iterator over the groups of a slice by a key: a question is a call of the key function on the left element, then
/// one on the right, then `==` of the keys. A call for a group of g elements asks g questions, or g - 1 where nothing remains
/// after it.
///
/// ```
/// let mut groups = LinearGroupByKey::new(&[10, 11, 20, 21, 22], |x| *x / 10);
/// groups.next();      // Some([10, 11])
/// groups.next_back(); // Some([20, 21, 22])
/// groups.next();      // None
/// ```
pub type LinearGroupByKey<'a, T, F, K> = LinearGroups<'a, T, KeyJudge<F, K>>;

/// An iterator over the groups of equal elements of a slice for writing, by `==` of neighbours. A call for a group of g elements
/// compares g pairs, or g - 1 where nothing remains after it.
///
/// ```
/// let mut array = [1, 1, 2, 3, 3];
/// let mut groups = LinearGroupMut::new(&mut array);
/// if let Some(group) = groups.next() {
///     group.fill(7); // array is [7, 7, 2, 3, 3]
/// }
/// ```
pub type LinearGroupMut<'a, T> = LinearGroupsMut<'a, T, EqualityJudge>;

/// An iterator over the groups of a slice by a predicate for writing. The predicate is asked about neighbours, the left one
/// first, as they are when the call is made: for a group of g elements g times, or g - 1 times where nothing remains after it.
///
/// ```
/// let mut array = [1, 2, 3, 2, 3];
/// let mut groups = LinearGroupByMut::new(&mut array, |a, b| a < b);
/// if let Some(group) = groups.next_back() {
///     group.fill(0); // array is [1, 2, 3, 0, 0]
/// }
/// ```
pub type LinearGroupByMut<'a, T, P> = LinearGroupsMut<'a, T, PredicateJudge<P>>;

/// An iterator over the groups of a slice by a key for writing.
///
/// A question is a call of the key function on the left element, then one on the right, then `==` of the keys. It sees the
/// elements as they are when the call is made. A call for a group of g elements asks g questions, or g - 1 where nothing
/// remains after it.
///
/// ```
/// let mut array = [10, 11, 20, 21, 22];
/// let mut groups = LinearGroupByKeyMut::new(&mut array, |x| *x / 10);
/// if let Some(group) = groups.next() {
///     group.fill(0); // array is [0, 0, 20, 21, 22]
/// }
/// ```
pub type LinearGroupByKeyMut<'a, T, F, K> = LinearGroupsMut<'a, T, KeyJudge<F, K>>;

/// An iterator over the groups of a slice, from both ends, that asks its judge about neighbouring elements.
///
/// A call asks about the neighbouring pairs of the remainder from its end on, the left element first from both ends, up
/// to the first pair that the judge refuses. So a group of g elements costs g questions, or g - 1 if nothing remains after
/// it. A list of calls asks about no pair twice. A call reads the elements that it asks about and no others, and so takes time
/// by its questions.
pub type LinearGroups<'a, T, J> = SliceGroups<'a, T, J, Linear>;

/// An iterator over the groups of a slice for writing, that asks what `LinearGroups` asks.
pub type LinearGroupsMut<'a, T, J> = SliceGroupsMut<'a, T, J, Linear>;

/// Asks about one neighbouring pair after another, from the end on, up to the first that is refused.
#[derive(Drop)]
pub struct Linear {}

impl Way for Linear {
    ghost use Rattle.std.specs.Prelude.{true, ⊤};
    ghost use Rattle.sgb_split.specs.Split.{AreNeighbours, neighbours};
    ghost use Rattle.sgb_split.specs.Linear.{LinearQuestions, IsSettled};
    ghost use Rattle.sgb_split.proofs.Linear.LinearQueue as laws;

    ghost allowed = { λ T. AreNeighbours };

    ghost asks = { λ T J. LinearQuestions };

    ghost fits = { λ T p xs. ⊤ };

    ghost settled = { λ T J. IsSettled };

    ghost due = { λ T xs. length (neighbours xs) };

    ghost exact = { true };

    ghost settled_if_fits = { λ T J g s p computes fits. computes };

    ghost fits_if_settled = { λ T J g s p settled. tt };

    ghost piece = { λ T J. laws.piece };

    ghost keeps = { λ T J. laws.keeps };

    ghost callable_behind = { λ T J. laws.callable_behind };

    ghost settled_behind = { λ T J. laws.settled_behind };

    ghost asks_due = { λ T J. laws.asks };

    #[inline]
    fn group_len<T, J: Judge<T>>(
        end: End,
        slice: &[T],
        low: usize,
        high: usize,
        judge: &mut J,
    ) -> usize {
        scan(end, slice, low, high, judge)
    }
}

impl<P> DebugNames<PredicateJudge<P>> for Linear {
    const NAMES: Names = ("LinearGroupBy", "slice", "slice");
}

impl<F, K> DebugNames<KeyJudge<F, K>> for Linear {
    const NAMES: Names = ("LinearGroupByKey", "remainder", "remainder");
}
