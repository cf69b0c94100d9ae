//! Binary groups: halving what remains to find where a group ends.
use sgb_groups::debug::{DebugNames, Names};
use sgb_groups::searching::{GroupSearch, SearchGroups, SearchGroupsMut};
use sgb_search::gallop::{Places, halve};
use sgb_split::judge::{EqualityJudge, KeyJudge, PredicateJudge};

/// An iterator over the groups of equal elements of a slice, which should be grouped: a call asks at most `digits(n - 1)`
/// questions, where n elements remain.
///
/// ```
/// let mut groups = BinaryGroup::new(&[1, 1, 1, 2, 2, 2, 3, 3]);
/// groups.next();      // Some([1, 1, 1])
/// groups.next_back(); // Some([3, 3])
/// groups.next();      // Some([2, 2, 2])
/// groups.next_back(); // None
/// ```
pub type BinaryGroup<'a, T> = SearchGroups<'a, T, EqualityJudge, Binary>;

/// An iterator over the groups of a slice by a predicate, for which the slice should be grouped: a call asks at most
/// `digits(n - 1)` questions, where n elements remain.
///
/// ```
/// let mut groups = BinaryGroupBy::new(&[1, 1, 2], |a, b| a == b);
/// groups.next(); // Some([1, 1])
/// groups.next(); // Some([2])
/// groups.next(); // None
/// ```
pub type BinaryGroupBy<'a, T, P> = SearchGroups<'a, T, PredicateJudge<P>, Binary>;

/// An iterator over the groups of a slice by a key, for which the slice should be grouped: a call asks at most
/// `digits(n - 1)` questions, where n elements remain, each two calls of the key function.
///
/// ```
/// let mut groups = BinaryGroupByKey::new(&[10, 11, 20, 21, 22], |x| *x / 10);
/// groups.next();      // Some([10, 11])
/// groups.next_back(); // Some([20, 21, 22])
/// groups.next();      // None
/// ```
pub type BinaryGroupByKey<'a, T, F, K> = SearchGroups<'a, T, KeyJudge<F, K>, Binary>;

/// An iterator over the groups of equal elements of a slice for writing, which should be grouped. A call asks what one of
/// `BinaryGroup` asks.
///
/// ```
/// let mut array = [1, 1, 1, 2, 2, 2, 3, 3];
/// let mut groups = BinaryGroupMut::new(&mut array);
/// if let Some(group) = groups.next_back() {
///     group.fill(7); // array is [1, 1, 1, 2, 2, 2, 7, 7]
/// }
/// ```
pub type BinaryGroupMut<'a, T> = SearchGroupsMut<'a, T, EqualityJudge, Binary>;

/// An iterator over the groups of a slice by a predicate for writing, for which the slice should be grouped. A call asks
/// what one of `BinaryGroupBy` asks, of the elements as they are then.
///
/// ```
/// let mut array = [1, 1, 2, 2];
/// let mut groups = BinaryGroupByMut::new(&mut array, |a, b| a == b);
/// if let Some(group) = groups.next() {
///     group.fill(9);
/// }
/// groups.into_remainder().fill(8); // array is [9, 9, 8, 8]
/// ```
pub type BinaryGroupByMut<'a, T, P> = SearchGroupsMut<'a, T, PredicateJudge<P>, Binary>;

/// An iterator over the groups of a slice by a key for writing, for which the slice should be grouped. A call asks what
/// one of `BinaryGroupByKey` asks, of the elements as they are then.
///
/// ```
/// let mut array = [10, 11, 20, 21, 22];
/// let mut groups = BinaryGroupByKeyMut::new(&mut array, |x| *x / 10);
/// if let Some(group) = groups.next() {
///     group.fill(0); // array is [0, 0, 20, 21, 22]
/// }
/// ```
pub type BinaryGroupByKeyMut<'a, T, F, K> = SearchGroupsMut<'a, T, KeyJudge<F, K>, Binary>;

/// Halves all places: at most `digits(n - 1)` questions where n elements remain.
#[derive(Drop)]
pub struct Binary {}

impl GroupSearch for Binary {
    ghost use Rattle.sgb_search.specs.Searching.{binary};

    ghost cost = { binary };

    #[inline]
    fn search<A, P: Places<A>>(
        asker: &mut A,
        places: &P,
        low: usize,
        high: usize,
    ) -> Result<usize, usize> {
        halve(asker, places, low, high)
    }
}

impl<P> DebugNames<PredicateJudge<P>> for Binary {
    const NAMES: Names = ("BinaryGroupBy", "remainder", "remainder");
}

impl<F, K> DebugNames<KeyJudge<F, K>> for Binary {
    const NAMES: Names = ("BinaryGroupByKey", "remainder", "remainder");
}
