//! Exponential groups: galloping from the outermost element to find where a group ends.
use sgb_groups::debug::{DebugNames, Names};
use sgb_groups::searching::{GroupSearch, SearchGroups, SearchGroupsMut};
use sgb_search::gallop::{Places, gallop};
use sgb_split::judge::{EqualityJudge, KeyJudge, PredicateJudge};

/// An iterator over the groups of equal elements of a slice, which should be grouped: a call that gives a group of g asks
/// at most `2 * digits(g) + 1` questions, from both ends.
///
/// ```
/// let mut groups = ExponentialGroup::new(&[1, 1, 1, 2, 2, 2, 3, 3]);
/// groups.next();      // Some([1, 1, 1])
/// groups.next_back(); // Some([3, 3])
/// groups.next();      // Some([2, 2, 2])
/// groups.next_back(); // None
/// ```
pub type ExponentialGroup<'a, T> = SearchGroups<'a, T, EqualityJudge, Exponential>;

/// An iterator over the groups of a slice by a predicate, for which the slice should be grouped: a call that gives a group
/// of g asks at most `2 * digits(g) + 1` questions, from both ends.
///
/// ```
/// let mut groups = ExponentialGroupBy::new(&[1, 1, 2], |a, b| a == b);
/// groups.next(); // Some([1, 1])
/// groups.next(); // Some([2])
/// groups.next(); // None
/// ```
pub type ExponentialGroupBy<'a, T, P> = SearchGroups<'a, T, PredicateJudge<P>, Exponential>;

/// An iterator over the groups of a slice by a key, from both ends. The slice should be grouped for the key.
///
/// A call that gives a group of g asks at most `2 * digits(g) + 1` questions, each two calls of the key function.
///
/// ```
/// let mut groups = ExponentialGroupByKey::new(&[10, 11, 20, 21, 22], |x| *x / 10);
/// groups.next();      // Some([10, 11])
/// groups.next_back(); // Some([20, 21, 22])
/// groups.next();      // None
/// ```
pub type ExponentialGroupByKey<'a, T, F, K> = SearchGroups<'a, T, KeyJudge<F, K>, Exponential>;

/// An iterator over the groups of equal elements of a slice for writing, which should be grouped. A call asks what one of
/// `ExponentialGroup` asks.
///
/// ```
/// let mut array = [1, 1, 1, 2, 2, 2, 3, 3];
/// let mut groups = ExponentialGroupMut::new(&mut array);
/// if let Some(group) = groups.next_back() {
///     group.fill(7); // array is [1, 1, 1, 2, 2, 2, 7, 7]
/// }
/// ```
pub type ExponentialGroupMut<'a, T> = SearchGroupsMut<'a, T, EqualityJudge, Exponential>;

/// An iterator over the groups of a slice by a predicate for writing, for which the slice should be grouped. A call asks
/// what one of `ExponentialGroupBy` asks, of the elements as they are then.
///
/// ```
/// let mut array = [1, 1, 2, 2];
/// let mut groups = ExponentialGroupByMut::new(&mut array, |a, b| a == b);
/// if let Some(group) = groups.next() {
///     group.fill(9);
/// }
/// groups.into_remainder().fill(8); // array is [9, 9, 8, 8]
/// ```
pub type ExponentialGroupByMut<'a, T, P> = SearchGroupsMut<'a, T, PredicateJudge<P>, Exponential>;

/// An iterator over the groups of a slice by a key for writing, for which the slice should be grouped. A call asks what
/// one of `ExponentialGroupByKey` asks, of the elements as they are then.
///
/// ```
/// let mut array = [10, 11, 20, 21, 22];
/// let mut groups = ExponentialGroupByKeyMut::new(&mut array, |x| *x / 10);
/// if let Some(group) = groups.next() {
///     group.fill(0); // array is [0, 0, 20, 21, 22]
/// }
/// ```
pub type ExponentialGroupByKeyMut<'a, T, F, K> = SearchGroupsMut<
    'a,
    T,
    KeyJudge<F, K>,
    Exponential,
>;

/// Gallops from the outermost element on: at most `2 * digits(g) + 1` questions for a group of g.
#[derive(Drop)]
pub struct Exponential {}

impl GroupSearch for Exponential {
    ghost use Rattle.sgb_search.specs.Searching.{exponential};

    ghost cost = { exponential };

    #[inline]
    fn search<A, P: Places<A>>(
        asker: &mut A,
        places: &P,
        low: usize,
        high: usize,
    ) -> Result<usize, usize> {
        gallop(asker, places, low, high)
    }
}

impl<P> DebugNames<PredicateJudge<P>> for Exponential {
    const NAMES: Names = ("ExponentialGroupBy", "remainder", "remaining");
}

impl<F, K> DebugNames<KeyJudge<F, K>> for Exponential {
    const NAMES: Names = ("ExponentialGroupByKey", "remainder", "remaining");
}
