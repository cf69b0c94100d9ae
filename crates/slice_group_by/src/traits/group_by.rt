//! Groups for reading by a method of the slice.
ghost use Rattle.std.specs.Prelude.{◌≡◌, Bool};
ghost use Rattle.sgb_split.specs.Calls.{ComputesBy, IsCallableBy, at_start};
ghost use Rattle.std.specs.Fn.{ComputesOnPairs, ComputesKey};
ghost use Rattle.sgb_split.specs.Judges.{by_predicate, predicate_judge, by_key, key_judge, by_equality};
ghost use Rattle.sgb_split.specs.Split.{IsGrouped, AreApart, AreNeighbours};
ghost use Rattle.sgb_split.specs.Linear.{IsSettled};
ghost use Rattle.sgb_search.specs.Searching.{IsSettledApart};
ghost use Rattle.sgb_groups.specs.Gives.{groups_of, place_of};

use crate::traits::holders::Elements;
use sgb_binary_group::binary_group::{BinaryGroup, BinaryGroupBy, BinaryGroupByKey};
use sgb_exponential_group::exponential_group::{
    ExponentialGroup, ExponentialGroupBy, ExponentialGroupByKey,
};
use sgb_linear_group::linear_group::{LinearGroup, LinearGroupBy, LinearGroupByKey};

/// Groups of neighbouring elements, for reading.
///
/// A method requires what `new` of its type requires, and gives what it gives on the whole slice. The groups live as long
/// as the borrow of the variable; groups from `new` live as long as the slice.
///
/// ```
/// let slice: &[i32] = &[1, 1, 1, 3, 3, 2, 2, 2];
/// let mut groups = slice.linear_group_by(|a, b| a == b);
/// groups.next();      // Some([1, 1, 1])
/// groups.next_back(); // Some([2, 2, 2])
/// ```
pub trait GroupBy<T>: Elements<T> {
    /// Groups by a key: neighbours whose keys are equal belong together. At most g questions for a group of g. See
    /// `LinearGroupByKey`.
    #[inline]
    fn linear_group_by_key<F, K>(&self, func: F) -> LinearGroupByKey<'_, T, F, K>
    where
        F: FnMut(&T) -> K,
        K: PartialEq + Drop,
        requires { IsCallableBy AreNeighbours (by_key F.FnMut K.eq)
            (record { remainder = Self.items self.now; judge = key_judge func }) }
        ensures remainder { (groups_of result).remainder ≡ Self.items self.now }
        ensures place { place_of result ≡ at_start (Self.items self.now) }
        ensures judge { result.judge ≡ key_judge func }
        ensures callable { IsCallableBy AreNeighbours (by_key F.FnMut K.eq) (groups_of result) }
        ensures settled { (key : T → K) → ComputesKey F.FnMut key func
            → IsSettled (by_key F.FnMut K.eq) (groups_of result) (λ x y. K.eq (key x) (key y)) }
    {
        LinearGroupByKey::new(self.as_slice(), func)
    }

    /// Groups by a predicate: neighbours of which it says yes, the left one first, belong together. At most g questions for
    /// a group of g. See `LinearGroupBy`.
    #[inline]
    fn linear_group_by<P: FnMut(&T, &T) -> bool>(&self, predicate: P) -> LinearGroupBy<'_, T, P>
        requires { IsCallableBy AreNeighbours (by_predicate P.FnMut)
            (record { remainder = Self.items self.now; judge = predicate_judge predicate }) }
        ensures remainder { (groups_of result).remainder ≡ Self.items self.now }
        ensures place { place_of result ≡ at_start (Self.items self.now) }
        ensures judge { result.judge ≡ predicate_judge predicate }
        ensures callable { IsCallableBy AreNeighbours (by_predicate P.FnMut) (groups_of result) }
        ensures settled { (p : T → T → Bool) → ComputesOnPairs P.FnMut p predicate
            → IsSettled (by_predicate P.FnMut) (groups_of result) p }
    {
        LinearGroupBy::new(self.as_slice(), predicate)
    }

    /// Groups of equal elements. At most g questions for a group of g. See `LinearGroup`.
    #[inline]
    fn linear_group(&self) -> LinearGroup<'_, T>
    where
        T: PartialEq,
        ensures remainder { (groups_of result).remainder ≡ Self.items self.now }
        ensures place { place_of result ≡ at_start (Self.items self.now) }
        ensures asked { result.judge.asked ≡ 0 }
        ensures callable { IsCallableBy AreNeighbours (by_equality T.eq) (groups_of result) }
        ensures settled { IsSettled (by_equality T.eq) (groups_of result) T.eq }
    {
        LinearGroup::new(self.as_slice())
    }

    /// Groups by a key, found by halving: equal keys should stand side by side. At most `digits(n - 1)` questions where n
    /// elements remain. See `BinaryGroupByKey`.
    #[inline]
    fn binary_group_by_key<F, K>(&self, func: F) -> BinaryGroupByKey<'_, T, F, K>
    where
        F: FnMut(&T) -> K,
        K: PartialEq + Drop,
        requires { IsCallableBy AreApart (by_key F.FnMut K.eq)
            (record { remainder = Self.items self.now; judge = key_judge func }) }
        ensures remainder { (groups_of result).remainder ≡ Self.items self.now }
        ensures place { place_of result ≡ at_start (Self.items self.now) }
        ensures judge { result.judge ≡ key_judge func }
        ensures callable { IsCallableBy AreApart (by_key F.FnMut K.eq) (groups_of result) }
        ensures computes { (key : T → K) → ComputesKey F.FnMut key func
            → ComputesBy AreApart (by_key F.FnMut K.eq) (groups_of result) (λ x y. K.eq (key x) (key y)) }
        ensures settled { (key : T → K) → ComputesKey F.FnMut key func
            → IsGrouped (λ x y. K.eq (key x) (key y)) (Self.items self.now)
            → IsSettledApart (by_key F.FnMut K.eq) (groups_of result) (λ x y. K.eq (key x) (key y)) }
    {
        BinaryGroupByKey::new(self.as_slice(), func)
    }

    /// Groups by a predicate, found by halving: the slice should be grouped for it. At most `digits(n - 1)` questions where
    /// n elements remain. See `BinaryGroupBy`.
    #[inline]
    fn binary_group_by<P: FnMut(&T, &T) -> bool>(&self, predicate: P) -> BinaryGroupBy<'_, T, P>
        requires { IsCallableBy AreApart (by_predicate P.FnMut)
            (record { remainder = Self.items self.now; judge = predicate_judge predicate }) }
        ensures remainder { (groups_of result).remainder ≡ Self.items self.now }
        ensures place { place_of result ≡ at_start (Self.items self.now) }
        ensures judge { result.judge ≡ predicate_judge predicate }
        ensures callable { IsCallableBy AreApart (by_predicate P.FnMut) (groups_of result) }
        ensures computes { (p : T → T → Bool) → ComputesOnPairs P.FnMut p predicate
            → ComputesBy AreApart (by_predicate P.FnMut) (groups_of result) p }
        ensures settled { (p : T → T → Bool) → ComputesOnPairs P.FnMut p predicate → IsGrouped p (Self.items self.now)
            → IsSettledApart (by_predicate P.FnMut) (groups_of result) p }
    {
        BinaryGroupBy::new(self.as_slice(), predicate)
    }

    /// Groups of equal elements, found by halving: they should stand side by side. At most `digits(n - 1)` questions where
    /// n elements remain. See `BinaryGroup`.
    #[inline]
    fn binary_group(&self) -> BinaryGroup<'_, T>
    where
        T: PartialEq,
        ensures remainder { (groups_of result).remainder ≡ Self.items self.now }
        ensures place { place_of result ≡ at_start (Self.items self.now) }
        ensures asked { result.judge.asked ≡ 0 }
        ensures callable { IsCallableBy AreApart (by_equality T.eq) (groups_of result) }
        ensures computes { ComputesBy AreApart (by_equality T.eq) (groups_of result) T.eq }
        ensures settled { IsGrouped T.eq (Self.items self.now)
            → IsSettledApart (by_equality T.eq) (groups_of result) T.eq }
    {
        BinaryGroup::new(self.as_slice())
    }

    /// Groups by a key, found by galloping: equal keys should stand side by side. At most `2 * digits(g) + 1` questions for
    /// a group of g. See `ExponentialGroupByKey`.
    #[inline]
    fn exponential_group_by_key<F, K>(&self, func: F) -> ExponentialGroupByKey<'_, T, F, K>
    where
        F: Fn(&T) -> K,
        K: PartialEq + Drop,
        requires { IsCallableBy AreApart (by_key F.FnMut K.eq)
            (record { remainder = Self.items self.now; judge = key_judge func }) }
        ensures remainder { (groups_of result).remainder ≡ Self.items self.now }
        ensures place { place_of result ≡ at_start (Self.items self.now) }
        ensures judge { result.judge ≡ key_judge func }
        ensures callable { IsCallableBy AreApart (by_key F.FnMut K.eq) (groups_of result) }
        ensures computes { (key : T → K) → ComputesKey F.FnMut key func
            → ComputesBy AreApart (by_key F.FnMut K.eq) (groups_of result) (λ x y. K.eq (key x) (key y)) }
        ensures settled { (key : T → K) → ComputesKey F.FnMut key func
            → IsGrouped (λ x y. K.eq (key x) (key y)) (Self.items self.now)
            → IsSettledApart (by_key F.FnMut K.eq) (groups_of result) (λ x y. K.eq (key x) (key y)) }
    {
        ExponentialGroupByKey::new(self.as_slice(), func)
    }

    /// Groups by a predicate, found by galloping: the slice should be grouped for it. At most `2 * digits(g) + 1` questions
    /// for a group of g. See `ExponentialGroupBy`.
    #[inline]
    fn exponential_group_by<P>(&self, predicate: P) -> ExponentialGroupBy<'_, T, P>
    where
        P: FnMut(&T, &T) -> bool,
        requires { IsCallableBy AreApart (by_predicate P.FnMut)
            (record { remainder = Self.items self.now; judge = predicate_judge predicate }) }
        ensures remainder { (groups_of result).remainder ≡ Self.items self.now }
        ensures place { place_of result ≡ at_start (Self.items self.now) }
        ensures judge { result.judge ≡ predicate_judge predicate }
        ensures callable { IsCallableBy AreApart (by_predicate P.FnMut) (groups_of result) }
        ensures computes { (p : T → T → Bool) → ComputesOnPairs P.FnMut p predicate
            → ComputesBy AreApart (by_predicate P.FnMut) (groups_of result) p }
        ensures settled { (p : T → T → Bool) → ComputesOnPairs P.FnMut p predicate → IsGrouped p (Self.items self.now)
            → IsSettledApart (by_predicate P.FnMut) (groups_of result) p }
    {
        ExponentialGroupBy::new(self.as_slice(), predicate)
    }

    /// Groups of equal elements, found by galloping: they should stand side by side. At most `2 * digits(g) + 1` questions
    /// for a group of g. See `ExponentialGroup`.
    #[inline]
    fn exponential_group(&self) -> ExponentialGroup<'_, T>
    where
        T: PartialEq,
        ensures remainder { (groups_of result).remainder ≡ Self.items self.now }
        ensures place { place_of result ≡ at_start (Self.items self.now) }
        ensures asked { result.judge.asked ≡ 0 }
        ensures callable { IsCallableBy AreApart (by_equality T.eq) (groups_of result) }
        ensures computes { ComputesBy AreApart (by_equality T.eq) (groups_of result) T.eq }
        ensures settled { IsGrouped T.eq (Self.items self.now)
            → IsSettledApart (by_equality T.eq) (groups_of result) T.eq }
    {
        ExponentialGroup::new(self.as_slice())
    }
}

impl<T, S: Elements<T>> GroupBy<T> for S {}
