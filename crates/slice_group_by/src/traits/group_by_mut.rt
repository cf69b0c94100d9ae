//! Groups for writing by a method of the slice.
ghost use Rattle.std.specs.Prelude.{◌≡◌, Bool};
ghost use Rattle.sgb_split.specs.Calls.{ComputesBy, IsCallableBy};
ghost use Rattle.std.specs.Fn.{ComputesOnPairs, ComputesKey};
ghost use Rattle.sgb_split.specs.Judges.{by_predicate, predicate_judge, by_key, key_judge, by_equality};
ghost use Rattle.sgb_split.specs.Split.{IsGrouped, AreApart, AreNeighbours};
ghost use Rattle.sgb_split.specs.Linear.{IsSettled};
ghost use Rattle.sgb_search.specs.Searching.{IsSettledApart};
ghost use Rattle.sgb_groups.specs.Gives.{groups_of_mut};
ghost use Rattle.sgb_loans.specs.Loans.{NothingOut};

use crate::traits::holders::AsMutSlice;
use sgb_binary_group::binary_group::{BinaryGroupByKeyMut, BinaryGroupByMut, BinaryGroupMut};
use sgb_exponential_group::exponential_group::{
    ExponentialGroupByKeyMut, ExponentialGroupByMut, ExponentialGroupMut,
};
use sgb_linear_group::linear_group::{LinearGroupByKeyMut, LinearGroupByMut, LinearGroupMut};

/// Groups of neighbouring elements, for writing.
///
/// A method requires what `new` of its type requires, and gives what it gives on the whole slice. The groups live as long
/// as the borrow of the variable; groups from `new` live as long as the slice. No contract of a method says
/// which slice the variable holds after that borrow, nor what the slice is then: where that is wanted, call `new`.
///
/// ```
/// let mut slice: &mut [i32] = &mut [1, 1, 2, 3, 3];
/// for group in slice.linear_group_mut() {
///     group.fill(0);
/// }
/// ```
pub trait GroupByMut<T>: AsMutSlice<T> {
    /// Groups by a key: neighbours whose keys are equal belong together. At most g questions for a group of g. See
    /// `LinearGroupByKeyMut`.
    #[inline]
    fn linear_group_by_key_mut<F, K>(&mut self, func: F) -> LinearGroupByKeyMut<'_, T, F, K>
    where
        F: FnMut(&T) -> K,
        K: PartialEq + Drop,
        requires { IsCallableBy AreNeighbours (by_key F.FnMut K.eq)
            (record { remainder = Self.elements self.old; judge = key_judge func }) }
        ensures remainder { result.remainder ≡ Self.elements self.entry.now }
        ensures judge { result.judge ≡ key_judge func }
        ensures callable { IsCallableBy AreNeighbours (by_key F.FnMut K.eq) (groups_of_mut result) }
        ensures settled { (key : T → K) → ComputesKey F.FnMut key func
            → IsSettled (by_key F.FnMut K.eq) (groups_of_mut result) (λ x y. K.eq (key x) (key y)) }
        ensures loans { NothingOut result.loans.root result.loans }
    {
        LinearGroupByKeyMut::new(self.as_mut_slice(), func)
    }

    /// Groups by a predicate: neighbours of which it says yes, the left one first, belong together. At most g questions for
    /// a group of g. See `LinearGroupByMut`.
    #[inline]
    fn linear_group_by_mut<P>(&mut self, predicate: P) -> LinearGroupByMut<'_, T, P>
    where
        P: FnMut(&T, &T) -> bool,
        requires { IsCallableBy AreNeighbours (by_predicate P.FnMut)
            (record { remainder = Self.elements self.old; judge = predicate_judge predicate }) }
        ensures remainder { result.remainder ≡ Self.elements self.entry.now }
        ensures judge { result.judge ≡ predicate_judge predicate }
        ensures callable { IsCallableBy AreNeighbours (by_predicate P.FnMut) (groups_of_mut result) }
        ensures settled { (p : T → T → Bool) → ComputesOnPairs P.FnMut p predicate
            → IsSettled (by_predicate P.FnMut) (groups_of_mut result) p }
        ensures loans { NothingOut result.loans.root result.loans }
    {
        LinearGroupByMut::new(self.as_mut_slice(), predicate)
    }

    /// Groups of equal elements. At most g questions for a group of g. See `LinearGroupMut`.
    #[inline]
    fn linear_group_mut(&mut self) -> LinearGroupMut<'_, T>
    where
        T: PartialEq,
        ensures remainder { result.remainder ≡ Self.elements self.entry.now }
        ensures asked { result.judge.asked ≡ 0 }
        ensures callable { IsCallableBy AreNeighbours (by_equality T.eq) (groups_of_mut result) }
        ensures settled { IsSettled (by_equality T.eq) (groups_of_mut result) T.eq }
        ensures loans { NothingOut result.loans.root result.loans }
    {
        LinearGroupMut::new(self.as_mut_slice())
    }

    /// Groups by a key, found by halving: equal keys should stand side by side. At most `digits(n - 1)` questions where n
    /// elements remain. See `BinaryGroupByKeyMut`.
    #[inline]
    fn binary_group_by_key_mut<F, K>(&mut self, func: F) -> BinaryGroupByKeyMut<'_, T, F, K>
    where
        F: FnMut(&T) -> K,
        K: PartialEq + Drop,
        requires { IsCallableBy AreApart (by_key F.FnMut K.eq)
            (record { remainder = Self.elements self.old; judge = key_judge func }) }
        ensures remainder { result.remainder ≡ Self.elements self.entry.now }
        ensures judge { result.judge ≡ key_judge func }
        ensures callable { IsCallableBy AreApart (by_key F.FnMut K.eq) (groups_of_mut result) }
        ensures computes { (key : T → K) → ComputesKey F.FnMut key func
            → ComputesBy AreApart (by_key F.FnMut K.eq) (groups_of_mut result) (λ x y. K.eq (key x) (key y)) }
        ensures settled { (key : T → K) → ComputesKey F.FnMut key func
            → IsGrouped (λ x y. K.eq (key x) (key y)) (Self.elements self.entry.now)
            → IsSettledApart (by_key F.FnMut K.eq) (groups_of_mut result) (λ x y. K.eq (key x) (key y)) }
        ensures loans { NothingOut result.loans.root result.loans }
    {
        BinaryGroupByKeyMut::new(self.as_mut_slice(), func)
    }

    /// Groups by a predicate, found by halving: the slice should be grouped for it. At most `digits(n - 1)` questions where
    /// n elements remain. See `BinaryGroupByMut`.
    #[inline]
    fn binary_group_by_mut<P>(&mut self, predicate: P) -> BinaryGroupByMut<'_, T, P>
    where
        P: FnMut(&T, &T) -> bool,
        requires { IsCallableBy AreApart (by_predicate P.FnMut)
            (record { remainder = Self.elements self.old; judge = predicate_judge predicate }) }
        ensures remainder { result.remainder ≡ Self.elements self.entry.now }
        ensures judge { result.judge ≡ predicate_judge predicate }
        ensures callable { IsCallableBy AreApart (by_predicate P.FnMut) (groups_of_mut result) }
        ensures computes { (p : T → T → Bool) → ComputesOnPairs P.FnMut p predicate
            → ComputesBy AreApart (by_predicate P.FnMut) (groups_of_mut result) p }
        ensures settled { (p : T → T → Bool) → ComputesOnPairs P.FnMut p predicate
            → IsGrouped p (Self.elements self.entry.now)
            → IsSettledApart (by_predicate P.FnMut) (groups_of_mut result) p }
        ensures loans { NothingOut result.loans.root result.loans }
    {
        BinaryGroupByMut::new(self.as_mut_slice(), predicate)
    }

    /// Groups of equal elements, found by halving: they should stand side by side. At most `digits(n - 1)` questions where
    /// n elements remain. See `BinaryGroupMut`.
    #[inline]
    fn binary_group_mut(&mut self) -> BinaryGroupMut<'_, T>
    where
        T: PartialEq,
        ensures remainder { result.remainder ≡ Self.elements self.entry.now }
        ensures asked { result.judge.asked ≡ 0 }
        ensures callable { IsCallableBy AreApart (by_equality T.eq) (groups_of_mut result) }
        ensures computes { ComputesBy AreApart (by_equality T.eq) (groups_of_mut result) T.eq }
        ensures settled { IsGrouped T.eq (Self.elements self.entry.now)
            → IsSettledApart (by_equality T.eq) (groups_of_mut result) T.eq }
        ensures loans { NothingOut result.loans.root result.loans }
    {
        BinaryGroupMut::new(self.as_mut_slice())
    }

    /// Groups by a key, found by galloping: equal keys should stand side by side. At most `2 * digits(g) + 1` questions for
    /// a group of g. See `ExponentialGroupByKeyMut`.
    #[inline]
    fn exponential_group_by_key_mut<F, K>(
        &mut self,
        func: F,
    ) -> ExponentialGroupByKeyMut<'_, T, F, K>
    where
        F: Fn(&T) -> K,
        K: PartialEq + Drop,
        requires { IsCallableBy AreApart (by_key F.FnMut K.eq)
            (record { remainder = Self.elements self.old; judge = key_judge func }) }
        ensures remainder { result.remainder ≡ Self.elements self.entry.now }
        ensures judge { result.judge ≡ key_judge func }
        ensures callable { IsCallableBy AreApart (by_key F.FnMut K.eq) (groups_of_mut result) }
        ensures computes { (key : T → K) → ComputesKey F.FnMut key func
            → ComputesBy AreApart (by_key F.FnMut K.eq) (groups_of_mut result) (λ x y. K.eq (key x) (key y)) }
        ensures settled { (key : T → K) → ComputesKey F.FnMut key func
            → IsGrouped (λ x y. K.eq (key x) (key y)) (Self.elements self.entry.now)
            → IsSettledApart (by_key F.FnMut K.eq) (groups_of_mut result) (λ x y. K.eq (key x) (key y)) }
        ensures loans { NothingOut result.loans.root result.loans }
    {
        ExponentialGroupByKeyMut::new(self.as_mut_slice(), func)
    }

    /// Groups by a predicate, found by galloping: the slice should be grouped for it. At most `2 * digits(g) + 1` questions
    /// for a group of g. See `ExponentialGroupByMut`.
    #[inline]
    fn exponential_group_by_mut<P>(&mut self, predicate: P) -> ExponentialGroupByMut<'_, T, P>
    where
        P: FnMut(&T, &T) -> bool,
        requires { IsCallableBy AreApart (by_predicate P.FnMut)
            (record { remainder = Self.elements self.old; judge = predicate_judge predicate }) }
        ensures remainder { result.remainder ≡ Self.elements self.entry.now }
        ensures judge { result.judge ≡ predicate_judge predicate }
        ensures callable { IsCallableBy AreApart (by_predicate P.FnMut) (groups_of_mut result) }
        ensures computes { (p : T → T → Bool) → ComputesOnPairs P.FnMut p predicate
            → ComputesBy AreApart (by_predicate P.FnMut) (groups_of_mut result) p }
        ensures settled { (p : T → T → Bool) → ComputesOnPairs P.FnMut p predicate
            → IsGrouped p (Self.elements self.entry.now)
            → IsSettledApart (by_predicate P.FnMut) (groups_of_mut result) p }
        ensures loans { NothingOut result.loans.root result.loans }
    {
        ExponentialGroupByMut::new(self.as_mut_slice(), predicate)
    }

    /// Groups of equal elements, found by galloping: they should stand side by side. At most `2 * digits(g) + 1` questions
    /// for a group of g. See `ExponentialGroupMut`.
    #[inline]
    fn exponential_group_mut(&mut self) -> ExponentialGroupMut<'_, T>
    where
        T: PartialEq,
        ensures remainder { result.remainder ≡ Self.elements self.entry.now }
        ensures asked { result.judge.asked ≡ 0 }
        ensures callable { IsCallableBy AreApart (by_equality T.eq) (groups_of_mut result) }
        ensures computes { ComputesBy AreApart (by_equality T.eq) (groups_of_mut result) T.eq }
        ensures settled { IsGrouped T.eq (Self.elements self.entry.now)
            → IsSettledApart (by_equality T.eq) (groups_of_mut result) T.eq }
        ensures loans { NothingOut result.loans.root result.loans }
    {
        ExponentialGroupMut::new(self.as_mut_slice())
    }
}

impl<T, S: AsMutSlice<T>> GroupByMut<T> for S {}
