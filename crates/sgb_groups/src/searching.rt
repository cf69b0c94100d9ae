//! The binary and the exponential way to find a group: a search among the places beside the outermost element, at either end of a
//! slice.
ghost use Rattle.std.specs.Prelude.{◌+◌, ◌-◌, ◌≤◌, length};
ghost use Rattle.sgb_split.specs.Judges.{IsCallable};
ghost use Rattle.sgb_search.specs.Searching.{SearchCost, IsPlaceSearch, MayAskAt, AnsweredAt, beside, as_ordering, IsBetween};

use crate::groups::SliceGroups;
use crate::groups_mut::SliceGroupsMut;
use crate::way::Way;
use sgb_search::gallop::{Places, answer_place, before_end};
use sgb_split::end::End;
use sgb_split::judge::Judge;
use std::cmp::Ordering;
use std::marker::PhantomData;

/// An iterator over the groups of a slice, from both ends, that finds the end of a group by the search `S`.
///
/// A call asks its judge about the outermost element of the remainder, which stands first from both ends, and one of the
/// others, and never about an element and itself. By halving it asks at most `digits(n - 1)` questions where n elements
/// remain, by galloping at most `2 * digits(g) + 1` for a group of g, where `digits` is the number of binary digits. It reads
/// no other element, and so takes time by its questions.
///
/// On a slice that is grouped for the judge, as one that is sorted is for `==`, the groups are those of the linear iterators. On
/// any other, if the judge depends only on its arguments, a group ends where the innermost element agrees with the outermost
/// and the element beyond does not.
pub type SearchGroups<'a, T, J, S> = SliceGroups<'a, T, J, Search<S>>;

/// An iterator over the groups of a slice for writing, that asks what `SearchGroups` asks.
pub type SearchGroupsMut<'a, T, J, S> = SliceGroupsMut<'a, T, J, Search<S>>;

/// How the end of a group is sought.
pub trait GroupSearch {
    // What it may ask.
    ghost cost: { SearchCost };

    /// Searches the places from `low` up to, not including, `high`: `Ok` of one that answered `Equal`, or `Err` of the place
    /// where the answers turn from `Less` to `Greater`, if those that answer `Less` come first. It asks at most what `cost`
    /// says.
    fn search<A, P: Places<A>>(
        asker: &mut A,
        places: &P,
        low: usize,
        high: usize,
    ) -> Result<usize, usize>
        requires order { low ≤ high }
        requires callable { IsCallable (λ s i. P.may_compare s places.now i)
            (λ s i a t. P.compares s places.now i a t) (IsBetween low high) asker.old }
        ensures { IsPlaceSearch (λ s i. P.may_compare s places.now i) (λ s i a t. P.compares s places.now i a t)
            (λ a. P.reads places.now a) cost low high asker.old result asker.new };
}

/// Asks about the outermost element and others, by the search `S`.
#[derive(Drop)]
pub struct Search<S> {
    search: PhantomData<S>,
}

impl<S: GroupSearch> Way for Search<S> {
    ghost use Rattle.std.specs.Prelude.{false};
    ghost use Rattle.sgb_split.specs.Split.{AreApart, IsGrouped};
    ghost use Rattle.sgb_search.specs.Searching.{SearchQuestions, IsSettledApart};
    ghost use Rattle.sgb_search.proofs.Searches.SearchQueue as laws;

    ghost allowed = { λ T. AreApart };

    ghost asks = { λ T J g. SearchQuestions g S.cost };

    ghost fits = { λ T. IsGrouped };

    ghost settled = { λ T J. IsSettledApart };

    ghost due = { λ T xs. S.cost.walk (length xs) };

    ghost exact = { false };

    ghost settled_if_fits = { λ T J g s p computes fits. record { computes = computes; grouped = fits } };

    ghost fits_if_settled = { λ T J g s p settled. settled.grouped };

    ghost piece = { λ T J g. laws.piece g S.cost };

    ghost keeps = { λ T J g. laws.keeps g S.cost };

    ghost callable_behind = { λ T J g. laws.callable_behind g S.cost };

    ghost settled_behind = { λ T J g. laws.settled_behind g S.cost };

    ghost asks_due = { λ T J g. laws.asks g S.cost };

    #[inline]
    fn group_len<T, J: Judge<T>>(
        end: End,
        slice: &[T],
        low: usize,
        high: usize,
        judge: &mut J,
    ) -> usize {
        // Places are counted from the outermost element, which is place 0: so the group ends at the place that the search gives.
        answer_place(match end {
            End::Front => {
                let behind = FromFront {
                    outermost: &slice[low],
                    slice,
                    first: low,
                };
                S::search(judge, &behind, 1, high - low)
            }
            End::Back => {
                let last = high - 1;
                let before = FromBack {
                    outermost: &slice[last],
                    slice,
                    last,
                };
                S::search(judge, &before, 1, high - low)
            }
        })
    }
}

// The elements of a slice by how far they stand behind the one at `first`, which is the outermost and is asked about with each.
#[derive(Drop)]
struct FromFront<'a, T> {
    outermost: &'a T,
    slice: &'a [T],
    first: usize,
}

impl<'a, T, J: Judge<T>> Places<J> for FromFront<'a, T> {
    type Answer = bool;

    ghost may_compare = { λ j c i. MayAskAt J.may_ask J.answers (beside c.outermost.now c.slice.now) j (c.first + i) };

    ghost compares = { λ j c i b k. AnsweredAt J.may_ask J.answers (beside c.outermost.now c.slice.now) j (c.first + i) b k };

    ghost reads = { λ _ b. as_ordering b };

    #[inline]
    fn compare(&self, judge: &mut J, place: usize) -> Ordering {
        before_end(judge.ask(self.outermost, &self.slice[self.first + place]))
    }
}

// The elements of a slice by how far they stand before the one at `last`, which is the outermost and is asked about with each.
#[derive(Drop)]
struct FromBack<'a, T> {
    outermost: &'a T,
    slice: &'a [T],
    last: usize,
}

impl<'a, T, J: Judge<T>> Places<J> for FromBack<'a, T> {
    type Answer = bool;

    ghost may_compare = { λ j c i. (i ≤ c.last)
        × MayAskAt J.may_ask J.answers (beside c.outermost.now c.slice.now) j (c.last - i) };

    ghost compares = { λ j c i b k. AnsweredAt J.may_ask J.answers (beside c.outermost.now c.slice.now) j (c.last - i) b k };

    ghost reads = { λ _ b. as_ordering b };

    #[inline]
    fn compare(&self, judge: &mut J, place: usize) -> Ordering {
        let index = self.last - place;
        before_end(judge.ask(self.outermost, &self.slice[index]))
    }
}
