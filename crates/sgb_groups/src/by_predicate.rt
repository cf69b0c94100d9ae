//! Groups by a predicate, for reading and for writing.
ghost use Rattle.std.specs.Prelude.{◌≡◌, ◌<◌, Bool};
ghost use Rattle.std.specs.Fn.{ComputesOnPairs};
ghost use Rattle.sgb_split.specs.declared.judge.PredicateJudge.{PredicateJudge};
ghost use Rattle.sgb_split.specs.Calls.{IsCallableBy, ComputesBy, at_start};
ghost use Rattle.sgb_split.specs.Judges.{by_predicate, predicate_judge};
ghost use Rattle.sgb_loans.specs.Loans.{NothingOut};

use crate::groups::SliceGroups;
use crate::groups_mut::SliceGroupsMut;
use crate::way::Way;
use sgb_split::judge::PredicateJudge;

impl<'a, T, P: FnMut(&T, &T) -> bool, W: Way> SliceGroups<'a, T, PredicateJudge<P>, W> {
    ghost use Rattle.sgb_groups.specs.Gives.{groups_of, place_of};

    /// All groups of the slice by the predicate, which are still to come. Nothing is asked yet.
    ///
    /// The predicate must be callable on the pairs that are `allowed` (`Way`), in whatever state earlier calls left it. A
    /// closure whose body may run on all elements, in every state, meets this at once. One with a `requires` meets it if the
    /// slice is known to have only such pairs.
    ///
    /// If the closure is handed to you, take `P.IsAlwaysCallable predicate` as a `requires`, and call `laws::always_callable`.
    ///
    /// The result is settled for each test that the predicate computes. For binary and exponential groups the slice should be
    /// grouped for the test: any two different places should agree exactly if all neighbours between them do.
    #[inline]
    pub fn new(slice: &'a [T], predicate: P) -> Self
        requires { IsCallableBy (W.allowed T) (by_predicate P.FnMut)
            (record { remainder = slice.now; judge = predicate_judge predicate }) }
        ensures remainder { (groups_of result).remainder ≡ slice.now }
        ensures place { place_of result ≡ at_start slice.now }
        ensures judge { result.judge ≡ predicate_judge predicate }
        ensures callable { IsCallableBy (W.allowed T) (by_predicate P.FnMut) (groups_of result) }
        ensures computes { (p : T → T → Bool) → ComputesOnPairs P.FnMut p predicate
            → ComputesBy (W.allowed T) (by_predicate P.FnMut) (groups_of result) p }
        ensures settled { (p : T → T → Bool) → ComputesOnPairs P.FnMut p predicate → W.fits T p slice.now
            → W.settled T (PredicateJudge P) (by_predicate P.FnMut) (groups_of result) p }
    {
        SliceGroups::with_judge(slice, PredicateJudge { predicate })
    }
}

impl<'a, T, P: FnMut(&T, &T) -> bool, W: Way> SliceGroupsMut<'a, T, PredicateJudge<P>, W> {
    ghost use Rattle.sgb_groups.specs.Gives.{groups_of_mut};

    /// All groups of the slice by the predicate, which are still to come. Nothing is asked yet, and nothing is out.
    ///
    /// It requires of the predicate what `new` for reading requires, of the elements as they are now.
    #[inline]
    pub fn new(slice: &'a mut [T], predicate: P) -> Self
        requires { IsCallableBy (W.allowed T) (by_predicate P.FnMut)
            (record { remainder = slice.old; judge = predicate_judge predicate }) }
        ensures remainder { result.remainder ≡ slice.old }
        ensures judge { result.judge ≡ predicate_judge predicate }
        ensures callable { IsCallableBy (W.allowed T) (by_predicate P.FnMut) (groups_of_mut result) }
        ensures computes { (p : T → T → Bool) → ComputesOnPairs P.FnMut p predicate
            → ComputesBy (W.allowed T) (by_predicate P.FnMut) (groups_of_mut result) p }
        ensures settled { (p : T → T → Bool) → ComputesOnPairs P.FnMut p predicate → W.fits T p slice.old
            → W.settled T (PredicateJudge P) (by_predicate P.FnMut) (groups_of_mut result) p }
        ensures loans { NothingOut slice.entry.ghost_name result.loans }
    {
        SliceGroupsMut::with_judge(slice, PredicateJudge { predicate })
    }
}
