//! Groups by `==` of the elements, for reading and for writing.
ghost use Rattle.std.specs.Prelude.{◌≡◌, ◌<◌};
ghost use Rattle.sgb_split.specs.declared.judge.EqualityJudge.{EqualityJudge};
ghost use Rattle.sgb_split.specs.Calls.{IsCallableBy, ComputesBy, at_start};
ghost use Rattle.sgb_split.specs.Judges.{by_equality};
ghost use Rattle.sgb_loans.specs.Loans.{NothingOut};

use crate::groups::SliceGroups;
use crate::groups_mut::SliceGroupsMut;
use crate::way::Way;
use sgb_split::judge::EqualityJudge;

impl<'a, T: PartialEq, W: Way> SliceGroups<'a, T, EqualityJudge, W> {
    ghost use Rattle.sgb_groups.specs.Gives.{groups_of, place_of};

    /// All groups of equal elements of the slice, which are still to come. Nothing is asked yet.
    ///
    /// For binary and exponential groups the slice should be grouped: equal elements should stand side by side, as in one that
    /// is sorted.
    #[inline]
    pub fn new(slice: &'a [T]) -> Self
        ensures remainder { (groups_of result).remainder ≡ slice.now }
        ensures place { place_of result ≡ at_start slice.now }
        ensures asked { result.judge.asked ≡ 0 }
        ensures callable { IsCallableBy (W.allowed T) (by_equality T.eq) (groups_of result) }
        ensures computes { ComputesBy (W.allowed T) (by_equality T.eq) (groups_of result) T.eq }
        ensures settled { W.fits T T.eq slice.now → W.settled T EqualityJudge (by_equality T.eq) (groups_of result) T.eq }
    {
        SliceGroups::with_judge(slice, EqualityJudge::new())
    }
}

impl<'a, T: PartialEq, W: Way> SliceGroupsMut<'a, T, EqualityJudge, W> {
    ghost use Rattle.sgb_groups.specs.Gives.{groups_of_mut};

    /// All groups of equal elements of the slice, which are still to come. Nothing is asked yet, and nothing is out.
    ///
    /// For binary and exponential groups the slice should be grouped: equal elements should stand side by side, as in one that
    /// is sorted.
    #[inline]
    pub fn new(slice: &'a mut [T]) -> Self
        ensures remainder { result.remainder ≡ slice.old }
        ensures asked { result.judge.asked ≡ 0 }
        ensures callable { IsCallableBy (W.allowed T) (by_equality T.eq) (groups_of_mut result) }
        ensures computes { ComputesBy (W.allowed T) (by_equality T.eq) (groups_of_mut result) T.eq }
        ensures settled { W.fits T T.eq slice.old → W.settled T EqualityJudge (by_equality T.eq) (groups_of_mut result) T.eq }
        ensures loans { NothingOut slice.entry.ghost_name result.loans }
    {
        SliceGroupsMut::with_judge(slice, EqualityJudge::new())
    }
}
