//! The groups of equal numbers.
ghost use Rattle.std.specs.Prelude.{◌≡◌};
ghost use Rattle.sgb_numbers.specs.Numbers.{by_number};
ghost use Rattle.sgb_split.specs.Calls.{IsCallableBy, at_start};
ghost use Rattle.sgb_split.specs.Linear.{IsSettled};
ghost use Rattle.sgb_split.specs.Split.{AreNeighbours};

use crate::mask_groups::MaskGroups;
use sgb_numbers::lanes::Lanes;
use sgb_numbers::number_judge::NumberJudge;

/// An iterator over the groups of equal numbers of a slice, from both ends: the groups of `LinearGroup`.
///
/// It compares sixty-four neighbouring pairs at a time by vectors, and keeps for each end which of them differ, so that most
/// calls read no element. No contract counts its comparisons.
///
/// ```
/// let mut groups = LinearNumberGroup::new(&[1, 1, 1, 3, 3, 2, 2, 2]);
/// groups.next();      // Some([1, 1, 1])
/// groups.next_back(); // Some([2, 2, 2])
/// ```
pub type LinearNumberGroup<'a, T> = MaskGroups<'a, T, NumberJudge>;

impl<'a, T: Lanes> MaskGroups<'a, T, NumberJudge> {
    ghost use Rattle.slice_group_simd.specs.Gives.{groups_of, place_of};

    /// All groups of equal numbers of the slice, which are still to come. Nothing is compared yet.
    #[inline]
    pub fn new(slice: &'a [T]) -> Self
        ensures remainder { (groups_of result).remainder ≡ slice.now }
        ensures place { place_of result ≡ at_start slice.now }
        ensures callable { IsCallableBy AreNeighbours (by_number T.eq) (groups_of result) }
        ensures settled { IsSettled (by_number T.eq) (groups_of result) T.eq }
    {
        MaskGroups::with_judge(slice, NumberJudge {})
    }
}
