//! The groups of bytes of one class.
ghost use Rattle.std.specs.Prelude.{◌≡◌};
ghost use Rattle.std.specs.Ordering.{on};
ghost use Rattle.slice_group_simd.specs.Classes.{by_class};
ghost use Rattle.sgb_split.specs.Calls.{IsCallableBy, at_start};
ghost use Rattle.sgb_split.specs.Linear.{IsSettled};
ghost use Rattle.sgb_split.specs.Split.{AreNeighbours};

use crate::byte_classes::{ByteClasses, ClassJudge};
use crate::mask_groups::MaskGroups;

/// An iterator over the groups of bytes of one class, from both ends: those of `LinearGroupByKey` with the class as
/// the key. `AsciiClasses::class(group[0])` is the class of a group.
///
/// It looks at sixty-four neighbouring pairs at a time, and keeps for each end which of them are of two classes.
/// `AsciiClasses` compares them by vectors.
///
/// ```
/// let mut tokens = LinearClassGroup::<AsciiClasses>::new(b"port 8080;");
/// tokens.next();      // Some(b"port")
/// tokens.next_back(); // Some(b";")
/// tokens.next_back(); // Some(b"8080")
/// tokens.next();      // Some(b" ")
/// ```
pub type LinearClassGroup<'a, C> = MaskGroups<'a, u8, ClassJudge<C>>;

impl<'a, C: ByteClasses> MaskGroups<'a, u8, ClassJudge<C>> {
    ghost use Rattle.slice_group_simd.specs.Gives.{groups_of, place_of};

    /// All groups of bytes of one class, which are still to come. No class is compared yet.
    #[inline]
    pub fn new(bytes: &'a [u8]) -> Self
        ensures remainder { (groups_of result).remainder ≡ bytes.now }
        ensures place { place_of result ≡ at_start bytes.now }
        ensures callable { IsCallableBy AreNeighbours (by_class C.class_of C.Class.eq) (groups_of result) }
        ensures settled { IsSettled (by_class C.class_of C.Class.eq) (groups_of result) (on C.class_of C.Class.eq) }
    {
        MaskGroups::with_judge(bytes, ClassJudge::new())
    }
}
