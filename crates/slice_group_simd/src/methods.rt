//! The methods: groups of numbers and of bytes, called on what holds or lends them.
ghost use Rattle.std.specs.Prelude.{◌≡◌};
ghost use Rattle.std.specs.Ordering.{on};
ghost use Rattle.sgb_split.specs.Calls.{IsCallableBy, at_start};
ghost use Rattle.sgb_split.specs.Linear.{IsSettled};
ghost use Rattle.sgb_split.specs.Split.{AreNeighbours};
ghost use Rattle.sgb_numbers.specs.Numbers.{by_number};
ghost use Rattle.slice_group_simd.specs.Classes.{by_class};
ghost use Rattle.slice_group_simd.specs.Gives.{groups_of, place_of};

use crate::by_class::LinearClassGroup;
use crate::by_number::LinearNumberGroup;
use crate::byte_classes::ByteClasses;
use sgb_numbers::lanes::Lanes;
use slice_group_by::Elements;

/// Groups of equal numbers, for reading.
///
/// ```
/// let mut groups = [1, 1, 1, 3, 3].linear_number_group();
/// groups.next(); // Some([1, 1, 1])
/// ```
pub trait GroupByNumber<T: Lanes>: Elements<T> {
    /// Groups of equal numbers, found by vectors: those of `linear_group`. They ask no closure. See `LinearNumberGroup`.
    #[inline]
    fn linear_number_group(&self) -> LinearNumberGroup<'_, T>
        ensures remainder { (groups_of result).remainder ≡ Self.items self.now }
        ensures place { place_of result ≡ at_start (Self.items self.now) }
        ensures callable { IsCallableBy AreNeighbours (by_number T.eq) (groups_of result) }
        ensures settled { IsSettled (by_number T.eq) (groups_of result) T.eq }
    {
        LinearNumberGroup::new(self.as_slice())
    }
}

impl<T: Lanes, S: Elements<T>> GroupByNumber<T> for S {}

/// Groups of bytes by class, for reading.
///
/// ```
/// let mut tokens = b"port 8080".linear_class_group::<AsciiClasses>();
/// tokens.next(); // Some(b"port")
/// ```
pub trait GroupByClass: Elements<u8> {
    /// Groups of bytes of one class, found by vectors: those of `linear_group_by_key` by the class. They ask no closure. See
    /// `LinearClassGroup`.
    #[inline]
    fn linear_class_group<C: ByteClasses>(&self) -> LinearClassGroup<'_, C>
        ensures remainder { (groups_of result).remainder ≡ Self.items self.now }
        ensures place { place_of result ≡ at_start (Self.items self.now) }
        ensures callable { IsCallableBy AreNeighbours (by_class C.class_of C.Class.eq) (groups_of result) }
        ensures settled { IsSettled (by_class C.class_of C.Class.eq) (groups_of result) (on C.class_of C.Class.eq) }
    {
        LinearClassGroup::<C>::new(self.as_slice())
    }
}

impl<S: Elements<u8>> GroupByClass for S {}
