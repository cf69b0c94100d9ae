//! What the methods are called on: what holds elements, or lends them.
ghost use Rattle.std.specs.Prelude.{◌≡◌, List};
ghost use Rattle.std.specs.Borrow.{sem, follows, Array};
ghost use Rattle.std.specs.Vec.{with_items};

use std::alloc::Allocator;
use std::convert::AsSlice;

/// What holds elements side by side. A text is none: it is grouped by its characters, not by its bytes.
pub trait Elements<T>: AsSlice<T> {}

impl<T> Elements<T> for &[T] {}

impl<T> Elements<T> for &mut [T] {}

impl<T, const N: usize> Elements<T> for [T; N] {}

impl<T, A: Allocator> Elements<T> for Vec<T, A> {}

/// What lends its elements, side by side, for writing.
pub trait AsMutSlice<T> {
    // The elements that are lent.
    ghost elements: { Self → List T };
    // The same with these elements.
    ghost with_elements: { Self → List T → Self };

    /// All the elements, for writing. When that borrow ends, they are what was left in it, and nothing else has changed.
    fn as_mut_slice(&mut self) -> &mut [T]
        ensures* ends { sem 𝓛 (follows Self.row (Array T.row 0) self.entry.ghost_name result.ghost_name
            (with_elements self.entry.now)) }
        ensures elements { result.now ≡ elements self.entry.now };
}

impl<T> AsMutSlice<T> for &mut [T] {
    ghost elements = { λ slice. slice.now };

    ghost with_elements = { λ slice xs. record slice { now = xs } };

    #[inline]
    fn as_mut_slice(&mut self) -> &mut [T] {
        *self
    }
}

impl<T, const N: usize> AsMutSlice<T> for [T; N] {
    ghost elements = { λ array. array };

    ghost with_elements = { λ array xs. xs };

    #[inline]
    fn as_mut_slice(&mut self) -> &mut [T] {
        &mut self[..]
    }
}

impl<T, A: Allocator> AsMutSlice<T> for Vec<T, A> {
    ghost elements = { λ vec. vec.items };

    ghost with_elements = { with_items };

    #[inline]
    fn as_mut_slice(&mut self) -> &mut [T] {
        Vec::as_mut_slice(self)
    }
}
