//! The groups of the elements of a slice that are the same, for reading.
ghost use Rattle.std.specs.Prelude.{◌≡◌, ◌<◌, ◌≤◌, ◌+◌, ◌^◌, length, nat_eq, IfSome, if◌then◌else◌};
ghost use Rattle.std.specs.Iterator.{UpTo};
ghost use Rattle.std.specs.Iterator.SizeHint.{IsWithinCount};
ghost use Rattle.sgb_split.specs.declared.end.End.TheVariants.{Front, Back};
ghost use Rattle.sgb_split.specs.Calls.{groups_to_come};
ghost use Rattle.slice_group_simd.specs.Masks.{FrontMask, BackMask};

use crate::fills::{far_back, far_front, first_end, last_start};
use sgb_numbers::masks::{MaskJudge, Masks};
use std::alloc::AllocError;
use std::fmt;
use std::iter::FusedIterator;

/// An iterator over the groups of a slice, from both ends. `J` tells which elements are the same.
///
/// It looks at sixty-four neighbouring pairs at a time, and keeps for each end which of them differ, so that most calls read no
/// element. No contract counts its comparisons.
#[derive(Drop)]
#[must_use = "iterators are lazy and do nothing unless consumed"]
pub struct MaskGroups<'a, T, J: Masks<T>> {
    slice: &'a [T],
    judge: J,
    // The remainder lies from the place `low` up to the place `high`.
    low: usize,
    high: usize,
    // Which pairs before the pair `known` differ.
    front: u64,
    known: usize,
    // Which pairs from the pair `base` on differ.
    back: u64,
    base: usize,

    ghost order: { low ≤ high },

    ghost inside: { high ≤ length slice.now },

    ghost front_mask: { FrontMask J.same slice.now low front known },

    ghost back_mask: { BackMask J.same slice.now high back base },
}

impl<'a, T, J: MaskJudge<T> + Drop> MaskGroups<'a, T, J> {
    ghost use Rattle.sgb_split.specs.Calls.{IsCallableBy, StandsAt, at_start};
    ghost use Rattle.sgb_split.specs.Linear.{IsSettled};
    ghost use Rattle.sgb_split.specs.Split.{AreNeighbours};
    ghost use Rattle.slice_group_simd.specs.Gives.{groups_of, place_of};

    // All groups of the slice are still to come.
    #[inline]
    pub(crate) fn with_judge(slice: &'a [T], judge: J) -> Self
        ensures remainder { (groups_of result).remainder ≡ slice.now }
        ensures place { place_of result ≡ at_start slice.now }
        ensures callable { IsCallableBy AreNeighbours J.Judge (groups_of result) }
        ensures settled { IsSettled J.Judge (groups_of result) J.same }
    {
        MaskGroups {
            slice,
            judge,
            low: 0,
            high: slice.len(),
            front: 0,
            known: 0,
            back: 0,
            base: slice.len(),
        }
    }

    /// The elements that no call has handed out yet.
    #[inline]
    pub fn remainder(&self) -> &'a [T]
        ensures { result.now ≡ (groups_of self.now).remainder }
    {
        &self.slice[self.low..self.high]
    }

    /// Where the remainder begins in the slice: how many elements calls at the front have handed out.
    #[inline]
    pub fn offset(&self) -> usize
        ensures offset { result ≡ (place_of self.now).offset }
        ensures stands { StandsAt (place_of self.now) (groups_of self.now).remainder }
        ensures fits { result + length (groups_of self.now).remainder < 2 ^ 64 }
    {
        self.low
    }

    /// How many elements no call has handed out yet.
    #[inline]
    pub fn remainder_len(&self) -> usize
        ensures { result ≡ length (groups_of self.now).remainder }
    {
        self.remainder().len()
    }

    /// Whether all elements are handed out.
    #[inline]
    pub fn is_empty(&self) -> bool
        ensures { result ≡ nat_eq (length (groups_of self.now).remainder) 0 }
    {
        self.remainder_len() == 0
    }
}

impl<'a, T, J: MaskJudge<T> + Drop> Iterator for MaskGroups<'a, T, J> {
    type Item = &'a [T];

    ghost use Rattle.std.specs.Prelude.{⊤};
    ghost use Rattle.slice_group_simd.specs.Gives.{groups_of, Gives};

    ghost can_next = { λ s. ⊤ };

    ghost next_gives = { Gives J.Judge Front };

    ghost remaining = { λ s. groups_to_come (groups_of s) };

    /// The first group of the remainder, or `None` where nothing remains.
    #[inline]
    fn next(&mut self) -> Option<&'a [T]> {
        let slice = self.slice;
        let low = self.low;
        if self.front != 0 {
            let end = first_end::<T, J>(slice, low, self.front, self.known);
            if end < self.high {
                self.front &= self.front - 1;
                self.low = end;
                return Some(&slice[low..end]);
            }
        }
        self.next_far()
    }

    /// No groups where nothing remains, and else at least one and at most as many as elements remain.
    #[inline]
    fn size_hint(&self) -> (usize, Option<usize>)
        ensures value { result
            ≡ (if nat_eq (length (groups_of self.now).remainder) 0 then (0, Some 0)
            else (1, Some (length (groups_of self.now).remainder))) }
        ensures lower { IsWithinCount result.0 (groups_to_come (groups_of self.now)) }
        ensures upper { IfSome result.1 (UpTo (groups_to_come (groups_of self.now))) }
    {
        let len = self.remainder_len();
        (len.min(1), Some(len))
    }
}

impl<'a, T, J: MaskJudge<T> + Drop> DoubleEndedIterator for MaskGroups<'a, T, J> {
    ghost use Rattle.std.specs.Prelude.{⊤};
    ghost use Rattle.slice_group_simd.specs.Gives.{groups_of, Gives};

    ghost can_next_back = { λ s. ⊤ };

    ghost next_back_gives = { Gives J.Judge Back };

    /// The last group of the remainder, or `None` where nothing remains.
    #[inline]
    fn next_back(&mut self) -> Option<&'a [T]> {
        let slice = self.slice;
        let high = self.high;
        if self.back != 0 {
            let start = last_start::<T, J>(slice, high, self.back, self.base);
            if self.low < start {
                self.back &= self.back - 1;
                self.high = start;
                return Some(&slice[start..high]);
            }
        }
        self.next_back_far()
    }
}

impl<'a, T, J: MaskJudge<T> + Copy> Clone for MaskGroups<'a, T, J> {
    ghost use Rattle.std.specs.Prelude.{⊤};
    ghost use Rattle.slice_group_simd.specs.Gives.{groups_of, place_of};

    ghost is_clone = { λ s t. (groups_of t ≡ groups_of s) × (place_of t ≡ place_of s) };

    ghost is_infallible = { λ _. ⊤ };

    fn clone(&self) -> Result<Self, AllocError> {
        Ok(MaskGroups {
            slice: self.slice,
            judge: self.judge,
            low: self.low,
            high: self.high,
            front: self.front,
            known: self.known,
            back: self.back,
            base: self.base,
        })
    }
}

impl<'a, T: fmt::Debug, J: MaskJudge<T> + Drop> fmt::Debug for MaskGroups<'a, T, J> {
    fn fmt<O: fmt::Write>(&self, f: &mut fmt::Formatter<O>) -> fmt::Result {
        write!(f, "MaskGroups {{ remainder: {:?} }}", self.remainder())
    }
}

impl<'a, T, J: MaskJudge<T> + Drop> FusedIterator for MaskGroups<'a, T, J> {}

impl<'a, T, J: MaskJudge<T> + Drop> MaskGroups<'a, T, J> {
    ghost use Rattle.slice_group_simd.specs.Gives.{Gives};
    ghost use Rattle.slice_group_simd.specs.declared.mask_groups.MaskGroups.{MaskGroups};

    // What `next` gives where the mask does not tell.
    #[inline(always)]
    fn next_far(&mut self) -> Option<&'a [T]>
        ensures { Gives J.Judge Front self.old result self.new }
    {
        let slice = self.slice;
        let low = self.low;
        if low >= self.high {
            return None;
        }
        let (front, known, end) = far_front::<T, J>(slice, low, self.high, self.front, self.known);
        self.front = front;
        self.known = known;
        self.low = end;
        Some(&slice[low..end])
    }

    // What `next_back` gives where the mask does not tell.
    #[inline(always)]
    fn next_back_far(&mut self) -> Option<&'a [T]>
        ensures { Gives J.Judge Back self.old result self.new }
    {
        let slice = self.slice;
        let high = self.high;
        if self.low >= high {
            return None;
        }
        let (back, base, start) = far_back::<T, J>(slice, self.low, high, self.back, self.base);
        self.back = back;
        self.base = base;
        self.high = start;
        Some(&slice[start..high])
    }

    /// The last group of the remainder, or `None` where nothing remains: what `next_back` gives. The iterator is given up.
    #[inline]
    pub fn last(mut self) -> Option<&'a [T]>
        ensures { (t : MaskGroups T J J.Masks) × Gives J.Judge Back self.entry result t }
    {
        self.next_back()
    }
}
