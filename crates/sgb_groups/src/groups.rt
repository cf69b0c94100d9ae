//! The groups of a slice for reading, over any judge and any way to find where a group ends.
ghost use Rattle.std.specs.Prelude.{◌≡◌, ◌<◌, ◌≤◌, ◌+◌, ◌^◌, [], length, drop, Option, MatchOption, nat_eq, IfSome, if◌then◌else◌};
ghost use Rattle.std.specs.Iterator.{UpTo};
ghost use Rattle.std.specs.Iterator.SizeHint.{IsWithinCount};
ghost use Rattle.sgb_split.specs.declared.end.End.TheVariants.{Front, Back};
ghost use Rattle.sgb_split.specs.Calls.{IsCallableBy, StandsAt, at_start, groups_to_come};

use crate::way::Way;
use sgb_split::end::End;
use sgb_split::judge::Judge;
use std::iter::FusedIterator;
use std::marker::PhantomData;

/// An iterator over the groups of a slice, from both ends. `J` decides what belongs together, and `W` finds where a group ends.
///
/// Contracts see of it the elements that it has not handed out yet, its `remainder`, and its `judge`: both are in `groups_of` of it.
#[derive(Drop)]
#[must_use = "iterators are lazy and do nothing unless consumed"]
pub struct SliceGroups<'a, T, J, W> {
    slice: &'a [T],
    // The remainder lies from the place `low` up to the place `high`, and is empty where these do not lie in the slice in order.
    low: usize,
    high: usize,
    pub(crate) judge: J,
    way: PhantomData<W>,
}

impl<'a, T, J, W> SliceGroups<'a, T, J, W> {
    ghost use Rattle.sgb_groups.specs.Gives.{groups_of, place_of};

    // All groups of the slice are still to come.
    #[inline]
    pub(crate) fn with_judge(slice: &'a [T], judge: J) -> Self
        ensures remainder { (groups_of result).remainder ≡ slice.now }
        ensures place { place_of result ≡ at_start slice.now }
        ensures judge { result.judge ≡ judge }
    {
        SliceGroups {
            slice,
            low: 0,
            high: slice.len(),
            judge,
            way: PhantomData,
        }
    }

    /// The elements that no call has handed out yet.
    #[inline]
    pub fn remainder(&self) -> &'a [T]
        ensures { result.now ≡ (groups_of self.now).remainder }
    {
        match self.places() {
            Some((low, high)) => &self.slice[low..high],
            None => &[],
        }
    }

    // The places between which the remainder lies, where it is not empty, so that a call tests that once.
    #[inline]
    fn places(&self) -> Option<(usize, usize)>
        ensures { MatchOption result ((groups_of self.now).remainder ≡ [])
            (λ p. (p.0 ≡ self.now.low) × (p.1 ≡ self.now.high) × (p.0 < p.1) × (p.1 ≤ length self.now.slice.now)) }
    {
        // Tested on each call: an invariant on a struct that holds a closure would hide the closure's captures from callers' proofs.
        if self.low < self.high && self.high <= self.slice.len() {
            Some((self.low, self.high))
        } else {
            None
        }
    }

    /// Where the remainder begins in the slice: how many elements calls at the front have handed out. The next group at the
    /// front begins there, and the last one from the back began `remainder_len` elements behind it.
    ///
    /// ```
    /// let mut groups = LinearGroup::new(&[1, 1, 1, 3, 3, 2, 2, 2]);
    /// groups.next();      // Some([1, 1, 1])
    /// groups.next_back(); // Some([2, 2, 2])
    /// groups.offset();    // 3
    /// ```
    #[inline]
    pub fn offset(&self) -> usize
        ensures offset { result ≡ (place_of self.now).offset }
        ensures stands { StandsAt (place_of self.now) (groups_of self.now).remainder }
        ensures fits { result + length (groups_of self.now).remainder < 2 ^ 64 }
    {
        self.low.min(self.slice.len())
    }

    /// How many elements no call has handed out yet.
    #[inline]
    pub fn remainder_len(&self) -> usize
        ensures { result ≡ length (groups_of self.now).remainder }
    {
        self.remainder().len()
    }

    // Leaves out the first `len` elements of the remainder, or all if there are fewer, and asks nothing.
    #[inline]
    pub(crate) fn skip_front(&mut self, len: usize)
        ensures remainder { (groups_of self.new).remainder ≡ drop len (groups_of self.old).remainder }
        ensures judge { (groups_of self.new).judge ≡ (groups_of self.old).judge }
    {
        if let Some((low, high)) = self.places() {
            self.low = low + len.min(high - low);
        }
    }

    /// Whether all elements are handed out.
    #[inline]
    pub fn is_empty(&self) -> bool
        ensures { result ≡ nat_eq (length (groups_of self.now).remainder) 0 }
    {
        self.remainder_len() == 0
    }

    /// For the libraries alone: the judge, with its closure as the calls have left it. The iterator is given up.
    #[inline]
    pub fn into_judge(self) -> J
        ensures { result ≡ (groups_of self.entry).judge }
    {
        let SliceGroups {
            judge,
            slice: _,
            low: _,
            high: _,
            way: _,
        } = self;
        judge
    }
}

impl<'a, T, J: Judge<T> + Drop, W: Way> Iterator for SliceGroups<'a, T, J, W> {
    type Item = &'a [T];

    ghost use Rattle.sgb_groups.specs.Gives.{groups_of, Gives};

    ghost can_next = { λ s. IsCallableBy (W.allowed T) J.Judge (groups_of s) };

    ghost next_gives = { Gives (W.asks T J J.Judge) Front };

    ghost remaining = { λ s. groups_to_come (groups_of s) };

    /// The first group of the remainder, or `None` if nothing remains. Questions for a group of g of the n elements that remain:
    ///
    /// - linear groups: g, or g - 1 where g is n;
    /// - binary groups: at most `digits(n - 1)`;
    /// - exponential groups: at most `2 * digits(g) + 1`.
    #[inline]
    fn next(&mut self) -> Option<&'a [T]> {
        self.next_at(End::Front)
    }

    /// No groups where nothing remains, and else at least one and at most as many as elements remain.
    #[inline]
    fn size_hint(&self) -> (usize, Option<usize>)
        ensures value { result
            ≡ (if nat_eq (length (groups_of self.now).remainder) 0 then (0, Some 0)
            else (1, Some (length (groups_of self.now).remainder))) }
        ensures lower { IsWithinCount result.0 (groups_to_come (groups_of self.now)) }
        ensures upper { IfSome result.1 (UpTo (groups_to_come (groups_of self.now))) }
    {
        let len = self.remainder_len();
        (len.min(1), Some(len))
    }
}

impl<'a, T, J: Judge<T> + Drop, W: Way> DoubleEndedIterator for SliceGroups<'a, T, J, W> {
    ghost use Rattle.sgb_groups.specs.Gives.{groups_of, Gives};

    ghost can_next_back = { λ s. IsCallableBy (W.allowed T) J.Judge (groups_of s) };

    ghost next_back_gives = { Gives (W.asks T J J.Judge) Back };

    /// The last group of the remainder, or `None` where nothing remains. It asks as many questions as `next` does for a group of
    /// that length.
    #[inline]
    fn next_back(&mut self) -> Option<&'a [T]> {
        self.next_at(End::Back)
    }
}

impl<'a, T, J: Judge<T> + Drop, W: Way> FusedIterator for SliceGroups<'a, T, J, W> {}

impl<'a, T, J: Judge<T> + Drop, W: Way> SliceGroups<'a, T, J, W> {
    ghost use Rattle.sgb_groups.specs.Gives.{groups_of, Gives};
    ghost use Rattle.sgb_groups.specs.declared.groups.SliceGroups.{SliceGroups};

    /// The last group of the remainder, or `None` where nothing remains: what `next_back` gives. The iterator is given up.
    ///
    /// It asks what `next_back` asks, which leads the judge to some state `t`. That it asks nothing more was reviewed by hand.
    /// `Iterator::last` walks all groups from the front, and on a slice that is not grouped, binary and exponential groups may
    /// end with another there.
    #[inline]
    pub fn last(mut self) -> Option<&'a [T]>
        requires { IsCallableBy (W.allowed T) J.Judge (groups_of self) }
        ensures { (t : SliceGroups T J W) × Gives (W.asks T J J.Judge) Back self.entry result t }
    {
        self.next_back()
    }
}

impl<'a, T, J: Judge<T>, W: Way> SliceGroups<'a, T, J, W> {
    ghost use Rattle.sgb_groups.specs.Gives.{groups_of, Gives};

    /// For the libraries alone: what `next` gives from the front and `next_back` from the back, by their questions.
    // Public for `GroupQueue`, which asks for no `Drop`. Each caller names its end, and gets a copy for that end alone.
    #[inline(always)]
    pub fn next_at(&mut self, end: End) -> Option<&'a [T]>
        requires { IsCallableBy (W.allowed T) J.Judge (groups_of self.old) }
        ensures gives { Gives (W.asks T J J.Judge) end self.old result self.new }
        ensures callable { IsCallableBy (W.allowed T) J.Judge (groups_of self.new) }
    {
        let (low, high) = self.places()?;
        let slice = self.slice;
        let len = W::group_len(end, slice, low, high, &mut self.judge);
        match end {
            End::Front => {
                self.low = low + len;
                Some(&slice[low..low + len])
            }
            End::Back => {
                self.high = high - len;
                Some(&slice[high - len..high])
            }
        }
    }
}
