//! The groups of a slice for writing, over any judge and any way to find where a group ends.
ghost use Rattle.std.specs.Prelude.{◌∷◌, ◌++◌, drop, ◌≡◌, ◌<◌, ◌+◌, [], length, Option, nat_eq, IfSome, if◌then◌else◌};
ghost use Rattle.sgb_split.specs.Calls.{IsCallableBy};
ghost use Rattle.std.specs.Iterator.{UpTo};
ghost use Rattle.std.specs.Iterator.SizeHint.{IsWithinCount};
ghost use Rattle.sgb_split.specs.declared.end.End.TheVariants.{Front, Back};
ghost use Rattle.sgb_loans.specs.Loans.{NothingOut, groups_mut_to_come};

use crate::way::Way;
use sgb_loans::loans::{Ended, Last, Loans};
use sgb_split::end::End;
use sgb_split::judge::Judge;
use std::iter::FusedIterator;
use std::marker::{Model, PhantomData};
use std::mem;

/// An iterator over the groups of a slice for writing, from both ends. It asks what `SliceGroups` asks, and gives the same
/// groups.
///
/// Contracts see of it its `remainder` (the elements that it has not handed out yet), its `judge`, and which parts of the
/// input are out (`loans`). To learn what the whole input ends as, note each group in the order in which the groups came, by
/// `note_front` and `note_back`, and then call `finish`. These calls ask nothing and run no code but moves.
#[derive(Drop)]
#[must_use = "iterators are lazy and do nothing unless consumed"]
pub struct SliceGroupsMut<'a, T, J, W> {
    slice: &'a mut [T],
    pub(crate) judge: J,
    loans: Loans<T>,
    way: PhantomData<W>,
}

impl<'a, T, J, W> Model for SliceGroupsMut<'a, T, J, W> {
    ghost use Rattle.std.specs.Prelude.{◌≡◌};
    ghost use Rattle.sgb_loans.specs.Loans.{GroupsMut};

    ghost Value = { GroupsMut T J };

    ghost view = { λ s. record { remainder = s.slice.now; judge = s.judge; loans = s.loans } };

    ghost invariant = { λ s. s.loans.rest ≡ s.slice.ghost_name };
}

impl<'a, T, J, W> SliceGroupsMut<'a, T, J, W> {
    // All groups of the slice are still to come.
    #[inline]
    pub(crate) fn with_judge(slice: &'a mut [T], judge: J) -> Self
        ensures remainder { result.remainder ≡ slice.old }
        ensures judge { result.judge ≡ judge }
        ensures loans { NothingOut slice.entry.ghost_name result.loans }
    {
        let (slice, loans) = Loans::open(slice);
        SliceGroupsMut {
            slice,
            judge,
            loans,
            way: PhantomData,
        }
    }

    /// The elements that no call has handed out yet.
    #[inline]
    pub fn remainder(&self) -> &[T]
        ensures { result.now ≡ self.now.remainder }
    {
        self.slice
    }

    /// How many elements no call has handed out yet.
    #[inline]
    pub fn remainder_len(&self) -> usize
        ensures { result ≡ length self.now.remainder }
    {
        self.slice.len()
    }

    /// Whether all elements are handed out.
    #[inline]
    pub fn is_empty(&self) -> bool
        ensures { result ≡ nat_eq (length self.now.remainder) 0 }
    {
        self.remainder_len() == 0
    }
}

impl<'a, T, J: Drop, W> SliceGroupsMut<'a, T, J, W> {
    /// Takes note of how the oldest group that is out was left, which came off at the front.
    #[inline]
    pub fn note_front(&mut self, group: Ended<'_, T>)
        requires { self.old.loans.cuts ≡ (Front, group.name) ∷ drop 1 self.old.loans.cuts }
        ensures remainder { self.new.remainder ≡ self.old.remainder }
        ensures judge { self.new.judge ≡ self.old.judge }
        ensures root { self.new.loans.root ≡ self.old.loans.root }
        ensures before { self.new.loans.before ≡ self.old.loans.before ++ group.entry.value }
        ensures after { self.new.loans.after ≡ self.old.loans.after }
        ensures cuts { self.new.loans.cuts ≡ drop 1 self.old.loans.cuts }
    {
        self.loans.note(&End::Front, group);
    }

    /// Takes note of how the oldest group that is out was left, which came off at the back.
    #[inline]
    pub fn note_back(&mut self, group: Ended<'_, T>)
        requires { self.old.loans.cuts ≡ (Back, group.name) ∷ drop 1 self.old.loans.cuts }
        ensures remainder { self.new.remainder ≡ self.old.remainder }
        ensures judge { self.new.judge ≡ self.old.judge }
        ensures root { self.new.loans.root ≡ self.old.loans.root }
        ensures before { self.new.loans.before ≡ self.old.loans.before }
        ensures after { self.new.loans.after ≡ group.entry.value ++ self.old.loans.after }
        ensures cuts { self.new.loans.cuts ≡ drop 1 self.old.loans.cuts }
    {
        self.loans.note(&End::Back, group);
    }

    /// The elements that no call has handed out yet, for writing, with what is known of the input. The judge is given up.
    #[inline]
    pub fn into_parts(self) -> (&'a mut [T], Loans<T>)
        ensures remainder { result.0.now ≡ self.entry.remainder }
        ensures name { result.0.ghost_name ≡ self.entry.loans.rest }
        ensures loans { result.1 ≡ self.entry.loans }
    {
        let SliceGroupsMut { slice, loans, .. } = self;
        (slice, loans)
    }

    /// The elements that no call has handed out yet, for writing. The iterator is given up, and the loans with it: where
    /// it is wanted what the input ends as, call `into_parts`.
    #[inline]
    pub fn into_remainder(self) -> &'a mut [T]
        ensures value { result.now ≡ self.entry.remainder }
        ensures name { result.ghost_name ≡ self.entry.loans.rest }
    {
        self.into_parts().0
    }

    /// No group is out: what remains stays as it is, and so the whole input is known.
    #[inline]
    pub fn finish(self) -> Ended<'a, T>
        requires { self.loans.cuts ≡ [] }
        ensures name { result.name ≡ self.entry.loans.root }
        ensures value { result.value ≡ self.entry.loans.before ++ (self.entry.remainder ++ self.entry.loans.after) }
    {
        let (rest, loans) = self.into_parts();
        loans.close(Ended::of(rest))
    }
}

impl<'a, T, J: Judge<T> + Drop, W: Way> Iterator for SliceGroupsMut<'a, T, J, W> {
    type Item = &'a mut [T];

    ghost use Rattle.sgb_groups.specs.Gives.{GivesMut, groups_of_mut};

    ghost can_next = { λ s. IsCallableBy (W.allowed T) J.Judge (groups_of_mut s) };

    ghost next_gives = { GivesMut (W.asks T J J.Judge) Front };

    ghost remaining = { groups_mut_to_come };

    /// The first group of the remainder, or `None` if nothing remains. Questions for a group of g of the n elements that remain:
    ///
    /// - linear groups: g, or g - 1 where g is n;
    /// - binary groups: at most `digits(n - 1)`;
    /// - exponential groups: at most `2 * digits(g) + 1`.
    #[inline]
    fn next(&mut self) -> Option<&'a mut [T]> {
        self.next_at(End::Front)
    }

    /// No groups where nothing remains, and else at least one and at most as many as elements remain.
    #[inline]
    fn size_hint(&self) -> (usize, Option<usize>)
        ensures value { result ≡ (if nat_eq (length self.now.remainder) 0 then (0, Some 0)
            else (1, Some (length self.now.remainder))) }
        ensures lower { IsWithinCount result.0 (groups_mut_to_come self.now) }
        ensures upper { IfSome result.1 (UpTo (groups_mut_to_come self.now)) }
    {
        let len = self.remainder_len();
        (len.min(1), Some(len))
    }
}

impl<'a, T, J: Judge<T> + Drop, W: Way> DoubleEndedIterator for SliceGroupsMut<'a, T, J, W> {
    ghost use Rattle.sgb_groups.specs.Gives.{GivesMut, groups_of_mut};

    ghost can_next_back = { λ s. IsCallableBy (W.allowed T) J.Judge (groups_of_mut s) };

    ghost next_back_gives = { GivesMut (W.asks T J J.Judge) Back };

    /// The last group of the remainder, or `None` where nothing remains. It asks as many questions as `next` does for a group of
    /// that length.
    #[inline]
    fn next_back(&mut self) -> Option<&'a mut [T]> {
        self.next_at(End::Back)
    }
}

impl<'a, T, J: Judge<T> + Drop, W: Way> FusedIterator for SliceGroupsMut<'a, T, J, W> {}

impl<'a, T, J: Judge<T> + Drop, W: Way> SliceGroupsMut<'a, T, J, W> {
    ghost use Rattle.std.specs.Borrow.{sem};
    ghost use Rattle.sgb_loans.specs.Loans.{GroupsMut, IsLastOf, input_ends_after};
    ghost use Rattle.sgb_groups.specs.Gives.{GivesMut, groups_of_mut};

    /// The last group of the remainder, or `None` where nothing remains: what `next_back` gives, by its questions. The
    /// iterator is given up. `Iterator::last` walks all groups from the front.
    ///
    /// What remains stays as it is: the input ends as what it was, but for this group and the parts that were out before. That
    /// it asks nothing more was reviewed by hand.
    #[inline]
    pub fn last(self) -> Option<&'a mut [T]>
        requires { IsCallableBy (W.allowed T) J.Judge (groups_of_mut self) }
        ensures* ends { sem 𝓛 (input_ends_after T.row self.entry.loans self.entry.remainder result) }
        ensures gives { (t : GroupsMut T J) × GivesMut (W.asks T J J.Judge) Back self.entry result t }
    {
        self.take_last().into_part()
    }

    // The end of the walk, after one more group from the back.
    #[inline]
    fn take_last(mut self) -> Last<'a, T>
        requires { IsCallableBy (W.allowed T) J.Judge (groups_of_mut self) }
        ensures gives { (t : GroupsMut T J) × GivesMut (W.asks T J J.Judge) Back self.entry result.part t }
        ensures last { IsLastOf self.entry.remainder self.entry.loans result }
    {
        let part = self.next_back();
        let (rest, loans) = self.into_parts();
        Last {
            part,
            rest: Ended::of(rest),
            loans,
        }
    }
}

impl<'a, T, J: Judge<T>, W: Way> SliceGroupsMut<'a, T, J, W> {
    ghost use Rattle.sgb_groups.specs.Gives.{GivesMut, groups_of_mut};

    /// For the libraries alone: what `next` gives from the front and `next_back` from the back, by their questions.
    // Public for `GroupQueue`, which asks for no `Drop`. Each caller names its end, and gets a copy for that end alone.
    #[inline(always)]
    pub fn next_at(&mut self, end: End) -> Option<&'a mut [T]>
        requires { IsCallableBy (W.allowed T) J.Judge (groups_of_mut self.old) }
        ensures gives { GivesMut (W.asks T J J.Judge) end self.old result self.new }
        ensures callable { IsCallableBy (W.allowed T) J.Judge (groups_of_mut self.new) }
    {
        // Not `is_empty`, which would lend the slice once more: the borrow check refuses that.
        if self.slice.len() == 0 {
            return None;
        }
        let all = mem::take(&mut self.slice);
        let len = W::group_len(end, all, 0, all.len(), &mut self.judge);
        let (group, rest) = self.loans.cut(&end, all, len);
        self.slice = rest;
        Some(group)
    }
}
