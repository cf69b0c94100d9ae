//! The length and the first element of each group.
ghost use Rattle.std.specs.Prelude.{◌≡◌, Bool, length, nat_eq, IfSome, if◌then◌else◌};
ghost use Rattle.std.specs.Iterator.{UpTo};
ghost use Rattle.std.specs.Iterator.SizeHint.{IsWithinCount};
ghost use Rattle.std.proofs.lemmas.Iterator.{YieldsList};
ghost use Rattle.sgb_split.specs.Split.{from, split};
ghost use Rattle.sgb_split.specs.declared.end.End.{End};
ghost use Rattle.sgb_split.specs.declared.end.End.TheVariants.{Front, Back};
ghost use Rattle.slice_group_by.specs.Dedup.{GivesCounted, counted, counted_groups, counts_to_come};
ghost use Rattle.slice_group_by.specs.declared.adapters.dedup.DedupWithCount.{DedupWithCount};

use crate::adapters::offsets::Offsets;
use crate::laws::queue::{GroupQueue, RemainderLen, SliceQueue};
use std::iter::FusedIterator;
use std::marker::PhantomData;

/// The length and the first element of each group: what `dedup_with_count` gives.
#[derive(Drop)]
#[derive_where(Clone, Debug; Q)]
#[must_use = "iterator adaptors are lazy and do nothing unless consumed"]
pub struct DedupWithCount<'a, T, Q> {
    groups: Q,
    #[derive_where(skip(Debug))]
    first: PhantomData<&'a T>,
}

/// How many elements each group that is still to come has, and its first element. A call asks what a call on the groups
/// asks. Groups of your own must have `Offsets`, as all groups of slices for reading have.
///
/// ```
/// for (count, x) in dedup_with_count(LinearGroup::new(&[1, 1, 1, 3, 3])) {
///     // (3, 1), and then (2, 3)
/// }
/// ```
#[inline]
pub fn dedup_with_count<'a, T: 'a, Q: SliceQueue<'a, T>>(groups: Q) -> DedupWithCount<'a, T, Q>
    ensures { counted_groups result ≡ groups }
{
    DedupWithCount {
        groups,
        first: PhantomData,
    }
}

/// What a loop or an adapter sees of the lengths and first elements of groups that are settled for a test: those of the
/// pieces of the split, in order, and from the back in reverse.
/// May change.
pub fn sees_counts<'a, T: 'a, Q: SliceQueue<'a, T>>(_groups: &DedupWithCount<'a, T, Q>)
    ensures { (p : T → T → Bool) (e : End) (s : DedupWithCount T Q) → Q.GroupQueue.is_settled (counted_groups s) p
        → YieldsList (GivesCounted Q.GroupQueue.gives e) (λ x. (x.0, x.1.now)) s
        (counted (from e (split p (Q.GroupQueue.remainder (counted_groups s))))) }
{}

impl<'a, T: 'a, Q: Offsets + SliceQueue<'a, T> + Drop> Iterator for DedupWithCount<'a, T, Q> {
    type Item = (usize, &'a T);

    ghost use Rattle.slice_group_by.specs.Dedup.{GivesCounted, counts_to_come};

    ghost can_next = { λ s. Q.GroupQueue.can_pop s.groups };

    ghost next_gives = { GivesCounted Q.GroupQueue.gives Front };

    ghost remaining = { counts_to_come Q.RemainderLen.left };

    /// How many elements the first group of the remainder has, and its first element, or `None` where nothing remains.
    #[inline]
    fn next(&mut self) -> Option<(usize, &'a T)> {
        let group = self.groups.pop_front()?;
        Some((group.len(), &group[0]))
    }

    /// No groups where nothing remains, and else at least one and at most as many as elements remain.
    #[inline]
    fn size_hint(&self) -> (usize, Option<usize>)
        ensures value { result ≡ (if nat_eq (length (Q.RemainderLen.left (counted_groups self.now))) 0 then (0, Some 0)
            else (1, Some (length (Q.RemainderLen.left (counted_groups self.now))))) }
        ensures lower { IsWithinCount result.0 (counts_to_come Q.RemainderLen.left self.now) }
        ensures upper { IfSome result.1 (UpTo (counts_to_come Q.RemainderLen.left self.now)) }
    {
        let len = self.groups.remainder_len();
        (len.min(1), Some(len))
    }
}

impl<'a, T: 'a, Q: Offsets + SliceQueue<'a, T> + Drop> DoubleEndedIterator
    for DedupWithCount<'a, T, Q> {
    ghost use Rattle.slice_group_by.specs.Dedup.{GivesCounted};

    ghost can_next_back = { λ s. Q.GroupQueue.can_pop s.groups };

    ghost next_back_gives = { GivesCounted Q.GroupQueue.gives Back };

    /// How many elements the last group of the remainder has, and its first element, or `None` where nothing remains.
    #[inline]
    fn next_back(&mut self) -> Option<(usize, &'a T)> {
        let group = self.groups.pop_back()?;
        Some((group.len(), &group[0]))
    }
}

impl<'a, T: 'a, Q: Offsets + SliceQueue<'a, T> + Drop> FusedIterator for DedupWithCount<'a, T, Q> {}
