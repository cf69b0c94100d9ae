//! The shards of a slice: parts that end where groups end, to be walked apart.
ghost use Rattle.std.specs.Prelude.{◌≡◌, ℕ, ◌+◌, ◌<◌, ◌++◌, Bool, List, length, nat_eq, IfSome, if◌then◌else◌};
ghost use Rattle.std.specs.List.{fold, sum_by};
ghost use Rattle.std.specs.Iterator.{UpTo, at_most};
ghost use Rattle.std.specs.Iterator.SizeHint.{IsWithinCount};
ghost use Rattle.std.proofs.lemmas.Iterator.{YieldsList};
ghost use Rattle.sgb_split.specs.Calls.{IsCallableBy};
ghost use Rattle.sgb_split.specs.Split.{split};
ghost use Rattle.sgb_groups.specs.Gives.{groups_of};
ghost use Rattle.sgb_groups.specs.Shards.{AreShards, CutsShard, GivesShard, groups_to_cut, shards_left};
ghost use Rattle.sgb_groups.specs.declared.shards.Shards.{Shards};

use crate::groups::SliceGroups;
use crate::way::Way;
use sgb_split::judge::Judge;
use std::fmt;
use std::iter::FusedIterator;

/// An iterator over the shards of a slice: what `shards` of its groups gives.
#[derive(Drop)]
#[must_use = "iterators are lazy and do nothing unless consumed"]
pub struct Shards<'a, T, J, W> {
    groups: SliceGroups<'a, T, J, W>,
    count: usize,
}

impl<'a, T, J: Judge<T> + Drop, W: Way> SliceGroups<'a, T, J, W> {
    /// Cuts the remainder where groups end, into at most `count` parts of about the same length (0 counts as 1). None is empty. The
    /// groups of the parts are the groups of the whole, so that each part can be walked apart, also in threads of yours.
    ///
    /// A part is its share of what remains, with the rest of the group that the share ends in. It costs one call of these groups, from
    /// the last element of the share on. Long groups leave fewer parts. Binary and exponential groups need a grouped slice.
    ///
    /// For proofs: `laws::sees_shards`.
    ///
    /// ```
    /// let slice = [1, 1, 1, 3, 3, 2, 2, 2];
    /// for shard in LinearGroup::new(&slice).shards(3) {
    ///     // [1, 1, 1], [3, 3, 2, 2, 2]
    /// }
    /// ```
    #[inline]
    pub fn shards(self, count: usize) -> Shards<'a, T, J, W>
        ensures groups { groups_to_cut result ≡ groups_of self.entry }
        ensures count { shards_left result ≡ count }
        ensures settled { (p : T → T → Bool) → W.settled T J J.Judge (groups_of self.entry) p
            → W.settled T J J.Judge (groups_to_cut result) p }
    {
        Shards {
            groups: self,
            count,
        }
    }

    // The elements up to the place, and the rest of the group of the one that stands there.
    #[inline]
    fn take_shard(&mut self, place: usize) -> &'a [T]
        requires callable { IsCallableBy (W.allowed T) J.Judge (groups_of self.old) }
        requires within { place < length (groups_of self.old).remainder }
        ensures cut { CutsShard (W.asks T J J.Judge) place (groups_of self.old) result.now (groups_of self.new) }
        ensures callable { IsCallableBy (W.allowed T) J.Judge (groups_of self.new) }
    {
        let remainder = self.remainder();
        let rest = self.next_from(place);
        &remainder[..place + rest.len()]
    }
}

impl<'a, T, J: Judge<T> + Drop, W: Way> Iterator for Shards<'a, T, J, W> {
    type Item = &'a [T];

    ghost can_next = { λ s. IsCallableBy (W.allowed T) J.Judge (groups_to_cut s) };

    ghost next_gives = { GivesShard (W.asks T J J.Judge) };

    ghost remaining = { λ s. at_most (length (groups_to_cut s).remainder) };

    /// The next part, or `None` if nothing remains.
    #[inline]
    fn next(&mut self) -> Option<&'a [T]> {
        let len = self.groups.remainder_len();
        if len == 0 {
            return None;
        }
        let shard = self.groups.take_shard((len - 1) / self.count.max(1));
        self.count = self.count.saturating_sub(1);
        Some(shard)
    }

    /// No parts where nothing remains, and else at least one and at most as many as elements remain.
    #[inline]
    fn size_hint(&self) -> (usize, Option<usize>)
        ensures value { result ≡ (if nat_eq (length (groups_to_cut self.now).remainder) 0 then (0, Some 0)
            else (1, Some (length (groups_to_cut self.now).remainder))) }
        ensures lower { IsWithinCount result.0 (at_most (length (groups_to_cut self.now).remainder)) }
        ensures upper { IfSome result.1 (UpTo (at_most (length (groups_to_cut self.now).remainder))) }
    {
        let len = self.groups.remainder_len();
        (len.min(1), Some(len))
    }
}

impl<'a, T: fmt::Debug, J, W> fmt::Debug for Shards<'a, T, J, W> {
    fn fmt<O: fmt::Write>(&self, f: &mut fmt::Formatter<O>) -> fmt::Result {
        let remainder = self.groups.remainder();
        write!(
            f,
            "Shards {{ remainder: {remainder:?}, count: {} }}",
            self.count
        )
    }
}

impl<'a, T, J: Judge<T> + Drop, W: Way> FusedIterator for Shards<'a, T, J, W> {}

/// What a loop or an adapter sees of the shards of groups that are settled for a test: nonempty parts of what remains, `xs`, which
/// joined are the whole, and whose groups are the groups of the whole (`shards`). There are no more than were asked for, or one.
///
/// What adds up over elements, as a sum does, adds up over the shards (`sums`). A number that is folded over the groups of each shard,
/// one shard after another, is folded over the groups of the whole (`fold`).
pub fn sees_shards<T, J: Judge<T> + Drop, W: Way>(_shards: &Shards<'_, T, J, W>)
    ensures shards { (p : T → T → Bool) (s : Shards T J W) (xs : List T) → W.settled T J J.Judge (groups_to_cut s) p
        → (groups_to_cut s).remainder ≡ xs → (shards : List (List T)) × AreShards p (shards_left s) xs shards
        × YieldsList (GivesShard (W.asks T J J.Judge)) (λ x. x.now) s shards }
    ensures sums { (f : List T → ℕ) → ((xs ys : List T) → f (xs ++ ys) ≡ f xs + f ys) → (p : T → T → Bool) (count : ℕ) (xs : List T)
        (shards : List (List T)) → AreShards p count xs shards → sum_by f shards ≡ f xs }
    ensures fold { (op : ℕ → List T → ℕ) (v : ℕ) (p : T → T → Bool) (count : ℕ) (xs : List T) (shards : List (List T))
        → AreShards p count xs shards → fold (λ v shard. fold op v (split p shard)) v shards ≡ fold op v (split p xs) }
{}
