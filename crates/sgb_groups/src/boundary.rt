//! A place between two groups, to cut a slice at.
ghost use Rattle.std.specs.Prelude.{◌≡◌, ◌<◌, ◌≤◌, ◌+◌, ◌-◌, ℕ, Bool, length, drop, min, slice_range};
ghost use Rattle.sgb_split.specs.Calls.{IsCallableBy, IsGroupAt};
ghost use Rattle.sgb_split.specs.Split.{IsAccepted};
ghost use Rattle.sgb_split.specs.declared.end.End.TheVariants.{Front};
ghost use Rattle.sgb_groups.specs.Boundaries.{PartsAt};
ghost use Rattle.sgb_groups.specs.Gives.{groups_of};

use crate::groups::SliceGroups;
use crate::way::Way;
use sgb_split::end::End;
use sgb_split::judge::Judge;

impl<'a, T, J: Judge<T>, W: Way> SliceGroups<'a, T, J, W> {
    // The rest of the group of the element at the place, from that element on, by one call. What stands before is left out.
    #[inline]
    pub(crate) fn next_from(&mut self, place: usize) -> &'a [T]
        requires callable { IsCallableBy (W.allowed T) J.Judge (groups_of self.old) }
        requires within { place < length (groups_of self.old).remainder }
        ensures call { IsGroupAt (W.asks T J J.Judge) Front
            (record { remainder = drop place (groups_of self.old).remainder; judge = (groups_of self.old).judge }) result.now
            (groups_of self.new) }
        ensures within { place + length result.now ≤ length (groups_of self.old).remainder }
        ensures callable { IsCallableBy (W.allowed T) J.Judge (groups_of self.new) }
    {
        self.skip_front(place);
        // Not `unwrap_or(&[])`, which gets no proof.
        match self.next_at(End::Front) {
            Some(rest) => rest,
            None => &[],
        }
    }
}

impl<'a, T, J: Judge<T> + Drop, W: Way> SliceGroups<'a, T, J, W> {
    /// The first place at or behind `index` in the remainder where a group begins, or the length of the remainder. At 0 it is 0.
    ///
    /// Cut there, the two parts have the groups of the whole, so that they can be walked apart: what `str::ceil_char_boundary` is for
    /// characters. It costs one call of these groups, from the element before `index` on, and asks nothing at 0 or beyond the
    /// remainder. Binary and exponential groups need a grouped slice.
    ///
    /// The closure must be callable along all that remains. To ask less, cut first: `LinearGroup::new(&slice[index - 1..])`, and add
    /// the length of its first group to `index - 1`.
    ///
    /// ```
    /// let place = LinearGroup::new(&[1, 1, 1, 3, 3, 2]).boundary(4);
    /// // 5; of index 3 it is 3
    /// ```
    #[must_use]
    #[inline]
    pub fn boundary(mut self, index: usize) -> usize
        requires { IsCallableBy (W.allowed T) J.Judge (groups_of self) }
        ensures within { result ≤ length (groups_of self.entry).remainder }
        ensures behind { min index (length (groups_of self.entry).remainder) ≤ result }
        ensures inside { (p : T → T → Bool) → W.settled T J J.Judge (groups_of self.entry) p
            → IsAccepted p (slice_range (groups_of self.entry).remainder (index - 1) result) }
        ensures parts { (p : T → T → Bool) → W.settled T J J.Judge (groups_of self.entry) p
            → PartsAt p (groups_of self.entry).remainder result }
        ensures zero { index ≡ 0 → result ≡ 0 }
        ensures first { (p : T → T → Bool) → W.settled T J J.Judge (groups_of self.entry) p
            → (n : ℕ) → index ≤ n → PartsAt p (groups_of self.entry).remainder n → result ≤ n }
        ensures questions { 0 < index → index ≤ length (groups_of self.entry).remainder
            → (t : J) × W.asks T J J.Judge Front (drop (index - 1) (groups_of self.entry).remainder) (result - (index - 1))
            (groups_of self.entry).judge t }
    {
        let len = self.remainder_len();
        if index == 0 || len < index {
            return index.min(len);
        }
        index - 1 + self.next_from(index - 1).len()
    }
}
