//! Groups with the places at which they begin.
ghost use Rattle.std.specs.Prelude.{◌≡◌, ℕ, ◌+◌, ◌<◌, ◌^◌, List, length, map, nat_eq, Some, IfSome, if◌then◌else◌};
ghost use Rattle.std.specs.Iterator.{Drains, Yields, UpTo};
ghost use Rattle.std.specs.Iterator.SizeHint.{IsWithinCount};
ghost use Rattle.std.specs.Borrow.{Bor};
ghost use Rattle.std.specs.List.{AllByRecursion};
ghost use Rattle.std.specs.Str.{IsCharBoundary, IsUtf8};
ghost use Rattle.std.proofs.lemmas.Iterator.{YieldsList};
ghost use Rattle.sgb_split.specs.Calls.{Place, StandsAt};
ghost use Rattle.sgb_split.specs.Split.{split};
ghost use Rattle.slice_group_by.specs.Keyed.{GivesWithKey, groups_within, keyed_at};
ghost use Rattle.slice_group_by.specs.declared.adapters.keyed.WithKeys.{WithKeys};
ghost use Rattle.sgb_split.specs.declared.end.End.{End};
ghost use Rattle.sgb_linear_str_group.specs.Texts.{GivesText, text_groups_of, text_place_of};
ghost use Rattle.sgb_linear_str_group.specs.declared.text_groups.LinearStrGroups.{LinearStrGroups};
ghost use Rattle.slice_group_by.specs.declared.adapters.offsets.WithOffsets.{WithOffsets};
ghost use Rattle.sgb_split.specs.declared.end.End.TheVariants.{Front, Back};
ghost use Rattle.slice_group_by.specs.Offsets.{TakesUnits, GivesWithOffset, groups_under, offsets_to_come, with_offsets};

use crate::adapters::keyed::{Keyed, WithKeys, sees_keys};
use crate::laws::queue::{GroupQueue, RemainderLen};
use sgb_groups::groups::SliceGroups;
use sgb_groups::way::Way;
use sgb_linear_str_group::text_groups::LinearStrGroups;
use sgb_linear_str_group::text_judge::TextJudge;
use sgb_split::judge::Judge;
use std::iter::FusedIterator;

/// Groups that know where what remains begins in their input, in elements of a slice or bytes of a text: what `with_offsets`
/// takes.
///
/// ```
/// let mut groups = LinearGroup::new(&[1, 1, 2]);
/// groups.next();   // Some([1, 1])
/// groups.offset(); // 2
/// ```
pub trait Offsets: GroupQueue + RemainderLen {
    // The input, and where the remainder begins in it.
    ghost place: { Self → Place Self.Unit };

    // A group, in units of the input.
    ghost units: { Self.Item → List Self.Unit };

    /// Where the remainder begins in the input: how much calls at the front have handed out.
    fn offset(&self) -> usize
        ensures offset { result ≡ (place self.now).offset }
        ensures stands { StandsAt (place self.now) (Self.left self.now) }
        ensures fits { result + length (Self.left self.now) < 2 ^ 64 };

    /// How long a group is.
    fn group_len(group: &Self::Item) -> usize
        ensures { result ≡ length (units group.now) };

    // A group is a nonempty part of what remains, and what remains then begins behind one that came off the front.
    ghost takes: { (e : End) (q : Self) (group : Self.Item) (t : Self) → Self.gives e q (Some group) t
        → TakesUnits place Self.left units e q group t };
}

/// Groups, each with the offset at which it begins in the input: what `with_offsets` gives.
#[derive(Clone, Debug, Drop)]
#[must_use = "iterator adaptors are lazy and do nothing unless consumed"]
pub struct WithOffsets<Q> {
    pub(crate) groups: Q,
}

/// Where the groups stand that calls at one end give: each in the input at its offset, whatever the judge answers. From the front
/// an offset is the sum of the lengths of the groups before it (`front`), as a loop or an adapter sees them (`yields`, which takes what
/// `sees_pieces` says of the groups).
pub fn groups_stand<Q: Offsets>(_groups: &WithOffsets<Q>)
    ensures each { (e : End) (q t : WithOffsets Q) (items : List (ℕ × Q.Item))
        → Yields (GivesWithOffset Q.place Q.left Q.units Q.gives e) q items t
        → AllByRecursion (λ x. StandsAt (record { input = (Q.place (groups_under q)).input; offset = x.0 }) (Q.units x.1)) items }
    ensures front { (q t : WithOffsets Q) (items : List (ℕ × Q.Item))
        → Yields (GivesWithOffset Q.place Q.left Q.units Q.gives Front) q items t
        → map (λ x. (x.0, Q.units x.1)) items
        ≡ with_offsets (Q.place (groups_under q)).offset (map (λ x. Q.units x.1) items) }
    ensures yields { (q : WithOffsets Q) (parts : List (List Q.Unit))
        → YieldsList (GivesWithOffset Q.place Q.left Q.units Q.gives Front) (λ x. Q.units x.1) q parts
        → YieldsList (GivesWithOffset Q.place Q.left Q.units Q.gives Front) (λ x. (x.0, Q.units x.1)) q
        (with_offsets (Q.place (groups_under q)).offset parts) }
{}

/// What a loop or an adapter sees of groups with places and keys, of `with_offsets().with_keys()`, from the front: the pieces in
/// order, each with the key of its first element and the place at which it begins.
///
/// The groups are of a slice, so that a group is as long as what it shows (`λ _. refl`), and a call of the key function moves no
/// place: of groups by a key `λ q group k t h. h.2`.
/// May change.
pub fn sees_keys_at<Q: Offsets + Keyed>(groups: &WithKeys<WithOffsets<Q>>)
    ensures { (key : Q.Element → Q.Key) (s : WithKeys (WithOffsets Q))
        → ((group : Q.Item) → length (Q.units group) ≡ length (Q.shows group))
        → ((q : Q) (group : Q.Item) (k : Q.Key) (t : Q) → Q.calls_key q group k t → Q.place t ≡ Q.place q)
        → Q.is_keyed (groups_under (groups_within s)) key
        → YieldsList (GivesWithKey (GivesWithOffset Q.place Q.left Q.units Q.gives)
        (λ q item k t. Q.calls_key q.groups item.1 k t.groups) Front) (λ x. (x.0, (x.1.0, Q.shows x.1.1))) s
        (keyed_at key (Q.place (groups_under (groups_within s))).offset
        (split (λ x y. Q.same_key (key x) (key y)) (Q.remainder (groups_under (groups_within s))))) }
{
    sees_keys(groups);
}

/// The groups of a text begin and end between characters, whatever the judge answers, so that `&text[start..end]` is a text.
/// May change.
pub fn texts_stand<'a, J: TextJudge>(_groups: &WithOffsets<LinearStrGroups<'a, J>>)
    ensures { (e : End) (q t : WithOffsets (LinearStrGroups J)) (items : List (ℕ × Bor (List ℕ)))
        → IsUtf8 (text_place_of (groups_under q)).input
        → Yields (GivesWithOffset text_place_of (λ s. (text_groups_of s).text) (λ group. group.now) (GivesText J.Judge) e) q items t
        → AllByRecursion (λ x. IsCharBoundary (text_place_of (groups_under q)).input x.0
        × IsCharBoundary (text_place_of (groups_under q)).input (x.0 + length x.1.now)) items }
{}

impl<Q: Offsets + Drop> Iterator for WithOffsets<Q> {
    type Item = (usize, Q::Item);

    ghost use Rattle.slice_group_by.specs.Offsets.{GivesWithOffset, groups_under, offsets_to_come};

    ghost can_next = { λ s. Q.can_pop s.groups };

    ghost next_gives = { GivesWithOffset Q.place Q.left Q.units Q.gives Front };

    ghost remaining = { offsets_to_come Q.left };

    /// The first group of the remainder, and where it begins, or `None` where nothing remains.
    #[inline]
    fn next(&mut self) -> Option<(usize, Q::Item)> {
        self.pop_front()
    }

    /// No groups where nothing remains, and else at least one and at most as many as elements or bytes remain.
    #[inline]
    fn size_hint(&self) -> (usize, Option<usize>)
        ensures value { result ≡ (if nat_eq (length (Q.left (groups_under self.now))) 0 then (0, Some 0)
            else (1, Some (length (Q.left (groups_under self.now))))) }
        ensures lower { IsWithinCount result.0 (offsets_to_come Q.left self.now) }
        ensures upper { IfSome result.1 (UpTo (offsets_to_come Q.left self.now)) }
    {
        let len = self.groups.remainder_len();
        (len.min(1), Some(len))
    }
}

impl<Q: Offsets + Drop> DoubleEndedIterator for WithOffsets<Q> {
    ghost use Rattle.slice_group_by.specs.Offsets.{GivesWithOffset, groups_under};

    ghost can_next_back = { λ s. Q.can_pop s.groups };

    ghost next_back_gives = { GivesWithOffset Q.place Q.left Q.units Q.gives Back };

    /// The last group of the remainder, and where it begins, or `None` where nothing remains.
    #[inline]
    fn next_back(&mut self) -> Option<(usize, Q::Item)> {
        self.pop_back()
    }
}

impl<'a, T, J: Judge<T>, W: Way> Offsets for SliceGroups<'a, T, J, W> {
    ghost use Rattle.sgb_groups.specs.Gives.{place_of};

    ghost place = { place_of };

    ghost units = { λ group. group.now };

    #[inline]
    fn offset(&self) -> usize {
        SliceGroups::offset(self)
    }

    #[inline]
    fn group_len(group: &Self::Item) -> usize {
        group.len()
    }

    ghost takes = { λ e q group t h. record { nonempty = h.call.nonempty; part = h.call.cut; moves = h.place } };
}

impl<'a, J: TextJudge> Offsets for LinearStrGroups<'a, J> {
    ghost use Rattle.sgb_linear_str_group.specs.Texts.{text_place_of};

    ghost place = { text_place_of };

    ghost units = { λ group. group.now };

    #[inline]
    fn offset(&self) -> usize {
        LinearStrGroups::offset(self)
    }

    #[inline]
    fn group_len(group: &Self::Item) -> usize {
        group.len()
    }

    ghost takes = { λ e q group t h. record { nonempty = h.call.nonempty; part = h.call.cut; moves = h.place } };
}

impl<Q: Offsets + Drop> FusedIterator for WithOffsets<Q> {}

impl<Q: Offsets> GroupQueue for WithOffsets<Q> {
    type Item = (usize, Q::Item);

    ghost use Rattle.std.specs.Prelude.{option_map};
    ghost use Rattle.slice_group_by.specs.Offsets.{GivesWithOffset};
    ghost use Rattle.std.proofs.Common.{ap};
    ghost use Rattle.sgb_split.specs.Split.{TakesPart, TakesPiece};
    ghost use Rattle.sgb_split.proofs.Questions.Calls.{read_at_once, asks_seen};

    type Element = Q::Element;

    ghost remainder = { λ s. Q.remainder s.groups };

    ghost shows = { λ item. Q.shows item.1 };

    ghost is_settled = { λ s. Q.is_settled s.groups };

    ghost gives = { GivesWithOffset Q.place Q.left Q.units Q.gives };

    ghost asked = { λ s t. Q.asked s.groups t.groups };

    ghost due = { λ s. Q.due s.groups };

    ghost exact = { Q.exact };

    ghost can_pop = { λ s. Q.can_pop s.groups };

    #[inline]
    fn pop_front(&mut self) -> Option<(usize, Q::Item)> {
        let offset = self.groups.offset();
        let group = self.groups.pop_front()?;
        Some((offset, group))
    }

    #[inline]
    fn pop_back(&mut self) -> Option<(usize, Q::Item)> {
        let end = self.groups.offset() + self.groups.remainder_len();
        let group = self.groups.pop_back()?;
        Some((end - Q::group_len(&group), group))
    }

    ghost part = { λ e s item t h. read_at_once (λ o. TakesPart e (Q.remainder s.groups) o (Q.remainder t.groups))
        Q.shows (λ x. x.1) item (Q.GroupQueue.part e s.groups (option_map (λ x. x.1) item) t.groups h.0) };

    ghost none = { λ e s t h. ap (λ q. record { groups = q }) (Q.GroupQueue.none e s.groups t.groups h.0) };

    ghost piece = { λ e s item t p h settled. read_at_once
        (λ o. TakesPiece p e (Q.remainder s.groups) o (Q.remainder t.groups) × Q.is_settled t.groups p)
        Q.shows (λ x. x.1) item (Q.GroupQueue.piece e s.groups (option_map (λ x. x.1) item) t.groups p h.0 settled) };

    ghost keeps = { λ e s item t h. Q.GroupQueue.keeps e s.groups (option_map (λ x. x.1) item) t.groups h.0 };

    ghost asked_none = { λ s. Q.GroupQueue.asked_none s.groups };

    ghost asked_more = { λ r s t. Q.GroupQueue.asked_more r.groups s.groups t.groups };

    ghost asks_due = { λ e s item t h. asks_seen Q.asked Q.due Q.exact (λ u. u.groups) s t
        (Q.GroupQueue.asks_due e s.groups (option_map (λ x. x.1) item) t.groups h.0) };
}

impl<Q: RemainderLen> RemainderLen for WithOffsets<Q> {
    type Unit = Q::Unit;

    ghost left = { λ s. Q.RemainderLen.left s.groups };

    #[inline]
    fn remainder_len(&self) -> usize {
        self.groups.remainder_len()
    }
}

impl<Q: Offsets + Keyed> Keyed for WithOffsets<Q> {
    type Key = Q::Key;

    ghost use Rattle.std.specs.Prelude.{option_map};
    ghost use Rattle.sgb_split.specs.Split.{TakesPiece};
    ghost use Rattle.sgb_split.proofs.Questions.Calls.{read_at_once};

    ghost key_callable = { λ s. Q.Keyed.key_callable s.groups };

    ghost is_keyed = { λ s. Q.Keyed.is_keyed s.groups };

    ghost has_key = { λ item. Q.Keyed.has_key item.1 };

    ghost same_key = { Q.Keyed.same_key };

    ghost calls_key = { λ s item k t. Q.Keyed.calls_key s.groups item.1 k t.groups };

    #[inline]
    fn first_key(&mut self, item: &(usize, Q::Item)) -> Q::Key {
        self.groups.first_key(&item.1)
    }

    ghost may_pop = { λ s callable. Q.Keyed.may_pop s.groups callable };

    ghost fewer = { λ e s item t h. Q.Keyed.fewer e s.groups item.1 t.groups h.0 };

    ghost pop_has_key = { λ e s item t h. Q.Keyed.pop_has_key e s.groups item.1 t.groups h.0 };

    ghost pop_callable = { λ e s item t h. Q.Keyed.pop_callable e s.groups (option_map (λ x. x.1) item) t.groups h.0 };

    ghost call_leaves = { λ s item k t h. Q.Keyed.call_leaves s.groups item.1 k t.groups h };

    ghost pop_keyed = { λ e s item t key h by. read_at_once
        (λ o. TakesPiece (λ x y. Q.Keyed.same_key (key x) (key y)) e (Q.GroupQueue.remainder s.groups) o
        (Q.GroupQueue.remainder t.groups) × Q.Keyed.is_keyed t.groups key)
        Q.GroupQueue.shows (λ x. x.1) item
        (Q.Keyed.pop_keyed e s.groups (option_map (λ x. x.1) item) t.groups key h.0 by) };

    ghost call_keyed = { λ s item k t key h by. Q.Keyed.call_keyed s.groups item.1 k t.groups key h by };
}
