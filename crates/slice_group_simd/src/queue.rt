//! The groups by masks as a queue, as calls of linear groups, with offsets, and with the class of bytes as their key.
ghost use Rattle.std.specs.Prelude.{◌≡◌, ◌<◌, length, refl, ⊤};

use crate::byte_classes::{ByteClasses, ClassJudge};
use crate::mask_groups::MaskGroups;
use sgb_linear_group::linear_group::Linear;
use sgb_numbers::masks::MaskJudge;
use slice_group_by::GroupQueue;
use slice_group_by::adapters::{Keyed, Offsets};
use slice_group_by::laws::{Judged, RemainderLen, SliceQueue};

impl<'a, T, J: MaskJudge<T> + Drop> GroupQueue for MaskGroups<'a, T, J> {
    type Item = &'a [T];

    ghost use Rattle.std.specs.Prelude.{true, length, option_copied};
    ghost use Rattle.slice_group_simd.specs.Gives.{call};
    ghost use Rattle.slice_group_simd.specs.Gives.{groups_of, Gives};
    ghost use Rattle.sgb_split.specs.Judges.{IsRunOf};
    ghost use Rattle.sgb_split.specs.Linear.{IsSettled, LinearQuestions};
    ghost use Rattle.sgb_split.specs.Split.{neighbours};
    ghost use Rattle.sgb_split.proofs.Linear.LinearQueue as laws;
    ghost use Rattle.sgb_split.proofs.Questions.Calls.{part, asks_seen};
    ghost use Rattle.sgb_split.proofs.Questions.Runs.{run_of_none, run_of_more};

    type Element = T;

    ghost remainder = { λ q. (groups_of q).remainder };

    ghost shows = { λ group. group.now };

    ghost is_settled = { λ q. IsSettled J.Judge (groups_of q) };

    ghost gives = { Gives J.Judge };

    ghost asked = { λ q r n. IsRunOf J.Judge.may_ask J.Judge.answers n (groups_of q).judge (groups_of r).judge };

    ghost due = { λ q. length (neighbours (groups_of q).remainder) };

    ghost exact = { true };

    #[inline]
    fn pop_front(&mut self) -> Option<&'a [T]> {
        self.next()
    }

    #[inline]
    fn pop_back(&mut self) -> Option<&'a [T]> {
        self.next_back()
    }

    ghost part = { λ e s group t h. part (LinearQuestions J.Judge) e (groups_of s) (option_copied group) (groups_of t)
        (call J.Judge e s group t h) };

    ghost none = { λ _ _ _ h. h.1 };

    ghost piece = { λ e s group t p h. laws.piece J.Judge e (groups_of s) (option_copied group) (groups_of t) p
        (call J.Judge e s group t h) };

    ghost keeps = { λ _ _ _ _ _ _. tt };

    ghost asked_none = { λ q. run_of_none J.Judge.may_ask J.Judge.answers (groups_of q).judge };

    ghost asked_more = { λ q r t. run_of_more J.Judge.may_ask J.Judge.answers (groups_of q).judge (groups_of r).judge
        (groups_of t).judge };

    ghost asks_due = { λ e s group t h. asks_seen _ _ _ groups_of s t
        (laws.asks J.Judge e (groups_of s) (option_copied group) (groups_of t) (call J.Judge e s group t h)) };
}

impl<'a, T: 'a, J: MaskJudge<T> + Drop> SliceQueue<'a, T> for MaskGroups<'a, T, J> {
    ghost shows_now = { λ _. refl };
}

impl<'a, T, J: MaskJudge<T> + Drop> Judged<T, J, Linear> for MaskGroups<'a, T, J> {
    ghost use Rattle.slice_group_simd.specs.Gives.{call};
    ghost use Rattle.slice_group_simd.specs.Gives.{groups_of};

    ghost groups = { groups_of };

    ghost call = { call J.Judge };
}

impl<'a, T, J: MaskJudge<T> + Drop> RemainderLen for MaskGroups<'a, T, J> {
    type Unit = T;

    ghost use Rattle.slice_group_simd.specs.Gives.{groups_of};

    ghost left = { λ q. (groups_of q).remainder };

    #[inline]
    fn remainder_len(&self) -> usize {
        MaskGroups::remainder_len(self)
    }
}

impl<'a, T, J: MaskJudge<T> + Drop> Offsets for MaskGroups<'a, T, J> {
    ghost use Rattle.slice_group_simd.specs.Gives.{place_of};

    ghost place = { place_of };

    ghost units = { λ group. group.now };

    #[inline]
    fn offset(&self) -> usize {
        MaskGroups::offset(self)
    }

    #[inline]
    fn group_len(group: &Self::Item) -> usize {
        group.len()
    }

    ghost takes = { λ e q group t h. record { nonempty = h.call.nonempty; part = h.call.cut; moves = h.place } };
}

// The class of a group of bytes is its key.
impl<'a, C: ByteClasses> Keyed for MaskGroups<'a, u8, ClassJudge<C>> {
    type Key = C::Class;

    ghost use Rattle.std.specs.Prelude.{ℕ, Some, slice_get, option_copied};
    ghost use Rattle.std.proofs.Common.{◌∙◌, sym, ap, subst};
    ghost use Rattle.slice_group_simd.specs.Gives.{call};
    ghost use Rattle.slice_group_simd.specs.Classes.{by_class};
    ghost use Rattle.slice_group_simd.specs.Gives.{groups_of};
    ghost use Rattle.sgb_split.specs.Linear.{IsSettled};
    ghost use Rattle.sgb_split.proofs.Linear.LinearQueue as laws;
    ghost use Rattle.sgb_split.proofs.Lists.Ends.{less_remains};

    ghost key_callable = { λ _. ⊤ };

    ghost is_keyed = { λ q key. ((x : ℕ) → key x ≡ C.class_of x)
        × IsSettled (by_class C.class_of C.Class.eq) (groups_of q) (λ x y. C.Class.eq (key x) (key y)) };

    ghost has_key = { λ group. 0 < length group.now };

    ghost same_key = { C.Class.eq };

    ghost calls_key = { λ q group k t. ((x : ℕ) × (slice_get group.now 0 ≡ Some x) × (k ≡ C.class_of x)) × (t ≡ q) };

    #[inline]
    fn first_key(&mut self, group: &&'a [u8]) -> C::Class {
        C::class(group[0])
    }

    ghost may_pop = { λ _ _. tt };

    ghost fewer = { λ e q group t h. less_remains e group.now (groups_of t).remainder _ h.call.nonempty h.call.cut };

    ghost pop_has_key = { λ _ _ _ _ h. h.call.nonempty };

    ghost pop_callable = { λ _ _ _ _ _ _. tt };

    ghost call_leaves = { λ q group k t h. (ap (λ u. (groups_of u).remainder) h.1, ap (λ u. (groups_of u).remainder) h.1) };

    ghost pop_keyed = { λ e q group t key h by.
        let piece = laws.piece (by_class C.class_of C.Class.eq) e (groups_of q) (option_copied group) (groups_of t)
        (λ x y. C.Class.eq (key x) (key y)) (call (by_class C.class_of C.Class.eq) e q group t h) by.1 in
        (piece.0, (by.0, piece.1)) };

    ghost call_keyed = { λ q group k t key h by. (
      (h.0.0, h.0.1, h.0.2 ∙ sym (by.0 h.0.0)),
      (
        by.0,
        subst (λ u. IsSettled (by_class C.class_of C.Class.eq) (groups_of u) (λ x y. C.Class.eq (key x) (key y))) (sym h.1) by.1,
      ),
    ) };
}
