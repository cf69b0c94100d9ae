//! Keys of the groups of a slice.
ghost use Rattle.std.specs.Prelude.{◌≡◌, ◌<◌, length, ⊤};

use crate::adapters::keyed::Keyed;
use sgb_groups::groups::SliceGroups;
use sgb_groups::groups_mut::SliceGroupsMut;
use sgb_groups::way::Way;
use sgb_split::judge::KeyJudge;

impl<'a, T, F: FnMut(&T) -> K, K: PartialEq + Drop, W: Way> Keyed
    for SliceGroups<'a, T, KeyJudge<F, K>, W> {
    type Key = K;

    ghost use Rattle.std.specs.Prelude.{option_copied};
    ghost use Rattle.std.specs.Fn.{CalledAt, ComputesKey};
    ghost use Rattle.std.proofs.Common.{sym, subst};
    ghost use Rattle.sgb_groups.specs.Gives.{groups_of, place_of};
    ghost use Rattle.sgb_groups.proofs.Cuts.{call};
    ghost use Rattle.sgb_split.specs.Judges.{by_key};
    ghost use Rattle.sgb_split.specs.declared.judge.KeyJudge.{KeyJudge};
    ghost use Rattle.sgb_split.proofs.Lists.Ends.{less_remains};
    ghost use Rattle.sgb_split.proofs.Questions.Closures as closures;
    ghost use Rattle.slice_group_by.specs.Keyed.{CallsAtFirst};

    ghost key_callable = { λ q. F.IsAlwaysCallable q.judge.func };

    ghost is_keyed = { λ q key. ComputesKey F.FnMut key q.judge.func
        × W.fits T (λ x y. K.eq (key x) (key y)) (groups_of q).remainder };

    ghost has_key = { λ group. 0 < length group.now };

    ghost same_key = { K.eq };

    ghost calls_key = { λ q group k t. CallsAtFirst (CalledAt F.FnMut) q.judge.func group.now k t.judge.func
        × ((groups_of t).remainder ≡ (groups_of q).remainder) × (place_of t ≡ place_of q) };

    #[inline]
    fn first_key(&mut self, group: &&'a [T]) -> K {
        self.key_of(&group[0])
    }

    ghost may_pop = { λ q callable. closures.key_callable F.FnMut K.eq (W.allowed T (groups_of q).remainder) q.judge.func callable };

    ghost fewer = { λ e q group t h. less_remains e group.now ((groups_of t).remainder) _ h.call.nonempty h.call.cut };

    ghost pop_has_key = { λ _ _ _ _ h. h.call.nonempty };

    ghost pop_callable = { λ e q group t h. closures.key_callable_after F.FnMut K.eq q.judge _ t.judge
        (W.asks_due T (KeyJudge F K) (by_key F.FnMut K.eq) e (groups_of q) (option_copied group) (groups_of t)
        (call (W.asks T (KeyJudge F K) (by_key F.FnMut K.eq)) e q group t h)).asks };

    ghost call_leaves = { λ q group k t h. (h.1, h.1) };

    ghost pop_keyed = { λ e q group t key h by.
        let taken = call (W.asks T (KeyJudge F K) (by_key F.FnMut K.eq)) e q group t h in
        let piece = W.piece T (KeyJudge F K) (by_key F.FnMut K.eq) e (groups_of q) (option_copied group) (groups_of t)
        (λ x y. K.eq (key x) (key y)) taken (W.settled_if_fits T (KeyJudge F K) (by_key F.FnMut K.eq) (groups_of q)
        (λ x y. K.eq (key x) (key y)) (closures.key_settled F.FnMut K.eq key (W.allowed T (groups_of q).remainder) q.judge.func by.0)
        by.1) in (
          piece.0,
          (
            closures.key_computes_after F.FnMut K.eq key q.judge _ t.judge
                (W.asks_due T (KeyJudge F K) (by_key F.FnMut K.eq) e (groups_of q) (option_copied group) (groups_of t) taken).asks by.0,
            W.fits_if_settled T (KeyJudge F K) (by_key F.FnMut K.eq) (groups_of t) (λ x y. K.eq (key x) (key y)) piece.1,
          ),
        ) };

    ghost call_keyed = { λ q group k t key h by.
        let called = closures.key_next F.FnMut K.eq key q.judge.func h.0.0 k t.judge.func by.0 h.0.2 in
        ((h.0.0, h.0.1, called.0), (called.1, subst (λ xs. W.fits T (λ x y. K.eq (key x) (key y)) xs) (sym h.1) by.1)) };
}

impl<'a, T, F: FnMut(&T) -> K, K: PartialEq + Drop, W: Way> Keyed
    for SliceGroupsMut<'a, T, KeyJudge<F, K>, W> {
    type Key = K;

    ghost use Rattle.std.specs.Option.{option_copied_mut};
    ghost use Rattle.std.specs.Fn.{CalledAt, ComputesKey};
    ghost use Rattle.std.proofs.Common.{sym, subst};
    ghost use Rattle.sgb_groups.specs.Gives.{groups_of_mut};
    ghost use Rattle.sgb_split.specs.Judges.{by_key};
    ghost use Rattle.sgb_split.specs.declared.judge.KeyJudge.{KeyJudge};
    ghost use Rattle.sgb_split.proofs.Lists.Ends.{less_remains};
    ghost use Rattle.sgb_split.proofs.Questions.Closures as closures;
    ghost use Rattle.slice_group_by.specs.Keyed.{CallsAtFirst};

    ghost key_callable = { λ q. F.IsAlwaysCallable q.judge.func };

    ghost is_keyed = { λ q key. ComputesKey F.FnMut key q.judge.func
        × W.fits T (λ x y. K.eq (key x) (key y)) q.remainder };

    ghost has_key = { λ group. 0 < length group.now };

    ghost same_key = { K.eq };

    ghost calls_key = { λ q group k t. CallsAtFirst (CalledAt F.FnMut) q.judge.func group.now k t.judge.func
        × (t.remainder ≡ q.remainder) × (t.loans ≡ q.loans) };

    #[inline]
    fn first_key(&mut self, group: &&'a mut [T]) -> K {
        let group: &[T] = group;
        self.key_of(&group[0])
    }

    ghost may_pop = { λ q callable. closures.key_callable F.FnMut K.eq (W.allowed T q.remainder) q.judge.func callable };

    ghost fewer = { λ e q group t h. less_remains e group.now (t.remainder) _ h.0.nonempty h.0.cut };

    ghost pop_has_key = { λ _ _ _ _ h. h.0.nonempty };

    ghost pop_callable = { λ e q group t h. closures.key_callable_after F.FnMut K.eq q.judge _ t.judge
        (W.asks_due T (KeyJudge F K) (by_key F.FnMut K.eq) e (groups_of_mut q) (option_copied_mut group) (groups_of_mut t)
        h.0).asks };

    ghost call_leaves = { λ q group k t h. (h.1, h.1) };

    ghost pop_keyed = { λ e q group t key h by.
        let piece = W.piece T (KeyJudge F K) (by_key F.FnMut K.eq) e (groups_of_mut q) (option_copied_mut group) (groups_of_mut t)
        (λ x y. K.eq (key x) (key y)) h.0 (W.settled_if_fits T (KeyJudge F K) (by_key F.FnMut K.eq) (groups_of_mut q)
        (λ x y. K.eq (key x) (key y)) (closures.key_settled F.FnMut K.eq key (W.allowed T q.remainder) q.judge.func by.0)
        by.1) in (
          piece.0,
          (
            closures.key_computes_after F.FnMut K.eq key q.judge _ t.judge
                (W.asks_due T (KeyJudge F K) (by_key F.FnMut K.eq) e (groups_of_mut q) (option_copied_mut group) (groups_of_mut t) h.0).asks by.0,
            W.fits_if_settled T (KeyJudge F K) (by_key F.FnMut K.eq) (groups_of_mut t) (λ x y. K.eq (key x) (key y)) piece.1,
          ),
        ) };

    ghost call_keyed = { λ q group k t key h by.
        let called = closures.key_next F.FnMut K.eq key q.judge.func h.0.0 k t.judge.func by.0 h.0.2 in
        ((h.0.0, h.0.1, called.0), (called.1, subst (λ xs. W.fits T (λ x y. K.eq (key x) (key y)) xs) (sym h.1) by.1)) };
}
