//! Keys of the groups of a text: the key function takes characters by value.
ghost use Rattle.std.specs.Prelude.{◌≡◌, ◌<◌, length};

use crate::adapters::keyed::Keyed;
use sgb_linear_str_group::text_groups::LinearStrGroups;
use sgb_linear_str_group::text_groups_mut::LinearStrGroupsMut;
use sgb_split::judge::CharKeyJudge;

impl<'a, F: FnMut(char) -> K, K: PartialEq + Drop> Keyed
    for LinearStrGroups<'a, CharKeyJudge<F, K>> {
    type Key = K;

    ghost use Rattle.std.specs.Str.{chars};
    ghost use Rattle.std.proofs.Common.{ap};
    ghost use Rattle.sgb_split.specs.Judges.{by_char_key, CalledAtChar, ComputesCharKey};
    ghost use Rattle.sgb_split.proofs.Lists.Ends.{less_remains};
    ghost use Rattle.sgb_split.proofs.Questions.Closures as closures;
    ghost use Rattle.sgb_linear_str_group.specs.Texts.{text_groups_of, text_place_of};
    ghost use Rattle.sgb_linear_str_group.proofs.Queue as queue;
    ghost use Rattle.slice_group_by.specs.Keyed.{CallsAtFirst};

    ghost key_callable = { λ q. F.IsAlwaysCallable q.judge.func };

    ghost is_keyed = { λ q key. ComputesCharKey F.FnMut key q.judge.func };

    ghost has_key = { λ group. 0 < length (chars group.now) };

    ghost same_key = { K.eq };

    ghost calls_key = { λ q group k t. CallsAtFirst (CalledAtChar F.FnMut) q.judge.func (chars group.now) k t.judge.func
        × ((text_groups_of t).text ≡ (text_groups_of q).text) × (text_place_of t ≡ text_place_of q) };

    #[inline]
    fn first_key(&mut self, group: &&'a str) -> K {
        let Some(first) = group.chars().next() else {
            unreachable!()
        };
        self.key_of(first)
    }

    ghost may_pop = { λ q callable. closures.char_key_callable F.FnMut K.eq (chars (text_groups_of q).text) q.judge.func callable };

    ghost fewer = { λ e q group t h. less_remains e group.now ((text_groups_of t).text) _ h.call.nonempty h.call.cut };

    ghost pop_has_key = { λ _ _ _ _ h. h.call.characters.nonempty };

    ghost pop_callable = { λ e q group t h. closures.char_key_callable_after F.FnMut K.eq q.judge _ t.judge
        (queue.asks (by_char_key F.FnMut K.eq) e text_groups_of (λ x. x.now) q group t
        (queue.call (by_char_key F.FnMut K.eq) e q group t h)).asks };

    ghost call_leaves = { λ q group k t h. (h.1, ap chars h.1) };

    ghost pop_keyed = { λ e q group t key h by.
        let taken = queue.call (by_char_key F.FnMut K.eq) e q group t h in (
          (queue.piece (by_char_key F.FnMut K.eq) e text_groups_of (λ x. x.now) q group t taken (λ x y. K.eq (key x) (key y))
              (closures.char_key_settled F.FnMut K.eq key (chars (text_groups_of q).text) q.judge.func by)).0,
          closures.char_key_computes_after F.FnMut K.eq key q.judge _ t.judge
              (queue.asks (by_char_key F.FnMut K.eq) e text_groups_of (λ x. x.now) q group t taken).asks by,
        ) };

    ghost call_keyed = { λ q group k t key h by.
        let called = closures.char_key_next F.FnMut K.eq key q.judge.func h.0.0 k t.judge.func by h.0.2 in
        ((h.0.0, h.0.1, called.0), called.1) };
}

impl<'a, F: FnMut(char) -> K, K: PartialEq + Drop> Keyed
    for LinearStrGroupsMut<'a, CharKeyJudge<F, K>> {
    type Key = K;

    ghost use Rattle.std.specs.Str.{IsUtf8, chars};
    ghost use Rattle.std.proofs.Common.{ap};
    ghost use Rattle.sgb_split.specs.Judges.{by_char_key, CalledAtChar, ComputesCharKey};
    ghost use Rattle.sgb_split.proofs.Lists.Ends.{less_remains};
    ghost use Rattle.sgb_split.proofs.Questions.Closures as closures;
    ghost use Rattle.sgb_linear_str_group.specs.TextsMut.{text_groups_of_mut};
    ghost use Rattle.sgb_linear_str_group.proofs.Queue as queue;
    ghost use Rattle.slice_group_by.specs.Keyed.{CallsAtFirst};

    ghost key_callable = { λ q. F.IsAlwaysCallable q.judge.func };

    ghost is_keyed = { λ q key. ComputesCharKey F.FnMut key q.judge.func };

    ghost has_key = { λ group. (0 < length (chars group.now)) × IsUtf8 group.now };

    ghost same_key = { K.eq };

    ghost calls_key = { λ q group k t. CallsAtFirst (CalledAtChar F.FnMut) q.judge.func (chars group.now) k t.judge.func
        × (t.text ≡ q.text) × (t.loans ≡ q.loans) };

    #[inline]
    fn first_key(&mut self, group: &&'a mut [u8]) -> K {
        self.first_key_of(group)
    }

    ghost may_pop = { λ q callable. closures.char_key_callable F.FnMut K.eq (chars q.text) q.judge.func callable };

    ghost fewer = { λ e q group t h. less_remains e group.now (t.text) _ h.0.nonempty h.0.cut };

    ghost pop_has_key = { λ _ _ _ _ h. (h.0.characters.nonempty, h.0.group_utf8) };

    ghost pop_callable = { λ e q group t h. closures.char_key_callable_after F.FnMut K.eq q.judge _ t.judge
        (queue.asks (by_char_key F.FnMut K.eq) e text_groups_of_mut (λ x. x.now) q group t h.0).asks };

    ghost call_leaves = { λ q group k t h. (h.1, ap chars h.1) };

    ghost pop_keyed = { λ e q group t key h by. (
      (queue.piece (by_char_key F.FnMut K.eq) e text_groups_of_mut (λ x. x.now) q group t h.0 (λ x y. K.eq (key x) (key y))
          (closures.char_key_settled F.FnMut K.eq key (chars q.text) q.judge.func by)).0,
      closures.char_key_computes_after F.FnMut K.eq key q.judge _ t.judge
          (queue.asks (by_char_key F.FnMut K.eq) e text_groups_of_mut (λ x. x.now) q group t h.0).asks by,
    ) };

    ghost call_keyed = { λ q group k t key h by.
        let called = closures.char_key_next F.FnMut K.eq key q.judge.func h.0.0 k t.judge.func by h.0.2 in
        ((h.0.0, h.0.1, called.0), called.1) };
}
