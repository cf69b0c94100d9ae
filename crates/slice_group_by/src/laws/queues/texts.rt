//! The groups of a text as queues.
use crate::laws::judged::{Judged, Lends, OfText};
use crate::laws::queue::{GroupQueue, RemainderLen};
use sgb_linear_group::linear_group::Linear;
use sgb_linear_str_group::text_groups::LinearStrGroups;
use sgb_linear_str_group::text_groups_mut::LinearStrGroupsMut;
use sgb_linear_str_group::text_judge::TextJudge;
use sgb_split::end::End;

impl<'a, J: TextJudge> GroupQueue for LinearStrGroups<'a, J> {
    type Item = &'a str;

    ghost use Rattle.std.specs.Prelude.{length, true};
    ghost use Rattle.sgb_split.specs.Calls.{IsCallableBy};
    ghost use Rattle.std.specs.Str.{chars};
    ghost use Rattle.sgb_split.specs.Split.{neighbours, AreNeighbours};
    ghost use Rattle.sgb_split.specs.Judges.{IsRunOf};
    ghost use Rattle.sgb_split.proofs.Questions.Runs.{run_of_none, run_of_more};
    ghost use Rattle.sgb_linear_str_group.specs.Texts.{text_groups_of, IsSettledText, GivesText, in_characters};
    ghost use Rattle.sgb_linear_str_group.proofs.Queue as laws;

    type Element = char;

    ghost remainder = { λ q. chars (text_groups_of q).text };

    ghost shows = { λ group. chars group.now };

    ghost is_settled = { λ q. IsSettledText J.Judge (text_groups_of q) };

    ghost gives = { GivesText J.Judge };

    ghost asked = { λ q r n. IsRunOf J.may_ask J.answers n q.judge r.judge };

    ghost due = { λ q. length (neighbours (chars (text_groups_of q).text)) };

    ghost exact = { true };

    ghost can_pop = { λ q. IsCallableBy AreNeighbours J.Judge (in_characters (text_groups_of q)) };

    #[inline]
    fn pop_front(&mut self) -> Option<&'a str> {
        self.next_at(End::Front)
    }

    #[inline]
    fn pop_back(&mut self) -> Option<&'a str> {
        self.next_at(End::Back)
    }

    ghost part = { λ e q r t h. laws.part J.Judge e text_groups_of (λ group. group.now) q r t
        (laws.call J.Judge e q r t h) };

    ghost none = { λ _ _ _ h. h.1 };

    ghost piece = { λ e q r t p h. laws.piece J.Judge e text_groups_of (λ group. group.now) q r t
        (laws.call J.Judge e q r t h) p };

    ghost keeps = { λ e q r t h. laws.keeps J.Judge e text_groups_of (λ group. group.now) q r t
        (laws.call J.Judge e q r t h) };

    ghost asked_none = { λ q. run_of_none J.may_ask J.answers q.judge };

    ghost asked_more = { λ q r t. run_of_more J.may_ask J.answers q.judge r.judge t.judge };

    ghost asks_due = { λ e q r t h. laws.asks J.Judge e text_groups_of (λ group. group.now) q r t
        (laws.call J.Judge e q r t h) };
}

impl<'a, J> RemainderLen for LinearStrGroups<'a, J> {
    type Unit = u8;

    ghost use Rattle.sgb_linear_str_group.specs.Texts.{text_groups_of};

    ghost left = { λ q. (text_groups_of q).text };

    #[inline]
    fn remainder_len(&self) -> usize {
        LinearStrGroups::remainder_len(self)
    }
}

impl<'a, J: TextJudge> Judged<char, J, Linear> for LinearStrGroups<'a, J> {
    ghost use Rattle.sgb_linear_str_group.specs.Texts.{text_groups_of, in_characters};
    ghost use Rattle.sgb_linear_str_group.proofs.Queue as queue;

    ghost groups = { λ s. in_characters (text_groups_of s) };

    ghost call = { λ e s group t h. queue.by_characters J.Judge e text_groups_of (λ x. x.now) s group t
        (queue.call J.Judge e s group t h) };
}

impl<'a, J: TextJudge> OfText for LinearStrGroups<'a, J> {
    ghost use Rattle.sgb_linear_str_group.specs.Texts.{text_groups_of};
    ghost use Rattle.sgb_linear_str_group.proofs.Queue as queue;

    ghost text = { λ s. (text_groups_of s).text };

    ghost bytes = { λ group. group.now };

    ghost cuts = { λ e s group t h. queue.bytes_part J.Judge e text_groups_of (λ x. x.now) s group t
        (queue.call J.Judge e s group t h) };

    ghost utf8 = { λ e s group t h. queue.group_utf8 J.Judge e text_groups_of (λ x. x.now) s group t
        (queue.call J.Judge e s group t h) };
}

// What holds of the groups for reading holds of what these show.
impl<'a, J: TextJudge> GroupQueue for LinearStrGroupsMut<'a, J> {
    type Item = &'a mut [u8];

    ghost use Rattle.std.specs.Prelude.{length, true};
    ghost use Rattle.std.specs.Str.{chars};
    ghost use Rattle.sgb_split.specs.Calls.{IsCallableBy};
    ghost use Rattle.sgb_split.specs.Split.{neighbours, AreNeighbours};
    ghost use Rattle.sgb_split.specs.Judges.{IsRunOf};
    ghost use Rattle.sgb_split.proofs.Questions.Runs.{run_of_none, run_of_more};
    ghost use Rattle.sgb_linear_str_group.specs.Texts.{IsSettledText, in_characters};
    ghost use Rattle.sgb_linear_str_group.specs.TextsMut.{text_groups_of_mut, GivesTextMut};
    ghost use Rattle.sgb_linear_str_group.proofs.Queue as laws;

    type Element = char;

    ghost remainder = { λ q. chars q.text };

    ghost shows = { λ group. chars group.now };

    ghost is_settled = { λ q. IsSettledText J.Judge (text_groups_of_mut q) };

    ghost gives = { GivesTextMut J.Judge };

    ghost asked = { λ q r n. IsRunOf J.may_ask J.answers n q.judge r.judge };

    ghost due = { λ q. length (neighbours (chars q.text)) };

    ghost exact = { true };

    ghost can_pop = { λ q. IsCallableBy AreNeighbours J.Judge (in_characters (text_groups_of_mut q)) };

    #[inline]
    fn pop_front(&mut self) -> Option<&'a mut [u8]> {
        self.next_at(End::Front)
    }

    #[inline]
    fn pop_back(&mut self) -> Option<&'a mut [u8]> {
        self.next_at(End::Back)
    }

    ghost part = { λ e q r t h. laws.part J.Judge e text_groups_of_mut (λ group. group.now) q r t h.0 };

    ghost none = { λ _ _ _ h. h.1 };

    ghost piece = { λ e q r t p h. laws.piece J.Judge e text_groups_of_mut (λ group. group.now) q r t h.0 p };

    ghost keeps = { λ e q r t h. laws.keeps J.Judge e text_groups_of_mut (λ group. group.now) q r t h.0 };

    ghost asked_none = { λ q. run_of_none J.may_ask J.answers q.judge };

    ghost asked_more = { λ q r t. run_of_more J.may_ask J.answers q.judge r.judge t.judge };

    ghost asks_due = { λ e q r t h. laws.asks J.Judge e text_groups_of_mut (λ group. group.now) q r t h.0 };
}

impl<'a, J> RemainderLen for LinearStrGroupsMut<'a, J> {
    type Unit = u8;

    ghost left = { λ q. q.text };

    #[inline]
    fn remainder_len(&self) -> usize {
        LinearStrGroupsMut::remainder_len(self)
    }
}

impl<'a, J: TextJudge> Judged<char, J, Linear> for LinearStrGroupsMut<'a, J> {
    ghost use Rattle.sgb_linear_str_group.specs.Texts.{in_characters};
    ghost use Rattle.sgb_linear_str_group.specs.TextsMut.{text_groups_of_mut};
    ghost use Rattle.sgb_linear_str_group.proofs.Queue as queue;

    ghost groups = { λ s. in_characters (text_groups_of_mut s) };

    ghost call = { λ e s group t h. queue.by_characters J.Judge e text_groups_of_mut (λ x. x.now) s group t h.0 };
}

impl<'a, J: TextJudge> OfText for LinearStrGroupsMut<'a, J> {
    ghost use Rattle.sgb_linear_str_group.specs.TextsMut.{text_groups_of_mut};
    ghost use Rattle.sgb_linear_str_group.proofs.Queue as queue;

    ghost text = { λ s. s.text };

    ghost bytes = { λ group. group.now };

    ghost cuts = { λ e s group t h. queue.bytes_part J.Judge e text_groups_of_mut (λ x. x.now) s group t h.0 };

    ghost utf8 = { λ e s group t h. queue.group_utf8 J.Judge e text_groups_of_mut (λ x. x.now) s group t h.0 };
}

impl<'a, J: TextJudge> Lends<u8> for LinearStrGroupsMut<'a, J> {
    ghost loans = { λ s. s.loans };

    ghost name = { λ group. group.ghost_name };

    ghost hands_out = { λ e s group t h. h.1 };
}
