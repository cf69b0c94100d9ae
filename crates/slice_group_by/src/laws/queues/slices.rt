//! The groups of a slice as queues.
ghost use Rattle.std.specs.Prelude.{refl};

use crate::laws::judged::{Judged, Lends};
use crate::laws::queue::{GroupQueue, RemainderLen, SliceQueue, SliceQueueMut};
use sgb_groups::groups::SliceGroups;
use sgb_groups::groups_mut::SliceGroupsMut;
use sgb_groups::way::Way;
use sgb_split::end::End;
use sgb_split::judge::Judge;

impl<'a, T, J: Judge<T>, W: Way> GroupQueue for SliceGroups<'a, T, J, W> {
    type Item = &'a [T];

    ghost use Rattle.std.specs.Prelude.{option_copied};
    ghost use Rattle.sgb_groups.proofs.Cuts.{call};
    ghost use Rattle.sgb_split.specs.Calls.{IsCallableBy};
    ghost use Rattle.sgb_split.specs.Judges.{IsRunOf};
    ghost use Rattle.sgb_split.proofs.Questions.Calls.{part, asks_seen};
    ghost use Rattle.sgb_split.proofs.Questions.Runs.{run_of_none, run_of_more};
    ghost use Rattle.sgb_groups.specs.Gives.{groups_of, Gives};

    type Element = T;

    ghost remainder = { λ q. (groups_of q).remainder };

    ghost shows = { λ group. group.now };

    ghost is_settled = { λ q. W.settled T J J.Judge (groups_of q) };

    ghost gives = { Gives (W.asks T J J.Judge) };

    ghost asked = { λ q r n. IsRunOf J.may_ask J.answers n q.judge r.judge };

    ghost due = { λ q. W.due T (groups_of q).remainder };

    ghost exact = { W.exact };

    ghost can_pop = { λ q. IsCallableBy (W.allowed T) J.Judge (groups_of q) };

    #[inline]
    fn pop_front(&mut self) -> Option<&'a [T]> {
        self.next_at(End::Front)
    }

    #[inline]
    fn pop_back(&mut self) -> Option<&'a [T]> {
        self.next_at(End::Back)
    }

    ghost part = { λ e s group t h. part (W.asks T J J.Judge) e (groups_of s) (option_copied group) (groups_of t)
        (call (W.asks T J J.Judge) e s group t h) };

    ghost none = { λ _ _ _ h. h.1 };

    ghost piece = { λ e s group t p h. W.piece T J J.Judge e (groups_of s) (option_copied group) (groups_of t) p
        (call (W.asks T J J.Judge) e s group t h) };

    ghost keeps = { λ e s group t h. W.keeps T J J.Judge e (groups_of s) (option_copied group) (groups_of t)
        (call (W.asks T J J.Judge) e s group t h) };

    ghost asked_none = { λ q. run_of_none J.may_ask J.answers q.judge };

    ghost asked_more = { λ q r t. run_of_more J.may_ask J.answers q.judge r.judge t.judge };

    ghost asks_due = { λ e s group t h. asks_seen _ _ _ groups_of s t
        (W.asks_due T J J.Judge e (groups_of s) (option_copied group) (groups_of t)
        (call (W.asks T J J.Judge) e s group t h)) };
}

impl<'a, T, J, W> RemainderLen for SliceGroups<'a, T, J, W> {
    type Unit = T;

    ghost use Rattle.sgb_groups.specs.Gives.{groups_of};

    ghost left = { λ q. (groups_of q).remainder };

    #[inline]
    fn remainder_len(&self) -> usize {
        SliceGroups::remainder_len(self)
    }
}

impl<'a, T: 'a, J: Judge<T>, W: Way> SliceQueue<'a, T> for SliceGroups<'a, T, J, W> {
    ghost shows_now = { λ _. refl };
}

impl<'a, T, J: Judge<T>, W: Way> Judged<T, J, W> for SliceGroups<'a, T, J, W> {
    ghost use Rattle.sgb_groups.specs.Gives.{groups_of};
    ghost use Rattle.sgb_groups.proofs.Cuts as cuts;

    ghost groups = { groups_of };

    ghost call = { cuts.call (W.asks T J J.Judge) };
}

// What holds of the groups for reading holds of what these show.
impl<'a, T, J: Judge<T>, W: Way> GroupQueue for SliceGroupsMut<'a, T, J, W> {
    type Item = &'a mut [T];

    ghost use Rattle.std.specs.Option.{option_copied_mut};
    ghost use Rattle.sgb_split.specs.Judges.{IsRunOf};
    ghost use Rattle.sgb_split.proofs.Questions.Calls.{part, asks_seen};
    ghost use Rattle.sgb_split.proofs.Questions.Runs.{run_of_none, run_of_more};
    ghost use Rattle.sgb_split.specs.Calls.{IsCallableBy};
    ghost use Rattle.sgb_groups.specs.Gives.{groups_of_mut, GivesMut};

    type Element = T;

    ghost remainder = { λ q. q.remainder };

    ghost shows = { λ group. group.now };

    ghost is_settled = { λ q. W.settled T J J.Judge (groups_of_mut q) };

    ghost gives = { GivesMut (W.asks T J J.Judge) };

    ghost asked = { λ q r n. IsRunOf J.may_ask J.answers n q.judge r.judge };

    ghost due = { λ q. W.due T q.remainder };

    ghost exact = { W.exact };

    ghost can_pop = { λ q. IsCallableBy (W.allowed T) J.Judge (groups_of_mut q) };

    #[inline]
    fn pop_front(&mut self) -> Option<&'a mut [T]> {
        self.next_at(End::Front)
    }

    #[inline]
    fn pop_back(&mut self) -> Option<&'a mut [T]> {
        self.next_at(End::Back)
    }

    ghost part = { λ e s group t h. part (W.asks T J J.Judge) e (groups_of_mut s) (option_copied_mut group) (groups_of_mut t) h.0 };

    ghost none = { λ _ _ _ h. h.1 };

    ghost piece = { λ e s group t p h. W.piece T J J.Judge e (groups_of_mut s) (option_copied_mut group) (groups_of_mut t) p h.0 };

    ghost keeps = { λ e s group t h. W.keeps T J J.Judge e (groups_of_mut s) (option_copied_mut group) (groups_of_mut t) h.0 };

    ghost asked_none = { λ q. run_of_none J.may_ask J.answers q.judge };

    ghost asked_more = { λ q r t. run_of_more J.may_ask J.answers q.judge r.judge t.judge };

    ghost asks_due = { λ e s group t h. asks_seen _ _ _ groups_of_mut s t
        (W.asks_due T J J.Judge e (groups_of_mut s) (option_copied_mut group) (groups_of_mut t) h.0) };
}

impl<'a, T, J, W> RemainderLen for SliceGroupsMut<'a, T, J, W> {
    type Unit = T;

    ghost left = { λ q. q.remainder };

    #[inline]
    fn remainder_len(&self) -> usize {
        SliceGroupsMut::remainder_len(self)
    }
}

impl<'a, T: 'a, J: Judge<T>, W: Way> SliceQueueMut<'a, T> for SliceGroupsMut<'a, T, J, W> {
    ghost shows_now = { λ _. refl };
}

impl<'a, T, J: Judge<T>, W: Way> Judged<T, J, W> for SliceGroupsMut<'a, T, J, W> {
    ghost use Rattle.sgb_groups.specs.Gives.{groups_of_mut};

    ghost groups = { groups_of_mut };

    ghost call = { λ e s group t h. h.0 };
}

impl<'a, T, J: Judge<T>, W: Way> Lends<T> for SliceGroupsMut<'a, T, J, W> {
    ghost loans = { λ s. s.loans };

    ghost name = { λ group. group.ghost_name };

    ghost hands_out = { λ e s group t h. h.1 };
}
