//! Functions over any queue of groups, whatever its family and judge.
ghost use Rattle.std.specs.Option.{option_copied_mut};
ghost use Rattle.std.specs.Prelude.{◌≡◌, ◌<◌, ◌^◌, Bool, length, map, option_copied, option_map, IfOk};
ghost use Rattle.slice_group_by.specs.End.TheVariants.{Front};
ghost use Rattle.slice_group_by.specs.Split.{split, first, concat};

use slice_group_by::GroupQueue;
use slice_group_by::laws::{
    SliceQueue, SliceQueueMut, calls_may_go_on, calls_take_pieces, groups_join, sees_pieces,
};
use std::alloc::{AllocError, Global};

/// The first group of what remains, as a slice: of a settled queue its elements are the first piece. The others remain.
pub fn first_of_queue<'a, T: 'a, Q: SliceQueue<'a, T>>(queue: &mut Q) -> Option<&'a [T]>
    requires { Q.GroupQueue.can_pop queue.old }
    ensures first { (p : T → T → Bool) → Q.GroupQueue.is_settled queue.old p
        → option_copied result ≡ first (split p (Q.GroupQueue.remainder queue.old)) }
    ensures call { Q.GroupQueue.gives Front queue.old result queue.new }
{
    calls_take_pieces(queue);
    queue.pop_front()
}

/// The first group of what remains, as a slice for writing, which holds the first piece when it is given. The others remain.
pub fn first_of_queue_mut<'a, T: 'a, Q: SliceQueueMut<'a, T>>(queue: &mut Q) -> Option<&'a mut [T]>
    requires { Q.GroupQueue.can_pop queue.old }
    ensures first { (p : T → T → Bool) → Q.GroupQueue.is_settled queue.old p
        → option_copied_mut result ≡ first (split p (Q.GroupQueue.remainder queue.old)) }
    ensures call { Q.GroupQueue.gives Front queue.old result queue.new }
{
    calls_take_pieces(queue);
    queue.pop_front()
}

/// The next two groups of a queue. It may be called again, also where nothing remains.
pub fn next_two<Q: GroupQueue>(queue: &mut Q) -> (Option<Q::Item>, Option<Q::Item>)
    requires { Q.can_pop queue.old }
    ensures can { Q.can_pop queue.new }
    ensures first { (p : Q.Element → Q.Element → Bool) → Q.is_settled queue.old p
        → option_map Q.shows result.0 ≡ first (split p (Q.remainder queue.old)) }
{
    calls_may_go_on(queue);
    calls_take_pieces(queue);
    let first = queue.pop_front();
    (first, queue.pop_front())
}

/// All groups of what remains, in a vector. They join to what remains, and those of a settled queue are its pieces.
pub fn all_groups<Q: GroupQueue + Drop>(
    alloc: Global,
    mut queue: Q,
) -> Result<Vec<Q::Item>, AllocError>
    requires { Q.can_pop queue }
    ensures whole { IfOk result (λ groups. concat (map Q.shows groups.items) ≡ Q.remainder queue) }
    ensures pieces { (p : Q.Element → Q.Element → Bool) → Q.is_settled queue p
        → IfOk result (λ groups. map Q.shows groups.items ≡ split p (Q.remainder queue)) }
{
    groups_join(&queue);
    sees_pieces(&queue);
    let mut groups = Vec::new(alloc);
    while let Some(group) = queue.pop_front() {
        groups.push(group)?;
    }
    Ok(groups)
}

/// How many groups come: of a settled queue as many as what remains has pieces.
pub fn count_of<Q: GroupQueue + Drop>(mut queue: Q) -> usize
    requires can { Q.can_pop queue }
    requires fits { length (Q.remainder queue) < 2 ^ 64 }
    ensures { (p : Q.Element → Q.Element → Bool) → Q.is_settled queue p → result ≡ length (split p (Q.remainder queue)) }
{
    calls_take_pieces(&queue);
    let mut count = 0usize;
    while let Some(_) = queue.pop_front() {
        count += 1;
    }
    count
}
