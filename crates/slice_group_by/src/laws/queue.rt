//! Groups as a two-ended queue, and a walk over it.
ghost use Rattle.std.specs.Borrow.{Bor, MutBor};
ghost use Rattle.std.specs.Prelude.{◌≡◌, ℕ, ◌+◌, ◌<◌, Bool, List, length, Option, None, Some, map, option_map, reverse, ⊤};
ghost use Rattle.sgb_split.specs.Split.{TakesPart, split, TakesPiece};
ghost use Rattle.sgb_split.specs.Judges.{AsksWithin};
ghost use Rattle.sgb_split.specs.declared.end.End.{End};
ghost use Rattle.sgb_split.specs.declared.end.End.TheVariants.{Front, Back};
ghost use Rattle.slice_group_by.specs.Queue.{pops, after_pops};
ghost use Rattle.slice_group_by.specs.Walk.{Partition, IsChain, AnswersAsQueue};

pub use sgb_split::end::End;

/// An iterator over groups, as a two-ended queue of them.
///
/// Contracts see of it what is left of the elements (`remainder`), what a call at an end gives (`gives`), for which
/// tests it is settled (`is_settled`), and how many questions lie between two of its states (`asked`). An implementation
/// chooses what these mean, and `walk` promises no more of it than they say; this library's say what each type's own
/// calls promise.
///
/// ```
/// let mut groups = LinearGroup::new(&[1, 1, 2]);
/// groups.pop_back();  // Some([2])
/// groups.pop_front(); // Some([1, 1])
/// ```
pub trait GroupQueue {
    type Item: Drop;

    type Element;

    // The elements that no call has handed out yet.
    ghost remainder: { Self → List Self.Element };

    // The elements of a group that a call has handed out.
    ghost shows: { Self.Item → List Self.Element };

    // Calls find the pieces of the remainder for this test.
    ghost is_settled: { Self → (Self.Element → Self.Element → Bool) → Type 0 };

    // The queue before, what a call at the end answers, and the queue after.
    ghost gives: { End → Self → Option Self.Item → Self → Type 0 };

    // So many questions may lead from the one state to the other.
    ghost asked: { Self → Self → ℕ → Type 0 };

    // The most questions that all calls to come can ask.
    ghost due: { Self → ℕ };

    // Whether all calls to come ask exactly as many.
    ghost exact: { Bool };

    // What a call may ask may be asked, in every state that the answers can lead to.
    ghost can_pop: { Self → Type 0 } = { λ _. ⊤ };

    /// The first group, or `None` where nothing remains: what `next` gives.
    fn pop_front(&mut self) -> Option<Self::Item>
        requires { can_pop self.old }
        ensures gives { gives Front self.old result self.new }
        ensures can { can_pop self.new };

    /// The last group, or `None` where nothing remains: what `next_back` gives.
    fn pop_back(&mut self) -> Option<Self::Item>
        requires { can_pop self.old }
        ensures gives { gives Back self.old result self.new }
        ensures can { can_pop self.new };

    // A call gives a nonempty outer part of the remainder, or `None` exactly where nothing remains.
    ghost part: { (e : End) (q : Self) (group : Option Self.Item) (t : Self) → gives e q group t
        → TakesPart e (remainder q) (option_map shows group) (remainder t) };

    // Where it gives `None`, nothing changes.
    ghost none: { (e : End) (q t : Self) → gives e q None t → t ≡ q };

    // Of a settled queue it gives the outermost piece of the split, and leaves it settled.
    ghost piece: { (e : End) (q : Self) (group : Option Self.Item) (t : Self) (p : Self.Element → Self.Element → Bool)
        → gives e q group t → is_settled q p
        → TakesPiece p e (remainder q) (option_map shows group) (remainder t) × is_settled t p };

    // Where a call may be made, one may be made after it.
    ghost keeps: { (e : End) (q : Self) (group : Option Self.Item) (t : Self) → gives e q group t → can_pop q
        → can_pop t };

    // Questions add up, and a call asks no more of them than it takes off those due.
    ghost asked_none: { (q : Self) → asked q q 0 };

    ghost asked_more: { (q r t : Self) (k m : ℕ) → asked q r k → asked r t m → asked q t (k + m) };

    ghost asks_due: { (e : End) (q : Self) (group : Option Self.Item) (t : Self) → gives e q group t
        → AsksWithin asked due exact q t };
}

/// Groups that know how much remains: elements of a slice, bytes of a text.
pub trait RemainderLen {
    type Unit;

    // What remains, in these units.
    ghost left: { Self → List Self.Unit };

    /// How much of the input no call has handed out yet.
    fn remainder_len(&self) -> usize
        ensures { result ≡ length (left self.now) };
}

/// A queue whose groups are slices: what a group shows is what it holds.
///
/// Code that is generic over the queue asks for this in place of `GroupQueue` where it reads the groups' elements.
pub trait SliceQueue<'a, T: 'a>: GroupQueue<Item = &'a [T], Element = T> {
    ghost shows_now: { (group : Bor (List T)) → Self.GroupQueue.shows group ≡ group.now };
}

/// A queue whose groups are slices for writing: what a group shows is what it holds when it is given.
pub trait SliceQueueMut<'a, T: 'a>: GroupQueue<Item = &'a mut [T], Element = T> {
    ghost shows_now: { (group : MutBor (List T)) → Self.GroupQueue.shows group ≡ group.now };
}

#[inline]
fn pop_at<Q: GroupQueue>(queue: &mut Q, end: End) -> Option<Q::Item>
    requires { Q.can_pop queue.old }
    ensures gives { Q.gives end queue.old result queue.new }
    ensures can { Q.can_pop queue.new }
{
    match end {
        End::Front => queue.pop_front(),
        End::Back => queue.pop_back(),
    }
}

/// Makes one call at each of the ends, in order, and puts each answer at the same place of `out`.
///
/// Of a settled queue the answers are those of a two-ended queue of the pieces of the split of what remained, `None`
/// exactly when no piece is left, also past the last one. What `out` held before is dropped.
///
/// ```
/// let mut groups = LinearGroup::new(&[1, 1, 1, 3, 3, 2, 2, 2]);
/// let mut out: [Option<&[i32]>; 2] = [None; 2];
/// walk(&mut groups, &[End::Back, End::Front], &mut out);
/// // out is [Some([2, 2, 2]), Some([1, 1, 1])]
/// ```
pub fn walk<Q: GroupQueue>(queue: &mut Q, ends: &[End], out: &mut [Option<Q::Item>])
    requires len { length out.old ≡ length ends.now }
    requires can { Q.can_pop queue.old }
    ensures can { Q.can_pop queue.new }

    // One call after another, each as the type's own pop promises.
    ensures chain { IsChain Q.gives queue.old ends.now out.new queue.new }

    // The front answers in order, what remains, and the back answers in reverse are what remained before.
    ensures partition { let groups = map (option_map Q.shows) out.new in
        Partition ends.now groups (Q.remainder queue.new) (Q.remainder queue.old) }

    // Of a settled queue the answers are those of a queue of the one split, and what is left is settled.
    ensures settled { let groups = map (option_map Q.shows) out.new in
        (p : Q.Element → Q.Element → Bool) → Q.is_settled queue.old p
        → Q.is_settled queue.new p
        × ((ps : List (List Q.Element))
        × AnswersAsQueue p (Q.remainder queue.old) ends.now groups (Q.remainder queue.new) ps) }
    ensures pieces { (p : Q.Element → Q.Element → Bool) → Q.is_settled queue.old p
        → map (option_map Q.shows) out.new ≡ pops (split p (Q.remainder queue.old)) ends.now }
    ensures left { (p : Q.Element → Q.Element → Bool) → Q.is_settled queue.old p
        → split p (Q.remainder queue.new) ≡ after_pops (split p (Q.remainder queue.old)) ends.now }

    // Whatever the judge answers, no more questions are asked than were due before and are not due after.
    ensures questions { AsksWithin Q.asked Q.due Q.exact queue.old queue.new }
{
    for (i, end) in ends.iter().enumerate() {
        out[i] = pop_at(queue, *end);
    }
}
