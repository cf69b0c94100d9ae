//! Laws of groups that go on over the blocks of a stream.
ghost use Rattle.std.specs.Prelude.{◌≡◌, ◌≢◌, ℕ, ◌+◌, ◌-◌, ◌*◌, ◌<◌, Bool, ◌&&◌, List, [], ◌∷◌, ◌++◌};
ghost use Rattle.std.specs.Prelude.{length, Option, Some, count_by, flat_map, map, option_map, slice_index_or, slice_set};
ghost use Rattle.std.specs.Borrow.{MutBor};
ghost use Rattle.std.specs.Fn.{CalledAt};
ghost use Rattle.std.specs.Iterator.{Drains, Yields};
ghost use Rattle.std.specs.List.{fold};
ghost use Rattle.sgb_split.specs.Judges.{IsRun};
ghost use Rattle.sgb_split.specs.Split.{concat, last, split};
ghost use Rattle.sgb_split.specs.declared.end.End.TheVariants.{Front};
ghost use Rattle.slice_group_stream.specs.declared.parts.Parts.{Parts};
ghost use Rattle.slice_group_stream.specs.Streams.{AsksEnds, GivesBlockPart, across, add_part, add_values, of_nonempty};
ghost use Rattle.slice_group_stream.specs.Streams.{begins_at, begins_of, change_last, groups_in};
ghost use Rattle.slice_group_stream.specs.Streams.{last_after, pair_list, with_part, with_parts};
ghost use Rattle.slice_group_stream.specs.Closing.{ClosedSoFar, take_part};
ghost use Rattle.sgb_split.specs.Counts.{RaisesJust};

use crate::parts::Parts;
use sgb_linear_group::linear_group::Linear;
use sgb_split::judge::{Judge, KeyJudge};
use slice_group_by::GroupQueue;
use slice_group_by::laws::Judged;

/// The parts of a block, joined, are the block, whatever the judge answers: `whole`. If it computes a test, the parts
/// make the groups of what has come before and of the block: `block`, where `before` are the elements before. `count` says
/// how many of these pass a test that their first elements decide, part by part.
///
/// `kept` says which element the stream keeps. A loop that keeps more than `parts_fold` says keeps it of `with_parts`
/// of the parts so far: `turn` says what a part more changes, and each is `nonempty`.
pub fn parts_join<Q: GroupQueue>(_parts: &Parts<Q>)
    ensures whole { (s : Parts Q) (parts : List (Bool × Q.Item)) → Drains (GivesBlockPart (Q.gives Front)) s parts
        → concat (map (λ x. Q.shows x.1) parts) ≡ Q.remainder (groups_in s) }
    ensures block { (p : Q.Element → Q.Element → Bool) (before block : List Q.Element)
        (s : Parts Q) (parts : List (Bool × Q.Item))
        → Q.is_settled (groups_in s) p → Q.remainder (groups_in s) ≡ block
        → begins_of s ≡ begins_at p (across (last before) block)
        → Drains (GivesBlockPart (Q.gives Front)) s parts
        → with_parts (split p before) (map (λ x. (x.0, Q.shows x.1)) parts) ≡ split p (before ++ block) }
    ensures count { (test : List Q.Element → Bool)
        → ((group part : List Q.Element) → group ≢ [] → test (group ++ part) ≡ test group)
        → (p : Q.Element → Q.Element → Bool) (before block : List Q.Element)
        (s : Parts Q) (parts : List (Bool × Q.Item))
        → Q.is_settled (groups_in s) p → Q.remainder (groups_in s) ≡ block
        → begins_of s ≡ begins_at p (across (last before) block)
        → Drains (GivesBlockPart (Q.gives Front)) s parts
        → count_by test (split p (before ++ block))
        ≡ count_by test (split p before) + count_by (λ x. x.0 && test (Q.shows x.1)) parts }
    ensures kept { (before block : List Q.Element) → last (before ++ block) ≡ last_after (last before) block }
    ensures turn { (groups : List (List Q.Element)) (parts : List (Bool × Q.Item)) (part : Bool × Q.Item)
        → with_parts groups (map (λ x. (x.0, Q.shows x.1)) (parts ++ part ∷ []))
        ≡ with_part (with_parts groups (map (λ x. (x.0, Q.shows x.1)) parts)) (part.0, Q.shows part.1) }
    ensures nonempty { (s t : Parts Q) (part : Bool × Q.Item) → GivesBlockPart (Q.gives Front) s (Some part) t
        → Q.shows part.1 ≢ [] }
{}

/// A fold over parts is a fold over groups. Of each group a value is kept, which `first` computes of its elements. Let `more`
/// compute from the value of a part, and the elements that follow, the value of both. Then the values of the groups before,
/// changed by `add_part` part by part, are those of the groups of all elements so far (`map`). If `first` computes of the first
/// element and the others, elements need no value for the empty list (`nonempty`).
pub fn parts_fold<Q: GroupQueue, V>(_parts: &Parts<Q>)
    ensures map { (first : List Q.Element → V) (more : V → List Q.Element → V)
        → ((group part : List Q.Element) → group ≢ [] → part ≢ [] → more (first group) part ≡ first (group ++ part))
        → (p : Q.Element → Q.Element → Bool) (before block : List Q.Element) (values : List V)
        (s : Parts Q) (parts : List (Bool × Q.Item))
        → values ≡ map first (split p before)
        → Q.is_settled (groups_in s) p → Q.remainder (groups_in s) ≡ block
        → begins_of s ≡ begins_at p (across (last before) block)
        → Drains (GivesBlockPart (Q.gives Front)) s parts
        → fold (λ values x. add_part first more values (x.0, Q.shows x.1)) values parts
        ≡ map first (split p (before ++ block)) }
    ensures nonempty { (first : Q.Element → List Q.Element → V) (more : V → List Q.Element → V)
        → ((x : Q.Element) (others part : List Q.Element) → part ≢ [] → more (first x others) part ≡ first x (others ++ part))
        → (p : Q.Element → Q.Element → Bool) (before block : List Q.Element) (values : List V)
        (s : Parts Q) (parts : List (Bool × Q.Item))
        → values ≡ flat_map (of_nonempty first) (split p before)
        → Q.is_settled (groups_in s) p → Q.remainder (groups_in s) ≡ block
        → begins_of s ≡ begins_at p (across (last before) block)
        → Drains (GivesBlockPart (Q.gives Front)) s parts
        → fold (λ values x. add_values (of_nonempty first) more values (x.0, Q.shows x.1)) values parts
        ≡ flat_map (of_nonempty first) (split p (before ++ block)) }
{}

/// A loop over parts that uses what it kept of a group when the next one begins, and after the last block. `kept` is what it keeps of
/// a group, of its elements so far, and `close` what it makes of that. Then after a block it has made so much of the groups that are
/// closed, and keeps so much of the open one, as of all elements that came.
pub fn parts_close<Q: GroupQueue, V, W>(_parts: &Parts<Q>)
    ensures { (kept : List Q.Element → V) (more : V → List Q.Element → V) (close : V → List W)
        → close (kept []) ≡ []
        → ((group part : List Q.Element) → group ≢ [] → part ≢ [] → more (kept group) part ≡ kept (group ++ part))
        → (p : Q.Element → Q.Element → Bool) (came block : List Q.Element) (before after : Option Q.Element)
        (made made' : List W) (value value' : V) (s : Parts Q) (parts : List (Bool × Q.Item))
        → ClosedSoFar p kept close before made value came
        → (made', value') ≡ fold (λ m x. take_part kept more close m (x.0, Q.shows x.1)) (made, value) parts
        → after ≡ last_after before block → begins_of s ≡ begins_at p (across before block)
        → Q.is_settled (groups_in s) p → Q.remainder (groups_in s) ≡ block
        → Drains (GivesBlockPart (Q.gives Front)) s parts
        → ClosedSoFar p kept close after made' value' (came ++ block) }
{}

/// When what is kept after the last block is closed too, all groups are (`all`).
pub fn groups_close<A, V, W>()
    ensures all { (p : A → A → Bool) (kept : List A → V) (close : V → List W) (before : Option A) (made : List W) (value : V)
        (came : List A) → close (kept []) ≡ [] → ClosedSoFar p kept close before made value came
        → made ++ close value ≡ flat_map (λ group. close (kept group)) (split p came) }
{}

/// What `add_part` makes of a part that goes on, where the last value stands in a vector and is changed there, as by
/// `last_mut`.
pub fn last_changes<V>()
    ensures { (change : V → V) (values : List V) (place : ℕ) (value : V) → place + 1 ≡ length values
        → value ≡ slice_index_or values place value
        → slice_set values place (change value) ≡ change_last change values }
{}

/// What a stream by a key says of the keys is what `parts_join` takes of the elements.
/// May change.
pub fn parts_begin_by_keys<T, K>()
    ensures begins { (k : T → K) (eq : K → K → Bool) (before block : List T)
        → begins_at eq (across (option_map k (last before)) (map k block))
        ≡ begins_at (λ x y. eq (k x) (k y)) (across (last before) block) }
    ensures kept { (k : T → K) (before block : List T)
        → last_after (option_map k (last before)) (map k block) ≡ option_map k (last (before ++ block)) }
{}

/// What a block of a stream does to a counter that the predicate captured by `&mut`, if each question raises it by just
/// `each`. If the counter is `each * (n - 1)` for the n elements before, as after a walk over them, it is so for those and the
/// block afterwards. So over all blocks it counts what `linear_counts` says of one slice. `j` is the judge of the predicate
/// that is passed, and the run is that of `parts_by`.
/// May change.
pub fn streams_count<T, J: Judge<T>, S: Judged<T, J, Linear>>(_parts: &Parts<S>)
    ensures { (counter : J → MutBor ℕ) (each limit : ℕ)
        → RaisesJust J.answers (λ j. (counter j).now) (λ j. (counter j).ghost_name) each limit
        → (before block : List T) (answer : Bool) (j : J) (s t : Parts S) (parts : List (Bool × S.Item))
        → IsRun J.may_ask J.answers j (map (λ q. (q, answer)) (pair_list (across (last before) block)))
        (S.groups (groups_in s)).judge
        → (S.groups (groups_in s)).remainder ≡ block
        → Yields (GivesBlockPart (S.GroupQueue.gives Front)) s parts t → (S.groups (groups_in t)).remainder ≡ []
        → (each * (length before - 1) < limit → (counter j).now ≡ each * (length before - 1))
        → ((counter (S.groups (groups_in t)).judge).ghost_name ≡ (counter j).ghost_name)
        × (each * (length (before ++ block) - 1) < limit
        → (counter (S.groups (groups_in t)).judge).now ≡ each * (length (before ++ block) - 1)) }
{}

/// The same of a key function: a block of m elements calls it 2 * m times, so all blocks call it twice on each element.
/// `f` is the function that is passed, and `g` that of the parts, which `parts_by_key` ensures.
/// May change.
pub fn streams_count_keys<
    T,
    K: PartialEq + Drop,
    F: FnMut(&T) -> K,
    S: Judged<T, KeyJudge<F, K>, Linear>,
>(_parts: &Parts<S>)
    ensures { (counter : F → MutBor ℕ) (each limit : ℕ)
        → RaisesJust (CalledAt F.FnMut) (λ f. (counter f).now) (λ f. (counter f).ghost_name) each limit
        → (elements : ℕ) (block : List T) (f : F) (before after : Option K) (begins : Bool) (s t : Parts S)
        (parts : List (Bool × S.Item))
        → AsksEnds F.FnMut K.eq block f before begins after (S.groups (groups_in s)).judge.func
        → (S.groups (groups_in s)).remainder ≡ block
        → Yields (GivesBlockPart (S.GroupQueue.gives Front)) s parts t → (S.groups (groups_in t)).remainder ≡ []
        → (each * (2 * elements) < limit → (counter f).now ≡ each * (2 * elements))
        → ((counter (S.groups (groups_in t)).judge.func).ghost_name ≡ (counter f).ghost_name)
        × (each * (2 * (elements + length block)) < limit
        → (counter (S.groups (groups_in t)).judge.func).now ≡ each * (2 * (elements + length block))) }
{}
