//! What calls on a queue of groups give: one, a list of them, and all that a loop or an adapter makes.
ghost use Rattle.std.specs.Prelude.{◌≡◌, ◌≢◌, ◌+◌, ◌-◌, ◌<◌, ◌≤◌, Bool, List, [], ◌∷◌, ◌++◌, length, map, reverse, count_by};
ghost use Rattle.std.specs.Prelude.{Option, None, Some, option_map, is_some};
ghost use Rattle.std.specs.Iterator.{Yields, Drains};
ghost use Rattle.std.specs.Iterator.Adapters.{rev_source, rev_steps};
ghost use Rattle.std.specs.declared.iter.Rev.{Rev};
ghost use Rattle.std.proofs.lemmas.Iterator.{YieldsList};
ghost use Rattle.std.specs.List.{Contains};
ghost use Rattle.sgb_split.specs.Split.{from, put_at, first, last, without, concat, IsAccepted, split};
ghost use Rattle.sgb_split.specs.declared.end.End.{End};
ghost use Rattle.sgb_split.specs.declared.end.End.TheVariants.{Front, Back};
ghost use Rattle.slice_group_by.specs.Walk.{IsChain};
ghost use Rattle.slice_group_by.specs.Queue.{pushed_at};

use crate::laws::queue::GroupQueue;

/// One call on a queue that is settled for a test gives the outermost piece of the split of what remained, or `None` if there is
/// no piece. The other pieces are the split of what remains, and the queue is settled again.
///
/// Of every queue, settled or not:
///
/// - `none`: where a call gives `None`, no test has a piece left. So a loop that counts or adds up ends with all pieces.
/// - `shorter`: a group leaves fewer elements. So the length of the remainder is the measure of a loop.
pub fn calls_take_pieces<Q: GroupQueue>(_queue: &Q)
    ensures front { (p : Q.Element → Q.Element → Bool) (q t : Q) (group : Option Q.Item)
        → Q.gives Front q group t → Q.is_settled q p → option_map Q.shows group ≡ first (split p (Q.remainder q)) }
    ensures back { (p : Q.Element → Q.Element → Bool) (q t : Q) (group : Option Q.Item)
        → Q.gives Back q group t → Q.is_settled q p → option_map Q.shows group ≡ last (split p (Q.remainder q)) }
    ensures others { (p : Q.Element → Q.Element → Bool) (e : End) (q t : Q) (group : Option Q.Item)
        → Q.gives e q group t → Q.is_settled q p → split p (Q.remainder t) ≡ without e (split p (Q.remainder q)) }
    ensures whole { (p : Q.Element → Q.Element → Bool) (e : End) (q t : Q) (group : Q.Item)
        → Q.gives e q (Some group) t → Q.is_settled q p
        → split p (Q.remainder q) ≡ put_at e (Q.shows group ∷ []) (split p (Q.remainder t)) }
    ensures settled { (p : Q.Element → Q.Element → Bool) (e : End) (q t : Q) (group : Option Q.Item)
        → Q.gives e q group t → Q.is_settled q p → Q.is_settled t p }
    ensures accepted { (p : Q.Element → Q.Element → Bool) (e : End) (q t : Q) (group : Q.Item)
        → Q.gives e q (Some group) t → Q.is_settled q p → IsAccepted p (Q.shows group) }
    ensures none { (p : Q.Element → Q.Element → Bool) (e : End) (q t : Q) → Q.gives e q None t → split p (Q.remainder q) ≡ [] }
    ensures shorter { (e : End) (q t : Q) (group : Q.Item) → Q.gives e q (Some group) t
        → length (Q.remainder t) < length (Q.remainder q) }
{}

/// Where a call may be made, one may be made after it, whatever it gave, also `None`: so the condition of `new` is all that is
/// ever asked.
/// May change.
pub fn calls_may_go_on<Q: GroupQueue>(_queue: &Q)
    ensures call { (e : End) (q t : Q) (group : Option Q.Item) → Q.gives e q group t → Q.can_pop q → Q.can_pop t }
    ensures calls { (q t : Q) (ends : List End) (out : List (Option Q.Item)) → IsChain Q.gives q ends out t
        → Q.can_pop q → Q.can_pop t }
{}

/// What a loop or an adapter sees of a settled queue: the pieces of the split in order, and from the back or under `rev()`
/// in reverse. `next` and `next_back` of this library's types give `gives Front` and `gives Back`. The lemmas of the standard
/// library that take it stand in `Rattle.std.proofs.lemmas.Iterator.Consumers`, as `count_from_yields_List`.
///
/// Of calls at one end, as a loop makes them:
///
/// - `part`, `whole`: the groups that they gave, some or all, are the first pieces, or all.
/// - `more` adds a call, whatever the judge answers.
/// - `settled`: the queue is settled after them.
/// - `turn`: the group that comes is one of the pieces.
///
/// Of calls at both ends: what came off the front, the pieces to come, and what came off the back in reverse are the same list
/// before and after a call (`ends`). So a loop that takes from both ends has all pieces when it ends.
pub fn sees_pieces<Q: GroupQueue>(_queue: &Q)
    ensures pieces { (p : Q.Element → Q.Element → Bool) (e : End) (q : Q) → Q.is_settled q p
        → YieldsList (Q.gives e) Q.shows q (from e (split p (Q.remainder q))) }
    ensures rev { (p : Q.Element → Q.Element → Bool) (q : Rev Q) → Q.is_settled (rev_source q) p
        → YieldsList (rev_steps (Q.gives Back)) Q.shows q (reverse (split p (Q.remainder (rev_source q)))) }
    ensures part { (p : Q.Element → Q.Element → Bool) (e : End) (q t : Q) (groups : List Q.Item) → Q.is_settled q p
        → Yields (Q.gives e) q groups t
        → from e (split p (Q.remainder q)) ≡ map Q.shows groups ++ from e (split p (Q.remainder t)) }
    ensures whole { (p : Q.Element → Q.Element → Bool) (e : End) (q : Q) (groups : List Q.Item) → Q.is_settled q p
        → Drains (Q.gives e) q groups → map Q.shows groups ≡ from e (split p (Q.remainder q)) }
    ensures count { (p : Q.Element → Q.Element → Bool) (e : End) (q : Q) (groups : List Q.Item) → Q.is_settled q p
        → Drains (Q.gives e) q groups → length groups ≡ length (split p (Q.remainder q)) }
    ensures more { (e : End) (q s t : Q) (groups : List Q.Item) (group : Q.Item) → Yields (Q.gives e) q groups s
        → Q.gives e s (Some group) t → Yields (Q.gives e) q (groups ++ group ∷ []) t }
    ensures settled { (p : Q.Element → Q.Element → Bool) (e : End) (q t : Q) (groups : List Q.Item) → Q.is_settled q p
        → Yields (Q.gives e) q groups t → Q.is_settled t p }
    ensures turn { (p : Q.Element → Q.Element → Bool) (e : End) (q s t : Q) (groups : List Q.Item) (group : Q.Item)
        → Q.is_settled q p → Yields (Q.gives e) q groups s → Q.gives e s (Some group) t
        → Contains (split p (Q.remainder q)) (Q.shows group) }
    ensures ends { (p : Q.Element → Q.Element → Bool) (e : End) (q t : Q) (group : Q.Item)
        (fronts backs : List (List Q.Element)) → Q.gives e q (Some group) t → Q.is_settled q p
        → pushed_at Front e fronts (Q.shows group)
        ++ (split p (Q.remainder t) ++ reverse (pushed_at Back e backs (Q.shows group)))
        ≡ fronts ++ (split p (Q.remainder q) ++ reverse backs) }
{}

/// The groups that calls at one end give, joined in their order, are what goes off that end, whatever the judge answers: all of
/// it, where the calls go on until `None`.
/// May change.
pub fn groups_join<Q: GroupQueue>(_queue: &Q)
    ensures part { (e : End) (q t : Q) (groups : List Q.Item) → Yields (Q.gives e) q groups t
        → put_at e (concat (from e (map Q.shows groups))) (Q.remainder t) ≡ Q.remainder q }
    ensures whole { (e : End) (q : Q) (groups : List Q.Item) → Drains (Q.gives e) q groups
        → concat (from e (map Q.shows groups)) ≡ Q.remainder q }
{}

/// How many groups come, whatever the judge answers: no more than elements go, at least one before nothing remains of a
/// nonempty remainder, and as many calls as there are elements leave nothing.
pub fn groups_still_come<Q: GroupQueue>(_queue: &Q)
    ensures most { (q t : Q) (ends : List End) (out : List (Option Q.Item)) → IsChain Q.gives q ends out t
        → count_by is_some out + length (Q.remainder t) ≤ length (Q.remainder q) }
    ensures least { (q t : Q) (ends : List End) (out : List (Option Q.Item)) → IsChain Q.gives q ends out t
        → Q.remainder q ≢ [] → Q.remainder t ≡ [] → 0 < count_by is_some out }
    ensures fewer { (q t : Q) (ends : List End) (out : List (Option Q.Item)) → IsChain Q.gives q ends out t
        → length (Q.remainder t) ≤ length (Q.remainder q) - length ends }
{}
