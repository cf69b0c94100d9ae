//! Laws of the families of groups beside each other.
ghost use Rattle.std.specs.Prelude.{◌≡◌, Bool, List, length, Option, Some, map, option_map};
ghost use Rattle.sgb_split.specs.Calls.{ComputesBy};
ghost use Rattle.sgb_split.specs.Split.{from, split, AreApart};
ghost use Rattle.std.specs.Fn.{ComputesOnPairs};
ghost use Rattle.std.specs.Slice.Iter.{chunk_by_rest, chunk_by_callee};
ghost use Rattle.std.specs.declared.slice.ChunkBy.{ChunkBy};
ghost use Rattle.std.proofs.lemmas.Iterator.{YieldsList};
ghost use Rattle.slice_group_by.specs.Chunks.{chunk_calls};
ghost use Rattle.sgb_search.specs.Searching.{IsLocalEnd};
ghost use Rattle.sgb_split.specs.declared.end.End.{End};
ghost use Rattle.slice_group_by.specs.Walk.{IsChain};

use crate::laws::judged::Judged;
use crate::laws::queue::GroupQueue;
use sgb_groups::searching::{GroupSearch, Search};
use sgb_split::judge::Judge;
use std::slice::ChunkBy;

/// The families agree: any two queues of groups that are settled for one test, of equal remainders, give groups of equal elements to
/// equal lists of calls, by whatever judges. So do linear, binary and exponential groups of a slice, for reading and for writing, as
/// the groups are when they are handed out.
pub fn families_agree<T, Q: GroupQueue<Element = T>, R: GroupQueue<Element = T>>(
    _one: &Q,
    _other: &R,
)
    ensures { (p : T → T → Bool) (q q' : Q) (r r' : R) (ends : List End) (out : List (Option Q.Item))
        (other : List (Option R.Item))
        → Q.is_settled q p → R.is_settled r p → Q.remainder q ≡ R.remainder r
        → IsChain Q.gives q ends out q' → IsChain R.gives r ends other r'
        → map (option_map Q.shows) out ≡ map (option_map R.shows) other }
{}

/// The standard library agrees. If a predicate computes a test, `chunk_by` gives the pieces of the one split by its own contract, from
/// both ends. By `sees_pieces` so does every queue that is settled for the test, such as `LinearGroupBy` by that predicate.
/// May change.
pub fn chunk_by_agrees<T, F: FnMut(&T, &T) -> bool, Q: GroupQueue<Element = T>>(
    _chunks: &ChunkBy<'_, T, F>,
    _queue: &Q,
)
    ensures { (p : T → T → Bool) (e : End) (s : ChunkBy T F) → ComputesOnPairs F.FnMut p (chunk_by_callee s)
        → YieldsList (chunk_calls F.FnMut e) (λ chunk. chunk.now) s (from e (split p (chunk_by_rest s))) }
{}

/// On any slice, grouped or not, if the judge depends only on its arguments: a call of binary or exponential groups gives a group
/// that ends at a local boundary of the remainder, read from the call's end (`ends`), and leaves such a judge for the next call
/// (`computes`).
pub fn groups_end_locally<T, J: Judge<T>, S: GroupSearch, G: Judged<T, J, Search<S>>>(_groups: &G)
    ensures ends { (p : T → T → Bool) (e : End) (s t : G) (group : G.Item) → ComputesBy AreApart J.Judge (G.groups s) p
        → G.GroupQueue.gives e s (Some group) t → IsLocalEnd (from e (G.groups s).remainder) p (length (G.GroupQueue.shows group)) }
    ensures computes { (p : T → T → Bool) (e : End) (s t : G) (group : G.Item) → ComputesBy AreApart J.Judge (G.groups s) p
        → G.GroupQueue.gives e s (Some group) t → ComputesBy AreApart J.Judge (G.groups t) p }
{}
