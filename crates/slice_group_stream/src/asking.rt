//! The ends of a block, and the closures of a caller: what is asked as the block comes, and the groups in it.
ghost use Rattle.std.specs.Prelude.{◌≡◌, Bool, [], MatchOption};
ghost use Rattle.std.specs.Fn.{CalledAt, CalledAtTwo, ComputesKey, ComputesOnPairs};
ghost use Rattle.sgb_split.specs.Calls.{ComputesBy, IsCallableBy};
ghost use Rattle.sgb_split.specs.Judges.{by_key, by_predicate};
ghost use Rattle.sgb_split.specs.Split.{AreNeighbours, first, last};
ghost use Rattle.slice_group_stream.specs.Streams.{AsksAcross, begins_at};
ghost use Rattle.sgb_groups.specs.Gives.{groups_of};

use sgb_linear_group::linear_group::{LinearGroupBy, LinearGroupByKey};
use sgb_split::laws::{always_callable, always_callable_key};

/// The first element and the last.
#[inline]
pub(crate) fn ends<T>(block: &[T]) -> Option<(&T, &T)>
    ensures { MatchOption result (block.now ≡ [])
        (λ e. (first block.now ≡ Some e.0.now) × (last block.now ≡ Some e.1.now)) }
{
    Some((block.first()?, block.last()?))
}

/// Asks the predicate.
#[inline]
pub(crate) fn ask<T, P: FnMut(&T, &T) -> bool>(predicate: &mut P, before: &T, first: &T) -> bool
    requires { P.IsAlwaysCallable predicate.old }
    ensures called { CalledAtTwo P.FnMut predicate.old before.now first.now result predicate.new }
    ensures callable { P.IsAlwaysCallable predicate.new }
    ensures is { (p : T → T → Bool) → ComputesOnPairs P.FnMut p predicate.old → result ≡ p before.now first.now }
    ensures computes { (p : T → T → Bool) → ComputesOnPairs P.FnMut p predicate.old
        → ComputesOnPairs P.FnMut p predicate.new }
{
    predicate(before, first)
}

/// Whether a group begins between the two: asks the predicate, if there are two.
#[inline]
pub(crate) fn begins_by<T: Copy, P: FnMut(&T, &T) -> bool>(
    predicate: &mut P,
    pair: Option<(T, T)>,
) -> bool
    requires { P.IsAlwaysCallable predicate.old }
    ensures asks { AsksAcross P.FnMut pair predicate.old result predicate.new }
    ensures callable { P.IsAlwaysCallable predicate.new }
    ensures begins { (p : T → T → Bool) → ComputesOnPairs P.FnMut p predicate.old → result ≡ begins_at p pair }
    ensures computes { (p : T → T → Bool) → ComputesOnPairs P.FnMut p predicate.old
        → ComputesOnPairs P.FnMut p predicate.new }
{
    match pair {
        Some(two) => !ask(predicate, &two.0, &two.1),
        None => true,
    }
}

/// The groups of a block by a predicate.
#[inline]
pub(crate) fn groups_by<T, P: FnMut(&T, &T) -> bool>(
    block: &[T],
    predicate: P,
) -> LinearGroupBy<'_, T, P>
    requires { P.IsAlwaysCallable predicate }
    ensures remainder { (groups_of result).remainder ≡ block.now }
    ensures judge { (groups_of result).judge.predicate ≡ predicate }
    ensures callable { IsCallableBy AreNeighbours (by_predicate P.FnMut) (groups_of result) }
    ensures computes { (p : T → T → Bool) → ComputesOnPairs P.FnMut p predicate
        → ComputesBy AreNeighbours (by_predicate P.FnMut) (groups_of result) p }
{
    always_callable::<T, P>();
    LinearGroupBy::new(block, predicate)
}

/// The key of an element.
#[inline]
pub(crate) fn key_of<T, K, F: FnMut(&T) -> K>(key: &mut F, element: &T) -> K
    requires { F.IsAlwaysCallable key.old }
    ensures called { CalledAt F.FnMut key.old element.now result key.new }
    ensures callable { F.IsAlwaysCallable key.new }
    ensures is { (k : T → K) → ComputesKey F.FnMut k key.old → result ≡ k element.now }
    ensures computes { (k : T → K) → ComputesKey F.FnMut k key.old → ComputesKey F.FnMut k key.new }
{
    key(element)
}

/// The groups of a block by a key.
#[inline]
pub(crate) fn groups_by_key<'a, T, K: PartialEq + Drop, F: FnMut(&T) -> K>(
    block: &'a [T],
    key: F,
) -> LinearGroupByKey<'a, T, F, K>
    requires { F.IsAlwaysCallable key }
    ensures remainder { (groups_of result).remainder ≡ block.now }
    ensures judge { (groups_of result).judge.func ≡ key }
    ensures callable { IsCallableBy AreNeighbours (by_key F.FnMut K.eq) (groups_of result) }
    ensures computes { (k : T → K) → ComputesKey F.FnMut k key
        → ComputesBy AreNeighbours (by_key F.FnMut K.eq) (groups_of result) (λ x y. K.eq (k x) (k y)) }
{
    always_callable_key::<T, F, K>();
    LinearGroupByKey::new(block, key)
}
