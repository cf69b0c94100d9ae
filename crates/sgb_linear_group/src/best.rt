//! The best element of each group, moved to the front of the slice.
ghost use Rattle.std.specs.Prelude.{◌≡◌, ◌<◌, ◌≤◌, Bool, length, Some, take, slice_get, slice_range};
ghost use Rattle.std.specs.Fn.{CalledAtTwo, ComputesKey, ComputesOnPairs};
ghost use Rattle.std.specs.List.Sorted.{IsPermutation};
ghost use Rattle.sgb_split.specs.Calls.{IsCallableBy};
ghost use Rattle.sgb_split.specs.Judges.{by_key, by_predicate, key_judge, predicate_judge};
ghost use Rattle.sgb_split.specs.Split.{AreNeighbours, split};
ghost use Rattle.sgb_linear_group.specs.Best.{AreKept, Keeps, best_of_each};

use crate::scan::scan;
use sgb_split::end::End;
use sgb_split::judge::{Judge, KeyJudge, PredicateJudge};

/// Moves the best element of each group to the front, in order, and gives how many groups there are. The others stand behind
/// them, in no order.
///
/// The groups are those that `LinearGroupBy` gives from the front, of the elements as they were. `is_worse(kept, x)` says whether the
/// later element `x` takes the place of the one that was kept so far: `|_, _| false` keeps the first of each group, as the standard
/// library's `partition_dedup_by` does, and `|_, _| true` the last. It must be callable on any two elements.
///
/// The predicate is asked about each neighbouring pair once, in order, and `is_worse` once for each element of a group but the
/// first, in order, whatever either answers.
///
/// ```
/// let mut spans = [(1, 5), (2, 9), (4, 6), (20, 21)];
/// let len = partition_best_by(&mut spans, |a, b| b.0 <= a.1, |kept, x| kept.1 < x.1);
/// // spans[..len] is [(2, 9), (20, 21)]
/// ```
#[must_use = "it is the new length"]
pub fn partition_best_by<T, P: FnMut(&T, &T) -> bool, B: FnMut(&T, &T) -> bool>(
    slice: &mut [T],
    predicate: P,
    is_worse: B,
) -> usize
    requires callable { IsCallableBy AreNeighbours (by_predicate P.FnMut)
        (record { remainder = slice.old; judge = predicate_judge predicate }) }
    requires is_worse { B.IsAlwaysCallable is_worse }
    ensures within { result ≤ length slice.new }
    ensures kept { AreKept (CalledAtTwo B.FnMut) (by_predicate P.FnMut)
        (record { remainder = slice.old; judge = predicate_judge predicate }) is_worse (take result slice.new) }
    ensures best { (p b : T → T → Bool) → ComputesOnPairs P.FnMut p predicate → ComputesOnPairs B.FnMut b is_worse
        → take result slice.new ≡ best_of_each b (split p slice.old) }
    ensures permutation { IsPermutation slice.old slice.new }
{
    partition_best(slice, PredicateJudge { predicate }, is_worse)
}

/// `partition_best_by` with the groups of `LinearGroupByKey`.
///
/// ```
/// let mut rows = [("a", 3), ("a", 7), ("b", 1)];
/// let len = partition_best_by_key(&mut rows, |row| row.0, |kept, row| kept.1 < row.1);
/// // rows[..len] is [("a", 7), ("b", 1)]
/// ```
#[must_use = "it is the new length"]
pub fn partition_best_by_key<T, K: PartialEq + Drop, F: FnMut(&T) -> K, B: FnMut(&T, &T) -> bool>(
    slice: &mut [T],
    func: F,
    is_worse: B,
) -> usize
    requires callable { IsCallableBy AreNeighbours (by_key F.FnMut K.eq)
        (record { remainder = slice.old; judge = key_judge func }) }
    requires is_worse { B.IsAlwaysCallable is_worse }
    ensures within { result ≤ length slice.new }
    ensures kept { AreKept (CalledAtTwo B.FnMut) (by_key F.FnMut K.eq)
        (record { remainder = slice.old; judge = key_judge func }) is_worse (take result slice.new) }
    ensures best { (key : T → K) (b : T → T → Bool) → ComputesKey F.FnMut key func → ComputesOnPairs B.FnMut b is_worse
        → take result slice.new ≡ best_of_each b (split (λ x y. K.eq (key x) (key y)) slice.old) }
    ensures permutation { IsPermutation slice.old slice.new }
{
    partition_best(slice, KeyJudge::new(func), is_worse)
}

fn partition_best<T, J: Judge<T> + Drop, B: FnMut(&T, &T) -> bool>(
    slice: &mut [T],
    mut judge: J,
    mut is_worse: B,
) -> usize
    requires callable { IsCallableBy AreNeighbours J.Judge (record { remainder = slice.old; judge = judge }) }
    requires is_worse { B.IsAlwaysCallable is_worse }
    ensures within { result ≤ length slice.new }
    ensures kept { AreKept (CalledAtTwo B.FnMut) J.Judge (record { remainder = slice.old; judge = judge }) is_worse
        (take result slice.new) }
    ensures permutation { IsPermutation slice.old slice.new }
{
    let mut kept = 0;
    let mut rest = 0;
    while rest < slice.len() {
        let end = rest + scan(End::Front, slice, rest, slice.len(), &mut judge);
        let place = best_place(slice, rest, end, &mut is_worse);
        slice.swap(kept, place);
        kept += 1;
        rest = end;
    }
    kept
}

// Where the best of the elements from the place `low` up to, not including, `high` stands.
fn best_place<T, B: FnMut(&T, &T) -> bool>(
    slice: &[T],
    low: usize,
    high: usize,
    is_worse: &mut B,
) -> usize
    requires nonempty { low < high }
    requires inside { high ≤ length slice.now }
    requires callable { B.IsAlwaysCallable is_worse.old }
    ensures low { low ≤ result }
    ensures high { result < high }
    ensures callable { B.IsAlwaysCallable is_worse.new }
    ensures kept { (k : T) × (slice_get slice.now result ≡ Some k)
        × Keeps (CalledAtTwo B.FnMut) is_worse.old (slice_range slice.now low high) k is_worse.new }
{
    let mut place = low;
    for i in low + 1..high {
        if is_worse(&slice[place], &slice[i]) {
            place = i;
        }
    }
    place
}
