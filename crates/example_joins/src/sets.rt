//! Sets of numbers, as slices that ascend strictly.
ghost use Rattle.std.specs.Prelude.{◌≡◌, ◌↔◌, ℕ, ◌+◌, List, length, nat_eq, not, ◌⊎◌, IfOk, IsTrue};
ghost use Rattle.std.specs.List.{Contains, dedup, filter, list_any};
ghost use Rattle.std.specs.List.Sorted.{IsPermutation};
ghost use Rattle.std.specs.Ordering.{nat_cmp};
ghost use Rattle.slice_group_by.specs.Search.{AlwaysAscends};
ghost use Rattle.slice_group_by.specs.Matches.{has_partner};

use slice_merge_join::MergeJoinBy;
use slice_merge_join::laws::{partners_are_equal, sees_merge_in_order, sets_ascend};
use std::alloc::{AllocError, Global};

/// Whether the numbers are a set: each is below the next.
pub fn is_set(numbers: &[u32]) -> bool
    ensures { IsTrue result → AlwaysAscends nat_cmp numbers.now }
{
    sets_ascend::<u32>();
    numbers.is_sorted_by(|x, y| x < y)
}

/// Makes a set of numbers in any order: sorts them, and drops what repeats.
pub fn make_set(numbers: &mut Vec<u32>)
    ensures ascends { AlwaysAscends nat_cmp numbers.new.items }
    ensures same { (sorted : List ℕ) × IsPermutation numbers.old.items sorted × (numbers.new.items ≡ dedup nat_eq sorted) }
{
    sets_ascend::<u32>();
    numbers.sort_unstable();
    numbers.dedup();
}

/// The numbers that stand on the left or on the right.
pub fn union(alloc: Global, left: &[u32], right: &[u32]) -> Result<Vec<u32>, AllocError>
    requires left { AlwaysAscends nat_cmp left.now }
    requires right { AlwaysAscends nat_cmp right.now }
    ensures ascends { IfOk result (λ v. AlwaysAscends nat_cmp v.items) }
    ensures all { IfOk result (λ v. (x : ℕ) → Contains v.items x ↔ (Contains left.now x ⊎ Contains right.now x)) }
    ensures size { IfOk result (λ v. length v.items + length (filter (has_partner nat_cmp left.now) right.now)
        ≡ length left.now + length right.now) }
{
    sets_ascend::<u32>();
    let join = MergeJoinBy::new(left, right, |x: &u32, y: &u32| x.cmp(y));
    sees_merge_in_order(&join);
    join.flat_map(|part| part.once()).copied().collect(alloc)
}

/// The numbers that stand on the left and on the right.
pub fn intersection(alloc: Global, left: &[u32], right: &[u32]) -> Result<Vec<u32>, AllocError>
    requires left { AlwaysAscends nat_cmp left.now }
    requires right { AlwaysAscends nat_cmp right.now }
    ensures { IfOk result (λ v. v.items ≡ filter (λ x. list_any (nat_eq x) right.now) left.now) }
{
    sets_ascend::<u32>();
    partners_are_equal::<u32, u32, u32>();
    let join = MergeJoinBy::new(left, right, |x: &u32, y: &u32| x.cmp(y));
    sees_merge_in_order(&join);
    join.flat_map(|part| part.partnered())
        .copied()
        .collect(alloc)
}

/// The numbers that stand on the left and not on the right.
pub fn difference(alloc: Global, left: &[u32], right: &[u32]) -> Result<Vec<u32>, AllocError>
    requires left { AlwaysAscends nat_cmp left.now }
    requires right { AlwaysAscends nat_cmp right.now }
    ensures { IfOk result (λ v. v.items ≡ filter (λ x. not (has_partner nat_cmp right.now x)) left.now) }
{
    sets_ascend::<u32>();
    let join = MergeJoinBy::new(left, right, |x: &u32, y: &u32| x.cmp(y));
    sees_merge_in_order(&join);
    join.flat_map(|part| part.alone()).copied().collect(alloc)
}

/// The numbers that stand on one side alone.
pub fn symmetric_difference(
    alloc: Global,
    left: &[u32],
    right: &[u32],
) -> Result<Vec<u32>, AllocError>
    requires left { AlwaysAscends nat_cmp left.now }
    requires right { AlwaysAscends nat_cmp right.now }
    ensures ascends { IfOk result (λ v. AlwaysAscends nat_cmp v.items) }
    ensures all { IfOk result (λ v. (x : ℕ) → Contains v.items x
        ↔ ((Contains left.now x × (Contains right.now x → ⊥)) ⊎ (Contains right.now x × (Contains left.now x → ⊥)))) }
{
    sets_ascend::<u32>();
    let left_alone = difference(alloc, left, right)?;
    let right_alone = difference(alloc, right, left)?;
    union(alloc, &left_alone, &right_alone)
}

/// The numbers of a set that is within another, found as those that both have.
pub fn subset(alloc: Global, left: &[u32], right: &[u32]) -> Result<Vec<u32>, AllocError>
    requires left { AlwaysAscends nat_cmp left.now }
    requires right { AlwaysAscends nat_cmp right.now }
    requires within { (x : ℕ) → Contains left.now x → Contains right.now x }
    ensures { IfOk result (λ v. v.items ≡ left.now) }
{
    sets_ascend::<u32>();
    partners_are_equal::<u32, u32, u32>();
    intersection(alloc, left, right)
}

/// The numbers that stand in one of three slices at least.
pub fn union_of_three(
    alloc: Global,
    first: &[u32],
    second: &[u32],
    third: &[u32],
) -> Result<Vec<u32>, AllocError>
    requires first { AlwaysAscends nat_cmp first.now }
    requires second { AlwaysAscends nat_cmp second.now }
    requires third { AlwaysAscends nat_cmp third.now }
    ensures ascends { IfOk result (λ v. AlwaysAscends nat_cmp v.items) }
    ensures all { IfOk result
        (λ v. (x : ℕ) → Contains v.items x ↔ (Contains first.now x ⊎ Contains second.now x ⊎ Contains third.now x)) }
{
    let two = union(alloc, first, second)?;
    union(alloc, &two, third)
}
