//! Two slices of any one type merged into one. The borrow checker does not cover a join whose two sides have one type
//! parameter, so `sides` has two, and a trait of ours for how they compare.
ghost use Rattle.std.specs.Prelude.{◌≡◌, ◌++◌, List, flat_map, map, IfOk};
ghost use Rattle.std.specs.List.Sorted.{IsPermutation};
ghost use Rattle.std.specs.declared.cmp.Ordering.{Ordering};
ghost use Rattle.slice_merge_join.specs.Merge.{Part, lefts, rights, IsMerge};
ghost use Rattle.slice_group_by.specs.Search.{NeverDescends};
ghost use Rattle.example_joins.specs.Names.{shown_groups};

use slice_merge_join::MergeJoinBy;
use slice_merge_join::laws::{always_compares, merges_interleave, one_merge, sees_merge};
use std::alloc::{AllocError, Global};
use std::cmp::Ordering;

/// How a value compares to those of another type.
pub trait Compares<B> {
    ghost order: { Self → B → Ordering };

    fn compare(&self, other: &B) -> Ordering
        ensures { result ≡ order self.now other.now };
}

impl<T: Ord> Compares<T> for T {
    ghost order = { T.cmp };

    fn compare(&self, other: &T) -> Ordering {
        self.cmp(other)
    }
}

// Both sides of each part of the merge.
fn sides<'a, A: Compares<B>, B>(
    alloc: Global,
    left: &'a [A],
    right: &'a [B],
) -> Result<Vec<(&'a [A], &'a [B])>, AllocError>
    ensures { (ps : List (Part A B)) → IsMerge A.order left.now right.now ps
        → IfOk result (λ sides. map shown_groups sides.items ≡ map (λ p. (lefts p, rights p)) ps) }
{
    let compare = |x: &A, y: &B| x.compare(y);
    always_compares(&compare);
    let join = MergeJoinBy::new(left, right, compare);
    sees_merge(&join);
    join.map(|part| part.sides()).collect(alloc)
}

/// All elements of two slices that ascend, in order; of equal ones the left ones come first.
pub fn merge<T: Ord + Copy>(alloc: Global, left: &[T], right: &[T]) -> Result<Vec<T>, AllocError>
    requires left { NeverDescends T.cmp left.now }
    requires right { NeverDescends T.cmp right.now }
    ensures parts { IfOk result (λ merged. (ps : List (Part T T))
        × IsMerge T.cmp left.now right.now ps × (merged.items ≡ flat_map (λ p. lefts p ++ rights p) ps)) }
    ensures ascends { IfOk result (λ merged. NeverDescends T.cmp merged.items) }
    ensures same { IfOk result (λ merged. IsPermutation (left.now ++ right.now) merged.items) }
{
    one_merge::<T, T, T>();
    merges_interleave::<T>();
    let sides = sides::<T, T>(alloc, left, right)?;
    let mut merged = Vec::new(alloc);
    for part in &sides {
        merged.extend_from_slice(part.0)?;
        merged.extend_from_slice(part.1)?;
    }
    Ok(merged)
}
