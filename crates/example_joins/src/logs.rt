//! Two change logs as one, by their times.
ghost use Rattle.std.specs.Prelude.{◌++◌, map, IfOk};
ghost use Rattle.std.specs.List.Sorted.{IsPermutation};
ghost use Rattle.std.specs.Ordering.{nat_cmp};
ghost use Rattle.slice_group_by.specs.Search.{NeverDescends};

use slice_merge_join::MergeJoinBy;
use slice_merge_join::laws::{merges_interleave_by_keys, sees_merge_by_keys};
use std::alloc::{AllocError, Global};

/// A change: the time, the key and the new value.
#[derive(Clone, Copy)]
pub struct Change {
    pub time: u64,
    pub key: u32,
    pub value: u32,
}

/// All changes of two logs that ascend by time, in the order of their times.
pub fn merge_logs(
    alloc: Global,
    left: &[Change],
    right: &[Change],
) -> Result<Vec<Change>, AllocError>
    requires left { NeverDescends nat_cmp (map (λ c. c.time) left.now) }
    requires right { NeverDescends nat_cmp (map (λ c. c.time) right.now) }
    ensures ascends { IfOk result (λ v. NeverDescends nat_cmp (map (λ c. c.time) v.items)) }
    ensures same { IfOk result (λ v. IsPermutation (left.now ++ right.now) v.items) }
{
    merges_interleave_by_keys::<Change, u64>();
    let join = MergeJoinBy::new(left, right, |x: &Change, y: &Change| x.time.cmp(&y.time));
    sees_merge_by_keys::<_, _, u64, _>(&join);
    let mut merged = Vec::new(alloc);
    for part in join {
        let (lefts, rights) = part.sides();
        merged.extend_from_slice(lefts)?;
        merged.extend_from_slice(rights)?;
    }
    Ok(merged)
}
