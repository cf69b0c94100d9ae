//! Users with two columns side by side: the groups of the keys, and the values at their places.
ghost use Rattle.std.specs.Prelude.{◌≡◌, ◌%◌, ◌^◌, drop, length, map, nat_eq, sum, take, IfOk};
ghost use Rattle.std.specs.List.{dedup};
ghost use Rattle.std.specs.Ordering.{nat_cmp};
ghost use Rattle.slice_group_by.specs.Search.{NeverDescends};
ghost use Rattle.example_walks.specs.Columns.{sum_beside};

use slice_group_by::laws::{columns_split, groups_stand, pieces_by_key, sees_pieces};
use slice_group_by::{GroupAdapters, LinearGroup};
use std::alloc::{AllocError, Global};

/// Each key once, with the sum of all values beside it, modulo 2^64.
pub fn sums_per_key(
    alloc: Global,
    keys: &[u32],
    values: &[u64],
) -> Result<Vec<(u32, u64)>, AllocError>
    requires sorted { NeverDescends nat_cmp keys.now }
    requires same { length values.now ≡ length keys.now }
    ensures { IfOk result
        (λ sums. sums.items ≡ map (λ k. (k, sum_beside k keys.now values.now)) (dedup nat_eq keys.now)) }
{
    columns_split::<u32, u64>();
    pieces_by_key::<(u32, u64), u32>();
    let groups = LinearGroup::new(keys).with_offsets();
    sees_pieces(&groups);
    groups_stand(&groups);
    groups
        .map(|(start, group)| (group[0], sum_of(part(values, start, group.len()))))
        .collect(alloc)
}

// So many values from a place on.
fn part(values: &[u64], start: usize, len: usize) -> &[u64]
    ensures { result.now ≡ take len (drop start values.now) }
{
    let from = values.get(start..).unwrap_or(&[]);
    from.get(..len).unwrap_or(from)
}

// The sum of the values, modulo 2^64.
fn sum_of(values: &[u64]) -> u64
    ensures { result ≡ sum values.now % 2 ^ 64 }
{
    let mut sum = 0u64;
    for value in values {
        sum = sum.wrapping_add(*value);
    }
    sum
}
