//! Two runs of an LSM tree, of which the newer one wins.
ghost use Rattle.std.specs.Prelude.{◌↔◌, ◌⊎◌, ◌++◌, map, not, IfOk};
ghost use Rattle.std.specs.List.{Contains, filter};
ghost use Rattle.std.specs.List.Sorted.{IsPermutation};
ghost use Rattle.std.specs.Ordering.{nat_cmp};
ghost use Rattle.slice_group_by.specs.Search.{AlwaysAscends, NeverDescends};
ghost use Rattle.slice_group_by.specs.Matches.{has_partner};
ghost use Rattle.example_joins.specs.declared.compaction.Entry.{Entry};

use slice_merge_join::MergeJoinBy;
use slice_merge_join::laws::{once_keeps_left, sees_merge_by_keys};
use std::alloc::{AllocError, Global};

/// A key with its value, or with none where it was deleted.
#[derive(Clone, Copy)]
pub struct Entry {
    pub key: u32,
    pub value: Option<u64>,
}

/// The entries of the newer run, and those of the older one whose keys the newer one does not have. If both have each key once, so does
/// what comes of them.
pub fn newer_wins(alloc: Global, newer: &[Entry], older: &[Entry]) -> Result<Vec<Entry>, AllocError>
    requires newer { NeverDescends nat_cmp (map (λ e. e.key) newer.now) }
    requires older { NeverDescends nat_cmp (map (λ e. e.key) older.now) }
    ensures all { IfOk result (λ v. (e : Entry) → Contains v.items e ↔ (Contains newer.now e
        ⊎ Contains (filter (λ y. not (has_partner (λ y x. nat_cmp x.key y.key) newer.now y)) older.now) e)) }
    ensures same { IfOk result (λ v. IsPermutation
        (newer.now ++ filter (λ y. not (has_partner (λ y x. nat_cmp x.key y.key) newer.now y)) older.now) v.items) }
    ensures run { AlwaysAscends nat_cmp (map (λ e. e.key) newer.now) → AlwaysAscends nat_cmp (map (λ e. e.key) older.now)
        → IfOk result (λ v. AlwaysAscends nat_cmp (map (λ e. e.key) v.items)) }
{
    once_keeps_left::<Entry, u32>();
    let join = MergeJoinBy::new(newer, older, |x: &Entry, y: &Entry| x.key.cmp(&y.key));
    sees_merge_by_keys::<_, _, u32, _>(&join);
    join.flat_map(|part| part.once()).copied().collect(alloc)
}
