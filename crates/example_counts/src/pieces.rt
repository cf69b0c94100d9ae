//! What the pieces of a slice share with the slice: as many as `dedup` leaves, and the same from a descending slice by halving.
ghost use Rattle.std.specs.Prelude.{◌≡◌, ◌≤◌, ℕ, true, count_by, length, map, nat_eq, take, IfOk, IfSome, IsSome};
ghost use Rattle.std.specs.List.{AllByRecursion, Contains, dedup, filter};
ghost use Rattle.std.specs.Ordering.{flip_args, nat_cmp};
ghost use Rattle.slice_group_by.specs.Search.{AlwaysAscends, NeverDescends};
ghost use Rattle.slice_group_by.specs.Split.{split};
ghost use Rattle.slice_group_by.specs.Matches.{has_partner};
ghost use Rattle.example_counts.specs.Keys.{by_key, key, same_key};

use crate::joins::{Entry, count_common_keys};
use slice_group_by::laws::{
    ascending_is_grouped, bests_are_greatest, chunk_by_agrees, pieces_by_key, pieces_have_keys,
    sees_keys, sees_pieces, sorts_ascend,
};
use slice_group_by::{
    BinaryGroup, GroupAdapters, LinearGroup, LinearGroupByKey, partition_best_by_key,
};
use std::alloc::{AllocError, Global};

/// How many elements `dedup` would leave of the slice.
pub fn deduped_len(xs: &[u32]) -> usize
    ensures { result ≡ length (dedup nat_eq xs.now) }
{
    let groups = LinearGroup::new(xs);
    sees_pieces(&groups);
    pieces_have_keys::<u32, u32>();
    groups.count()
}

/// How many groups the slice has, and how many chunks of equal elements the standard library finds in it: as many.
pub fn groups_and_chunks(xs: &[u32]) -> (usize, usize)
    ensures groups { result.0 ≡ length (split nat_eq xs.now) }
    ensures chunks { result.1 ≡ length (split nat_eq xs.now) }
{
    let groups = LinearGroup::new(xs);
    let chunks = xs.chunk_by(|a, b| a == b);
    sees_pieces(&groups);
    chunk_by_agrees(&chunks, &groups);
    (groups.count(), chunks.count())
}

/// How many groups a slice has that descends, found by halving.
pub fn count_descending(xs: &[u32]) -> usize
    requires { NeverDescends (flip_args nat_cmp) xs.now }
    ensures { result ≡ length (split nat_eq xs.now) }
{
    ascending_is_grouped::<u32, u32>();
    let groups = BinaryGroup::new(xs);
    sees_pieces(&groups);
    groups.count()
}

/// Each key of rows that ascend by it, once and in order, with how many of all rows have it.
pub fn rows_by_key(alloc: Global, rows: &[Entry]) -> Result<Vec<(u32, usize)>, AllocError>
    requires { NeverDescends nat_cmp (map key rows.now) }
    ensures { IfOk result (λ counts. counts.items
        ≡ map (λ k. (k, length (filter (λ row. nat_eq (key row) k) rows.now))) (dedup nat_eq (map key rows.now))) }
{
    pieces_by_key::<Entry, u32>();
    let groups = LinearGroupByKey::new(rows, |e: &Entry| e.0).with_keys();
    sees_keys(&groups);
    groups.map(|(key, group)| (key, group.len())).collect(alloc)
}

/// The key of each group of rows that ascend by their keys, in a vector: the keys of the rows, each once, and each less than the
/// next.
pub fn keys_once(alloc: Global, rows: &[Entry]) -> Result<Vec<u32>, AllocError>
    requires { NeverDescends nat_cmp (map key rows.now) }
    ensures all { IfOk result (λ keys. keys.items ≡ dedup nat_eq (map key rows.now)) }
    ensures once { IfOk result (λ keys. AlwaysAscends nat_cmp keys.items) }
{
    pieces_by_key::<Entry, u32>();
    pieces_have_keys::<Entry, u32>();
    let groups = LinearGroupByKey::new(rows, |e: &Entry| e.0);
    sees_pieces(&groups);
    let mut keys = Vec::new(alloc);
    for group in groups {
        keys.push(group[0].0)?;
    }
    Ok(keys)
}

/// How many keys both slices have, or `None` where one of them does not ascend by its keys.
pub fn common_keys_if_sorted(left: &[Entry], right: &[Entry]) -> Option<usize>
    ensures counts { IfSome result (λ count. count ≡ count_by (has_partner by_key right.now) (dedup same_key left.now)) }
    ensures sorted { NeverDescends nat_cmp (map key left.now) → NeverDescends nat_cmp (map key right.now)
        → IsSome result }
{
    sorts_ascend::<Entry, u32>();
    if !left.is_sorted_by_key(|e| e.0) {
        return None;
    }
    if !right.is_sorted_by_key(|e| e.0) {
        return None;
    }
    Some(count_common_keys(left, right))
}

/// Moves a row of each key to the front, whose value no row of that key exceeds, of rows that ascend by their keys.
pub fn keep_greatest(rows: &mut [Entry]) -> usize
    requires { NeverDescends nat_cmp (map key rows.old) }
    ensures { AllByRecursion (λ best. Contains rows.old best
        × ((row : ℕ × ℕ) → Contains rows.old row → nat_eq (key row) (key best) ≡ true → row.1 ≤ best.1)) (take result rows.new) }
{
    bests_are_greatest::<Entry, u32>();
    partition_best_by_key(
        rows,
        |row: &Entry| row.0,
        |kept: &Entry, row: &Entry| kept.1 < row.1,
    )
}

/// Keeps these rows of a vector, and no other.
pub fn retain_greatest(rows: &mut Vec<Entry>)
    requires { NeverDescends nat_cmp (map key rows.old.items) }
    ensures { AllByRecursion (λ best. Contains rows.old.items best
        × ((row : ℕ × ℕ) → Contains rows.old.items row → nat_eq (key row) (key best) ≡ true → row.1 ≤ best.1)) rows.new.items }
{
    let kept = keep_greatest(rows);
    rows.truncate(kept);
}
