//! Groups by a key, each with its key; and what each group has of its first element.
ghost use Rattle.std.specs.Prelude.{◌≡◌, flat_map, length, map, nat_eq, replicate, IfOk};
ghost use Rattle.slice_group_by.specs.Dedup.{counted};
ghost use Rattle.slice_group_by.specs.Keyed.{keyed_at};
ghost use Rattle.slice_group_by.specs.Split.{split};

use slice_group_by::laws::{equal_pieces_are_copies, sees_counts, sees_keys_at};
use slice_group_by::{GroupAdapters, LinearGroup, LinearGroupByKey, dedup_with_count};
use std::alloc::{AllocError, Global};

/// The run-length encoding of a slice: how long each run of equal numbers is, and the number. It decodes to the slice.
pub fn encoded(alloc: Global, slice: &[u32]) -> Result<Vec<(usize, u32)>, AllocError>
    ensures runs { IfOk result (λ runs. runs.items ≡ counted (split nat_eq slice.now)) }
    ensures decodes { IfOk result (λ runs. flat_map (λ r. replicate r.0 r.1) runs.items ≡ slice.now) }
{
    equal_pieces_are_copies::<u32>();
    let counts = dedup_with_count(LinearGroup::new(slice));
    sees_counts(&counts);
    counts.map(|(len, number)| (len, *number)).collect(alloc)
}

/// An index of rows: the key of each group of rows with one key, where it begins, and how many rows it has.
pub fn index_of(alloc: Global, rows: &[(u32, u32)]) -> Result<Vec<(u32, usize, usize)>, AllocError>
    ensures { IfOk result (λ index. index.items ≡ map (λ e. (e.0, e.1.0, length e.1.1))
        (keyed_at (λ row. row.0) 0 (split (λ a b. nat_eq a.0 b.0) rows.now))) }
{
    let groups = LinearGroupByKey::new(rows, |row: &(u32, u32)| row.0)
        .with_offsets()
        .with_keys();
    sees_keys_at(&groups);
    groups
        .map(|(key, (place, group))| (key, place, group.len()))
        .collect(alloc)
}
