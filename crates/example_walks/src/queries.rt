//! Groups that pass a test, and ranks.
ghost use Rattle.std.specs.Prelude.{◌≡◌, ◌+◌, count_by, flat_map, get_or, length, map, nat_eq, nat_lt, not, IfOk};
ghost use Rattle.std.specs.List.{dedup, filter};
ghost use Rattle.std.specs.Ordering.{flip_args, nat_cmp};
ghost use Rattle.slice_group_by.specs.Search.{NeverDescends};
ghost use Rattle.slice_group_by.specs.Split.{split};

use slice_group_by::laws::{groups_stand, passed_pieces_join, queries_by_key, sees_pieces};
use slice_group_by::{GroupAdapters, LinearGroup, LinearGroupByKey};
use std::alloc::{AllocError, Global};

/// The runs of numbers that are not 0: joined, they are these numbers.
pub fn active(alloc: Global, levels: &[u32]) -> Result<Vec<&[u32]>, AllocError>
    ensures runs { IfOk result (λ v. map (λ g. g.now) v.items ≡ filter (λ g. not (nat_eq (get_or g 0 0) 0))
        (split (λ a b. ⟦<bool as PartialEq>⟧.eq (nat_eq a 0) (nat_eq b 0)) levels.now)) }
    ensures joined { IfOk result (λ v. flat_map (λ g. g.now) v.items ≡ filter (λ x. not (nat_eq x 0)) levels.now) }
{
    passed_pieces_join::<u32>();
    let groups = LinearGroupByKey::new(levels, |x: &u32| *x == 0);
    sees_pieces(&groups);
    groups.filter(|run| run[0] != 0).collect(alloc)
}

/// The numbers that stand once, of numbers that ascend.
pub fn once_only(alloc: Global, xs: &[u32]) -> Result<Vec<u32>, AllocError>
    requires { NeverDescends nat_cmp xs.now }
    ensures { IfOk result (λ v. v.items
        ≡ filter (λ x. nat_eq (length (filter (λ y. nat_eq y x) xs.now)) 1) (dedup nat_eq xs.now)) }
{
    queries_by_key::<u32, u32, u32>();
    let groups = LinearGroup::new(xs);
    sees_pieces(&groups);
    groups
        .filter(|group| group.len() == 1)
        .map(|group| group[0])
        .collect(alloc)
}

/// Each number of points, of points that descend, with its rank: one more than there are greater ones, as in 1, 2, 2, 4.
pub fn ranks(alloc: Global, points: &[u32]) -> Result<Vec<(u32, usize)>, AllocError>
    requires { NeverDescends (flip_args nat_cmp) points.now }
    ensures { IfOk result (λ v. v.items ≡ map (λ k. (k, count_by (λ y. nat_lt k y) points.now + 1)) (dedup nat_eq points.now)) }
{
    queries_by_key::<u32, u32, (u32, usize)>();
    let groups = LinearGroup::new(points).with_offsets();
    sees_pieces(&groups);
    groups_stand(&groups);
    groups
        .map(|(start, group)| (group[0], start + 1))
        .collect(alloc)
}
