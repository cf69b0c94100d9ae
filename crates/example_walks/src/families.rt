//! The families of groups beside each other, and functions over binary and exponential groups.
ghost use Rattle.std.specs.Prelude.{◌≡◌, ◌↔◌, ◌<◌, ◌≤◌, not, drop, length, map, option_map, IfSome, IsSome};
ghost use Rattle.slice_group_by.specs.Split.{split};
ghost use Rattle.slice_group_by.specs.Searching.{IsLocalEnd};
ghost use Rattle.slice_group_by.specs.Search.{NeverDescends};
ghost use Rattle.slice_group_by.specs.Queue.{pops};

use slice_group_by::laws::{
    ascending_is_grouped, families_agree, groups_end_locally, sees_pieces, sorts_ascend,
};
use slice_group_by::{
    BinaryGroup, End, ExponentialGroup, ExponentialGroupMut, LinearGroup, is_sorted_for_groups,
    walk,
};

/// The same calls on two families, for reading and for writing, over slices that hold the same: the law that the families agree.
pub fn walk_two_families<'a, T: Ord>(
    slice: &'a [T],
    other: &'a mut [T],
    ends: &[End],
    reading: &mut [Option<&'a [T]>],
    writing: &mut [Option<&'a mut [T]>],
)
    requires sorted { NeverDescends T.cmp slice.now }
    requires same { other.old ≡ slice.now }
    requires reading { length reading.old ≡ length ends.now }
    requires writing { length writing.old ≡ length ends.now }
    ensures reading { map (option_map (λ group. group.now)) reading.new ≡ pops (split T.eq slice.now) ends.now }
    ensures writing { map (option_map (λ group. group.now)) writing.new
        ≡ map (option_map (λ group. group.now)) reading.new }
{
    ascending_is_grouped::<T, T>();
    let mut groups = LinearGroup::new(slice);
    let mut others = ExponentialGroupMut::new(other);
    families_agree(&others, &groups);
    walk(&mut groups, ends, reading);
    walk(&mut others, ends, writing);
}

/// How many groups a sorted slice has, and none of one that is not.
pub fn count_sorted<T: Ord>(slice: &[T]) -> Option<usize>
    ensures counts { IfSome result (λ n. n ≡ length (split T.eq slice.now)) }
    ensures sorted { IsSome result ↔ NeverDescends T.cmp slice.now }
{
    if !is_sorted_for_groups(slice) {
        return None;
    }
    let groups = ExponentialGroup::new(slice);
    sees_pieces(&groups);
    Some(groups.count())
}

/// How many groups the elements of a sorted slice have from a place on, by galloping.
pub fn count_from<T: Ord>(slice: &[T], start: usize) -> usize
    requires sorted { NeverDescends T.cmp slice.now }
    requires within { start ≤ length slice.now }
    ensures { result ≡ length (split T.eq (drop start slice.now)) }
{
    sorts_ascend::<T, T>();
    ascending_is_grouped::<T, T>();
    let (_, part) = slice.split_at(start);
    let groups = ExponentialGroup::new(part);
    sees_pieces(&groups);
    groups.count()
}

/// Sorts a slice, and says how many groups it has then.
pub fn sort_and_count<T: Ord>(slice: &mut [T]) -> usize
    ensures groups { result ≡ length (split T.eq slice.new) }
    ensures sorted { NeverDescends T.cmp slice.new }
{
    sorts_ascend::<T, T>();
    ascending_is_grouped::<T, T>();
    slice.sort_unstable();
    let groups = ExponentialGroup::new(slice);
    sees_pieces(&groups);
    groups.count()
}

/// The lengths of the first two groups of any slice, 0 for each that it has not: they end at local boundaries, after few questions.
pub fn first_two_lens<T: PartialEq>(slice: &[T]) -> (usize, usize)
    ensures first { 0 < length slice.now → IsLocalEnd slice.now T.eq result.0 }
    ensures second { result.0 < length slice.now → IsLocalEnd (drop result.0 slice.now) T.eq result.1 }
{
    let mut groups = BinaryGroup::new(slice);
    groups_end_locally(&groups);
    let Some(first) = groups.next() else {
        return (0, 0);
    };
    let Some(second) = groups.next() else {
        return (first.len(), 0);
    };
    (first.len(), second.len())
}
