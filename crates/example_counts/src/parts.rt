//! Groups of a slice that is grouped in parts: the parts may be counted apart, and are joined at their seam.
ghost use Rattle.std.specs.Prelude.{◌≡◌, ◌+◌, ◌-◌, ◌<◌, ◌≤◌, ◌^◌, length, map, min, nat_eq, sum, sum_by, IfOk, OnOk};
ghost use Rattle.std.specs.List.{fold};
ghost use Rattle.std.specs.Option.{option_copied};
ghost use Rattle.slice_group_by.specs.Split.{IsGrouped, split};
ghost use Rattle.slice_group_by.specs.Seams.{are_accepted, lens_joined};
ghost use Rattle.example_counts.specs.Longest.{longer};

use slice_group_by::laws::{
    groups_still_come, one_split, pieces_add_up, sees_pieces, sees_shards, splits_join,
};
use slice_group_by::{ExponentialGroup, LinearGroup};
use std::alloc::{AllocError, Global};

// How many groups of equal elements a part has.
fn count_groups(part: &[u32]) -> usize
    ensures count { result ≡ length (split nat_eq part.now) }
    ensures most { result ≤ length part.now }
{
    let groups = LinearGroup::new(part);
    sees_pieces(&groups);
    groups_still_come(&groups);
    groups.count()
}

// Whether there are two, and they are equal.
fn are_equal(left: Option<&u32>, right: Option<&u32>) -> bool
    ensures { result ≡ are_accepted nat_eq (option_copied left.entry) (option_copied right.entry) }
{
    match (left, right) {
        (Some(left), Some(right)) => left == right,
        _ => false,
    }
}

/// How many groups of equal elements a slice has, of which two parts are counted apart: one less than both have where the
/// elements at the seam are equal.
pub fn count_in_parts(slice: &[u32], mid: usize) -> usize
    requires { mid ≤ length slice.now }
    ensures { result ≡ length (split nat_eq slice.now) }
{
    splits_join::<u32>();
    let (left, right) = slice.split_at(mid);
    let count = count_groups(left) + count_groups(right);
    if are_equal(left.last(), right.first()) {
        count - 1
    } else {
        count
    }
}

/// The same, cut near the middle where a group begins: there the two counts add up.
pub fn count_in_two(slice: &[u32]) -> usize
    ensures { result ≡ length (split nat_eq slice.now) }
{
    let (left, right) = slice.split_at(LinearGroup::new(slice).boundary(slice.len() / 2));
    count_groups(left) + count_groups(right)
}

/// The same of a grouped slice, by exponential groups: its parts are grouped too.
pub fn count_grouped_in_two(slice: &[u32]) -> usize
    requires { IsGrouped nat_eq slice.now }
    ensures { result ≡ length (split nat_eq slice.now) }
{
    one_split::<u32>();
    let mid = ExponentialGroup::new(slice).boundary(slice.len() / 2);
    let (left, right) = slice.split_at(mid);
    count_long_groups(left) + count_long_groups(right)
}

// How many groups of equal elements a grouped part has.
fn count_long_groups(part: &[u32]) -> usize
    requires { IsGrouped nat_eq part.now }
    ensures count { result ≡ length (split nat_eq part.now) }
    ensures most { result ≤ length part.now }
{
    let groups = ExponentialGroup::new(part);
    sees_pieces(&groups);
    groups_still_come(&groups);
    groups.count()
}

/// The same of at most so many shards, which a pool of threads could count side by side.
pub fn count_in_shards(slice: &[u32], count: usize) -> usize
    ensures { result ≡ length (split nat_eq slice.now) }
{
    let shards = LinearGroup::new(slice).shards(count);
    sees_shards(&shards);
    one_split::<u32>();
    shards.map(|shard| count_groups(shard)).sum()
}

/// The sum of the numbers, shard by shard, at most the greatest number of 64 bits.
pub fn sum_in_shards(slice: &[u32], count: usize) -> u64
    ensures { result ≡ min (sum_by (λ x. x) slice.now) (2 ^ 64 - 1) }
{
    let shards = LinearGroup::new(slice).shards(count);
    sees_shards(&shards);
    let mut sum = 0u64;
    for shard in shards {
        sum = sum_from(sum, shard);
    }
    sum
}

// The sum with the numbers of a part more.
fn sum_from(start: u64, part: &[u32]) -> u64
    ensures { result ≡ min (start + sum_by (λ x. x) part.now) (2 ^ 64 - 1) }
{
    let mut sum = start;
    for x in part {
        sum = sum.saturating_add(u64::from(*x));
    }
    sum
}

/// How long the longest group of equal elements is, shard by shard.
pub fn longest_in_shards(slice: &[u32], count: usize) -> usize
    ensures { result ≡ fold longer 0 (split nat_eq slice.now) }
{
    let shards = LinearGroup::new(slice).shards(count);
    sees_shards(&shards);
    let mut most = 0usize;
    for shard in shards {
        most = longest_from(most, shard);
    }
    most
}

// The greater of a length and the longest group of a part.
fn longest_from(start: usize, part: &[u32]) -> usize
    ensures { result ≡ fold longer start (split nat_eq part.now) }
{
    let groups = LinearGroup::new(part);
    sees_pieces(&groups);
    let mut most = start;
    for group in groups {
        most = most.max(group.len());
    }
    most
}

// So many elements are grouped in one walk.
const ALONE: usize = 1024;

/// How long the groups of equal elements of a slice are. Of a long slice the two halves are grouped apart, as a pool of threads
/// would do it side by side, and joined at the seam: the lengths are those of one walk.
pub fn lens_by_halves(alloc: Global, slice: &[u32]) -> Result<Vec<usize>, AllocError>
    ensures { IfOk result (λ lens. lens.items ≡ map length (split nat_eq slice.now)) }
{
    if slice.len() <= ALONE {
        return group_lens(alloc, slice);
    }
    splits_join::<u32>();
    pieces_add_up::<u32>();
    let (left, right) = slice.split_at(slice.len() / 2);
    let mut lens = lens_by_halves(alloc, left)?;
    let others = lens_by_halves(alloc, right)?;
    join_lens(&mut lens, &others, are_equal(left.last(), right.first()))?;
    Ok(lens)
}

// How long the groups of equal elements are, by one walk.
fn group_lens(alloc: Global, slice: &[u32]) -> Result<Vec<usize>, AllocError>
    ensures { IfOk result (λ lens. lens.items ≡ map length (split nat_eq slice.now)) }
{
    let groups = LinearGroup::new(slice);
    sees_pieces(&groups);
    groups.map(|group| group.len()).collect(alloc)
}

// Adds the lengths of the groups of the next part. Where the seam is joined, the last group so far and the first of the part are one.
fn join_lens(lens: &mut Vec<usize>, next: &[usize], is_joined: bool) -> Result<(), AllocError>
    requires { sum lens.old.items + sum next.now < 2 ^ 64 }
    ensures { OnOk result (lens.new.items ≡ lens_joined is_joined lens.old.items next.now) }
{
    if !is_joined {
        return lens.extend_from_slice(next);
    }
    let Some((first, others)) = next.split_first() else {
        return Ok(());
    };
    let Some(last) = lens.pop() else {
        return lens.extend_from_slice(next);
    };
    lens.push(last + *first)?;
    lens.extend_from_slice(others)
}
