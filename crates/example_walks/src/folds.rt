//! What a loop over groups keeps: a count, a total, and one of the groups.
ghost use Rattle.std.specs.Prelude.{◌≡◌, ◌≤◌, [], length, nat_eq, sum_by, IfSome, MatchOption};
ghost use Rattle.std.specs.List.{AllByRecursion, Contains};
ghost use Rattle.slice_group_by.specs.Offsets.{with_offsets};
ghost use Rattle.slice_group_by.specs.Split.{split};

use slice_group_by::laws::{calls_take_pieces, groups_stand, pieces_add_up, sees_pieces};
use slice_group_by::{GroupAdapters, LinearGroup};

/// How many groups there are, one call after another from the back.
pub fn count_by_calls(xs: &[u32]) -> usize
    ensures { result ≡ length (split nat_eq xs.now) }
{
    let mut groups = LinearGroup::new(xs);
    calls_take_pieces(&groups);
    let mut count = 0usize;
    while let Some(_) = groups.next_back() {
        count += 1;
    }
    count
}

/// The sum of the numbers, group by group, if it is a number of 64 bits.
pub fn total_by_groups(xs: &[u32]) -> Option<u64>
    ensures { IfSome result (λ total. total ≡ sum_by (λ x. x) xs.now) }
{
    let groups = LinearGroup::new(xs);
    sees_pieces(&groups);
    pieces_add_up::<u32>();
    let mut total = 0u64;
    for group in groups {
        total = total.checked_add(sum(group)?)?;
    }
    Some(total)
}

// The sum of the numbers of a group, if it is a number of 64 bits.
fn sum(group: &[u32]) -> Option<u64>
    ensures { IfSome result (λ sum. sum ≡ sum_by (λ x. x) group.now) }
{
    let mut sum = 0u64;
    for x in group {
        sum = sum.checked_add(u64::from(*x))?;
    }
    Some(sum)
}

/// The longest group, the last of several, and the row at which it begins, or `None` where there is none.
pub fn longest_with_row<T: PartialEq>(slice: &[T]) -> Option<(usize, &[T])>
    ensures { let groups = with_offsets 0 (split T.eq slice.now) in MatchOption result (groups ≡ [])
        (λ found. Contains groups (found.0, found.1.now)
        × AllByRecursion (λ other. length other.1 ≤ length found.1.now) groups) }
{
    let groups = LinearGroup::new(slice).with_offsets();
    sees_pieces(&groups);
    groups_stand(&groups);
    groups.max_by_key(|found| found.1.len())
}
