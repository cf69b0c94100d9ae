//! Groups of equal elements: calls as of a queue, the outer groups, their number, and their lengths.
ghost use Rattle.std.specs.Prelude.{◌≡◌, ◌+◌, ◌<◌, ◌≤◌, ◌++◌, length, map, option_map, reverse, take, drop, IfOk};
ghost use Rattle.slice_group_by.specs.Split.{first, last, without_first, split, refused_pairs};
ghost use Rattle.slice_group_by.specs.Queue.{pops};

use slice_group_by::laws::{calls_take_pieces, one_split, sees_pieces};
use slice_group_by::{End, LinearGroup, walk};
use std::alloc::{AllocError, Global};

/// Calls at these ends answer as the two-ended queue of the pieces of the split.
pub fn equal_groups<'a, T: PartialEq>(xs: &'a [T], ends: &[End], out: &mut [Option<&'a [T]>])
    requires { length out.old ≡ length ends.now }
    ensures { map (option_map (λ group. group.now)) out.new ≡ pops (split T.eq xs.now) ends.now }
{
    let mut groups = LinearGroup::new(xs);
    walk(&mut groups, ends, out);
}

/// The first group.
pub fn first_group<T: PartialEq>(xs: &[T]) -> Option<&[T]>
    ensures { option_map (λ group. group.now) result ≡ first (split T.eq xs.now) }
{
    let mut groups = LinearGroup::new(xs);
    calls_take_pieces(&groups);
    groups.next()
}

/// The first group, and the last of the others.
pub fn outer_groups<T: PartialEq>(xs: &[T]) -> (Option<&[T]>, Option<&[T]>)
    ensures front { option_map (λ group. group.now) result.0 ≡ first (split T.eq xs.now) }
    ensures back { option_map (λ group. group.now) result.1 ≡ last (without_first (split T.eq xs.now)) }
{
    let mut groups = LinearGroup::new(xs);
    calls_take_pieces(&groups);
    let front = groups.next();
    let back = groups.next_back();
    (front, back)
}

/// How many groups there are: one more than neighbouring pairs are unequal.
pub fn count_groups<T: PartialEq>(xs: &[T]) -> usize
    ensures none { length xs.now ≡ 0 → result ≡ 0 }
    ensures some { 0 < length xs.now → result ≡ refused_pairs T.eq xs.now + 1 }
{
    let groups = LinearGroup::new(xs);
    sees_pieces(&groups);
    one_split::<T>();
    let mut count = 0;
    for _group in groups {
        count += 1;
    }
    count
}

/// Writes the length of each group, and answers how many there are: a run-length encoding without the elements.
pub fn run_lengths<T: PartialEq>(xs: &[T], out: &mut [usize]) -> usize
    requires { length xs.now ≤ length out.old }
    ensures count { result ≡ length (split T.eq xs.now) }
    ensures written { take result out.new ≡ map length (split T.eq xs.now) }
    ensures rest { drop result out.new ≡ drop result out.old }
{
    let groups = LinearGroup::new(xs);
    sees_pieces(&groups);
    let mut count = 0;
    for group in groups {
        out[count] = group.len();
        count += 1;
    }
    count
}

/// The groups that calls at the front and at the back give in turn, until they meet: each piece once.
pub fn in_turn<'a, T: PartialEq>(
    alloc: Global,
    xs: &'a [T],
) -> Result<(Vec<&'a [T]>, Vec<&'a [T]>), AllocError>
    ensures { IfOk result (λ v. map (λ g. g.now) v.0.items ++ reverse (map (λ g. g.now) v.1.items) ≡ split T.eq xs.now) }
{
    let mut groups = LinearGroup::new(xs);
    sees_pieces(&groups);
    calls_take_pieces(&groups);
    let mut fronts = Vec::new(alloc);
    let mut backs = Vec::new(alloc);
    while let Some(front) = groups.next() {
        fronts.push(front)?;
        if let Some(back) = groups.next_back() {
            backs.push(back)?;
        }
    }
    Ok((fronts, backs))
}
