//! Groups in loops and through adapters of iterators: `count`, `rev`, `map`, `filter`, `find`, `nth`, a `for`, and how many questions
//! were asked.
ghost use Rattle.std.specs.Prelude.{◌≡◌, ◌-◌, [], length, map, option_map, nat_lt, slice_get, IfOk};
ghost use Rattle.std.specs.List.{filter, find};
ghost use Rattle.slice_group_by.specs.Gives.{groups_of};
ghost use Rattle.slice_group_by.specs.Queue.{pops, after_pops};
ghost use Rattle.slice_group_by.specs.Split.{split};

use slice_group_by::laws::{each_pair_asked_once, equality_judges, sees_pieces};
use slice_group_by::{End, LinearGroup, walk};
use std::alloc::{AllocError, Global};

/// How many groups there are.
pub fn count_groups<T: PartialEq>(xs: &[T]) -> usize
    ensures { result ≡ length (split T.eq xs.now) }
{
    let groups = LinearGroup::new(xs);
    sees_pieces(&groups);
    groups.count()
}

/// The first group of more than `len` elements, if there is one.
pub fn first_longer<T: PartialEq>(xs: &[T], len: usize) -> Option<&[T]>
    ensures { option_map (λ group. group.now) result ≡ find (λ g. nat_lt len (length g)) (split T.eq xs.now) }
{
    let mut groups = LinearGroup::new(xs);
    sees_pieces(&groups);
    groups.find(|group| group.len() > len)
}

/// All groups of more than `len` elements, in a vector.
pub fn all_longer<'a, T: PartialEq>(
    alloc: Global,
    xs: &'a [T],
    len: usize,
) -> Result<Vec<&'a [T]>, AllocError>
    ensures { IfOk result (λ groups. map (λ group. group.now) groups.items
        ≡ filter (λ g. nat_lt len (length g)) (split T.eq xs.now)) }
{
    let groups = LinearGroup::new(xs);
    sees_pieces(&groups);
    groups.filter(|group| group.len() > len).collect(alloc)
}

/// The length of the k-th group, from 0 on.
pub fn nth_length<T: PartialEq>(xs: &[T], k: usize) -> Option<usize>
    ensures { result ≡ slice_get (map length (split T.eq xs.now)) k }
{
    let groups = LinearGroup::new(xs);
    sees_pieces(&groups);
    groups.map(|group| group.len()).nth(k)
}

/// Any list of calls answers as a queue of the groups, and one until nothing remains asks once less than there are elements.
pub fn walk_through<'a, T: PartialEq>(
    xs: &'a [T],
    ends: &[End],
    out: &mut [Option<&'a [T]>],
) -> LinearGroup<'a, T>
    requires { length out.old ≡ length ends.now }
    ensures answers { map (option_map (λ group. group.now)) out.new ≡ pops (split T.eq xs.now) ends.now }
    ensures left { split T.eq (groups_of result).remainder ≡ after_pops (split T.eq xs.now) ends.now }
    ensures asked { (groups_of result).remainder ≡ [] → result.judge.asked ≡ length xs.now - 1 }
{
    let mut groups = LinearGroup::new(xs);
    each_pair_asked_once(&groups);
    equality_judges::<T>();
    walk(&mut groups, ends, out);
    groups
}
