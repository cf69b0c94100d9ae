//! Searches, ranges, partition points, joins and their parts.
ghost use Rattle.slice_merge_join.specs.Asking.{IsCallableAcross};
ghost use Rattle.slice_group_by.specs.Calls.{IsCallableBy};
ghost use Rattle.slice_group_by.specs.Judges.{by_key, key_judge};
ghost use Rattle.slice_group_by.specs.Split.{AreApart, AreNeighbours};
ghost use Rattle.slice_group_by.specs.Judges.{IsCallableOn};

use slice_group_by::*;
use slice_merge_join::{AsOfJoin, EitherOrBoth, MergeJoinBy, joinable_prefixes};
use std::cmp::Ordering;
use std::fmt::Debug;

// What is sought may be gone before what is found.
pub fn of_elements<'a, T: Ord>(xs: &'a [T], elem: &T) -> &'a [T] {
    let _ = (is_sorted_for_groups(xs), exponential_search(xs, elem));
    &xs[exponential_equal_places(xs, elem)]
}

pub fn by<T, F: FnMut(&T) -> Ordering>(xs: &[T], f: F, g: F, lent: &mut F)
    requires f { IsCallableOn F.FnMut xs.now f }
    requires g { IsCallableOn F.FnMut xs.now g }
    requires lent { IsCallableOn F.FnMut xs.now lent.old }
{
    let _ = exponential_search_by(xs, f);
    let _ = exponential_equal_places_by(xs, g);
    let _ = exponential_search_by_ref(xs, lent);
    let _ = exponential_equal_places_by_ref(xs, lent);
}

pub fn by_key<T, B: Ord + Drop, F: FnMut(&T) -> B>(xs: &[T], b: &B, f: F, g: F, lent: &mut F)
    requires f { IsCallableOn F.FnMut xs.now f }
    requires g { IsCallableOn F.FnMut xs.now g }
    requires lent { IsCallableOn F.FnMut xs.now lent.old }
{
    let _ = exponential_search_by_key(xs, b, f);
    let _ = exponential_equal_places_by_key(xs, b, g);
    let _ = exponential_search_by_key_ref(xs, b, lent);
}

pub fn points<T, P: FnMut(&T) -> bool>(xs: &[T], p: P)
    requires { IsCallableOn P.FnMut xs.now p }
{
    let _ = exponential_partition_point(xs, p);
}

pub fn joined_by_key<A, B, FA: Fn(&A) -> K, FB: Fn(&B) -> K, K: Ord + Drop>(
    left: (&[A], FA),
    right: (&[B], FB),
)
    requires left { IsCallableOn FA.FnMut left.0.now left.1 }
    requires right { IsCallableOn FB.FnMut right.0.now right.1 }
{
    let _ = MergeJoin::new(left.0, left.1, right.0, right.1).outer();
}

pub fn joined_by<A, B, F: FnMut(&A, &B) -> Ordering>(left: &[A], right: &[B], f: F, g: F, h: F)
    requires f { IsCallableAcross F.FnMut left.now right.now f }
    requires g { IsCallableAcross F.FnMut left.now right.now g }
    requires h { IsCallableAcross F.FnMut left.now right.now h }
{
    let _ = MergeJoinBy::new(left, right, f).next();
    let _ = AsOfJoin::new(left, right, g).next();
    let _ = joinable_prefixes(left, false, right, true, h);
}

// Values that may be let go, and slices of anything.

pub fn parts<L: Drop, R: Drop>(parts: [EitherOrBoth<L, R>; 6], values: (L, R)) -> (L, R) {
    let [first, second, third, fourth, fifth, sixth] = parts;
    let _ = (first.left(), second.right(), third.both());
    let _ = (fourth.just_left(), fifth.just_right());
    sixth.or(values.0, values.1)
}

pub fn parts_of_slices<'a, T>(part: EitherOrBoth<&'a [T], &'a [T]>) -> [&'a [T]; 4] {
    [part.partnered(), part.alone(), part.once(), part.sides().1]
}

fn is_copied<T: Copy + Eq + Debug>(_value: &T) {}

pub fn values<L: Copy + Eq + Debug, R: Copy + Eq + Debug>(end: &End, part: &EitherOrBoth<L, R>) {
    is_copied(end);
    is_copied(part);
}

pub fn best_by<T, P: FnMut(&T, &T) -> bool, B: FnMut(&T, &T) -> bool>(xs: &mut [T], p: P, b: B)
    requires p { P.IsAlwaysCallable p }
    requires b { B.IsAlwaysCallable b }
{
    laws::always_callable::<T, P>();
    let _ = partition_best_by(xs, p, b);
}

pub fn best_by_key<T, F: FnMut(&T) -> K, K: PartialEq + Drop, B: FnMut(&T, &T) -> bool>(
    xs: &mut [T],
    f: F,
    b: B,
)
    requires f { IsCallableBy AreNeighbours (by_key F.FnMut K.eq) (record { remainder = xs.old; judge = key_judge f }) }
    requires b { B.IsAlwaysCallable b }
{
    let _ = partition_best_by_key(xs, f, b);
}
