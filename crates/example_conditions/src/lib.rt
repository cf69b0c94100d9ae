//! Calls that have a condition, where it is met: a place for each answer, a predicate that may be called on some pairs alone,
//! and bytes that are a text. Edits that miss a condition are refused.
#![tactic(auto)]

ghost use Rattle.std.specs.Prelude.{◌≡◌, ◌≤◌, ◌<◌, ◌-◌, [], ◌∷◌, map, option_map};
ghost use Rattle.std.specs.Ordering.{int_eq};
ghost use Rattle.slice_group_by.specs.End.TheVariants.{Front, Back};
ghost use Rattle.slice_group_by.specs.Queue.{pops};
ghost use Rattle.slice_group_by.specs.Split.{split};

use slice_group_by::{End, GroupBy, LinearGroup, LinearGroupBy, LinearStrGroupMut, walk};

/// The first group, the last, and the next from the front. `walk` wants as many places for answers as there are calls.
pub fn three_outer_groups(slice: &[i32]) -> [Option<&[i32]>; 3]
    ensures { map (option_map (λ group. group.now)) result
        ≡ pops (split int_eq slice.now) (Front ∷ Back ∷ Front ∷ []) }
{
    let mut answers: [Option<&[i32]>; 3] = [None; 3];
    let ends = [End::Front, End::Back, End::Front];
    walk(&mut LinearGroup::new(slice), &ends, &mut answers);
    answers
}

/// How many groups five places make, by a table of the distances at which two belong together. It may be asked only of two that
/// ascend and are less than twelve apart, as all neighbours here are.
pub fn count_by_distance() -> usize {
    let together = [
        true, true, false, true, false, false, false, false, false, false, false, true,
    ];
    let places = [1, 2, 4, 7, 18];
    let groups = LinearGroupBy::new(
        &places,
        |a: &usize, b: &usize| -> bool
            requires ascend { a.now ≤ b.now }
            requires near { b.now - a.now < 12 }
        { together[b - a] },
    );
    groups.count()
}

/// How many binary groups one element makes, by a predicate that may be called only on two that ascend: nothing is asked of it.
/// Of two elements it may not be handed over, since they may be asked about in both orders.
pub fn count_of_one() -> usize {
    let one = [1];
    let groups = one.binary_group_by(
        |a: &u32, b: &u32| -> bool
            requires { a.now < b.now }
        { b - a < 2 },
    );
    groups.count()
}

/// How many groups of equal characters the bytes have, or `None` where they are no text.
pub fn count_equal_characters(bytes: &mut [u8]) -> Option<usize> {
    if std::str::from_utf8(bytes).is_err() {
        return None;
    }
    Some(LinearStrGroupMut::new(bytes).count())
}
