//! Users who count. Their contracts bound most counts; here is what they are.
use example_counts::counts::{
    exponential_questions, first_exponential_group, longest_and_questions, walk_binary,
};
use example_counts::joins::merge_join_by_key;
use example_counts::parts::lens_by_halves;
use example_counts::pieces::keys_once;
use example_counts::queues::all_groups;
use example_counts::searches::{keys_of_search, questions_of_search};
use slice_group_by::{End, LinearGroup};
use std::test::Fail;

// Galloping asks about the second, the third and the fifth, and then about two of the last three.
#[test]
fn questions_of_eight(rt: HostRuntime) {
    assert_eq!(rt; exponential_questions(&[5; 8]), 5);
    let mut out: [Option<&[u32]>; 2] = [None; 2];
    assert_eq!(rt; walk_binary(&[7, 8], &[End::Back, End::Front], &mut out), 1);
}

#[test]
fn groups_beside_counts(rt: HostRuntime) {
    assert!(rt; first_exponential_group(&[1, 2]) == (Some([1].as_slice()), 1));
    assert_eq!(rt; longest_and_questions(&[1, 2, 2, 2, 2, 3, 3]), (4, 6));
}

#[test]
fn searches_count(rt: HostRuntime) {
    assert_eq!(rt; questions_of_search(&[3], 3), (Ok(0), 1));
    assert_eq!(rt; keys_of_search(&[(3, 7)], 4), (Err(1), 1));
}

#[test]
fn memory_is_enough(rt: HostRuntime) -> Result<(), Fail> {
    let alloc = rt.alloc();
    let pairs = merge_join_by_key(alloc, &[10, 11, 25], |x| *x / 10, &[1, 2], |y| *y)?;
    assert!(rt; matches!(pairs.as_slice(), [([10, 11], [1]), ([25], [2])]));
    let lens = lens_by_halves(alloc, &[7; 3000])?;
    assert!(rt; lens.as_slice() == [3000].as_slice());
    let keys = keys_once(alloc, &[(1, 10), (1, 11), (3, 12)])?;
    assert!(rt; keys.as_slice() == [1, 3].as_slice());
    let groups = all_groups(alloc, LinearGroup::new(&[1, 1, 2]))?;
    assert!(rt; matches!(groups.as_slice(), [[1, 1], [2]]));
    Ok(())
}
