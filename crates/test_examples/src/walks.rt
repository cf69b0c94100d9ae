//! Users who walk, and calls whose conditions are met.
use example_conditions::{count_by_distance, count_equal_characters, count_of_one};
use example_walks::closures::counted;
use example_walks::families::sort_and_count;
use example_walks::folds::{longest_with_row, total_by_groups};
use example_walks::offsets::runs_with_rows;
use example_walks::tokens::after_first_word;
use example_walks::writers::clear_ends;
use slice_group_by::End;
use std::test::Fail;

#[test]
fn conditions_are_met(rt: HostRuntime) {
    assert!(rt; count_by_distance() == 2 && count_of_one() == 1);
    let mut bytes = *b"aa\xC3\xA9\xC3\xA9b";
    assert!(rt; count_equal_characters(&mut bytes) == Some(3));
    assert!(rt; count_equal_characters(&mut [b'a', 0xC3]).is_none());
}

#[test]
fn questions_of_a_walk(rt: HostRuntime) {
    let numbers: &[u32] = &[1, 2, 3, 2, 3];
    let mut out: [Option<&[u32]>; 1] = [None; 1];
    assert_eq!(rt; counted(&numbers, &[End::Back], &mut out), 2);
}

#[test]
fn sorts_and_counts(rt: HostRuntime) {
    let mut mixed = [3, 1, 3, 2, 1];
    assert!(rt; sort_and_count(&mut mixed) == 3);
    assert!(rt; mixed == [1, 1, 2, 3, 3]);
}

#[test]
fn cuts_behind_a_word(rt: HostRuntime) {
    assert!(rt; after_first_word("饰é(x)") == "(x)" && after_first_word("").is_empty());
}

// Of several longest groups the last is given.
#[test]
fn folds(rt: HostRuntime) {
    assert!(rt; longest_with_row(&[1, 2, 2, 3, 3]) == Some((3, [3, 3].as_slice())));
    assert!(rt; total_by_groups(&[u32::MAX, u32::MAX, 1]) == Some(8_589_934_591));
}

#[test]
fn memory_is_enough(rt: HostRuntime) -> Result<(), Fail> {
    let runs: [(usize, &[u32]); 2] = [(0, &[1, 1]), (2, &[2])];
    assert!(rt; runs_with_rows(rt.alloc(), &[1, 1, 2])?.as_slice() == runs.as_slice());
    Ok(())
}

#[test]
fn ends_are_cleared(rt: HostRuntime) {
    let mut slice = [4, 4, 5, 4, 6, 6];
    clear_ends(&mut slice);
    assert_eq!(rt; slice, [0, 0, 5, 4, 0, 0]);
}
