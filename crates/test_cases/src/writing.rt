//! Groups of slices for writing, case by case, and what the slice then holds.
use crate::calls::{Group, answers_mut, ascend, asks, equal, gives_mut, itself, read, tens};
use slice_group_by::{
    BinaryGroupByKeyMut, BinaryGroupMut, ExponentialGroupByMut, GroupByMut, LinearGroupByKeyMut,
    LinearGroupMut, rank_groups,
};
use std::cell::Cell;

type Read<'a> = Option<&'a [i32]>;

// Whether there is a group, of these numbers, which are written over.
fn filled(group: Option<&mut [i32]>, wanted: &[i32], with: i32) -> bool {
    match group {
        Some(group) => {
            let holds = *group == *wanted;
            group.fill(with);
            holds
        }
        None => false,
    }
}

fn parity(x: &i32) -> i32 {
    *x % 2
}

#[test]
fn group_by_key_mut(rt: HostRuntime) {
    let mut array = [1, 2, 4, 5, 7, 8, 8];
    let wanted: [&[i32]; 4] = [&[1], &[2, 4], &[5, 7], &[8, 8]];
    assert!(rt; gives_mut(LinearGroupByKeyMut::new(&mut array, parity), &wanted));
}

#[test]
fn three_groups_for_writing(rt: HostRuntime) {
    let mut slice: &mut [i32] = &mut [1, 1, 1, 2, 2, 2, 3, 3];
    let wanted: [&[i32]; 3] = [&[1, 1, 1], &[2, 2, 2], &[3, 3]];
    assert!(rt; gives_mut(slice.binary_group_by_mut(equal), &wanted));
}

// A reversed iterator gives the groups from the back, and asks what calls from the back ask.
fn reversed<'a>(slice: &'a mut &mut [i32]) -> ([Read<'a>; 4], [usize; 4]) {
    let questions = Cell::new(0usize);
    let mut groups = slice
        .exponential_group_by_mut(|a, b| asks(&questions, a, b))
        .rev();
    let first = read(groups.next());
    let of_first = questions.replace(0);
    let second = read(groups.next());
    let of_second = questions.replace(0);
    let third = read(groups.next());
    let of_third = questions.replace(0);
    let groups = [first, second, third, read(groups.next())];
    (groups, [of_first, of_second, of_third, questions.get()])
}

#[test]
fn three_groups_reversed(rt: HostRuntime) {
    let mut slice: &mut [i32] = &mut [1, 1, 1, 2, 2, 2, 3, 3];
    let (groups, questions) = reversed(&mut slice);
    let wanted: [Group; 4] = [Some(&[3, 3]), Some(&[2, 2, 2]), Some(&[1, 1, 1]), None];
    assert!(rt; groups == wanted);
    assert!(rt; questions.iter().all(|count| *count <= 5) && questions[3] == 0);
}

fn linear_by_key<'a>(slice: &'a mut &mut [i32]) -> [Read<'a>; 3] {
    answers_mut!(slice.linear_group_by_key_mut(tens); next, next_back, next)
}

fn binary_by_key<'a>(slice: &'a mut &mut [i32]) -> [Read<'a>; 3] {
    answers_mut!(slice.binary_group_by_key_mut(tens); next, next_back, next)
}

fn exponential_by_key<'a>(slice: &'a mut &mut [i32]) -> [Read<'a>; 3] {
    answers_mut!(slice.exponential_group_by_key_mut(tens); next, next_back, next)
}

fn linear<'a>(slice: &'a mut &mut [i32]) -> [Read<'a>; 3] {
    answers_mut!(slice.linear_group_mut(); next, next_back, next)
}

fn binary<'a>(slice: &'a mut &mut [i32]) -> [Read<'a>; 3] {
    answers_mut!(slice.binary_group_mut(); next, next_back, next)
}

fn exponential<'a>(slice: &'a mut &mut [i32]) -> [Read<'a>; 3] {
    answers_mut!(slice.exponential_group_mut(); next, next_back, next)
}

#[test]
fn methods_from_both_ends(rt: HostRuntime) {
    let by_tens: [Group; 3] = [Some(&[10, 11]), Some(&[20, 21, 22]), None];
    let mut slice: &mut [i32] = &mut [10, 11, 20, 21, 22];
    assert!(rt; linear_by_key(&mut slice) == by_tens);
    assert!(rt; binary_by_key(&mut slice) == by_tens);
    assert!(rt; exponential_by_key(&mut slice) == by_tens);
    let equal: [Group; 3] = [Some(&[1, 1]), Some(&[2]), None];
    let mut slice: &mut [i32] = &mut [1, 1, 2];
    assert!(rt; linear(&mut slice) == equal);
    assert!(rt; binary(&mut slice) == equal);
    assert!(rt; exponential(&mut slice) == equal);
}

// Writes nines over what remains behind the first of two groups.
fn fill_the_remainder(mut slice: &mut [i32]) -> bool {
    let mut groups = slice.binary_group_by_mut(equal);
    let first = read(groups.next()) == Some(&[1, 1]);
    first & filled(Some(groups.into_remainder()), &[2, 2], 9)
}

#[test]
fn remainder_is_for_writing(rt: HostRuntime) {
    let mut array = [1, 1, 2, 2];
    assert!(rt; fill_the_remainder(&mut array));
    assert_eq!(rt; array, [1, 1, 9, 9]);
}

// Writes zeros over the first group, and looks at what remains.
fn fill_the_first(slice: &mut [i32]) -> bool {
    let mut groups = BinaryGroupByKeyMut::new(slice, tens);
    filled(groups.next(), &[10, 11], 0) && groups.remainder() == [20].as_slice()
}

#[test]
fn remainder_is_seen(rt: HostRuntime) {
    let mut array = [10, 11, 20];
    assert!(rt; fill_the_first(&mut array));
    assert_eq!(rt; array, [0, 0, 20]);
}

fn first_of(slice: &mut [i32]) -> Option<&mut [i32]> {
    BinaryGroupMut::new(slice).next()
}

// Whether there is a pair of ones, whose first place is written.
fn begins_anew(group: Option<&mut [i32]>) -> bool {
    match group {
        Some(group) => {
            let holds = &*group == [1, 1].as_slice();
            if let Some(first) = group.first_mut() {
                *first = 7;
            }
            holds
        }
        None => false,
    }
}

#[test]
fn group_outlives_the_iterator(rt: HostRuntime) {
    let mut array = [1, 1, 2, 2];
    assert!(rt; begins_anew(first_of(&mut array)));
    assert_eq!(rt; array, [7, 1, 2, 2]);
}

// Takes the outer groups, and writes both while they are out.
fn fill_the_outer_ones(slice: &mut [i32]) -> bool {
    let mut groups = LinearGroupMut::new(slice);
    let first = groups.next();
    let last = groups.next_back();
    let outer = filled(first, &[1, 1], 2) & filled(last, &[3, 3], 2);
    let [middle, none] = answers_mut!(groups; next, next);
    outer && middle == Some(&[2]) && none.is_none()
}

#[test]
fn groups_from_both_ends_at_once(rt: HostRuntime) {
    let mut array = [1, 1, 2, 3, 3];
    assert!(rt; fill_the_outer_ones(&mut array));
    assert_eq!(rt; array, [2, 2, 2, 2, 2]);
}

#[test]
fn ranks(rt: HostRuntime) {
    let mut none: [usize; 0] = [];
    rank_groups(&mut none);
    assert_eq!(rt; none, []);
    let mut one = [9];
    rank_groups(&mut one);
    assert_eq!(rt; one, [0]);
    let mut four = [3, 3, 4, 3];
    rank_groups(&mut four);
    assert_eq!(rt; four, [0, 0, 1, 2]);
}

fn call_methods(slice: &mut &mut [i32]) {
    let _ = slice.linear_group_mut().next();
    let _ = slice.binary_group_by_key_mut(itself).last();
    let _ = slice.exponential_group_by_mut(ascend).next_back();
}

// No contract says what the input holds after an iterator is dropped.
#[test]
fn leaves_the_other_elements(rt: HostRuntime) {
    let mut array = [1, 2, 2, 9, 9];
    let mut slice: &mut [i32] = &mut array;
    call_methods(&mut slice);
    assert_eq!(rt; &*slice, [1, 2, 2, 9, 9].as_slice());
}
