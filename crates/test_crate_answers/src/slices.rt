//! Groups of a slice.
use crate::calls::is_same;
use crate::groups::Groups;
use crate::judges::{Judge, are_same, are_walked, ask, key_of};
use slice_group_by::{GroupBy, GroupByMut};
use std::cell::Cell;

fn code(letter: &u8) -> u32 {
    u32::from(*letter)
}

pub fn linear(line: &Groups<'_>, word: &[u8]) -> bool {
    are_same!(line, word, code; linear_group, linear_group_by, linear_group_by_key)
}

pub fn linear_mut(line: &Groups<'_>, mut word: &mut [u8]) -> bool {
    are_same!(line, word, code; linear_group_mut, linear_group_by_mut, linear_group_by_key_mut)
}

pub fn binary(line: &Groups<'_>, word: &[u8]) -> bool {
    are_same!(line, word, code; binary_group, binary_group_by, binary_group_by_key)
}

pub fn binary_mut(line: &Groups<'_>, mut word: &mut [u8]) -> bool {
    are_same!(line, word, code; binary_group_mut, binary_group_by_mut, binary_group_by_key_mut)
}

pub fn exponential(line: &Groups<'_>, word: &[u8]) -> bool {
    are_same!(line, word, code; exponential_group, exponential_group_by, exponential_group_by_key)
}

pub fn exponential_mut(line: &Groups<'_>, mut word: &mut [u8]) -> bool {
    are_same!(line, word, code; exponential_group_mut, exponential_group_by_mut, exponential_group_by_key_mut)
}
