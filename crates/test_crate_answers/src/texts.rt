//! Groups of a text.
ghost use Rattle.std.specs.Str.{IsUtf8};

use crate::calls::is_same;
use crate::groups::Groups;
use crate::judges::{Judge, are_same, are_walked, ask, key_of};
use slice_group_by::{StrGroupBy, StrGroupByMut};
use std::cell::Cell;

pub fn text(line: &Groups<'_>) -> bool {
    let word = line.word;
    are_same!(line, word, u32::from; linear_group, linear_group_by, linear_group_by_key)
}

pub fn text_mut(line: &Groups<'_>, mut bytes: &mut [u8]) -> bool
    requires { IsUtf8 bytes.old }
{
    are_same!(line, bytes, u32::from; linear_group_mut, linear_group_by_mut, linear_group_by_key_mut)
}
