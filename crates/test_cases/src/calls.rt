//! What the cases share: lists of calls, and functions of numbers.
ghost use Rattle.std.specs.Iterator.{IsFinite};
ghost use Rattle.std.specs.Prelude.{◌≡◌, true, IsSome};

use std::cell::Cell;

/// What a call over numbers answers.
pub(crate) type Group = Option<&'static [i32]>;

/// What these calls answer, in order.
macro_rules! answers {
    ($groups:expr; $($call:ident),*) => {{
        let mut groups = $groups;
        [$(groups.$call()),*]
    }};
}

pub(crate) use answers;

/// The same of groups for writing, which are read from then on.
macro_rules! answers_mut {
    ($groups:expr; $($call:ident),*) => {{
        let mut groups = $groups;
        [$($crate::calls::read(groups.$call())),*]
    }};
}

pub(crate) use answers_mut;

/// A group for writing, to be read from then on.
pub(crate) fn read<T>(group: Option<&mut [T]>) -> Option<&[T]> {
    match group {
        Some(group) => Some(group),
        None => None,
    }
}

/// Whether calls at the front give these groups, and then nothing.
pub(crate) fn gives<I: Iterator + Drop>(groups: I, wanted: &[I::Item]) -> bool
where
    I::Item: PartialEq + Drop,
    requires can { I.can_next groups }
    requires ends { IsFinite (I.remaining groups) }
{
    let mut groups = groups;
    for expected in wanted {
        match groups.next() {
            Some(group) if group == *expected => {}
            _ => return false,
        }
    }
    groups.next().is_none()
}

/// The same of groups for writing.
pub(crate) fn gives_mut<'a, T: PartialEq + 'a, I: Iterator<Item = &'a mut [T]> + Drop>(
    groups: I,
    wanted: &[&[T]],
) -> bool
    requires can { I.can_next groups }
    requires ends { IsFinite (I.remaining groups) }
{
    let mut groups = groups;
    for expected in wanted {
        if !holds(groups.next(), expected) {
            return false;
        }
    }
    groups.next().is_none()
}

/// Whether there is a group, of these elements.
pub(crate) fn holds<T: PartialEq>(group: Option<&mut [T]>, wanted: &[T]) -> bool
    ensures { result ≡ true → IsSome group.entry }
{
    match group {
        Some(group) => *group == *wanted,
        None => false,
    }
}

pub(crate) fn equal(a: &i32, b: &i32) -> bool {
    a == b
}

pub(crate) fn differ(a: &i32, b: &i32) -> bool {
    a != b
}

/// Whether two numbers are equal, which is one question more.
pub(crate) fn asks(questions: &Cell<usize>, a: &i32, b: &i32) -> bool {
    questions.set(questions.get().wrapping_add(1));
    a == b
}

pub(crate) fn ascend(a: &i32, b: &i32) -> bool {
    a < b
}

pub(crate) fn itself(x: &i32) -> i32 {
    *x
}

pub(crate) fn tens(x: &i32) -> i32 {
    *x / 10
}
