//! The texts of `Debug`: the name of the type, and what remains under the name of the field that the Rust crate shows it by.
use crate::groups::SliceGroups;
use crate::groups_mut::SliceGroupsMut;
use crate::searching::Search;
use std::fmt;

/// The type for reading, after which `Mut` is put for writing; the field that holds what remains, for reading; and the one for
/// writing.
pub type Names = (&'static str, &'static str, &'static str);

/// The names in the text of the groups that a way to find a group's end makes with a judge.
pub trait DebugNames<J> {
    const NAMES: Names;
}

impl<J, S: DebugNames<J>> DebugNames<J> for Search<S> {
    const NAMES: Names = S::NAMES;
}

impl<'a, T: fmt::Debug, J, W: DebugNames<J>> fmt::Debug for SliceGroups<'a, T, J, W> {
    fn fmt<O: fmt::Write>(&self, f: &mut fmt::Formatter<O>) -> fmt::Result {
        let (name, field, _) = W::NAMES;
        write!(f, "{name} {{ {field}: {:?} }}", self.remainder())
    }
}

impl<'a, T: fmt::Debug, J, W: DebugNames<J>> fmt::Debug for SliceGroupsMut<'a, T, J, W> {
    fn fmt<O: fmt::Write>(&self, f: &mut fmt::Formatter<O>) -> fmt::Result {
        let (name, _, field) = W::NAMES;
        write!(f, "{name}Mut {{ {field}: {:?} }}", self.remainder())
    }
}
