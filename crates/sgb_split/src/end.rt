//! The two ends of a list.

/// An end of a slice, of a text, or of a queue of groups.
#[derive(Clone, Copy, PartialEq, Eq, Debug)]
pub enum End {
    Front,
    Back,
}
