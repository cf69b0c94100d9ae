//! Calls on groups, and the answers that are wanted of them.
use crate::fields::LineError;
use slice_group_by::{End, GroupQueue};
use std::alloc::Global;

/// The text of a group, or that there is none.
pub type Answer<'a> = Option<&'a str>;

/// A group that a call gives.
pub trait Group {
    /// Whether it is this text. One for writing is crossed out.
    fn is(self, text: &str) -> bool;
}

impl<'a> Group for &'a [u8] {
    fn is(self, text: &str) -> bool {
        self == text.as_bytes()
    }
}

impl<'a> Group for &'a str {
    fn is(self, text: &str) -> bool {
        self == text
    }
}

impl<'a> Group for &'a mut [u8] {
    fn is(self, text: &str) -> bool {
        let same = *self == *text.as_bytes();
        self.fill(b'#');
        same
    }
}

/// Whether a call gave what is wanted.
pub fn is_same<G: Group + Drop>(group: Option<G>, wanted: Answer<'_>) -> bool {
    match (group, wanted) {
        (Some(group), Some(text)) => group.is(text),
        (None, None) => true,
        _ => false,
    }
}

/// Calls at ends, and then perhaps one of `last`, with what is wanted of each.
#[derive(Drop)]
pub struct Calls<'a> {
    ends: Vec<(End, Answer<'a>)>,
    pub last: Option<Answer<'a>>,
}

impl<'a> Calls<'a> {
    /// A letter for each call, and the answers, with a comma between every two.
    pub fn parse(alloc: Global, letters: &str, answers: &'a str) -> Result<Calls<'a>, LineError> {
        let mut ends = Vec::new(alloc);
        let mut last = None;
        let mut answers = answers.split(',');
        for letter in letters.chars() {
            let text = answers.next().ok_or(LineError::Field("list of answers"))?;
            let answer = if text == "-" { None } else { Some(text) };
            let end = match (letter, last) {
                ('F', None) => End::Front,
                ('B', None) => End::Back,
                ('L', None) => {
                    last = Some(answer);
                    continue;
                }
                _ => return Err(LineError::Field("list of calls")),
            };
            ends.push((end, answer)).or(Err(LineError::OutOfMemory))?;
        }
        if answers.next().is_some() {
            return Err(LineError::Field("list of calls"));
        }
        Ok(Calls { ends, last })
    }

    /// Whether the calls at ends, one after another, give what is wanted.
    pub fn are_same<Q>(&self, queue: &mut Q) -> bool
    where
        Q: GroupQueue,
        Q::Item: Group,
        requires { Q.GroupQueue.can_pop queue.old }
        ensures { Q.GroupQueue.can_pop queue.new }
    {
        let mut same = true;
        for (end, wanted) in &self.ends {
            let group = match end {
                End::Front => queue.pop_front(),
                End::Back => queue.pop_back(),
            };
            same &= is_same(group, *wanted);
        }
        same
    }
}
