//! What decides whether two letters belong together.
use crate::fields::LineError;
use std::cell::Cell;

/// `==`, a predicate, or half the code as the key.
#[derive(Clone, Copy)]
pub enum Judge {
    Equality,
    Predicate(Predicate),
    Key,
}

/// Whether the left letter is below the right one, whether half their codes is the same, or whether the question is no
/// third one.
#[derive(Clone, Copy)]
pub enum Predicate {
    Rising,
    Halves,
    Thirds,
}

impl Judge {
    pub fn parse(field: &str) -> Result<Judge, LineError> {
        match field {
            "equality" => Ok(Judge::Equality),
            "rising" => Ok(Judge::Predicate(Predicate::Rising)),
            "halves" => Ok(Judge::Predicate(Predicate::Halves)),
            "thirds" => Ok(Judge::Predicate(Predicate::Thirds)),
            "key" => Ok(Judge::Key),
            _ => Err(LineError::Field("judge")),
        }
    }
}

impl Predicate {
    /// What it answers to its question of this number.
    pub fn accepts(self, left: u32, right: u32, question: u64) -> bool {
        match self {
            Predicate::Rising => left < right,
            Predicate::Halves => left / 2 == right / 2,
            Predicate::Thirds => question % 3 != 0,
        }
    }
}

/// One question more, and how many there are now.
pub fn ask(questions: &Cell<u64>) -> u64 {
    questions.set(questions.get().wrapping_add(1));
    questions.get()
}

/// The key of a letter with this code, at one question more.
pub fn key_of(code: u32, questions: &Cell<u64>) -> u32 {
    ask(questions);
    code / 2
}

// Whether the groups that these three methods give answer as the line says.
macro_rules! are_same {
    ($line:expr, $word:expr, $code:path; $equality:ident, $predicate:ident, $key:ident) => {{
        let questions = Cell::new(0u64);
        let same = match $line.judge {
            Judge::Equality => are_walked!($line.calls, $word.$equality()),
            Judge::Predicate(predicate) => are_walked!(
                $line.calls,
                $word.$predicate(|a, b| predicate.accepts($code(a), $code(b), ask(&questions)))
            ),
            Judge::Key => are_walked!(
                $line.calls,
                $word.$key(|letter| key_of($code(letter), &questions))
            ),
        };
        same && $line.are_asked(questions.get())
    }};
}

// Whether the calls give what is wanted.
macro_rules! are_walked {
    ($calls:expr, $groups:expr) => {{
        let mut groups = $groups;
        let same = $calls.are_same(&mut groups);
        match $calls.last {
            None => same,
            Some(wanted) => is_same(groups.last(), wanted) && same,
        }
    }};
}

pub(crate) use are_same;
pub(crate) use are_walked;
