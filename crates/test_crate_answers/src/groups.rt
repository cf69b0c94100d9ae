//! Lines of calls on groups.
use crate::calls::Calls;
use crate::fields::{Fields, LineError, next_field};
use crate::judges::Judge;
use crate::slices::{binary, binary_mut, exponential, exponential_mut, linear, linear_mut};
use crate::texts::{text, text_mut};
use std::alloc::Global;

/// How groups are found, and in what.
#[derive(Clone, Copy, PartialEq, Eq)]
pub enum Family {
    Linear,
    Binary,
    Exponential,
    Text,
}

/// Calls on the groups of a word. Those for writing say what the word is afterwards, and those by a closure may say how
/// many questions it was asked.
#[derive(Drop)]
pub(crate) struct Groups<'a> {
    pub judge: Judge,
    pub calls: Calls<'a>,
    pub word: &'a str,
    pub afterwards: Option<&'a str>,
    questions: Option<u64>,
}

impl<'a> Groups<'a> {
    /// The fields of a line after the type.
    pub fn parse(alloc: Global, fields: &mut Fields<'a>) -> Result<Groups<'a>, LineError> {
        let access = next_field(fields, "reading or writing")?;
        let judge = Judge::parse(next_field(fields, "judge")?)?;
        let letters = next_field(fields, "list of calls")?;
        let word = next_field(fields, "word")?;
        let afterwards = match access {
            "reading" => None,
            "writing" => Some(next_field(fields, "word afterwards")?),
            _ => return Err(LineError::Field("reading or writing")),
        };
        Ok(Groups {
            judge,
            calls: Calls::parse(alloc, letters, next_field(fields, "list of answers")?)?,
            word,
            afterwards,
            questions: parse_questions(next_field(fields, "number of questions")?)?,
        })
    }

    /// Whether the groups of this family answer as the line says.
    pub fn are_same(&self, alloc: Global, family: Family) -> Result<bool, LineError> {
        let copy = self.word.as_bytes().to_vec(alloc);
        let mut word = copy.or(Err(LineError::OutOfMemory))?;
        let same = match (family, self.afterwards) {
            (Family::Linear, None) => linear(self, &word),
            (Family::Linear, Some(_)) => linear_mut(self, &mut word),
            (Family::Binary, None) => binary(self, &word),
            (Family::Binary, Some(_)) => binary_mut(self, &mut word),
            (Family::Exponential, None) => exponential(self, &word),
            (Family::Exponential, Some(_)) => exponential_mut(self, &mut word),
            (Family::Text, None) => text(self),
            (Family::Text, Some(_)) => text_mut(self, &mut word),
        };
        Ok(same && word.as_slice() == self.afterwards.unwrap_or(self.word).as_bytes())
    }

    /// Whether the closure was asked as often as the line says.
    pub fn are_asked(&self, questions: u64) -> bool {
        self.questions.is_none_or(|wanted| wanted == questions)
    }
}

fn parse_questions(field: &str) -> Result<Option<u64>, LineError> {
    if field == "-" {
        return Ok(None);
    }
    let questions = field.parse::<u64>();
    Ok(Some(questions.or(Err(LineError::Field("number of questions")))?))
}
