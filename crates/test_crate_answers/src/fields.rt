//! The fields of a line, with a space between every two.
use std::fmt;
use std::str::Split;

/// The fields that are not read yet.
pub type Fields<'a> = Split<'a, char>;

/// What is wrong with a line: the field of this name, or that there is no memory.
#[derive(Clone, Copy)]
pub enum LineError {
    Field(&'static str),
    OutOfMemory,
}

impl fmt::Display for LineError {
    fn fmt<W: fmt::Write>(&self, f: &mut fmt::Formatter<W>) -> fmt::Result {
        match self {
            LineError::Field(name) => write!(f, "its {name} is missing or wrong"),
            LineError::OutOfMemory => write!(f, "out of memory"),
        }
    }
}

/// The next field.
pub fn next_field<'a>(fields: &mut Fields<'a>, name: &'static str) -> Result<&'a str, LineError> {
    fields.next().ok_or(LineError::Field(name))
}
