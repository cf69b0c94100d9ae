//! Writing the lines.
use std::io::{Error, Write};

/// Writes the line of a row whose answers are groups, or that it differs; `counted` says whether it asked as often as is wanted.
///
/// The answer is whether the row gave what is wanted.
pub fn write_groups<W: Write>(
    out: &mut W,
    row: u32,
    answers: &[Option<&[i32]>],
    wanted: &[Option<&[i32]>],
    counted: bool,
) -> Result<bool, Error> {
    if answers != wanted || !counted {
        return differs(out, row);
    }
    write!(out, "row {row}:")?;
    write_answers(out, answers)?;
    Ok(true)
}

pub(crate) fn differs<W: Write>(out: &mut W, row: u32) -> Result<bool, Error> {
    writeln!(out, "row {row}: differs")?;
    Ok(false)
}

/// The same of a row whose answers are texts.
pub fn write_texts<W: Write>(
    out: &mut W,
    row: u32,
    answers: &[Option<&str>],
    wanted: &[Option<&str>],
    counted: bool,
) -> Result<bool, Error> {
    if answers != wanted || !counted {
        return differs(out, row);
    }
    write!(out, "row {row}:")?;
    for answer in answers {
        match answer {
            Some(text) => write!(out, " {text}")?,
            None => write!(out, " None")?,
        }
    }
    writeln!(out)?;
    Ok(true)
}

// Writes what the calls gave, and ends the line.
pub(crate) fn write_answers<W: Write>(
    out: &mut W,
    answers: &[Option<&[i32]>],
) -> Result<(), Error> {
    for answer in answers {
        match answer {
            Some(group) => write!(out, " {group:?}")?,
            None => write!(out, " None")?,
        }
    }
    writeln!(out)
}

// A group for writing, to be read from now on.
pub(crate) fn read(group: Option<&mut [i32]>) -> Option<&[i32]> {
    match group {
        Some(group) => Some(group),
        None => None,
    }
}
