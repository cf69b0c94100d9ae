//! Records of runs: `5,97` says that the byte 97 stands there five times in a row.
ghost use Rattle.std.specs.Prelude.{◌≡◌, IfErr, IfOk, None, Some};
ghost use Rattle.csv.specs.Records.{fields_of};
ghost use Rattle.run_length_coder.specs.Coding.{run_in};

use crate::runs::Run;
use csv::ByteRecord;
use program_parts::columns::field_or_empty;
use program_parts::numbers::{number_8, number_64};
use program_parts::shown::Excerpt;
use std::fmt;

/// What is wrong with a record.
#[derive(Clone, Copy)]
pub enum Problem<'a> {
    NoCount(&'a [u8]),
    NoByte(&'a [u8]),
}

impl<'a> fmt::Display for Problem<'a> {
    fn fmt<W: fmt::Write>(&self, f: &mut fmt::Formatter<W>) -> fmt::Result {
        match self {
            Problem::NoCount(text) => write!(
                f,
                "its count {} is no number of 64 bits above 0",
                Excerpt(text)
            ),
            Problem::NoByte(text) => {
                write!(f, "its byte {} is no number up to 255", Excerpt(text))
            }
        }
    }
}

/// The run that a record of two fields says.
pub fn parse_run(row: &ByteRecord) -> Result<Run, Problem<'_>>
    ensures says { IfOk result (λ run. run_in (fields_of row.now) ≡ Some (run.byte, run.count)) }
    ensures silent { IfErr result (λ _. run_in (fields_of row.now) ≡ None) }
{
    let (count, byte) = (field_or_empty(row, 0), field_or_empty(row, 1));
    match (number_64(count), number_8(byte)) {
        (None | Some(0), _) => Err(Problem::NoCount(count)),
        (_, None) => Err(Problem::NoByte(byte)),
        (Some(number), Some(value)) => Ok(Run {
            byte: value,
            count: number as usize,
        }),
    }
}
