//! Why a program did not do what it was asked, and the status with which it ends.
ghost use Rattle.std.specs.Prelude.{◌≡◌, ◌↔◌, ◌++◌, ◌∷◌, [], Ok, true, false, OnOk};

use crate::shown::ShownName;
use std::alloc::AllocError;
use std::io::Write;
use std::{fmt, io};

/// A read, a write or a request for memory that failed. A read has the name of its file.
#[derive(Clone, Copy, Debug)]
pub struct IoFailure<'a> {
    pub file: Option<&'a str>,
    pub error: io::Error,
}

impl<'a> IoFailure<'a> {
    /// A read of this file failed.
    pub fn of_read(file: &'a str, error: io::Error) -> IoFailure<'a> {
        IoFailure {
            file: Some(file),
            error,
        }
    }
}

impl<'a> fmt::Display for IoFailure<'a> {
    fn fmt<W: fmt::Write>(&self, f: &mut fmt::Formatter<W>) -> fmt::Result {
        if let Some(file) = self.file {
            write!(f, "{}: ", ShownName(file))?;
        }
        write!(f, "{}", self.error)
    }
}

impl<'a> From<io::Error> for IoFailure<'a> {
    fn from(error: io::Error) -> IoFailure<'a> {
        IoFailure { file: None, error }
    }
}

impl<'a> From<AllocError> for IoFailure<'a> {
    fn from(error: AllocError) -> IoFailure<'a> {
        IoFailure::from(io::Error::from(error))
    }
}

/// Puts an item behind others. Where there is no memory, it is let go.
pub fn push<T: Drop>(items: &mut Vec<T>, item: T) -> Result<(), AllocError>
    ensures { OnOk result (items.new.items ≡ items.old.items ++ item ∷ []) }
{
    items.push(item)?;
    Ok(())
}

/// Why a program did not do what it was asked.
#[derive(Debug, Drop)]
pub enum Failure<'a> {
    /// An argument is wrong, and why.
    Usage(&'static str),
    /// A table has no such column, or is not as it was said to be: the whole complaint.
    Table(String),
    /// A read or a write failed, or memory ran out.
    Io(IoFailure<'a>),
}

impl<'a> fmt::Display for Failure<'a> {
    fn fmt<W: fmt::Write>(&self, f: &mut fmt::Formatter<W>) -> fmt::Result {
        match self {
            Failure::Usage(why) => write!(f, "{why}"),
            Failure::Table(complaint) => write!(f, "{complaint}"),
            Failure::Io(failure) => write!(f, "{failure}"),
        }
    }
}

impl<'a> From<IoFailure<'a>> for Failure<'a> {
    fn from(failure: IoFailure<'a>) -> Failure<'a> {
        Failure::Io(failure)
    }
}

impl<'a> From<io::Error> for Failure<'a> {
    fn from(error: io::Error) -> Failure<'a> {
        Failure::Io(IoFailure::from(error))
    }
}

impl<'a> From<AllocError> for Failure<'a> {
    fn from(error: AllocError) -> Failure<'a> {
        Failure::Io(IoFailure::from(error))
    }
}

/// The status of a program of this name: 0 if it did all that it was asked, 1 if a record was left out, and 2 if it failed. Then a
/// line of complaint says why.
pub fn status_of<E: Write>(program: &str, done: Result<bool, Failure<'_>>, complaints: &mut E) -> u8
    ensures whole { (result ≡ 0) ↔ (done.entry ≡ Ok true) }
    ensures part { (result ≡ 1) ↔ (done.entry ≡ Ok false) }
    ensures silent { OnOk done.entry (E.contents complaints.new ≡ E.contents complaints.old) }
{
    match done {
        Ok(true) => 0,
        Ok(false) => 1,
        Err(failure) => {
            let _ = writeln!(complaints, "{program}: {failure}");
            2
        }
    }
}
