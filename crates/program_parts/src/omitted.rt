//! Records that are left out, and what is said of them.
ghost use Rattle.std.specs.Prelude.{◌≡◌, ◌+◌, nat_eq, min};

use crate::shown::ShownName;
use std::fmt::Display;
use std::io;
use std::io::Write;

/// So many records of a file are complained of one by one.
const MOST_SHOWN: u64 = 100;

/// How many records of a file are left out so far. A complaint names the program and the file. The count ends at the
/// greatest number of 64 bits.
#[derive(Clone, Copy)]
pub struct Omitted<'a> {
    program: &'a str,
    file: &'a str,
    pub count: u64,
}

impl<'a> Omitted<'a> {
    /// None yet.
    pub fn none(program: &'a str, file: &'a str) -> Omitted<'a>
        ensures { result.count ≡ 0 }
    {
        Omitted {
            program,
            file,
            count: 0,
        }
    }

    /// The file.
    pub fn file(&self) -> &'a str {
        self.file
    }

    /// Whether none is left out.
    pub fn is_empty(&self) -> bool
        ensures { result ≡ nat_eq self.now.count 0 }
    {
        self.count == 0
    }

    /// The record of this number is left out. A line of complaint says so, and why, if it is one of the first hundred. A buffered
    /// writer passes it on in one write.
    pub fn say<W: Write, P: Display + Drop>(
        &mut self,
        out: &mut W,
        number: u64,
        problem: P,
    ) -> io::Result<()>
        ensures { self.new.count ≡ min (self.old.count + 1) u64.MAX }
    {
        let is_shown = self.count < MOST_SHOWN;
        self.count = self.count.saturating_add(1);
        if is_shown {
            self.begin(out)?;
            writeln!(out, "record {number} is left out: {problem}")?;
            out.flush()?;
        }
        Ok(())
    }

    /// Says how many more were left out than were complained of, if there are any, where the file is read to its end.
    pub fn finish<W: Write>(&self, out: &mut W) -> io::Result<()> {
        let more = self.count.saturating_sub(MOST_SHOWN);
        if more == 0 {
            return Ok(());
        }
        self.begin(out)?;
        writeln!(out, "records that are left out too: {more}")?;
        out.flush()
    }

    /// Says that the record of this number, the last one, ends within quotes.
    pub fn say_open<W: Write>(&self, out: &mut W, number: u64) -> io::Result<()> {
        self.begin(out)?;
        writeln!(out, "the quote of record {number} is never closed")?;
        out.flush()
    }

    // Begins a complaint.
    fn begin<W: Write>(&self, out: &mut W) -> io::Result<()> {
        write!(out, "{}: {}: ", self.program, ShownName(self.file))
    }
}
