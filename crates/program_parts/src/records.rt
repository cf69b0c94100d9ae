//! The records of a table, one after another. Those of another width than its rows are left out.
ghost use Rattle.std.specs.Prelude.{◌≡◌, ◌≢◌, ◌++◌, ◌∷◌, ℕ, List, [], IfOk, map, option_map, OnOk};
ghost use Rattle.csv.specs.Reading.{records, strip_bom};
ghost use Rattle.csv.specs.Records.{fields_of};
ghost use Rattle.program_parts.specs.Records.{config_of};
ghost use Rattle.program_parts.specs.RecordsLeft.{reader_left};

use crate::columns::{ColumnFault, WrongColumn, place_of};
use crate::failure::{Failure, IoFailure, push};
use crate::input::Noted;
use crate::omitted::Omitted;
use csv::{ByteRecord, ErrorKind, Reader, ReaderBuilder};
use std::alloc::{AllocError, Global};
use std::fmt::Display;
use std::io::{Read, Write};
use std::{fmt, io, mem};

/// How the records of a table stand in its text.
#[derive(Clone, Copy)]
pub struct Format {
    /// The first record has the names of the columns, and is none of the table's rows.
    pub has_headers: bool,
    /// The byte between two fields.
    pub delimiter: u8,
    /// How many fields each record has. If that is not known, it is as many as the first one has.
    pub width: Option<usize>,
}

/// A table to be read. A complaint about a record that is left out names the program and the file.
#[derive(Drop)]
pub struct Source<'a, R> {
    pub program: &'a str,
    pub file: &'a str,
    pub format: Format,
    pub input: R,
}

/// A record has another number of fields than it must have.
#[derive(Clone, Copy)]
struct OtherWidth {
    width: usize,
    wanted: usize,
}

impl fmt::Display for OtherWidth {
    fn fmt<W: fmt::Write>(&self, f: &mut fmt::Formatter<W>) -> fmt::Result {
        write!(
            f,
            "its number of fields is {}, not {}",
            self.width, self.wanted
        )
    }
}

/// The records of a table that are not given yet, and the one that was given last.
#[derive(Drop)]
pub struct Records<'a, R> {
    reader: Reader<R>,
    row: ByteRecord,
    names: ByteRecord,
    // How many fields each record has.
    width: usize,
    // The record was read, and is not given yet.
    is_waiting: bool,
    // The end was read.
    is_over: bool,
    // The record that was read last ends within quotes.
    is_open: bool,
    omitted: Omitted<'a>,
}

impl<'a, R: Read + Noted + Drop> Records<'a, R> {
    ghost use Rattle.std.specs.Prelude.{◌+◌, None, Option, Some, true, false, if◌then◌else◌, min, unwrap_or};
    ghost use Rattle.std.specs.List.{AllZip};
    ghost use Rattle.program_parts.specs.Columns.{AreKeyPlaces};
    ghost use Rattle.program_parts.specs.Records.{Gives, Record};
    ghost use Rattle.program_parts.specs.RecordsLeft.{HasGiven, IsColumnOf, IsNew, count_of, left_of, names_of, row_of, width_of};

    /// The rows of a table, of which none is given yet. The first record is read.
    pub fn new(alloc: Global, source: Source<'a, R>) -> Result<Records<'a, R>, IoFailure<'a>>
        ensures { IfOk result (λ records. IsNew R.remaining source.entry.format (R.remaining source.entry.input) records) }
    {
        let format = source.format;
        let mut records = Records {
            reader: reader_of(alloc, format, source.input),
            row: ByteRecord::new(alloc),
            names: ByteRecord::new(alloc),
            width: format.width.unwrap_or(0),
            is_waiting: false,
            is_over: false,
            is_open: false,
            omitted: Omitted::none(source.program, source.file),
        };
        if records.advance()? {
            records.width = format.width.unwrap_or(records.row.len());
            if format.has_headers {
                records.names = mem::replace(&mut records.row, ByteRecord::new(alloc));
            } else {
                records.is_waiting = true;
            }
        }
        Ok(records)
    }

    /// The names of the columns. There is none where the table has no names, or no record.
    pub fn names(&self) -> &ByteRecord
        ensures { fields_of result.now ≡ names_of self.now }
    {
        &self.names
    }

    /// The name of the file, for complaints.
    pub fn file(&self) -> &'a str {
        self.omitted.file()
    }

    /// How many fields each row has.
    pub fn width(&self) -> usize
        ensures { result ≡ width_of self.now }
    {
        self.width
    }

    /// The place of a column among the fields of a row, from zero. Where the table has no record, it is zero for each column. The
    /// failure has a complaint with the names that there are.
    pub fn place_of(&self, alloc: Global, column: &str) -> Result<usize, Failure<'a>>
        ensures { IfOk result (IsColumnOf self.now column.now) }
    {
        if self.width == 0 {
            return Ok(0);
        }
        match place_of(&self.names, self.width, column) {
            Ok(place) => Ok(place),
            Err(fault) => Err(self.without_column(alloc, column, fault)?),
        }
    }

    /// The places of these columns.
    pub fn places_of(&self, alloc: Global, columns: &[&str]) -> Result<Vec<usize>, Failure<'a>>
        ensures { IfOk result (λ places. AllZip (IsColumnOf self.now) (map (λ column. column.now) columns.now) places.items) }
    {
        let mut places = Vec::new(alloc);
        for column in columns {
            let place = self.place_of(alloc, column)?;
            push(&mut places, place)?;
        }
        Ok(places)
    }

    /// The places of these columns, or of the first one where none is named.
    pub fn key_places(&self, alloc: Global, columns: &[&str]) -> Result<Vec<usize>, Failure<'a>>
        ensures { IfOk result (λ places. AreKeyPlaces (IsColumnOf self.now) (map (λ column. column.now) columns.now) places.items) }
    {
        if columns.is_empty() {
            return Ok(Vec::from_slice(alloc, &[0])?);
        }
        self.places_of(alloc, columns)
    }

    // The failure that says why there is no such column.
    fn without_column(
        &self,
        alloc: Global,
        column: &str,
        fault: ColumnFault,
    ) -> Result<Failure<'a>, AllocError> {
        let wrong = WrongColumn {
            file: self.omitted.file(),
            column,
            fault,
            names: &self.names,
        };
        Ok(Failure::Table(format!(in alloc; "{wrong}")?))
    }

    // Reads the next record in the place of the one before. `false` where none is left.
    fn advance(&mut self) -> Result<bool, IoFailure<'a>>
        ensures next { IfOk result (λ found. Gives (left_of R.remaining self.old) (left_of R.remaining self.new)
            (if found then fields_of self.new.row ∷ [] else [])) }
        ensures end { IfOk result (λ found. found ≡ false → left_of R.remaining self.new ≡ Some []) }
        ensures given { OnOk result (self.new.is_waiting ≡ false) }
        ensures width { self.new.width ≡ self.old.width }
        ensures names { self.new.names ≡ self.old.names }
        ensures none_left_out { self.new.omitted.count ≡ self.old.omitted.count }
    {
        if self.is_waiting {
            self.is_waiting = false;
            return Ok(true);
        }
        if self.is_over {
            return Ok(false);
        }
        match self.reader.read_byte_record(&mut self.row) {
            Ok(found) => {
                self.is_over = !found;
                self.is_open = self.is_left_open();
                Ok(found)
            }
            Err(error) => match error.into_kind() {
                ErrorKind::Io(error) => Err(IoFailure::of_read(self.omitted.file(), error)),
                _ => Err(IoFailure::from(AllocError)),
            },
        }
    }

    /// Reads the next record. `Some(true)` says that it is a row, and `Some(false)` that it has another number of fields: then it is left
    /// out, and a line of complaint says so. `None` where none is left.
    pub fn next<E: Write>(&mut self, complaints: &mut E) -> Result<Option<bool>, IoFailure<'a>>
        ensures given { IfOk result (λ found. (all : Option (List Record)) (rows : List Record) → HasGiven R.remaining all rows self.old
            → HasGiven R.remaining all (rows ++ (if unwrap_or found false then row_of self.new ∷ [] else [])) self.new) }
        ensures end { IfOk result (λ found. found ≡ None → left_of R.remaining self.new ≡ Some []) }
        ensures none_left_out { count_of self.new ≡ 0 → count_of self.old ≡ 0 }
        ensures width { width_of self.new ≡ width_of self.old }
        ensures names { names_of self.new ≡ names_of self.old }
    {
        if !self.advance()? {
            return Ok(None);
        }
        if self.row.len() == self.width {
            return Ok(Some(true));
        }
        let problem = OtherWidth {
            width: self.row.len(),
            wanted: self.width,
        };
        self.leave_out(problem, complaints)?;
        Ok(Some(false))
    }

    /// The row that was read last.
    pub fn row(&self) -> &ByteRecord
        ensures { fields_of result.now ≡ row_of self.now }
    {
        &self.row
    }

    /// Leaves out the record that was read last: a line of complaint says so, and why.
    pub fn leave_out<P: Display + Drop, E: Write>(
        &mut self,
        problem: P,
        complaints: &mut E,
    ) -> io::Result<()>
        ensures count { count_of self.new ≡ min (count_of self.old + 1) u64.MAX }
        ensures left { left_of R.remaining self.new ≡ left_of R.remaining self.old }
        ensures width { width_of self.new ≡ width_of self.old }
        ensures names { names_of self.new ≡ names_of self.old }
    {
        let number = self.number();
        self.omitted.say(complaints, number, problem)
    }

    /// The number of the record that was read last, from 1: that of the names counts too.
    pub fn number(&self) -> u64 {
        self.reader.position().record()
    }

    // Whether the record that was read last ends within quotes: it was read at the end of the input, whose last byte ends a line and
    // is the field's. Behind the quotes it had ended the record.
    fn is_left_open(&self) -> bool {
        if self.is_over {
            return self.is_open;
        }
        matches!(self.row.as_slice().last(), Some(b'\n' | b'\r'))
            && self.reader.get_ref().ended_with_line()
    }

    /// Says how many more records were left out than were complained of, and whether the last one ends within quotes, where all are
    /// read. Gives back whether there is nothing to say: it is `false` if one was left out.
    pub fn finish<E: Write>(&self, complaints: &mut E) -> io::Result<bool>
        ensures { IfOk result (λ is_whole. is_whole ≡ true → count_of self.now ≡ 0) }
    {
        self.omitted.finish(complaints)?;
        if self.is_open {
            self.omitted.say_open(complaints, self.number())?;
            return Ok(false);
        }
        Ok(self.omitted.is_empty())
    }

    /// Whether the input gave nothing but line ends behind the record that was read last: the next record must be waited for.
    pub fn is_drained(&self) -> bool {
        self.reader
            .get_ref()
            .is_drained(self.reader.position().byte())
    }
}

// A reader of all records, that of the columns' names too, of however many fields each.
fn reader_of<R: Read>(alloc: Global, format: Format, input: R) -> Reader<R>
    ensures { reader_left R.remaining result
        ≡ option_map (λ bytes. records (config_of format) (strip_bom bytes)) (R.remaining input) }
{
    ReaderBuilder::new()
        .has_headers(false)
        .flexible(true)
        .delimiter(format.delimiter)
        .from_reader(alloc, input)
}
