//! Tables, whose rows are read into memory.
ghost use Rattle.std.specs.Prelude.{◌≡◌, ◌++◌, [], List, Some, flat_map, length, map, true, IfOk, OnOk};
ghost use Rattle.csv.specs.Records.{fields_of, partial_of};
ghost use Rattle.program_parts.specs.Records.{Record};
ghost use Rattle.program_parts.specs.RecordsLeft.{left_of, names_of, width_of};
ghost use Rattle.program_parts.specs.Rows.{AreSorted, Holds, fields_in, row_at};
ghost use Rattle.program_parts.specs.Tables.{ReadsFields};

use crate::block::{Block, push_row};
use crate::failure::{IoFailure, push};
use crate::input::Noted;
use crate::layout::Layout;
use crate::records::Records;
use crate::row::Row;
use csv::ByteRecord;
use std::alloc::{AllocError, Global};
use std::io;
use std::io::{Read, Write};
use std::rc::Rc;

// A block ends at so many rows, or once it takes so many bytes: its texts, and eight for each field.
const ROWS: u64 = 1 << 10;

const BYTES: usize = 1 << 20;

/// A table, and the rows of it that are read.
#[derive(Drop)]
pub struct Table<'a, R> {
    pub alloc: Global,
    pub records: Records<'a, R>,
    pub layout: Layout,
    pub rows: Vec<Row>,
    /// Whether all are read.
    pub is_last: bool,
}

impl<'a, R: Read + Noted + Drop> Table<'a, R> {
    ghost use Rattle.std.specs.Prelude.{false};
    ghost use Rattle.program_parts.specs.Tables.{ReadsAll, ReadsOn, names_row};

    /// The table of these records, of which none is read.
    pub fn new(alloc: Global, records: Records<'a, R>, layout: Layout) -> Table<'a, R>
        ensures records { result.records ≡ records.entry }
        ensures layout { result.layout ≡ layout }
        ensures no_row { result.rows.items ≡ [] }
        ensures is_last { result.is_last ≡ false }
    {
        Table {
            alloc,
            records,
            layout,
            rows: Vec::new(alloc),
            is_last: false,
        }
    }

    /// The names of the columns as a row. Where there is none, it has no field.
    pub fn names(&self) -> Result<Row, AllocError>
        ensures { IfOk result (λ names. names ≡ names_row self.now.layout (names_of self.now.records)) }
    {
        let names = self.records.names();
        if names.is_empty() {
            return Row::blank(self.alloc, 0);
        }
        Row::of(self.alloc, names, &self.layout)
    }

    /// Reads a block of rows behind the others. It ends where the next record must be waited for, since whoever writes the table may wait
    /// for what is made of these.
    pub fn read_block<E: Write>(&mut self, complaints: &mut E) -> Result<(), IoFailure<'a>>
        ensures { OnOk result (ReadsOn R.remaining self.old self.new) }
    {
        let mut fields = ByteRecord::new(self.alloc);
        let mut numbers = Vec::new(self.alloc);
        self.is_last = read_fields(
            &mut self.records,
            &self.layout,
            &mut fields,
            &mut numbers,
            complaints,
        )?;
        push_block(self.alloc, fields, &self.layout, &numbers, &mut self.rows)?;
        Ok(())
    }

    /// Reads all rows, and sorts them by their keys.
    pub fn read_all<E: Write>(&mut self, complaints: &mut E) -> Result<(), IoFailure<'a>>
        requires { self.old.is_last ≡ false }
        ensures { OnOk result (ReadsAll R.remaining self.old self.new) }
    {
        for _ in 0..u64::MAX {
            self.read_block(complaints)?;
            if self.is_last {
                sort_rows(&mut self.rows)?;
                return Ok(());
            }
        }
        Err(IoFailure::from(io::Error::other("there are too many records")))
    }
}

// Reads the fields of a block of rows behind those that are there, and the numbers of their records. Gives back whether all rows are read.
fn read_fields<'a, R: Read + Noted + Drop, E: Write>(
    records: &mut Records<'a, R>,
    layout: &Layout,
    fields: &mut ByteRecord,
    numbers: &mut Vec<u64>,
    complaints: &mut E,
) -> Result<bool, IoFailure<'a>>
    requires no_field { fields_of fields.old ≡ [] }
    requires no_byte { partial_of fields.old ≡ [] }
    requires no_number { numbers.old.items ≡ [] }
    ensures reads { OnOk result
        (ReadsFields R.remaining layout.now records.old records.new (fields_of fields.new) numbers.new.items) }
    ensures end { IfOk result (λ is_last. is_last ≡ true → left_of R.remaining records.new ≡ Some []) }
    ensures width { width_of records.new ≡ width_of records.old }
    ensures names { names_of records.new ≡ names_of records.old }
{
    for _ in 0..ROWS {
        let Some(is_row) = records.next(complaints)? else {
            return Ok(true);
        };
        if !is_row {
            if records.is_drained() {
                return Ok(false);
            }
            continue;
        }
        push_row(records.row(), layout, fields)?;
        push(numbers, records.number())?;
        if is_full(fields) || records.is_drained() {
            return Ok(false);
        }
    }
    Ok(false)
}

// Whether a block of these fields takes enough bytes.
fn is_full(fields: &ByteRecord) -> bool {
    fields.as_slice().len() >= BYTES || fields.len() >= BYTES / 8
}

// Puts the rows of these fields behind others.
fn push_block(
    alloc: Global,
    fields: ByteRecord,
    layout: &Layout,
    numbers: &[u64],
    rows: &mut Vec<Row>,
) -> Result<(), AllocError>
    requires { (records : List Record) × (fields_of fields ≡ flat_map (λ fields. fields_in (row_at layout.now fields)) records)
        × (length numbers.now ≡ length records) }
    ensures { OnOk result ((records : List Record) → fields_of fields ≡ flat_map (λ fields. fields_in (row_at layout.now fields)) records
        → length numbers.now ≡ length records → rows.new.items ≡ rows.old.items ++ map (row_at layout.now) records) }
{
    let block = Block {
        fields,
        key: layout.key.len(),
        rest: layout.rest.len(),
    };
    push_rows(&Rc::new(alloc, block)?, layout, numbers, rows)
}

// Puts the rows of a block behind others.
fn push_rows(
    block: &Rc<Block>,
    layout: &Layout,
    numbers: &[u64],
    rows: &mut Vec<Row>,
) -> Result<(), AllocError>
    requires { (records : List Record) × Holds layout.now records block.now.value × (length numbers.now ≡ length records) }
    ensures { OnOk result ((records : List Record) → Holds layout.now records block.now.value → length numbers.now ≡ length records
        → rows.new.items ≡ rows.old.items ++ map (row_at layout.now) records) }
{
    // Its contract bounds the number of fields, and so every place among them.
    let _count = block.fields.len();
    let mut at = 0;
    for number in numbers {
        rows.push(Row::new(block.clone()?, at, *number))?;
        at += block.key + block.rest;
    }
    Ok(())
}

// Sorts rows by their keys.
fn sort_rows(rows: &mut Vec<Row>) -> Result<(), AllocError>
    ensures { OnOk result (AreSorted rows.old.items rows.new.items) }
{
    rows.sort_by(Row::cmp_key)?;
    Ok(())
}
