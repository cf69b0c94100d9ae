//! Rows of a table, as they stand in memory: many in one record, so that a row takes 32 bytes and its fields.
ghost use Rattle.std.specs.Prelude.{◌≡◌, ◌+◌, ◌^◌, ◌<◌, ◌≤◌, ◌++◌, [], ℕ, drop, get_or, length, map, replicate, take, IfOk, OnOk};
ghost use Rattle.csv.specs.Records.{fields_of};
ghost use Rattle.program_parts.specs.Rows.{IsFront, front};

use crate::block::{Block, push_row};
use crate::columns::field_or_empty;
use crate::layout::Layout;
use csv::ByteRecord;
use std::alloc::{AllocError, Global};
use std::cmp::Ordering;
use std::marker::Model;
use std::rc::Rc;

/// A row in memory: the fields of its key, and others.
#[derive(Drop)]
pub struct Row {
    block: Rc<Block>,
    at: usize,
    // The first eight bytes of the key, which mostly tell how it stands to another.
    front: u64,
    number: u64,
}

impl Model for Row {
    ghost use Rattle.std.specs.Prelude.{◌+◌, ◌^◌, ◌<◌, ◌≤◌, length};
    ghost use Rattle.csv.specs.Records.{fields_of};
    ghost use Rattle.program_parts.specs.Rows.{IsFront, Row, cut_row};

    ghost Value = { Row };

    ghost view = { λ row. cut_row row.block.value.key row.block.value.rest row.at (fields_of row.block.value.fields) };

    ghost invariant = { λ row. (row.at + row.block.value.key + row.block.value.rest ≤ length (fields_of row.block.value.fields))
        × (length (fields_of row.block.value.fields) < 2 ^ 64)
        × IsFront row.front (cut_row row.block.value.key row.block.value.rest row.at (fields_of row.block.value.fields)).key };
}

impl Row {
    ghost use Rattle.std.specs.Prelude.{◌≡◌, ◌+◌, ◌<◌, ◌≤◌, ◌++◌, length, map, IfOk, OnOk};
    ghost use Rattle.csv.specs.Records.{fields_of};
    ghost use Rattle.program_parts.specs.Records.{field};
    ghost use Rattle.program_parts.specs.Rows.{blank, by_key, cut_row, row_at};

    /// The row of a block that begins there, which was read as the record of this number.
    pub fn new(block: Rc<Block>, at: usize, number: u64) -> Row
        requires { at + block.value.key + block.value.rest ≤ length (fields_of block.value.fields) }
        ensures { result ≡ cut_row block.value.key block.value.rest at (fields_of block.value.fields) }
    {
        let front = front_at(&block, at);
        Row {
            block,
            at,
            front,
            number,
        }
    }

    /// The row that a record is.
    pub fn of(alloc: Global, source: &ByteRecord, layout: &Layout) -> Result<Row, AllocError>
        ensures { IfOk result (λ row. row ≡ row_at layout.now (fields_of source.now)) }
    {
        let mut fields = ByteRecord::new(alloc);
        push_row(source, layout, &mut fields)?;
        let block = Rc::new(
            alloc,
            Block {
                fields,
                key: layout.key.len(),
                rest: layout.rest.len(),
            },
        )?;
        Ok(Row::new(block, 0, 0))
    }

    /// A row with no key, and so many empty fields.
    pub fn blank(alloc: Global, width: usize) -> Result<Row, AllocError>
        ensures { IfOk result (λ row. row ≡ blank width) }
    {
        let block = Rc::new(
            alloc,
            Block {
                fields: empty_fields(alloc, width)?,
                key: 0,
                rest: width,
            },
        )?;
        Ok(Row::new(block, 0, 0))
    }

    /// The number of the record as which it was read.
    pub fn number(&self) -> u64 {
        self.number
    }

    /// How many fields the key has.
    pub fn key_len(&self) -> usize
        ensures { result ≡ length self.now.key }
    {
        self.block.key
    }

    /// A field of the key.
    pub fn key_field(&self, place: usize) -> &[u8]
        requires { place < length self.now.key }
        ensures { result.now ≡ field self.now.key place }
    {
        field_or_empty(&self.block.fields, self.at + place)
    }

    /// How the key stands to that of another row.
    #[inline]
    pub fn cmp_key(&self, other: &Row) -> Ordering
        ensures { result ≡ by_key self.now other.now }
    {
        match self.front.cmp(&other.front) {
            Ordering::Equal => self.cmp_fields(other),
            order => order,
        }
    }

    // The same by the fields of the keys.
    fn cmp_fields(&self, other: &Row) -> Ordering
        ensures { result ≡ by_key self.now other.now }
    {
        let (len, other_len) = (self.key_len(), other.key_len());
        for place in 0..len.min(other_len) {
            let order = self.key_field(place).cmp(other.key_field(place));
            if order.is_ne() {
                return order;
            }
        }
        len.cmp(&other_len)
    }

    /// Puts the fields of the key behind those of a line.
    pub fn push_key<'r>(&'r self, line: &mut Vec<&'r [u8]>) -> Result<(), AllocError>
        ensures { OnOk result (map (λ text. text.now) line.new.items ≡ map (λ text. text.now) line.old.items ++ self.now.key) }
    {
        push_from(&self.block.fields, self.at, self.block.key, line)
    }

    /// Puts the other fields behind those of a line.
    pub fn push_rest<'r>(&'r self, line: &mut Vec<&'r [u8]>) -> Result<(), AllocError>
        ensures { OnOk result (map (λ text. text.now) line.new.items ≡ map (λ text. text.now) line.old.items ++ self.now.rest) }
    {
        push_from(
            &self.block.fields,
            self.at + self.block.key,
            self.block.rest,
            line,
        )
    }
}

// Puts so many fields, from this place on, behind those of a line.
fn push_from<'r>(
    fields: &'r ByteRecord,
    at: usize,
    count: usize,
    line: &mut Vec<&'r [u8]>,
) -> Result<(), AllocError>
    requires inside { at + count ≤ length (fields_of fields.now) }
    requires small { length (fields_of fields.now) < 2 ^ 64 }
    ensures { OnOk result (map (λ text. text.now) line.new.items
        ≡ map (λ text. text.now) line.old.items ++ take count (drop at (fields_of fields.now))) }
{
    for place in 0..count {
        line.push(field_or_empty(fields, at + place))?;
    }
    Ok(())
}

// So many empty fields.
fn empty_fields(alloc: Global, width: usize) -> Result<ByteRecord, AllocError>
    ensures { IfOk result (λ fields. fields_of fields ≡ replicate width []) }
{
    let mut fields = ByteRecord::new(alloc);
    for _ in 0..width {
        fields.push_field(&[])?;
    }
    Ok(fields)
}

// The front of the key of the row that begins there.
fn front_at(block: &Block, at: usize) -> u64
    requires { at + block.now.key + block.now.rest ≤ length (fields_of block.now.fields) }
    ensures front { IsFront result (take block.now.key (drop at (fields_of block.now.fields))) }
    ensures small { length (fields_of block.now.fields) < 2 ^ 64 }
{
    // Its contract bounds the number of fields.
    let _count = block.fields.len();
    if block.key == 0 {
        return 0;
    }
    front_of(field_or_empty(&block.fields, at))
}

// The front of a text.
fn front_of(text: &[u8]) -> u64
    ensures front { result ≡ front 8 0 0 text.now }
    ensures bytes { (i : ℕ) → get_or text.now i 0 < 256 }
{
    let front = byte_at(text, 0);
    let front = front * 256 + byte_at(text, 1);
    let front = front * 256 + byte_at(text, 2);
    let front = front * 256 + byte_at(text, 3);
    let front = front * 256 + byte_at(text, 4);
    let front = front * 256 + byte_at(text, 5);
    let front = front * 256 + byte_at(text, 6);
    front * 256 + byte_at(text, 7)
}

// The byte at this place, or zero.
fn byte_at(text: &[u8], place: usize) -> u64
    ensures byte { result ≡ get_or text.now place 0 }
    ensures small { result < 256 }
{
    match text.get(place) {
        Some(byte) => u64::from(*byte),
        None => 0,
    }
}
