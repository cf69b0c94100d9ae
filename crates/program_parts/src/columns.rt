//! Columns, by their numbers or names.
ghost use Rattle.std.specs.Prelude.{◌≡◌, ◌↔◌, ◌++◌, [], ℕ, map, IfErr, IfOk, IfSome, IsTrue, None, OnOk, Some};
ghost use Rattle.csv.specs.Records.{field_at, fields_of, partial_of};
ghost use Rattle.program_parts.specs.Columns.{IsNoName, IsOnlyName, IsPlace};
ghost use Rattle.program_parts.specs.Records.{field};

use crate::shown::{Excerpt, ShownName};
use csv::ByteRecord;
use std::alloc::AllocError;
use std::fmt;
use std::fmt::Write;

/// Why no field belongs to a column.
#[derive(Clone, Copy)]
pub enum ColumnFault {
    /// Columns are numbered from 1.
    Zero,
    /// The first record has fewer fields: so many.
    Beyond(usize),
    /// No column has the name.
    NoName,
    /// Two columns have it.
    Twice,
}

/// The complaint that a table in a file does not have a column: why, and which columns there are.
#[derive(Clone, Copy)]
pub struct WrongColumn<'a> {
    pub file: &'a str,
    pub column: &'a str,
    pub fault: ColumnFault,
    pub names: &'a ByteRecord,
}

impl<'a> fmt::Display for WrongColumn<'a> {
    fn fmt<W: fmt::Write>(&self, f: &mut fmt::Formatter<W>) -> fmt::Result {
        write!(f, "{}: ", ShownName(self.file))?;
        match self.fault {
            ColumnFault::Zero => write!(f, "there is no column 0: the first one is 1")?,
            ColumnFault::Beyond(width) => write!(
                f,
                "there is no column {}: the first record ends with column {width}",
                self.column
            )?,
            ColumnFault::NoName => write!(f, "no column is named {:?}", self.column)?,
            ColumnFault::Twice => write!(f, "two columns are named {:?}", self.column)?,
        }
        write_names(self.names, f)
    }
}

// So many names are listed at most.
const MOST: usize = 20;

// Lists the names of the columns, if there are any.
fn write_names<W: fmt::Write>(names: &ByteRecord, f: &mut fmt::Formatter<W>) -> fmt::Result {
    for (place, name) in names.iter().take(MOST).enumerate() {
        let before = if place == 0 {
            "; the columns are "
        } else {
            ", "
        };
        write!(f, "{before}{}", Excerpt(name))?;
    }
    if names.len() > MOST {
        f.write_str(", ..")?;
    }
    Ok(())
}

/// The place of a column among so many fields, from zero. A text that stands once among the names is that name; one that is none of
/// them is the number of the column, from 1.
pub fn place_of(names: &ByteRecord, width: usize, column: &str) -> Result<usize, ColumnFault>
    ensures found { IfOk result (λ place. IsPlace width (fields_of names.now) column.now place) }
    ensures none { IfErr result (λ _. (place : ℕ) → IsPlace width (fields_of names.now) column.now place → ⊥) }
{
    if let Some(place) = place_of_name(names, column.as_bytes())? {
        return Ok(place);
    }
    match column.parse::<usize>() {
        Ok(0) => Err(ColumnFault::Zero),
        Ok(number) if number <= width => Ok(number - 1),
        Ok(_) => Err(ColumnFault::Beyond(width)),
        Err(_) => Err(ColumnFault::NoName),
    }
}

// Where this name stands, if it stands once; `None` where it stands nowhere.
fn place_of_name(names: &ByteRecord, name: &[u8]) -> Result<Option<usize>, ColumnFault>
    ensures found { IfOk result (λ found. IfSome found (λ place. IsOnlyName (fields_of names.now) name.now place)) }
    ensures nowhere { IfOk result (λ found. found ≡ None → IsNoName (fields_of names.now) name.now) }
    ensures none { IfErr result (λ _. ((place : ℕ) → IsOnlyName (fields_of names.now) name.now place → ⊥)
        × (IsNoName (fields_of names.now) name.now → ⊥)) }
{
    let mut found = None;
    for i in 0..names.len() {
        if is_named(names, i, name) {
            if found.is_some() {
                return Err(ColumnFault::Twice);
            }
            found = Some(i);
        }
    }
    Ok(found)
}

// Whether the field at this place is the name.
fn is_named(names: &ByteRecord, place: usize, name: &[u8]) -> bool
    ensures { IsTrue result ↔ (field_at (fields_of names.now) place ≡ Some name.now) }
{
    match names.get(place) {
        Some(field) => field == name,
        None => false,
    }
}

/// The field at this place, with no byte where there is none.
pub fn field_or_empty(fields: &ByteRecord, place: usize) -> &[u8]
    ensures { result.now ≡ field (fields_of fields.now) place }
{
    fields.get(place).unwrap_or(&[])
}

/// Puts the fields at these places behind those of a row.
pub fn push_fields(
    fields: &ByteRecord,
    places: &[usize],
    row: &mut ByteRecord,
) -> Result<(), AllocError>
    requires { partial_of row.old ≡ [] }
    ensures fields { OnOk result (fields_of row.new ≡ fields_of row.old ++ map (field (fields_of fields.now)) places.now) }
    ensures partial { OnOk result (partial_of row.new ≡ []) }
{
    for place in places {
        row.push_field(field_or_empty(fields, *place))?;
    }
    Ok(())
}
