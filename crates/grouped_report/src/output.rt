//! The rows of a report.
ghost use Rattle.std.specs.Prelude.{◌≡◌, ◌∷◌, ◌++◌, [], if◌then◌else◌, map, nat_eq, IfOk, OnOk};
ghost use Rattle.std.specs.List.{list_any};
ghost use Rattle.csv.specs.Records.{fields_of, partial_of};
ghost use Rattle.program_parts.specs.Written.{Writes};
ghost use Rattle.grouped_report.specs.Amounts.{sum_text};
ghost use Rattle.grouped_report.specs.Output.{names_rows, sum_name, summary_row};

use crate::amount::push_sum;
use crate::columns::Places;
use crate::summary::Summary;
use csv::{ByteRecord, Writer};
use itoa::Buffer;
use program_parts::columns::{field_or_empty, push_fields};
use program_parts::failure::Failure;
use program_parts::rows::write_record;
use program_parts::shown::{Excerpt, ShownName};
use std::alloc::{AllocError, Global};
use std::io;
use std::io::Write;

/// Writes the names of the columns, if the table has names. It fails where two are the same.
pub fn write_names<'a, W: Write + Drop>(
    alloc: Global,
    file: &str,
    names: &ByteRecord,
    places: &Places,
    counts: bool,
    out: &mut Writer<W>,
) -> Result<(), Failure<'a>>
    ensures { OnOk result (Writes W.contents out.old out.new (names_rows counts places.now (fields_of names.now))) }
{
    if names.is_empty() {
        return Ok(());
    }
    let mut row = ByteRecord::new(alloc);
    push_fields(names, &places.by, &mut row)?;
    push_if(counts, b"count", &mut row)?;
    push_sum_names(alloc, names, &places.by, &places.sum, &mut row)?;
    refuse_twice(alloc, file, &row)?;
    write_record(&row, out)?;
    Ok(())
}

// Fails where two names are the same.
fn refuse_twice<'a>(alloc: Global, file: &str, names: &ByteRecord) -> Result<(), Failure<'a>> {
    for (place, name) in names.iter().enumerate() {
        if names.iter().take(place).any(|other| other == name) {
            let (file, name) = (ShownName(file), Excerpt(name));
            return Err(Failure::Table(format!(in alloc;
                "{file}: two columns of the report would be named {name}"
            )?));
        }
    }
    Ok(())
}

// Puts the names of the sums of these columns behind the fields of a row.
fn push_sum_names(
    alloc: Global,
    names: &ByteRecord,
    by: &[usize],
    places: &[usize],
    row: &mut ByteRecord,
) -> Result<(), AllocError>
    requires { partial_of row.old ≡ [] }
    ensures fields { OnOk result (fields_of row.new ≡ fields_of row.old ++ map (sum_name (fields_of names.now) by.now) places.now) }
    ensures partial { OnOk result (partial_of row.new ≡ []) }
{
    for place in places {
        let name = name_of_sum(alloc, names, by, *place)?;
        row.push_field(&name)?;
    }
    Ok(())
}

// The name of a sum.
fn name_of_sum(
    alloc: Global,
    names: &ByteRecord,
    by: &[usize],
    place: usize,
) -> Result<Vec<u8>, AllocError>
    ensures { IfOk result (λ name. name.items ≡ sum_name (fields_of names.now) by.now place) }
{
    let mut name = Vec::new(alloc);
    if is_among(by, place) {
        name.extend_from_slice(b"sum_")?;
    }
    name.extend_from_slice(field_or_empty(names, place))?;
    Ok(name)
}

// Whether the place is one of these.
fn is_among(places: &[usize], place: usize) -> bool
    ensures { result ≡ list_any (λ other. nat_eq other place) places.now }
{
    places.iter().any(|other| *other == place)
}

/// Writes a row for each group.
pub fn write_summaries<W: Write + Drop>(
    alloc: Global,
    summaries: &[Summary],
    counts: bool,
    out: &mut Writer<W>,
) -> io::Result<()>
    ensures { OnOk result (Writes W.contents out.old out.new (map (summary_row counts) summaries.now)) }
{
    let mut row = ByteRecord::new(alloc);
    for summary in summaries {
        write_summary(alloc, summary, counts, &mut row, out)?;
    }
    Ok(())
}

// Writes the row of a group, which is put together in a record.
fn write_summary<W: Write + Drop>(
    alloc: Global,
    summary: &Summary,
    counts: bool,
    row: &mut ByteRecord,
    out: &mut Writer<W>,
) -> io::Result<()>
    ensures { OnOk result (Writes W.contents out.old out.new (summary_row counts summary.now ∷ [])) }
{
    row.clear();
    push_group(summary.group(), row)?;
    let mut buffer = Buffer::new();
    push_if(counts, buffer.format(summary.count()).as_bytes(), row)?;
    push_sums(alloc, summary.sums(), row)?;
    write_record(row, out)
}

// Puts a field behind those of a row, if it is asked for.
fn push_if(is_asked: bool, field: &[u8], row: &mut ByteRecord) -> Result<(), AllocError>
    requires { partial_of row.old ≡ [] }
    ensures fields { OnOk result (fields_of row.new ≡ fields_of row.old ++ (if is_asked then field.now ∷ [] else [])) }
    ensures partial { OnOk result (partial_of row.new ≡ []) }
{
    if is_asked {
        row.push_field(field)?;
    }
    Ok(())
}

// Puts the fields of a group behind those of a row.
fn push_group(group: &[Vec<u8>], row: &mut ByteRecord) -> Result<(), AllocError>
    requires { partial_of row.old ≡ [] }
    ensures fields { OnOk result (fields_of row.new ≡ fields_of row.old ++ map (λ field. field.items) group.now) }
    ensures partial { OnOk result (partial_of row.new ≡ []) }
{
    for field in group {
        row.push_field(field)?;
    }
    Ok(())
}

// Puts sums behind the fields of a row.
fn push_sums(alloc: Global, sums: &[Option<i128>], row: &mut ByteRecord) -> Result<(), AllocError>
    requires { partial_of row.old ≡ [] }
    ensures fields { OnOk result (fields_of row.new ≡ fields_of row.old ++ map sum_text sums.now) }
    ensures partial { OnOk result (partial_of row.new ≡ []) }
{
    let mut text = Vec::new(alloc);
    for sum in sums {
        text.clear();
        push_sum(*sum, &mut text)?;
        row.push_field(&text)?;
    }
    Ok(())
}
