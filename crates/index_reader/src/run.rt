//! Reads an index and queries, and answers them.
ghost use Rattle.std.specs.Prelude.{◌≡◌, [], map, IfOk, IfSome, OnOk};
ghost use Rattle.std.specs.List.Sorted.{IsSorted};
ghost use Rattle.csv.specs.Records.{fields_of};
ghost use Rattle.csv.specs.Writing.{writer_pending};
ghost use Rattle.program_parts.specs.Rows.{by_key};
ghost use Rattle.program_parts.specs.Written.{Writes};
ghost use Rattle.index_reader.specs.Runs.{Answers, AnswersBy, IsIndex, header};

use crate::answers::answer_block;
use csv::{ByteRecord, Writer};
use program_parts::failure::{Failure, IoFailure};
use program_parts::input::Noted;
use program_parts::layout::Layout;
use program_parts::records::{Records, Source};
use program_parts::row::Row;
use program_parts::rows::{pass_on, write_record};
use program_parts::table::Table;
use std::alloc::Global;
use std::io;
use std::io::{Read, Write};

/// Reads an index and then queries, and writes the rows of the index that have their keys, in the columns of these texts. `false` says
/// that a record was left out, and the complaints why.
pub fn answer_all<'a, I: Read + Noted + Drop, Q: Read + Noted + Drop, W: Write + Drop, E: Write>(
    alloc: Global,
    key: &[&str],
    index: Source<'a, I>,
    queries: Source<'a, Q>,
    out: &mut Writer<W>,
    complaints: &mut E,
) -> Result<bool, Failure<'a>>
    ensures answers { IfOk result (λ is_whole. IfSome (I.remaining index.entry.input) (λ table. IfSome (Q.remaining queries.entry.input)
        (λ asked. Answers W.contents index.entry.format queries.entry.format (map (λ column. column.now) key.now) table asked is_whole
        out.old out.new))) }
    ensures none_pending { OnOk result (writer_pending out.new ≡ []) }
{
    let index = read_index(alloc, key, index, complaints)?;
    let is_index_whole = index.records.finish(complaints)?;
    write_names(index.records.names(), out)?;
    pass_on(out)?;
    let are_queries_whole = answer_queries(alloc, &index.rows, queries, out, complaints)?;
    Ok(is_index_whole && are_queries_whole)
}

// Reads the rows of an index, sorted by the columns of these texts. Of each it keeps the whole record.
fn read_index<'a, R: Read + Noted + Drop, E: Write>(
    alloc: Global,
    key: &[&str],
    source: Source<'a, R>,
    complaints: &mut E,
) -> Result<Table<'a, R>, Failure<'a>>
    ensures sorted { IfOk result (λ index. IsSorted by_key index.rows.items) }
    ensures index { IfOk result (λ index. IfSome (R.remaining source.entry.input)
        (λ bytes. IsIndex source.entry.format bytes (map (λ column. column.now) key.now) index)) }
{
    let records = Records::new(alloc, source)?;
    let places = records.key_places(alloc, key)?;
    let layout = Layout::with_all(alloc, places, records.width())?;
    let mut index = Table::new(alloc, records, layout);
    index.read_all(complaints)?;
    Ok(index)
}

// Writes the names of the columns, if there are any.
fn write_names<W: Write + Drop>(names: &ByteRecord, out: &mut Writer<W>) -> io::Result<()>
    ensures { OnOk result (Writes W.contents out.old out.new (header (fields_of names.now))) }
{
    if names.is_empty() {
        return Ok(());
    }
    write_record(names, out)
}

// Answers the queries up to the end by rows of an index. Whether no record was left out.
fn answer_queries<'a, R: Read + Noted + Drop, W: Write + Drop, E: Write>(
    alloc: Global,
    rows: &[Row],
    source: Source<'a, R>,
    out: &mut Writer<W>,
    complaints: &mut E,
) -> Result<bool, IoFailure<'a>>
    requires { IsSorted by_key rows.now }
    ensures answers { IfOk result (λ is_whole. IfSome (R.remaining source.entry.input)
        (λ bytes. AnswersBy W.contents rows.now source.entry.format bytes is_whole out.old out.new)) }
    ensures none_pending { OnOk result (writer_pending out.new ≡ []) }
{
    let records = Records::new(alloc, source)?;
    let layout = Layout::of_key(alloc, records.width())?;
    let mut queries = Table::new(alloc, records, layout);
    for _ in 0..u64::MAX {
        queries.rows.clear();
        queries.read_block(complaints)?;
        answer_block(alloc, rows, &queries.rows, out)?;
        pass_on(out)?;
        if queries.is_last {
            return Ok(queries.records.finish(complaints)?);
        }
    }
    Err(IoFailure::from(io::Error::other("there are too many records")))
}
