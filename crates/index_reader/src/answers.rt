//! Answering queries.
ghost use Rattle.std.specs.Prelude.{◌≡◌, map, OnOk};
ghost use Rattle.std.specs.List.Sorted.{IsSorted};
ghost use Rattle.program_parts.specs.Rows.{by_key};
ghost use Rattle.program_parts.specs.Written.{Writes};
ghost use Rattle.index_reader.specs.Answers.{found_rows, of_key};

use csv::Writer;
use program_parts::row::Row;
use program_parts::rows::write_row;
use slice_group_by::exponential_equal_places_by;
use slice_group_by::laws::{always_computes, range_places};
use std::alloc::Global;
use std::io;
use std::io::Write;

/// Writes the answers to these queries, in their order.
pub fn answer_block<W: Write + Drop>(
    alloc: Global,
    rows: &[Row],
    queries: &[Row],
    out: &mut Writer<W>,
) -> io::Result<()>
    requires { IsSorted by_key rows.now }
    ensures { OnOk result (Writes W.contents out.old out.new (found_rows rows.now (map (λ query. query.key) queries.now))) }
{
    let mut line = Vec::new(alloc);
    for query in queries {
        write_rows(rows_of_key(rows, query), &mut line, out)?;
    }
    Ok(())
}

// The rows that have the key of the query. Each search begins at the front, and not where the one before it ended: the places that
// it looks at first are the same ones each time, and stay in the cache.
fn rows_of_key<'a>(rows: &'a [Row], query: &Row) -> &'a [Row]
    requires { IsSorted by_key rows.now }
    ensures { result.now ≡ of_key query.now.key rows.now }
{
    range_places::<Row>();
    let compare = |row: &Row| row.cmp_key(query);
    always_computes(&compare);
    let found = exponential_equal_places_by(rows, compare);
    &rows[found]
}

// Writes these rows without their keys. The line takes the fields of one after another.
fn write_rows<'a, W: Write + Drop>(
    rows: &'a [Row],
    line: &mut Vec<&'a [u8]>,
    out: &mut Writer<W>,
) -> io::Result<()>
    ensures { OnOk result (Writes W.contents out.old out.new (map (λ row. row.rest) rows.now)) }
{
    for row in rows {
        line.clear();
        row.push_rest(line)?;
        write_row(line, out)?;
    }
    Ok(())
}
