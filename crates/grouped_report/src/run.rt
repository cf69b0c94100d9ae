//! Reads the rows of a table, and writes the summaries of their groups.
ghost use Rattle.std.specs.Prelude.{◌≡◌, [], ℕ, List, Option, map, false, true, IfOk, IfSome, OnOk};
ghost use Rattle.csv.specs.Writing.{writer_pending};
ghost use Rattle.program_parts.specs.RecordsLeft.{IsNew};
ghost use Rattle.program_parts.specs.Written.{Writes};
ghost use Rattle.program_parts.specs.declared.records.Format.{Format};
ghost use Rattle.grouped_report.specs.Output.{summary_row};
ghost use Rattle.grouped_report.specs.Runs.{Reports, Summarizes};

use crate::columns::Places;
use crate::groups::Groups;
use crate::output::{write_names, write_summaries};
use crate::reading::next_row;
use crate::row::Row;
use crate::summary::Summary;
use crate::sums::Sums;
use csv::Writer;
use program_parts::failure::{Failure, IoFailure};
use program_parts::input::Noted;
use program_parts::records::{Records, Source};
use program_parts::rows::pass_on;
use slice_group_by::laws::one_split;
use slice_group_stream::laws::groups_close;
use std::alloc::Global;
use std::io::{Read, Write};
use std::{io, slice};

/// What is asked of a table: the columns that make the groups, and those that are added up.
#[derive(Clone, Copy)]
pub struct Question<'a> {
    pub by: &'a [&'a str],
    pub sum: &'a [&'a str],
    /// How many rows a group has is asked for too.
    pub counts: bool,
    /// Groups are runs of neighbouring rows.
    pub runs: bool,
}

/// Writes the report of a table. `false` says that a record was left out, and the complaints why.
pub fn write_report<'a, R: Read + Noted + Drop, W: Write + Drop, E: Write>(
    alloc: Global,
    source: Source<'a, R>,
    question: Question<'_>,
    out: &mut Writer<W>,
    complaints: &mut E,
) -> Result<bool, Failure<'a>>
    ensures reports { IfOk result (λ is_whole. IfSome (R.remaining source.entry.input)
        (λ bytes. Reports W.contents source.entry.format (map (λ column. column.now) question.entry.by.now)
        (map (λ column. column.now) question.entry.sum.now) question.entry.counts question.entry.runs bytes is_whole out.old out.new)) }
    ensures none_pending { OnOk result (writer_pending out.new ≡ []) }
{
    let file = source.file;
    let mut records = Records::new(alloc, source)?;
    let places = Places {
        by: records.key_places(alloc, question.by)?,
        sum: records.places_of(alloc, question.sum)?,
    };
    let counts = question.counts;
    write_names(alloc, file, records.names(), &places, counts, out)?;
    let is_whole = write_groups(
        alloc,
        &mut records,
        &places,
        counts,
        question.runs,
        out,
        complaints,
    )?;
    pass_on(out)?;
    Ok(is_whole)
}

// Writes the summaries of the groups of the rows: of their runs, or of all that agree.
fn write_groups<'a, R: Read + Noted + Drop, W: Write + Drop, E: Write>(
    alloc: Global,
    records: &mut Records<'a, R>,
    places: &Places,
    counts: bool,
    runs: bool,
    out: &mut Writer<W>,
    complaints: &mut E,
) -> Result<bool, IoFailure<'a>>
    ensures { IfOk result (λ is_whole. (format : Format) (input : Option (List ℕ)) → IsNew R.remaining format input records.old
        → Summarizes W.contents counts runs places.now format input is_whole out.old out.new) }
{
    if runs {
        write_runs(alloc, records, places, counts, out, complaints)
    } else {
        write_sums(alloc, records, places, counts, out, complaints)
    }
}

// Reads all rows, adds them up, and writes the summaries in ascending order.
fn write_sums<'a, R: Read + Noted + Drop, W: Write + Drop, E: Write>(
    alloc: Global,
    records: &mut Records<'a, R>,
    places: &Places,
    counts: bool,
    out: &mut Writer<W>,
    complaints: &mut E,
) -> Result<bool, IoFailure<'a>>
    ensures { IfOk result (λ is_whole. (format : Format) (input : Option (List ℕ)) → IsNew R.remaining format input records.old
        → Summarizes W.contents counts false places.now format input is_whole out.old out.new) }
{
    let mut row = Row::new(alloc);
    let mut sums = Sums::new(alloc);
    for _ in 0..u64::MAX {
        let Some(is_row) = next_row(alloc, records, places, &mut row, complaints)? else {
            let is_whole = records.finish(complaints)?;
            let sums = sums.finish()?;
            write_summaries(alloc, &sums, counts, out)?;
            return Ok(is_whole);
        };
        if is_row {
            sums.add(&row)?;
        }
    }
    Err(too_many())
}

// Reads row by row, and writes the summary of a run when another begins.
fn write_runs<'a, R: Read + Noted + Drop, W: Write + Drop, E: Write>(
    alloc: Global,
    records: &mut Records<'a, R>,
    places: &Places,
    counts: bool,
    out: &mut Writer<W>,
    complaints: &mut E,
) -> Result<bool, IoFailure<'a>>
    ensures { IfOk result (λ is_whole. (format : Format) (input : Option (List ℕ)) → IsNew R.remaining format input records.old
        → Summarizes W.contents counts true places.now format input is_whole out.old out.new) }
{
    one_split::<Row>();
    groups_close::<Row, Option<Summary>, Summary>();
    let mut row = Row::new(alloc);
    let mut groups = Groups::new(alloc);
    for _ in 0..u64::MAX {
        let Some(is_row) = next_row(alloc, records, places, &mut row, complaints)? else {
            groups.close()?;
            write_summaries(alloc, &groups.closed, counts, out)?;
            let is_whole = records.finish(complaints)?;
            return Ok(is_whole);
        };
        if is_row {
            groups.add_rows(slice::from_ref(&row))?;
        }
        write_closed(alloc, &mut groups, counts, records.is_drained(), out)?;
    }
    Err(too_many())
}

// Not all records are read.
fn too_many<'a>() -> IoFailure<'a> {
    IoFailure::from(io::Error::other("there are too many records"))
}

// Writes the summaries of the groups that are closed. They are passed on at once where more rows must be waited for.
fn write_closed<W: Write + Drop>(
    alloc: Global,
    groups: &mut Groups,
    counts: bool,
    waits: bool,
    out: &mut Writer<W>,
) -> io::Result<()>
    ensures writes { OnOk result (Writes W.contents out.old out.new (map (summary_row counts) groups.old.closed.items)) }
    ensures none_closed { OnOk result (groups.new.closed.items ≡ []) }
    ensures current { OnOk result (groups.new.current ≡ groups.old.current) }
{
    write_summaries(alloc, &groups.closed, counts, out)?;
    groups.closed.clear();
    if waits {
        pass_on(out)?;
    }
    Ok(())
}
