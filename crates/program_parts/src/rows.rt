//! Rows, as they are written.
ghost use Rattle.std.specs.Prelude.{◌≡◌, ◌∷◌, [], map, IfOk, OnOk};
ghost use Rattle.csv.specs.Records.{field_at, fields_of};
ghost use Rattle.csv.specs.Writing.{writer_pending, writer_under};
ghost use Rattle.program_parts.specs.Written.{IsReady, Writes, two_names};

use csv::{ByteRecord, Error, ErrorKind, Writer, WriterBuilder};
use std::alloc::AllocError;
use std::io;
use std::io::Write;

/// A writer of rows with this byte between two fields.
pub fn row_writer<W: Write + Drop>(delimiter: u8, out: W) -> Writer<W>
    ensures ready { IsReady delimiter result }
    ensures under { writer_under result ≡ out }
    ensures none_pending { writer_pending result ≡ [] }
{
    WriterBuilder::new().delimiter(delimiter).from_writer(out)
}

/// Writes a row of these fields.
pub fn write_row<W: Write + Drop>(fields: &[&[u8]], out: &mut Writer<W>) -> io::Result<()>
    ensures { OnOk result (Writes W.contents out.old out.new (map (λ field. field.now) fields.now ∷ [])) }
{
    out.write_fields(fields).map_err(io_error)
}

/// Writes a row.
pub fn write_record<W: Write + Drop>(row: &ByteRecord, out: &mut Writer<W>) -> io::Result<()>
    ensures { OnOk result (Writes W.contents out.old out.new (fields_of row.now ∷ [])) }
{
    out.write_byte_record(row).map_err(io_error)
}

/// Writes the names of the columns at these two places, if there are any.
pub fn write_two_names<W: Write + Drop>(
    names: &ByteRecord,
    first: usize,
    second: usize,
    out: &mut Writer<W>,
) -> io::Result<()>
    ensures { OnOk result (Writes W.contents out.old out.new
        (two_names (field_at (fields_of names.now) first) (field_at (fields_of names.now) second))) }
{
    match (names.get(first), names.get(second)) {
        (Some(first), Some(second)) => write_row(&[first, second], out),
        _ => Ok(()),
    }
}

/// Passes on all that is written.
pub fn pass_on<W: Write + Drop>(out: &mut Writer<W>) -> io::Result<()>
    ensures writes { OnOk result (Writes W.contents out.old out.new []) }
    ensures none_pending { OnOk result (writer_pending out.new ≡ []) }
{
    out.flush().map_err(io_error)
}

// The error of a write.
fn io_error(error: Error) -> io::Error {
    match error.into_kind() {
        ErrorKind::Io(error) => error,
        _ => io::Error::from(AllocError),
    }
}
