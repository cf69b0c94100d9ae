//! Rows that stand together, their fields in one record.
ghost use Rattle.std.specs.Prelude.{◌≡◌, ◌++◌, [], OnOk};
ghost use Rattle.csv.specs.Records.{fields_of, partial_of};
ghost use Rattle.program_parts.specs.Rows.{fields_in, row_at};

use crate::columns::push_fields;
use crate::layout::Layout;
use csv::ByteRecord;
use std::alloc::AllocError;

/// Rows: the fields of one after those of another, of each those of the key first. All have as many.
#[derive(Drop)]
pub struct Block {
    pub fields: ByteRecord,
    pub key: usize,
    pub rest: usize,
}

/// Puts the fields of the row that a record is behind those of others.
pub fn push_row(
    source: &ByteRecord,
    layout: &Layout,
    fields: &mut ByteRecord,
) -> Result<(), AllocError>
    requires { partial_of fields.old ≡ [] }
    ensures fields { OnOk result (fields_of fields.new ≡ fields_of fields.old ++ fields_in (row_at layout.now (fields_of source.now))) }
    ensures partial { OnOk result (partial_of fields.new ≡ []) }
{
    push_fields(source, &layout.key, fields)?;
    push_fields(source, &layout.rest, fields)
}
