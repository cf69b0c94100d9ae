//! Rows, as records say them.
ghost use Rattle.std.specs.Prelude.{◌≡◌, ◌∷◌, ◌++◌, [], ℕ, List, if◌then◌else◌, map, false, None, Option, Some, unwrap_or};
ghost use Rattle.std.specs.Prelude.{IfNone, IfOk, IfSome, OnOk};
ghost use Rattle.csv.specs.Records.{fields_of};
ghost use Rattle.program_parts.specs.Records.{field};
ghost use Rattle.program_parts.specs.RecordsLeft.{left_of};
ghost use Rattle.program_parts.specs.Said.{HasSaid};
ghost use Rattle.program_parts.specs.declared.records.Format.{Format};
ghost use Rattle.grouped_report.specs.Groups as Spec;
ghost use Rattle.grouped_report.specs.Input.{amounts_in, row_in};

use crate::amount::read_amount;
use crate::columns::Places;
use crate::row::Row;
use csv::ByteRecord;
use program_parts::columns::field_or_empty;
use program_parts::failure::IoFailure;
use program_parts::input::Noted;
use program_parts::records::Records;
use program_parts::shown::Excerpt;
use std::alloc::{AllocError, Global};
use std::io::{Read, Write};

/// Reads the next record into a row. `None` where no record is left; `Some(false)` where it says no row, and is left out.
pub fn next_row<'a, R: Read + Noted + Drop, E: Write>(
    alloc: Global,
    records: &mut Records<'a, R>,
    places: &Places,
    row: &mut Row,
    complaints: &mut E,
) -> Result<Option<bool>, IoFailure<'a>>
    ensures said { IfOk result (λ found. (format : Format) (input : Option (List ℕ)) (said : List Spec.Row)
        → HasSaid (row_in places.now) R.remaining format input said records.old
        → HasSaid (row_in places.now) R.remaining format input (said ++ (if unwrap_or found false then row.new ∷ [] else []))
        records.new) }
    ensures end { IfOk result (λ found. found ≡ None → left_of R.remaining records.new ≡ Some []) }
{
    let Some(is_row) = records.next(complaints)? else {
        return Ok(None);
    };
    if !is_row {
        return Ok(Some(false));
    }
    let Some(wrong) = read_row(records.row(), places, row)? else {
        return Ok(Some(true));
    };
    let problem = format!(in alloc; "its amount {} is no decimal number", Excerpt(wrong))?;
    records.leave_out(problem, complaints)?;
    Ok(Some(false))
}

// Reads a record into a row. What comes back is a field that is added up and is no amount, if there is one.
fn read_row<'r>(
    fields: &'r ByteRecord,
    places: &Places,
    row: &mut Row,
) -> Result<Option<&'r [u8]>, AllocError>
    ensures says { IfOk result (λ wrong. IfNone wrong (row_in places.now (fields_of fields.now) ≡ Some row.new)) }
    ensures silent { IfOk result (λ wrong. IfSome wrong (λ _. row_in places.now (fields_of fields.now) ≡ None)) }
{
    row.clear()?;
    push_group(fields, &places.by, row)?;
    push_amounts(fields, &places.sum, row)
}

// Puts the fields at these places behind those of a row's group.
fn push_group(fields: &ByteRecord, places: &[usize], row: &mut Row) -> Result<(), AllocError>
    ensures group { OnOk result (row.new.group ≡ row.old.group ++ map (field (fields_of fields.now)) places.now) }
    ensures amounts { OnOk result (row.new.amounts ≡ row.old.amounts) }
{
    for place in places {
        row.push_field(field_or_empty(fields, *place))?;
    }
    Ok(())
}

// Puts the amounts at these places into a row that has none, up to the first field that is no amount, which comes back.
fn push_amounts<'r>(
    fields: &'r ByteRecord,
    places: &[usize],
    row: &mut Row,
) -> Result<Option<&'r [u8]>, AllocError>
    requires { row.old.amounts ≡ [] }
    ensures group { OnOk result (row.new.group ≡ row.old.group) }
    ensures amounts { IfOk result (λ wrong. IfNone wrong
        (amounts_in (map (field (fields_of fields.now)) places.now) ≡ Some row.new.amounts)) }
    ensures none { IfOk result (λ wrong. IfSome wrong (λ _. amounts_in (map (field (fields_of fields.now)) places.now) ≡ None)) }
{
    for place in places {
        let text = field_or_empty(fields, *place);
        let Some(amount) = read_amount(text) else {
            return Ok(Some(text));
        };
        row.push_amount(amount)?;
    }
    Ok(None)
}
