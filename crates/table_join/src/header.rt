//! The names of the columns of a join, of which none stands twice.
ghost use Rattle.std.specs.Prelude.{◌≡◌, ◌++◌, List, codes, decimal, map, IfOk, OnOk};
ghost use Rattle.std.specs.List.{AllZip};
ghost use Rattle.csv.specs.Records.{fields_of};
ghost use Rattle.program_parts.specs.Records.{Record};
ghost use Rattle.program_parts.specs.Written.{Writes};
ghost use Rattle.table_join.specs.Headers.{AreHeader, IsNamed};

use csv::{ByteRecord, Writer};
use itoa::Buffer;
use program_parts::rows::write_record;
use std::alloc::{AllocError, Global};
use std::collections::HashMap;
use std::io;
use std::io::Write;

/// Writes the names of columns, if there are any. A name that stood before gets `_2` behind it, or the next number by which it stands once.
pub fn write_header<W: Write + Drop>(
    alloc: Global,
    names: &[&[u8]],
    out: &mut Writer<W>,
) -> io::Result<()>
    ensures { OnOk result ((header : List Record) × AreHeader (map (λ name. name.now) names.now) header
        × Writes W.contents out.old out.new header) }
{
    if names.is_empty() {
        return Ok(());
    }
    let header = unique_names(alloc, names)?;
    write_record(&header, out)
}

// These names, each once.
fn unique_names(alloc: Global, names: &[&[u8]]) -> Result<ByteRecord, AllocError>
    ensures { IfOk result (λ header. AllZip IsNamed (map (λ name. name.now) names.now) (fields_of header)) }
{
    let mut header = ByteRecord::new(alloc);
    let mut numbers = HashMap::new(alloc);
    for name in names {
        let name = free_name(alloc, &mut numbers, name)?;
        header.push_field(&name)?;
    }
    Ok(header)
}

// The name, or with the next number behind it that makes it another than those before. Of these the last number is kept that was tried.
fn free_name(
    alloc: Global,
    numbers: &mut HashMap<Vec<u8>, u64>,
    name: &[u8],
) -> Result<Vec<u8>, AllocError>
    ensures { IfOk result (λ new. IsNamed name.now new.items) }
{
    let Some(last) = numbers.get(name).copied() else {
        numbers.insert(Vec::from_slice(alloc, name)?, 1)?;
        return Vec::from_slice(alloc, name);
    };
    for number in last..u64::MAX {
        let new = numbered(alloc, name, number.saturating_add(1))?;
        if !numbers.contains_key(new.as_slice()) {
            numbers.insert(Vec::from_slice(alloc, name)?, number.saturating_add(1))?;
            numbers.insert(Vec::from_slice(alloc, &new)?, 1)?;
            return Ok(new);
        }
    }
    Err(AllocError)
}

// The name with a number behind it.
fn numbered(alloc: Global, name: &[u8], number: u64) -> Result<Vec<u8>, AllocError>
    ensures { IfOk result (λ new. new.items ≡ name.now ++ (codes "_" ++ decimal number)) }
{
    let mut new = Vec::from_slice(alloc, name)?;
    new.extend_from_slice(b"_")?;
    new.extend_from_slice(Buffer::new().format(number).as_bytes())?;
    Ok(new)
}
