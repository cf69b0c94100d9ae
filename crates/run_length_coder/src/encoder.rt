//! Codes bytes as runs, block by block.
ghost use Rattle.std.specs.Prelude.{◌≡◌, ℕ, List, ◌++◌, map, nat_eq, Option, option_map, IfOk, OnOk, IfSome};
ghost use Rattle.std.specs.Io.KnownBytes.{Appends};
ghost use Rattle.slice_group_stream.specs.Split.{last, split};
ghost use Rattle.slice_group_stream.specs.Streams.{kept_of};
ghost use Rattle.run_length_coder.specs.Coding.{coded, longer_run, run_if, run_of, text_of, Written};

use program_parts::blocks::{new_block, read_block};
use program_parts::failure::IoFailure;
use slice_group_stream::StreamGroups;
use slice_group_stream::laws::{parts_fold, parts_join};
use std::alloc::Global;
use std::io;
use std::io::{Read, Write};

/// Writes a record for each run of the bytes that the input, this file, has left, each run as long as it can be, however the
/// reads cut them. It keeps one block in memory. A failed read or write ends it, and so does a run of 2^64 bytes.
pub fn encode<'a, R: Read, W: Write>(
    alloc: Global,
    file: &'a str,
    input: &mut R,
    out: &mut W,
) -> Result<(), IoFailure<'a>>
    ensures { OnOk result (IfSome (R.remaining input.old)
        (λ bytes. Appends (W.contents out.old) (W.contents out.new) (coded bytes))) }
{
    let mut block = new_block(alloc)?;
    let mut stream = StreamGroups::new();
    let (mut byte, mut count) = (0u8, 0usize);
    for _ in 0..u64::MAX {
        let len = read_block(file, input, &mut block)?;
        if len == 0 {
            write_run(byte, count, out)?;
            out.flush()?;
            return Ok(());
        }
        (byte, count) = write_block(&mut stream, byte, count, &block[..len], out)?;
    }
    Err(IoFailure::from(io::Error::other("the input does not end")))
}

/// Writes the records of the runs that end in the block, and gives the one that is open behind it. There is none where
/// the count is 0.
fn write_block<W: Write>(
    stream: &mut StreamGroups<u8>,
    mut byte: u8,
    mut count: usize,
    block: &[u8],
    out: &mut W,
) -> io::Result<(u8, usize)>
    ensures { IfOk result (λ next. (start : Option (List ℕ)) (came : List ℕ) → kept_of stream.old ≡ last came
        → Written start (W.contents out.old) (map run_of (split nat_eq came)) byte count
        → (kept_of stream.new ≡ last (came ++ block.now))
        × Written start (W.contents out.new) (map run_of (split nat_eq (came ++ block.now))) next.0 next.1) }
{
    let parts = stream.number_parts(block);
    parts_join(&parts);
    parts_fold::<_, (u8, usize)>(&parts);
    for (begins, part) in parts {
        if begins {
            write_run(byte, count, out)?;
            byte = part[0];
            count = part.len();
        } else {
            count = longer(count, part)?;
        }
    }
    Ok((byte, count))
}

/// The count of the run that is open, if there is one, with a part more.
fn longer(count: usize, part: &[u8]) -> io::Result<usize>
    ensures { IfOk result (λ more. (byte : ℕ) → run_if byte more
        ≡ option_map (λ run. longer_run run part.now) (run_if byte count)) }
{
    if count == 0 {
        return Ok(0);
    }
    let Some(more) = count.checked_add(part.len()) else {
        return Err(io::Error::other("a run is too long to be counted"));
    };
    Ok(more)
}

/// Writes the record of the run that is open, if there is one.
fn write_run<W: Write>(byte: u8, count: usize, out: &mut W) -> io::Result<()>
    ensures { OnOk result (Appends (W.contents out.old) (W.contents out.new) (text_of (run_if byte count))) }
{
    if count == 0 {
        return Ok(());
    }
    writeln!(out, "{count},{byte}")
}
