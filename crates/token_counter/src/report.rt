//! Counts the tokens of an input, and writes how many there are.
ghost use Rattle.std.specs.Prelude.{IfSome, OnOk};
ghost use Rattle.std.specs.Str.{chars, IsUtf8};
ghost use Rattle.std.specs.Io.KnownBytes.{Appends};
ghost use Rattle.slice_group_simd.specs.Counted.{count_of};
ghost use Rattle.token_counter.specs.Tokens.{report, token_count};

use crate::characters::characters_agree;
use crate::counter::count_tokens;
use program_parts::failure::IoFailure;
use slice_group_simd::ClassCounts;
use std::alloc::Global;
use std::io;
use std::io::{Read, Write};

/// Writes how many tokens of each class the input, this file, has. Of a text these are the tokens of its characters.
pub fn report_tokens<'a, R: Read, W: Write>(
    alloc: Global,
    file: &'a str,
    input: &mut R,
    out: &mut W,
) -> Result<(), IoFailure<'a>>
    ensures bytes { OnOk result (IfSome (R.remaining input.old)
        (λ bytes. Appends (W.contents out.old) (W.contents out.new) (report (λ class. token_count class bytes)))) }
    ensures characters { OnOk result (IfSome (R.remaining input.old) (λ bytes. IsUtf8 bytes
        → Appends (W.contents out.old) (W.contents out.new) (report (λ class. token_count class (chars bytes))))) }
{
    characters_agree();
    let counts = count_tokens(alloc, file, input)?;
    write_report(out, &counts)?;
    out.flush()?;
    Ok(())
}

// Writes a line for each class, with the number of its tokens.
fn write_report<W: Write>(out: &mut W, counts: &ClassCounts) -> io::Result<()>
    ensures { OnOk result (Appends (W.contents out.old) (W.contents out.new) (report (λ class. count_of class counts.now))) }
{
    writeln!(out, "runs of letters: {}", counts.letters)?;
    writeln!(out, "runs of digits: {}", counts.digits)?;
    writeln!(out, "runs of white space: {}", counts.spaces)?;
    writeln!(out, "runs of other bytes: {}", counts.others)
}
