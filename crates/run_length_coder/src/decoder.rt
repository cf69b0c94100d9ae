//! Decodes records of runs.
ghost use Rattle.std.specs.Prelude.{◌≡◌, ℕ, ◌<◌, ◌^◌, List, length, All, IfOk, IfSome, OnOk, Some};
ghost use Rattle.std.specs.Io.KnownBytes.{Appends};
ghost use Rattle.run_length_coder.specs.Coding.{Decodes, coded};

use crate::Program;
use crate::record::parse_run;
use program_parts::app::App;
use program_parts::failure::IoFailure;
use program_parts::input::Noted;
use program_parts::records::{Format, Records, Source};
use std::alloc::Global;
use std::io;
use std::io::{Read, Write};

// How the runs stand in a text.
const FORMAT: Format = Format {
    has_headers: false,
    delimiter: b',',
    width: Some(2),
};

/// Writes the bytes of the runs that the records of the input, this file, say. One that says none is left out, and a complaint
/// says why; then `false` comes back. It keeps a block of what is written in memory.
pub fn decode<'a, R: Read + Noted + Drop, W: Write, E: Write>(
    alloc: Global,
    file: &'a str,
    input: R,
    out: &mut W,
    complaints: &mut E,
) -> Result<bool, IoFailure<'a>>
    ensures any { IfOk result (λ are_runs. IfSome (R.remaining input)
        (λ bytes. Decodes bytes are_runs (W.contents out.old) (W.contents out.new))) }

    // Of what bytes were coded as, these bytes are written.
    ensures again { (bytes : List ℕ) → All (λ byte. byte < 2 ^ 8) bytes → length bytes < 2 ^ 64
        → R.remaining input ≡ Some (coded bytes)
        → OnOk result (Appends (W.contents out.old) (W.contents out.new) bytes) }
{
    let source = Source {
        program: Program::NAME,
        file,
        format: FORMAT,
        input,
    };
    let mut records = Records::new(alloc, source)?;
    let mut room = Vec::new(alloc);
    for _ in 0..u64::MAX {
        let Some(is_row) = records.next(complaints)? else {
            let are_runs = records.finish(complaints)?;
            out.flush()?;
            return Ok(are_runs);
        };
        if !is_row {
            continue;
        }
        let problem = match parse_run(records.row()) {
            Ok(run) => {
                run.write_bytes(&mut room, out)?;
                continue;
            }
            Err(problem) => format!(in alloc; "{problem}")?,
        };
        records.leave_out(problem, complaints)?;
    }
    Err(IoFailure::from(io::Error::other("there are too many records")))
}
