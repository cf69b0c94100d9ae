//! All lines of an input.
use crate::lines::{Tally, replay};
use std::alloc::Global;
use std::io;
use std::io::{BufRead, Write};

/// Whether each line is answered here as it says. One that is not is written with its number, and at the end how many
/// lines there are of each type. A wrong line is written too, and ends the replay: then the answer is no.
pub fn run<R: BufRead + Drop, W: Write>(alloc: Global, input: R, out: &mut W) -> io::Result<bool> {
    let mut are_same = true;
    let mut tallies = Tally::all();
    for (number, line) in (1..u64::MAX).zip(input.lines(alloc)) {
        let line = line?;
        match replay(alloc, &line) {
            Ok((kind, same)) => {
                for tally in &mut tallies {
                    tally.note(kind, same);
                }
                if !same {
                    writeln!(out, "line {number} is not the same: {line}")?;
                    are_same = false;
                }
            }
            Err(error) => {
                writeln!(out, "line {number}: {error}")?;
                return Ok(false);
            }
        }
    }
    for tally in tallies {
        writeln!(out, "{tally}")?;
    }
    Ok(are_same)
}
