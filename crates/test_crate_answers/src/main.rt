//! Replays answers of the Rust crate `slice-group-by` 0.3.1. A line of standard input says which calls were made on the
//! groups of a word, or what was searched for in one, and what that crate answered. The program makes the same calls of
//! this library. It prints each line that is answered in another way here, and at the end how many lines there are of
//! each type, and how many of them are the same. The status is 1 where one is not, and where a line is wrong, which
//! ends the program.
//!
//! A line of groups has these fields, with a space between every two:
//!
//! - the type; `reading` or `writing`; the judge;
//! - the calls: F for `next`, B for `next_back`, L for `last`;
//! - the word; for writing, the word after each group that came was crossed out;
//! - the answers: the group, or `-` for `None`;
//! - how many questions the closure was asked, or `-` where that is not compared.
//!
//! A line of a search has `search`, by what it searches, for which letter, the word, `found` or `absent`, and the place.
//! `docs/DIFFERENCES.md` says how the stored lines were made.
#![tactic(auto)]

mod calls;
mod fields;
mod groups;
mod judges;
mod lines;
mod run;
mod search;
mod slices;
mod texts;

use std::io;
use std::io::BufReader;
use std::process::ExitCode;

fn main(rt: HostRuntime) -> io::Result<ExitCode> {
    let input = BufReader::new(rt.alloc(), rt.reader())?;
    if run::run(rt.alloc(), input, &mut io::writer(&rt))? {
        Ok(ExitCode::SUCCESS)
    } else {
        Ok(ExitCode::FAILURE)
    }
}
