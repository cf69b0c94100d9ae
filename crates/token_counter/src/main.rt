//! Counts the tokens of a file or of standard input, the longest runs of bytes of one class, in one pass: input of any
//! size, in the memory of one block. Letters, digits and white space are those of ASCII; all other bytes, such as those
//! of characters beyond ASCII, are of a fourth class.
#![tactic(auto)]

mod characters;
mod counter;
mod report;

use crate::report::report_tokens;
use clap::{Arg, ArgMatches, Command};
use program_parts::app::{App, main_of};
use program_parts::failure::Failure;
use program_parts::input::Input;
use std::alloc::{AllocError, Global};
use std::process::ExitCode;

struct Program;

fn main(rt: HostRuntime) -> ExitCode {
    main_of::<Program>(&rt)
}

impl App for Program {
    const NAME: &'static str = "token_counter";

    const ABOUT: &'static str = "\
Counts the runs of letters, of digits and of white space, each of ASCII, and of other bytes in a
file, each run as long as it can be. A run of letters is a word. A carriage return is white space,
and each byte of a character beyond ASCII is one of the other bytes.

Example: token_counter letter.txt

Writes four lines, such as `runs of letters: 12`.
Status: 0 all is counted; 2 it failed.";

    fn arguments<'a>(alloc: Global, command: Command<'a>) -> Result<Command<'a>, AllocError> {
        command.arg(
            Arg::new(alloc, "FILE")
                .default_value("-")
                .help("What is read; a dash is standard input"),
        )
    }

    fn run<'a>(rt: &HostRuntime, matches: &ArgMatches<'a>) -> Result<bool, Failure<'a>> {
        let file = matches.get_str("FILE").unwrap_or("-");
        let mut input = Input::open(rt, file)?;
        report_tokens(rt.alloc(), file, &mut input, &mut rt.stdout())?;
        Ok(true)
    }
}
