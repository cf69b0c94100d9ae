//! Codes bytes as CSV, a record for each run of equal bytes: input of any size, in the memory of one block. With `decode` it
//! reads such records, and writes the bytes again.
#![tactic(auto)]

mod decoder;
mod encoder;
mod record;
mod runs;

use crate::decoder::decode;
use crate::encoder::encode;
use clap::{Arg, ArgMatches, Command};
use program_parts::app::{App, main_of};
use program_parts::failure::Failure;
use program_parts::input::Input;
use std::alloc::{AllocError, Global};
use std::io::{BufWriter, Write};
use std::process::ExitCode;

struct Program;

fn main(rt: HostRuntime) -> ExitCode {
    main_of::<Program>(&rt)
}

impl App for Program {
    const NAME: &'static str = "run_length_coder";

    const ABOUT: &'static str = "\
Codes the bytes of a file as CSV, a record for each run of equal bytes, or decodes such CSV. A
record has two fields, how many bytes there are and which one, as decimal numbers: `3,97` is `aaa`.
No record has the names of columns.

Example: run_length_coder photo.raw > photo.csv; run_length_coder decode photo.csv > photo.raw

Left out by decode are records that say no run; standard error says which, and why.
Status: 0 all is coded; 1 a record was left out; 2 it failed.";

    fn arguments<'a>(alloc: Global, command: Command<'a>) -> Result<Command<'a>, AllocError> {
        let encode = Command::new(alloc, "encode")
            .about("Writes a record for each run of equal bytes, which is the default")
            .override_usage("run_length_coder encode [FILE]")
            .arg(file(alloc))?;
        let decode = Command::new(alloc, "decode")
            .about("Writes the bytes of runs again")
            .override_usage("run_length_coder decode [FILE]")
            .arg(file(alloc))?;
        command
            .disable_help_subcommand(true)
            .args_conflicts_with_subcommands(true)
            .arg(file(alloc))?
            .subcommand(encode)?
            .subcommand(decode)
    }

    fn run<'a>(rt: &HostRuntime, matches: &ArgMatches<'a>) -> Result<bool, Failure<'a>> {
        let (decodes, file) = mode_and_file(matches);
        let mut input = Input::open(rt, file)?;
        let mut out = BufWriter::with_capacity(rt.alloc(), 65536, rt.stdout())?;
        let mut complaints = BufWriter::new(rt.alloc(), rt.stderr())?;
        let done = if decodes {
            decode(rt.alloc(), file, input, &mut out, &mut complaints)
        } else {
            encode(rt.alloc(), file, &mut input, &mut out).and(Ok(true))
        };
        if done.is_err() {
            let _ = out.flush();
        }
        Ok(done?)
    }
}

// The file.
fn file<'a>(alloc: Global) -> Arg<'a> {
    Arg::new(alloc, "FILE")
        .default_value("-")
        .help("What is read; a dash is standard input")
}

// Whether runs are decoded, and the file that is read.
fn mode_and_file<'a>(matches: &ArgMatches<'a>) -> (bool, &'a str) {
    match matches.subcommand() {
        Some((name, of)) => (name == "decode", of.get_str("FILE").unwrap_or("-")),
        None => (false, matches.get_str("FILE").unwrap_or("-")),
    }
}
