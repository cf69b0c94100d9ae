//! A program: what `main` does for all of them.

use crate::failure::{Failure, status_of};
use clap::error::ErrorKind;
use clap::{ArgMatches, Command, Error};
use std::alloc::{AllocError, Global};
use std::io::Write;
use std::process::ExitCode;
use std::{env, io};

/// The version of all programs.
pub const VERSION: &str = "1.1.0";

/// A program.
pub trait App {
    /// Its name, with which each complaint begins.
    const NAME: &'static str;

    /// What it does, which options it has, what it leaves out, and its statuses: `--help`.
    const ABOUT: &'static str;

    /// Adds its arguments to a command that has `--help` and `--version`.
    fn arguments<'a>(alloc: Global, command: Command<'a>) -> Result<Command<'a>, AllocError>;

    /// Does what these arguments ask for. `false` says that a record was left out.
    fn run<'a>(rt: &HostRuntime, matches: &ArgMatches<'a>) -> Result<bool, Failure<'a>>;
}

/// Runs a program, and gives back its status: 0 if it did all that it was asked, 1 if a record was left out, and 2 if an argument is
/// wrong or it failed. Standard error says why.
pub fn main_of<A: App>(rt: &HostRuntime) -> ExitCode {
    let status = match start::<A>(rt) {
        Ok(status) => status,
        Err(error) => status_of(A::NAME, Err(Failure::from(error)), &mut rt.stderr()),
    };
    ExitCode::from(status)
}

// Reads the arguments, runs, and gives back the status. The error is one of memory, or of writing what the arguments ask for.
fn start<A: App>(rt: &HostRuntime) -> io::Result<u8> {
    let words = match env::args(rt) {
        Ok(words) => words.skip(1).collect::<Vec<String>>(rt.alloc())?,
        Err(error) if error.kind() == io::ErrorKind::InvalidData => {
            let _ = writeln!(rt.stderr(), "{}: an argument is not UTF-8", A::NAME);
            return Ok(2);
        }
        Err(error) => return Err(error),
    };
    let command = plain_command(rt.alloc(), A::NAME, A::ABOUT);
    let mut command = A::arguments(rt.alloc(), command)?;
    let matches = match command.try_get_matches_from_mut(&words) {
        Ok(matches) => matches,
        Err(error) => return stop(rt, &error),
    };
    match A::run(rt, &matches) {
        Err(Failure::Usage(why)) => stop(rt, &command.error(ErrorKind::ValueValidation, why)?),
        done => Ok(status_of(A::NAME, done, &mut rt.stderr())),
    }
}

// A command with the options that all programs have.
fn plain_command<'a>(alloc: Global, name: &'a str, about: &'a str) -> Command<'a> {
    Command::new(alloc, name)
        .version(VERSION)
        .about(about)
        .no_binary_name(true)
}

// Prints why the arguments are refused, or what they ask for, and gives back the status.
fn stop(rt: &HostRuntime, error: &Error) -> io::Result<u8> {
    if error.kind() == ErrorKind::OutOfMemory {
        return Err(io::Error::from(AllocError));
    }
    // Not `error.print`, whose writes end where one is interrupted.
    let text = format!(in rt.alloc(); "{error}")?;
    if error.use_stderr() {
        rt.stderr().write_all(text.as_bytes())?;
        return Ok(2);
    }
    let mut out = rt.stdout();
    out.write_all(text.as_bytes())?;
    out.flush()?;
    Ok(0)
}
