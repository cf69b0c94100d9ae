//! The options of a program that reads tables.
use crate::failure::Failure;
use crate::records::Format;
use clap::{Arg, ArgAction, ArgMatches, Command};
use std::alloc::{AllocError, Global};

/// Adds the options that say how the records of a table stand in its text.
pub fn with_format<'a>(alloc: Global, command: Command<'a>) -> Result<Command<'a>, AllocError> {
    let delimiter = Arg::new(alloc, "delimiter")
        .short('d')
        .long("delimiter")
        .value_name("C")
        .default_value(",")
        .help("The ASCII character between two fields; \\t is a tab");
    let no_headers = Arg::new(alloc, "no-headers")
        .short('n')
        .long("no-headers")
        .action(ArgAction::SetTrue)
        .help("The first record is a row: it does not name the columns");
    command.arg(delimiter)?.arg(no_headers)
}

/// An option that takes a column.
pub fn column_option<'a>(alloc: Global, name: &'a str, help: &'a str) -> Arg<'a> {
    Arg::new(alloc, name)
        .long(name)
        .value_name("COLUMN")
        .help(help)
}

/// How the records stand, as these arguments say.
pub fn format_of<'a>(matches: &ArgMatches<'a>) -> Result<Format, Failure<'a>> {
    match delimiter_of(matches.get_str("delimiter").unwrap_or(",")) {
        Some(delimiter) => Ok(Format {
            has_headers: !matches.get_flag("no-headers"),
            delimiter,
            width: None,
        }),
        None => Err(Failure::Usage(
            "the delimiter must be one ASCII character, and no quote, carriage return or line feed",
        )),
    }
}

// The delimiter that is meant by this text.
fn delimiter_of(text: &str) -> Option<u8> {
    match text.as_bytes() {
        [b'\\', b't'] => Some(b'\t'),
        [b'"' | b'\r' | b'\n'] => None,
        [byte] => Some(*byte),
        _ => None,
    }
}
