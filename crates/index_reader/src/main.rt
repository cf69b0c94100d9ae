//! Answers queries by an index, a table in any order: the rows of each key that is asked for.
//!
//! The index is read whole, and its rows are sorted. Of the queries a block is in memory. A query takes time in proportion to the
//! logarithm of the length of the index, and to what it finds.
#![tactic(auto)]

mod answers;
mod run;

use crate::run::answer_all;
use clap::{Arg, ArgAction, ArgMatches, Command};
use program_parts::app::{App, main_of};
use program_parts::failure::Failure;
use program_parts::input::open_two;
use program_parts::records::{Format, Source};
use program_parts::rows::{pass_on, row_writer};
use program_parts::table_options::{column_option, format_of, with_format};
use std::alloc::{AllocError, Global};
use std::io::BufWriter;
use std::process::ExitCode;

struct Program;

fn main(rt: HostRuntime) -> ExitCode {
    main_of::<Program>(&rt)
}

impl App for Program {
    const NAME: &'static str = "index_reader";

    const ABOUT: &'static str = "\
Writes the rows of a CSV table, the index, that have the keys of queries, in the order of the
queries: for each query all rows of its key, as they stand in the index. The index may come in any
order. A query is a record with the fields of a key and nothing else, and the queries have no names
of columns. Answers go out before more queries are waited for.

Example: index_reader --key customer orders.csv customers.csv

A COLUMN is a name in the first record of the index, or else a number, from 1.
Left out are records of the index with another number of fields than the first, and queries with
another number than the key.
Status: 0 all is answered; 1 a record was left out; 2 it failed.";

    fn arguments<'a>(alloc: Global, command: Command<'a>) -> Result<Command<'a>, AllocError> {
        let key = column_option(
            alloc,
            "key",
            "A column of the key; the first one if none is named",
        );
        let index = Arg::new(alloc, "INDEX")
            .required(true)
            .help("The index; a dash is standard input");
        let queries = Arg::new(alloc, "QUERIES")
            .default_value("-")
            .help("The queries");
        with_format(alloc, command)?
            .arg(key.action(ArgAction::Append))?
            .arg(index)?
            .arg(queries)
    }

    fn run<'a>(rt: &HostRuntime, matches: &ArgMatches<'a>) -> Result<bool, Failure<'a>> {
        let format = format_of(matches)?;
        let key = matches.get_strs("key").unwrap_or(&[]);
        let index = matches.get_str("INDEX").unwrap_or("-");
        let queries = matches.get_str("QUERIES").unwrap_or("-");
        let (index_input, queries_input) = open_two(rt, index, queries)?;
        let index = Source {
            program: Program::NAME,
            file: index,
            format,
            input: index_input,
        };
        let queries = Source {
            program: Program::NAME,
            file: queries,
            format: Format {
                has_headers: false,
                width: Some(key.len().max(1)),
                ..format
            },
            input: queries_input,
        };
        let mut out = row_writer(format.delimiter, rt.stdout());
        let mut complaints = BufWriter::new(rt.alloc(), rt.stderr())?;
        let done = answer_all(rt.alloc(), key, index, queries, &mut out, &mut complaints);
        if done.is_err() {
            let _ = pass_on(&mut out);
        }
        done
    }
}
