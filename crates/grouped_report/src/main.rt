//! Summarizes the groups of rows of a table: how many rows each has, and the sums of its amounts.
//!
//! Rows of a group may stand anywhere: the program keeps a summary of each group, and rows of new groups until there are as many as
//! summaries. Or groups are runs of neighbouring rows, and it keeps the summary of one.
#![tactic(auto)]

mod amount;
mod columns;
mod groups;
mod output;
mod reading;
mod row;
mod run;
mod summary;
mod sums;

use crate::run::{Question, write_report};
use clap::{Arg, ArgAction, ArgMatches, Command};
use program_parts::app::{App, main_of};
use program_parts::failure::Failure;
use program_parts::input::Input;
use program_parts::records::Source;
use program_parts::rows::{pass_on, row_writer};
use program_parts::table_options::{column_option, format_of, with_format};
use std::alloc::{AllocError, Global};
use std::io::BufWriter;
use std::process::ExitCode;

struct Program;

fn main(rt: HostRuntime) -> ExitCode {
    main_of::<Program>(&rt)
}

impl App for Program {
    const NAME: &'static str = "grouped_report";

    const ABOUT: &'static str = "\
Writes a row for each group of rows of a CSV table: the fields that they share, how many rows there
are, and the sums of their amounts. Rows may come in any order, and groups go out in ascending order
of their fields, byte by byte. An amount is a decimal number such as -12.50; an empty field is none.

Example: grouped_report --by town --by year --count --sum price sales.csv

A COLUMN is a name in the first record, or else a number, from 1.
Left out are records with another amount, or another number of fields than the first.
Status: 0 all is reported; 1 a record was left out; 2 it failed.";

    fn arguments<'a>(alloc: Global, command: Command<'a>) -> Result<Command<'a>, AllocError> {
        let by = column_option(
            alloc,
            "by",
            "A column that the rows of a group share; the first if none is named",
        );
        let count = Arg::new(alloc, "count")
            .long("count")
            .action(ArgAction::SetTrue)
            .help("How many rows a group has, as where no column is summed");
        let sum = column_option(alloc, "sum", "A column that is summed");
        let runs = Arg::new(alloc, "runs")
            .long("runs")
            .action(ArgAction::SetTrue)
            .help("A row for each run of neighbouring rows, as soon as it ends");
        let file = Arg::new(alloc, "FILE")
            .default_value("-")
            .help("The table; a dash is standard input");
        with_format(alloc, command)?
            .arg(by.action(ArgAction::Append))?
            .arg(count)?
            .arg(sum.action(ArgAction::Append))?
            .arg(runs)?
            .arg(file)
    }

    fn run<'a>(rt: &HostRuntime, matches: &ArgMatches<'a>) -> Result<bool, Failure<'a>> {
        let format = format_of(matches)?;
        let file = matches.get_str("FILE").unwrap_or("-");
        let source = Source {
            program: Self::NAME,
            file,
            format,
            input: Input::open(rt, file)?,
        };
        let sum = matches.get_strs("sum").unwrap_or(&[]);
        let question = Question {
            by: matches.get_strs("by").unwrap_or(&[]),
            sum,
            counts: matches.get_flag("count") || sum.is_empty(),
            runs: matches.get_flag("runs"),
        };
        let mut out = row_writer(format.delimiter, rt.stdout());
        let mut complaints = BufWriter::new(rt.alloc(), rt.stderr())?;
        let done = write_report(rt.alloc(), source, question, &mut out, &mut complaints);
        if done.is_err() {
            let _ = pass_on(&mut out);
        }
        done
    }
}
