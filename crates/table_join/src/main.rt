//! Joins two tables by their keys, where a key may stand several times.
//!
//! The tables are read whole, and their rows are sorted. Or they ascend as they stand, are read in blocks, and in memory stand a block of
//! each table and the rows of one key.
#![tactic(auto)]

mod header;
mod join;
mod run;
mod waiting;

use crate::join::Kind;
use crate::run::{Question, join_tables};
use clap::{Arg, ArgAction, ArgMatches, Command};
use program_parts::app::{App, main_of};
use program_parts::failure::Failure;
use program_parts::input::open_two;
use program_parts::records::Source;
use program_parts::rows::{pass_on, row_writer};
use program_parts::table_options::{column_option, format_of, with_format};
use std::alloc::{AllocError, Global};
use std::io::BufWriter;
use std::process::ExitCode;

const KINDS: [&str; 6] = ["inner", "left", "right", "full", "semi", "anti"];

struct Program;

fn main(rt: HostRuntime) -> ExitCode {
    main_of::<Program>(&rt)
}

impl App for Program {
    const NAME: &'static str = "table_join";

    const ABOUT: &'static str = "\
Writes the join of two CSV tables. A row of it has the fields of the key, the other fields of the
left row, and those of the right one; where a row has no partner, the other side's are empty. Rows
may come in any order, and go out in ascending order of their keys, byte by byte. A name that stands
in both tables gets _2 behind it.

Example: table_join --kind left --left-key customer --right-key id orders.csv customers.csv

A COLUMN is a name in the first record, or else a number, from 1.
Left out are records of another number of fields than the first.
Status: 0 all is joined; 1 a record was left out; 2 it failed.";

    fn arguments<'a>(alloc: Global, command: Command<'a>) -> Result<Command<'a>, AllocError> {
        let kind = Arg::new(alloc, "kind")
            .short('k')
            .long("kind")
            .value_name("KIND")
            .default_value("inner")
            .value_parser(KINDS.as_slice())
            .help(
                "inner: each left row with each right row of its key; left, right, full: these, and the \
                rows of that side, or of both, that have no partner; semi, anti: the left rows that \
                have a partner, or none",
            );
        let left_key = column_option(
            alloc,
            "left-key",
            "A column of the key of the left table; the first one if none is named",
        );
        let right_key = column_option(alloc, "right-key", "And of the right table");
        let sorted = Arg::new(alloc, "sorted")
            .long("sorted")
            .action(ArgAction::SetTrue)
            .help("The keys ascend as they stand: the tables are not kept in memory");
        let left = Arg::new(alloc, "LEFT")
            .required(true)
            .help("The left table; a dash is standard input");
        let right = Arg::new(alloc, "RIGHT")
            .required(true)
            .help("The right table");
        with_format(alloc, command)?
            .arg(kind)?
            .arg(left_key.action(ArgAction::Append))?
            .arg(right_key.action(ArgAction::Append))?
            .arg(sorted)?
            .arg(left)?
            .arg(right)
    }

    fn run<'a>(rt: &HostRuntime, matches: &ArgMatches<'a>) -> Result<bool, Failure<'a>> {
        let format = format_of(matches)?;
        let question = Question {
            kind: kind_of(matches),
            left_key: matches.get_strs("left-key").unwrap_or(&[]),
            right_key: matches.get_strs("right-key").unwrap_or(&[]),
            are_sorted: matches.get_flag("sorted"),
        };
        if question.left_key.len().max(1) != question.right_key.len().max(1) {
            return Err(Failure::Usage("as many --left-key as --right-key are wanted"));
        }
        let left = matches.get_str("LEFT").unwrap_or("-");
        let right = matches.get_str("RIGHT").unwrap_or("-");
        let (left_input, right_input) = open_two(rt, left, right)?;
        let left = Source {
            program: Program::NAME,
            file: left,
            format,
            input: left_input,
        };
        let right = Source {
            program: Program::NAME,
            file: right,
            format,
            input: right_input,
        };
        let mut out = row_writer(format.delimiter, rt.stdout());
        let mut complaints = BufWriter::new(rt.alloc(), rt.stderr())?;
        let done = join_tables(rt.alloc(), question, left, right, &mut out, &mut complaints);
        if done.is_err() {
            let _ = pass_on(&mut out);
        }
        done
    }
}

// The kind that is asked for. The parser lets no other word through.
fn kind_of(matches: &ArgMatches<'_>) -> Kind {
    match matches.get_str("kind") {
        Some("left") => Kind::Left,
        Some("right") => Kind::Right,
        Some("full") => Kind::Full,
        Some("semi") => Kind::Semi,
        Some("anti") => Kind::Anti,
        _ => Kind::Inner,
    }
}
