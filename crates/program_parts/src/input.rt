//! What a program reads: a file that is named, or standard input.
ghost use Rattle.std.specs.Io.{ReadsAtMost};

use crate::failure::{Failure, IoFailure};
use std::fs::File;
use std::io;
use std::io::{ErrorKind, Read, Stdin};

// Where the bytes of an input come from.
#[derive(Drop)]
enum Source {
    Stdin(Stdin),
    File(File),
}

/// A file, or standard input.
#[derive(Drop)]
pub struct Input {
    source: Source,
    // How many bytes it gave, and how many up to the last one that ends no line.
    given: u64,
    content: u64,
    is_over: bool,
}

/// An input that notes what it gives.
pub trait Noted {
    /// Whether it gave line ends alone behind its first bytes, as many as are given: more must be waited for.
    fn is_drained(&self, used: u64) -> bool;

    /// Whether its end was read, and the last byte ends a line.
    fn ended_with_line(&self) -> bool;
}

impl Noted for Input {
    fn is_drained(&self, used: u64) -> bool {
        self.content <= used
    }

    fn ended_with_line(&self) -> bool {
        self.is_over && self.content < self.given
    }
}

impl Input {
    // The input from there, of which nothing is read.
    fn new(source: Source) -> Input {
        Input {
            source,
            given: 0,
            content: 0,
            is_over: false,
        }
    }

    /// The file of this name, or standard input by a dash.
    pub fn open<'a>(rt: &HostRuntime, file: &'a str) -> Result<Input, Failure<'a>> {
        if file == "-" {
            return Ok(Input::new(Source::Stdin(rt.stdin())));
        }
        match File::open(rt, file) {
            Ok(opened) => Ok(Input::new(Source::File(opened))),
            Err(error) => Err(Failure::Io(IoFailure::of_read(file, error))),
        }
    }

    // The next bytes of the source.
    fn read_source(&mut self, buf: &mut [u8]) -> io::Result<usize>
        ensures { ReadsAtMost result buf.new }
    {
        match &mut self.source {
            Source::Stdin(stdin) => stdin.read(buf),
            Source::File(file) => file.read(buf),
        }
    }

    // Notes these bytes, which were read.
    fn note(&mut self, bytes: &[u8]) {
        if bytes.is_empty() {
            self.is_over = true;
        }
        let ends_line = |byte: &u8| *byte == b'\n' || *byte == b'\r';
        let ends = bytes
            .iter()
            .rev()
            .take_while(|byte| ends_line(byte))
            .count();
        let content = bytes.len().saturating_sub(ends);
        if content > 0 {
            self.content = self.given.saturating_add(content as u64);
        }
        self.given = self.given.saturating_add(bytes.len() as u64);
    }
}

/// Opens two files, of which one at most may be standard input.
pub fn open_two<'a>(
    rt: &HostRuntime,
    first: &'a str,
    second: &'a str,
) -> Result<(Input, Input), Failure<'a>> {
    if first == "-" && second == "-" {
        return Err(Failure::Usage("both files cannot be standard input"));
    }
    Ok((Input::open(rt, first)?, Input::open(rt, second)?))
}

impl Read for Input {
    // A read that is interrupted is made again.
    fn read(&mut self, buf: &mut [u8]) -> io::Result<usize> {
        for _ in 0..u64::MAX {
            match self.read_source(buf) {
                Ok(len) => {
                    self.note(buf.get(..len).unwrap_or(&[]));
                    return Ok(len);
                }
                Err(error) => {
                    if error.kind() != ErrorKind::Interrupted {
                        return Err(error);
                    }
                }
            }
        }
        Err(io::Error::from(ErrorKind::Interrupted))
    }
}
