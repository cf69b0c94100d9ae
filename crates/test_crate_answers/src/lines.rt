//! Lines, their types, and how many there are of each.
use crate::fields::{LineError, next_field};
use crate::groups::{Family, Groups};
use crate::search;
use std::alloc::Global;
use std::fmt;

/// What the calls of a line are of.
#[derive(Clone, Copy, PartialEq, Eq)]
pub enum Kind {
    Groups(Family),
    Search,
}

const NAMES: [(&str, Kind); 5] = [
    ("linear", Kind::Groups(Family::Linear)),
    ("binary", Kind::Groups(Family::Binary)),
    ("exponential", Kind::Groups(Family::Exponential)),
    ("text", Kind::Groups(Family::Text)),
    ("search", Kind::Search),
];

fn parse_kind(field: &str) -> Result<Kind, LineError> {
    let named = NAMES.iter().find(|(name, _)| *name == field);
    named.map(|(_, kind)| *kind).ok_or(LineError::Field("type"))
}

/// The type of a line, and whether its calls answer here as it says.
pub fn replay(alloc: Global, line: &str) -> Result<(Kind, bool), LineError> {
    let mut fields = line.split(' ');
    let kind = parse_kind(next_field(&mut fields, "type")?)?;
    let same = match kind {
        Kind::Groups(family) => Groups::parse(alloc, &mut fields)?.are_same(alloc, family)?,
        Kind::Search => search::is_same(&mut fields)?,
    };
    match fields.next() {
        None => Ok((kind, same)),
        Some(_) => Err(LineError::Field("end")),
    }
}

/// How many lines there are of a type, and how many of them are the same.
#[derive(Clone, Copy)]
pub struct Tally {
    name: &'static str,
    kind: Kind,
    lines: u64,
    same: u64,
}

impl Tally {
    /// One for each type, with no line yet.
    pub fn all() -> [Tally; 5] {
        NAMES.map(|(name, kind)| Tally {
            name,
            kind,
            lines: 0,
            same: 0,
        })
    }

    /// A line more, of whatever type.
    pub fn note(&mut self, kind: Kind, same: bool) {
        if self.kind == kind {
            self.lines = self.lines.wrapping_add(1);
            self.same = self.same.wrapping_add(u64::from(same));
        }
    }
}

impl fmt::Display for Tally {
    fn fmt<W: fmt::Write>(&self, f: &mut fmt::Formatter<W>) -> fmt::Result {
        write!(
            f,
            "{}: {} lines, {} the same",
            self.name, self.lines, self.same
        )
    }
}
