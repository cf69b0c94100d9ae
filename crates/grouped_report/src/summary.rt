//! The summary of a group.
ghost use Rattle.std.specs.Prelude.{◌≡◌, ◌+◌, ◌∷◌, [], map, IfOk, OnOk};
ghost use Rattle.grouped_report.specs.Groups.{add, group_cmp, plus, same_fields, summary_if, with_rows};
ghost use Rattle.grouped_report.specs.Sums as Sum;

use crate::row::{Row, copy_fields};
use std::alloc::Global;
use std::cmp::Ordering;
use std::io;
use std::marker::Model;

/// The fields that the rows of a group share, how many rows it has, and the sums of their amounts.
#[derive(Drop)]
pub struct Summary {
    group: Vec<Vec<u8>>,
    count: u64,
    sums: Vec<Option<i128>>,
}

impl Model for Summary {
    ghost use Rattle.std.specs.Prelude.{map};
    ghost use Rattle.grouped_report.specs.Groups.{Summary};

    ghost Value = { Summary };

    ghost view = { λ summary. record {
      group = map (λ field. field.items) summary.group.items;
      count = summary.count;
      sums = summary.sums.items;
    } };
}

impl Summary {
    /// The summary of a group, if there is a row. It fails where a sum is no number of 128 bits.
    pub fn of(alloc: Global, rows: &[Row]) -> io::Result<Option<Summary>>
        ensures { IfOk result (λ made. made ≡ summary_if rows.now) }
    {
        let Some((first, others)) = rows.split_first() else {
            return Ok(None);
        };
        let mut summary = Summary {
            group: copy_fields(alloc, first.group())?,
            count: 1,
            sums: Vec::from_slice(alloc, first.amounts())?,
        };
        summary.add_rows(others)?;
        Ok(Some(summary))
    }

    /// The fields that the rows share.
    pub fn group(&self) -> &[Vec<u8>]
        ensures { map (λ field. field.items) result.now ≡ self.now.group }
    {
        &self.group
    }

    /// How many rows there are.
    pub fn count(&self) -> u64
        ensures { result ≡ self.now.count }
    {
        self.count
    }

    /// The sums, and `None` where no row has an amount.
    pub fn sums(&self) -> &[Option<i128>]
        ensures { result.now ≡ self.now.sums }
    {
        &self.sums
    }

    /// Whether the row is of this group.
    pub fn is_of(&self, row: &Row) -> bool
        ensures { result ≡ same_fields self.now.group row.now.group }
    {
        self.group.as_slice() == row.group()
    }

    /// How the fields of its group stand to those of another, one after another, byte by byte.
    pub fn cmp_group(&self, other: &Summary) -> Ordering
        ensures { result ≡ group_cmp self.now.group other.now.group }
    {
        self.group.cmp(&other.group)
    }

    /// How they stand to those of a row.
    pub fn cmp_row(&self, row: &Row) -> Ordering
        ensures { result ≡ group_cmp self.now.group row.now.group }
    {
        self.group.as_slice().cmp(row.group())
    }

    /// Adds rows. It fails where a sum is no number of 128 bits.
    pub fn add_rows(&mut self, rows: &[Row]) -> io::Result<()>
        ensures { OnOk result (self.new ≡ with_rows self.old rows.now) }
    {
        for row in rows {
            self.add(row)?;
        }
        Ok(())
    }

    /// Adds a row. It fails where a sum is no number of 128 bits.
    pub fn add(&mut self, row: &Row) -> io::Result<()>
        ensures { OnOk result (self.new ≡ with_rows self.old (row.now ∷ [])) }
    {
        self.add_count(1)?;
        add_amounts(&mut self.sums, row.amounts())
    }

    /// Adds the rows of another summary of this group. It fails where a sum is no number of 128 bits.
    pub fn combine(&mut self, other: &Summary) -> io::Result<()>
        ensures { OnOk result (self.new ≡ Sum.combine self.old other.now) }
    {
        self.add_count(other.count)?;
        add_amounts(&mut self.sums, &other.sums)
    }

    // Counts rows more.
    fn add_count(&mut self, rows: u64) -> io::Result<()>
        ensures { OnOk result (self.new ≡ record { group = self.old.group; count = self.old.count + rows; sums = self.old.sums }) }
    {
        let Some(count) = self.count.checked_add(rows) else {
            return Err(io::Error::other("a group has too many rows"));
        };
        self.count = count;
        Ok(())
    }
}

// Adds amounts, column for column.
fn add_amounts(sums: &mut Vec<Option<i128>>, amounts: &[Option<i128>]) -> io::Result<()>
    ensures { OnOk result (sums.new.items ≡ add sums.old.items amounts.now) }
{
    for (i, amount) in amounts.iter().enumerate() {
        if i < sums.len() {
            sums[i] = added(sums[i], *amount)?;
        } else {
            sums.push(*amount)?;
        }
    }
    Ok(())
}

// The sum of two amounts, of those that there are.
fn added(sum: Option<i128>, amount: Option<i128>) -> io::Result<Option<i128>>
    ensures { IfOk result (λ both. both ≡ plus sum amount) }
{
    let (Some(x), Some(y)) = (sum, amount) else {
        return Ok(sum.or(amount));
    };
    let Some(both) = x.checked_add(y) else {
        return Err(io::Error::other("a sum is too large"));
    };
    Ok(Some(both))
}
