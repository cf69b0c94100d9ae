//! The groups of rows that come in blocks.
ghost use Rattle.std.specs.Prelude.{◌≡◌, ◌++◌, List, [], None, OnOk};
ghost use Rattle.std.specs.Option.{option_to_list};
ghost use Rattle.slice_group_stream.specs.Split.{last, split};
ghost use Rattle.slice_group_stream.specs.Closing.{ClosedSoFar, open_group, take_part};
ghost use Rattle.slice_group_stream.specs.Streams.{across, begins_at};
ghost use Rattle.grouped_report.specs.Groups as Spec;
ghost use Rattle.grouped_report.specs.Groups.{longer, same_group, summary_if};

use crate::row::Row;
use crate::summary::Summary;
use slice_group_by::LinearGroupBy;
use slice_group_by::laws::one_split;
use slice_group_stream::Parts;
use slice_group_stream::laws::parts_close;
use std::alloc::{AllocError, Global};
use std::io;

/// The summary of the group that is open, that of the last row so far, and of those that were closed when another began.
#[derive(Drop)]
pub struct Groups {
    alloc: Global,
    pub current: Option<Summary>,
    pub closed: Vec<Summary>,
}

impl Groups {
    /// No row has come.
    pub fn new(alloc: Global) -> Groups
        ensures none { result.current ≡ None }
        ensures none_closed { result.closed.items ≡ [] }
    {
        Groups {
            alloc,
            current: None,
            closed: Vec::new(alloc),
        }
    }

    /// Takes rows more, and closes the groups that end. Some may be written before these are closed.
    pub fn add_rows(&mut self, rows: &[Row]) -> io::Result<()>
        ensures { OnOk result ((written : List Spec.Summary) (came : List Spec.Row)
            → ClosedSoFar same_group summary_if option_to_list (last came) (written ++ self.old.closed.items) self.old.current came
            → ClosedSoFar same_group summary_if option_to_list (last (came ++ rows.now)) (written ++ self.new.closed.items)
            self.new.current (came ++ rows.now)) }
    {
        let groups = LinearGroupBy::new(rows, |a: &Row, b: &Row| a.is_with(b));
        let parts = Parts::new(self.begins(rows), groups);
        parts_close::<_, Option<Summary>, Summary>(&parts);
        for (begins, part) in parts {
            self.add_part(begins, part)?;
        }
        Ok(())
    }

    // Takes a part of a group more.
    fn add_part(&mut self, begins: bool, part: &[Row]) -> io::Result<()>
        ensures { OnOk result ((written : List Spec.Summary) → (written ++ self.new.closed.items, self.new.current)
            ≡ take_part summary_if longer option_to_list (written ++ self.old.closed.items, self.old.current) (begins, part.now)) }
    {
        if begins {
            self.close()?;
            self.current = Summary::of(self.alloc, part)?;
        } else if let Some(current) = &mut self.current {
            current.add_rows(part)?;
        }
        Ok(())
    }

    // Whether a group begins with these rows.
    fn begins(&self, rows: &[Row]) -> bool
        ensures { (came : List Spec.Row) → self.now.current ≡ summary_if (open_group (split same_group came))
            → result ≡ begins_at same_group (across (last came) rows.now) }
    {
        one_split::<Row>();
        match (&self.current, rows.first()) {
            (Some(current), Some(row)) => !current.is_of(row),
            _ => true,
        }
    }

    /// Closes the group that is open, if there is one.
    pub fn close(&mut self) -> Result<(), AllocError>
        ensures closed { OnOk result (self.new.closed.items ≡ self.old.closed.items ++ option_to_list self.old.current) }
        ensures none { OnOk result (self.new.current ≡ None) }
    {
        if let Some(summary) = self.current.take() {
            self.closed.push(summary)?;
        }
        Ok(())
    }
}
