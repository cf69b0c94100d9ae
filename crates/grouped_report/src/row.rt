//! Rows, as records say them.
ghost use Rattle.std.specs.Prelude.{◌≡◌, [], ◌∷◌, ◌++◌, map, IfOk, OnOk};

use std::alloc::{AllocError, Global};
use std::cmp::Ordering;
use std::marker::Model;

/// The fields of a row that its group shares, and its amounts. A row that is cleared keeps the memory of its fields.
#[derive(Drop)]
pub struct Row {
    alloc: Global,
    group: Vec<Vec<u8>>,
    amounts: Vec<Option<i128>>,
    spare: Vec<Vec<u8>>,
}

impl Model for Row {
    ghost use Rattle.std.specs.Prelude.{map};
    ghost use Rattle.grouped_report.specs.Groups.{Row};

    ghost Value = { Row };

    ghost view = { λ row. record { group = map (λ field. field.items) row.group.items; amounts = row.amounts.items } };
}

impl Row {
    ghost use Rattle.std.specs.Ordering.{nat_cmp};
    ghost use Rattle.std.specs.Cmp.Lexicographic.{slice_cmp};
    ghost use Rattle.grouped_report.specs.Groups.{same_group, group_cmp};

    /// No field and no amount.
    pub fn new(alloc: Global) -> Row
        ensures group { result.group ≡ [] }
        ensures amounts { result.amounts ≡ [] }
    {
        Row {
            alloc,
            group: Vec::new(alloc),
            amounts: Vec::new(alloc),
            spare: Vec::new(alloc),
        }
    }

    /// The fields that its group shares.
    pub fn group(&self) -> &[Vec<u8>]
        ensures { map (λ field. field.items) result.now ≡ self.now.group }
    {
        &self.group
    }

    /// The amounts, and `None` where a field has none.
    pub fn amounts(&self) -> &[Option<i128>]
        ensures { result.now ≡ self.now.amounts }
    {
        &self.amounts
    }

    /// Whether both are of one group.
    pub fn is_with(&self, other: &Row) -> bool
        ensures { result ≡ same_group self.now other.now }
    {
        self.group == other.group
    }

    /// How the groups' fields stand to one another, one after another, byte by byte.
    pub fn cmp_group(&self, other: &Row) -> Ordering
        ensures { result ≡ group_cmp self.now.group other.now.group }
    {
        self.group.cmp(&other.group)
    }

    /// Lets the fields and the amounts go, but keeps their memory.
    pub fn clear(&mut self) -> Result<(), AllocError>
        ensures group { OnOk result (self.new.group ≡ []) }
        ensures amounts { OnOk result (self.new.amounts ≡ []) }
    {
        self.amounts.clear();
        self.spare.append(&mut self.group)
    }

    /// Puts a field behind the others. It allocates only where a cleared row had fewer fields, or shorter ones.
    pub fn push_field(&mut self, bytes: &[u8]) -> Result<(), AllocError>
        ensures group { OnOk result (self.new.group ≡ self.old.group ++ bytes.now ∷ []) }
        ensures amounts { self.new.amounts ≡ self.old.amounts }
    {
        let mut field = self.spare.pop().unwrap_or(Vec::new(self.alloc));
        field.clear();
        field.extend_from_slice(bytes)?;
        self.group.push(field)?;
        Ok(())
    }

    /// Puts an amount behind the others, or `None` for a field that has none.
    pub fn push_amount(&mut self, amount: Option<i128>) -> Result<(), AllocError>
        ensures group { self.new.group ≡ self.old.group }
        ensures amounts { OnOk result (self.new.amounts ≡ self.old.amounts ++ amount ∷ []) }
    {
        self.amounts.push(amount)?;
        Ok(())
    }

    /// A copy to keep.
    pub fn copy(&self) -> Result<Row, AllocError>
        ensures { IfOk result (λ copy. copy ≡ self.now) }
    {
        Ok(Row {
            alloc: self.alloc,
            group: copy_fields(self.alloc, &self.group)?,
            amounts: Vec::from_slice(self.alloc, &self.amounts)?,
            spare: Vec::new(self.alloc),
        })
    }
}

/// A copy of these fields.
pub fn copy_fields(alloc: Global, fields: &[Vec<u8>]) -> Result<Vec<Vec<u8>>, AllocError>
    ensures { IfOk result (λ copy. map (λ field. field.items) copy.items ≡ map (λ field. field.items) fields.now) }
{
    let mut copy = Vec::with_capacity(alloc, fields.len())?;
    for field in fields {
        copy.push(Vec::from_slice(alloc, field)?)?;
    }
    Ok(copy)
}
