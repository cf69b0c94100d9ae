//! Totals of rows that come in blocks, by a key that is kept, and not the rows.
ghost use Rattle.std.specs.Prelude.{◌≡◌, ◌≢◌, ◌+◌, ◌-◌, ◌^◌, List, [], ◌++◌, ℕ, flat_map, map, min, option_map, sum_by};
ghost use Rattle.std.specs.Prelude.{IfOk, OnOk};
ghost use Rattle.std.specs.Ordering.{nat_cmp};
ghost use Rattle.slice_group_by.specs.Search.{NeverDescends};
ghost use Rattle.slice_group_by.specs.Split.{last, split};
ghost use Rattle.slice_group_stream.specs.Streams.{add_part, kept_of};
ghost use Rattle.example_walks.specs.Totals.{amount, key, larger_total, same_key, total_of, totals};

use slice_group_by::laws::pieces_by_key;
use slice_group_stream::StreamGroups;
use slice_group_stream::laws::{last_changes, parts_begin_by_keys, parts_fold};
use std::alloc::{AllocError, Global};

/// A key and an amount.
pub type Row = (u32, u32);

/// A key and a sum of amounts.
pub type Total = (u32, u64);

/// Each key of rows that come in blocks, with the sum of all amounts that have it. The rows ascend by their keys.
pub fn totals_of_blocks(alloc: Global, blocks: &[&[Row]]) -> Result<Vec<Total>, AllocError>
    requires { NeverDescends nat_cmp (map key (flat_map (λ block. block.now) blocks.now)) }
    ensures { IfOk result (λ found. found.items ≡ totals (flat_map (λ block. block.now) blocks.now)) }
{
    pieces_by_key::<Row, u32>();
    let mut stream = StreamGroups::new();
    let mut found = Vec::new(alloc);
    for block in blocks {
        add_rows(&mut stream, block, &mut found)?;
    }
    Ok(found)
}

// Adds the rows of a block.
fn add_rows(
    stream: &mut StreamGroups<u32>,
    block: &[Row],
    found: &mut Vec<Total>,
) -> Result<(), AllocError>
    ensures { OnOk result ((came : List (ℕ × ℕ)) → kept_of stream.old ≡ option_map key (last came)
        → found.old.items ≡ map total_of (split same_key came)
        → (kept_of stream.new ≡ option_map key (last (came ++ block.now)))
        × (found.new.items ≡ map total_of (split same_key (came ++ block.now)))) }
{
    parts_begin_by_keys::<Row, u32>();
    let parts = stream.parts_by_key(block, |row: &Row| row.0);
    parts_fold::<_, Total>(&parts);
    for (begins, part) in parts {
        add_total(found, begins, part)?;
    }
    Ok(())
}

// Adds rows of one key: a total more, or more of the last.
fn add_total(found: &mut Vec<Total>, begins: bool, part: &[Row]) -> Result<(), AllocError>
    requires { part.now ≢ [] }
    ensures { OnOk result (found.new.items ≡ add_part total_of larger_total found.old.items (begins, part.now)) }
{
    last_changes::<Total>();
    if begins {
        found.push((part[0].0, sum_from(0, part)))?;
    } else if let Some(total) = found.last_mut() {
        total.1 = sum_from(total.1, part);
    }
    Ok(())
}

// The sum with the amounts of rows more, at most the greatest number of 64 bits.
fn sum_from(start: u64, part: &[Row]) -> u64
    ensures { result ≡ min (start + sum_by amount part.now) (2 ^ 64 - 1) }
{
    let mut sum = start;
    for row in part {
        sum = sum.saturating_add(u64::from(row.1));
    }
    sum
}
