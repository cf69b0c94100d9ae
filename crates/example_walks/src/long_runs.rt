//! The long runs of bytes that come in blocks.
ghost use Rattle.std.specs.Prelude.{◌≡◌, ◌++◌, ℕ, List, flat_map, nat_eq, IfOk, OnOk};
ghost use Rattle.slice_group_by.specs.Split.{split};
ghost use Rattle.slice_group_stream.specs.Streams.{kept_of};
ghost use Rattle.slice_group_stream.specs.Closing.{ClosedSoFar};
ghost use Rattle.example_walks.specs.LongRuns.{long, run};

use slice_group_stream::StreamGroups;
use slice_group_stream::laws::{groups_close, parts_close};
use std::alloc::{AllocError, Global};

/// Each run of at least `least` equal bytes, with its length. What is kept of a run is used when the next one begins.
pub fn long_runs(
    alloc: Global,
    blocks: &[&[u8]],
    least: usize,
) -> Result<Vec<(u8, usize)>, AllocError>
    ensures { IfOk result
        (λ v. v.items ≡ flat_map (λ r. long least (run r)) (split nat_eq (flat_map (λ block. block.now) blocks.now))) }
{
    groups_close::<u8, Option<(u8, usize)>, (u8, usize)>();
    let mut stream = StreamGroups::new();
    let mut found = Vec::new(alloc);
    let mut current: Option<(u8, usize)> = None;
    for block in blocks {
        add_block(&mut stream, block, least, &mut current, &mut found)?;
    }
    close(current, least, &mut found)?;
    Ok(found)
}

fn add_block(
    stream: &mut StreamGroups<u8>,
    block: &[u8],
    least: usize,
    current: &mut Option<(u8, usize)>,
    found: &mut Vec<(u8, usize)>,
) -> Result<(), AllocError>
    ensures { OnOk result ((came : List ℕ)
        → ClosedSoFar nat_eq run (long least) (kept_of stream.old) found.old.items current.old came
        → ClosedSoFar nat_eq run (long least) (kept_of stream.new) found.new.items current.new (came ++ block.now)) }
{
    let parts = stream.parts(block);
    parts_close::<_, Option<(u8, usize)>, (u8, usize)>(&parts);
    for (begins, part) in parts {
        if begins {
            close(*current, least, found)?;
            *current = Some((part[0], part.len()));
        } else if let Some(run) = current {
            run.1 = run.1.saturating_add(part.len());
        }
    }
    Ok(())
}

// Puts a run to the others if it is long.
fn close(
    current: Option<(u8, usize)>,
    least: usize,
    found: &mut Vec<(u8, usize)>,
) -> Result<(), AllocError>
    ensures { OnOk result (found.new.items ≡ found.old.items ++ long least current) }
{
    match current {
        Some(run) if run.1 >= least => found.push(run)?,
        _ => {}
    }
    Ok(())
}
