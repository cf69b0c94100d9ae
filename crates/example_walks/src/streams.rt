//! Groups of streams that come in blocks, with the theorem that the blocks do not matter: a run-length code.
ghost use Rattle.std.specs.Prelude.{◌≡◌, ◌≢◌, List, [], ◌++◌, flat_map, IfOk, OnOk};
ghost use Rattle.slice_group_by.specs.Split.{last, split};
ghost use Rattle.slice_group_stream.specs.Streams.{add_values, kept_of, of_nonempty};
ghost use Rattle.example_walks.specs.Runs.{longer_run, run_of};

use slice_group_stream::StreamGroups;
use slice_group_stream::laws::{last_changes, parts_fold, parts_join};
use std::alloc::{AllocError, Global};

/// The runs of elements that come in blocks, each as its element and its length: those of all elements.
pub fn runs_of_blocks<T: Copy + PartialEq>(
    alloc: Global,
    blocks: &[&[T]],
) -> Result<Vec<(T, usize)>, AllocError>
    ensures { IfOk result (λ runs. runs.items
        ≡ flat_map (of_nonempty run_of) (split T.eq (flat_map (λ block. block.now) blocks.now))) }
{
    let mut stream = StreamGroups::new();
    let mut runs = Vec::new(alloc);
    for block in blocks {
        add_block(&mut stream, block, &mut runs)?;
    }
    Ok(runs)
}

// Adds what a block has of the runs.
fn add_block<T: Copy + PartialEq>(
    stream: &mut StreamGroups<T>,
    block: &[T],
    runs: &mut Vec<(T, usize)>,
) -> Result<(), AllocError>
    ensures { OnOk result ((came : List T) → kept_of stream.old ≡ last came
        → runs.old.items ≡ flat_map (of_nonempty run_of) (split T.eq came)
        → (kept_of stream.new ≡ last (came ++ block.now))
        × (runs.new.items ≡ flat_map (of_nonempty run_of) (split T.eq (came ++ block.now)))) }
{
    let parts = stream.parts(block);
    parts_join(&parts);
    parts_fold::<_, (T, usize)>(&parts);
    for (begins, part) in parts {
        add_run(runs, begins, part)?;
    }
    Ok(())
}

// Adds a part: a run more, or more of the last.
fn add_run<T: Copy>(runs: &mut Vec<(T, usize)>, begins: bool, part: &[T]) -> Result<(), AllocError>
    requires { part.now ≢ [] }
    ensures { OnOk result
        (runs.new.items ≡ add_values (of_nonempty run_of) longer_run runs.old.items (begins, part.now)) }
{
    last_changes::<(T, usize)>();
    if begins {
        runs.push((part[0], part.len()))?;
    } else if let Some(run) = runs.last_mut() {
        run.1 = run.1.saturating_add(part.len());
    }
    Ok(())
}
