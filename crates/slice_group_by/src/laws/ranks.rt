//! The ranks of the places of a slice.
ghost use Rattle.std.specs.Prelude.{◌≡◌, nat_eq};
ghost use Rattle.slice_group_by.specs.Ranks.{ranks};

use crate::laws::calls_take_pieces;
use crate::loans::{Ended, resolve};
use sgb_linear_group::linear_group::LinearGroupMut;

fn ranked(slice: &mut [usize]) -> Ended<'_, usize>
    ensures name { result.name ≡ slice.entry.ghost_name }
    ensures value { result.value ≡ ranks nat_eq slice.old }
{
    let mut groups = LinearGroupMut::new(slice);
    calls_take_pieces(&groups);
    let mut rank = 0usize;
    while let Some(group) = groups.next() {
        group.fill(rank);
        groups.note_front(Ended::of(group));
        rank += 1;
    }
    groups.finish()
}

/// Writes the rank of each place over its element: how many unequal neighbouring pairs there are up to it, which is how many
/// groups of equal elements end before its own.
///
/// It walks the groups for writing, and knows what the slice ends as from what it takes note of. For n > 0 elements it
/// makes n - 1 comparisons, and writes each place once.
///
/// ```
/// let mut slice = [3, 3, 5, 3, 7, 7];
/// rank_groups(&mut slice); // slice is [0, 0, 1, 2, 3, 3]
/// ```
pub fn rank_groups(slice: &mut [usize])
    ensures { slice.new ≡ ranks nat_eq slice.old }
{
    resolve(slice, |part| ranked(part));
}
